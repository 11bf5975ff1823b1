// What the library answers to a case of a command.
use crate::{check, name, read};
use packet::Direction;
use std::io;
use vectors_building::{piece, send};
use vectors_text::commands::Command;
use vectors_text::text::Written;

// Writes the library's answer to a case of a command.
pub fn answer(command: Command, case: &[u8], out: &mut Written) -> io::Result<()> {
    match command {
        Command::ReadAtContainer => read::answer(Direction::ToContainer, case, out),
        Command::ReadAtServer => read::answer(Direction::ToServer, case, out),
        Command::Send(packet) => send::answer(packet, case, out),
        Command::Build(piece) => piece::answer(piece, case, out),
        Command::NameOf(list) => name::of_code(list, case, out),
        Command::CodeOf(list) => name::code_of(list, case, out),
        Command::Check => check::answer(case, out),
    }
}
