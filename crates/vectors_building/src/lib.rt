// The library's answers to the cases of building: packets that one call sends, and those that are built in pieces and closed. The building
// half of the program `vectors`.
#![tactic(auto)]

pub mod piece;
mod record;
pub mod send;

use std::io;
use std::io::Write;
use vectors_text::commands::BYTES;
use vectors_text::parse;
use vectors_text::text::Written;
use vectors_text::words::BytesWord;
use wire::refusal::Refusal;

// Writes a refusal. It is to leave all lent bytes as they were, which the case says.
fn refused(refusal: Refusal, lent: &[u8], buffer: &[u8], out: &mut Written) -> io::Result<()> {
    let mut room = [0u8; BYTES];
    let before: &[u8] = parse::bytes(lent, &mut room);
    write!(out, "refused {}", refusal.number())?;
    if before == buffer {
        return Ok(());
    }
    write!(out, ", changed to {} -", BytesWord(buffer))
}
