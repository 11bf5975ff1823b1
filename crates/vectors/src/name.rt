// The commands that look up a name by its code and a code by its name, in each of the four lists.
use building_record::BuildingKind;
use packet::{Direction, Name};
use pieces::code;
use std::io;
use std::io::Write;
use vectors_text::commands::List;
use vectors_text::text::Written;
use vectors_text::words::BytesWord;
use vectors_text::{parse, text};
use wire::part_of;

// The word that is the code or the name, and room for a name that is looked up.
const LOOKED_UP: usize = 2;

const ROOM: usize = 64;

// Writes the name of a code.
pub fn of_code(list: List, case: &[u8], out: &mut Written) -> io::Result<()> {
    let name = name(list, parse::number(case, LOOKED_UP));
    if name.len == 0 {
        return write!(out, "not listed");
    }
    let bytes = name.bytes;
    write!(out, "ok name={}", BytesWord(part_of(&bytes, 0, name.len)))
}

fn name(list: List, code: u16) -> Name {
    match list {
        List::Method => views::method_name(code),
        List::Request => views::header_name(Direction::ToContainer, code),
        List::Response => views::header_name(Direction::ToServer, code),
        List::Attribute => views::attribute_name(code),
    }
}

// Writes the code of a name.
pub fn code_of(list: List, case: &[u8], out: &mut Written) -> io::Result<()> {
    let mut room = [0u8; ROOM];
    let name = parse::bytes(text::word(case, LOOKED_UP), &mut room);
    match found(list, name) {
        Some(n) => write!(out, "ok code={n}"),
        None => write!(out, "not listed"),
    }
}

fn found(list: List, name: &[u8]) -> Option<u16> {
    match list {
        List::Method => code::of_method(name),
        List::Request => code::of_header(BuildingKind::Forward, name),
        List::Response => code::of_header(BuildingKind::SendHeaders, name),
        List::Attribute => code::of_attribute(name),
    }
}
