// The headers and the attributes of a packet that was read, each in a line of its own: the code, the name and the value.
use crate::field;
use crate::field::Field;
use packet::{AttributeKind, Direction, HeaderName, Place};
use std::io;

// A packet that was read: its bytes, and the table of the places of its headers and attributes.
#[derive(Clone, Copy)]
pub struct ReadPacket<'a> {
    pub bytes: &'a [u8],
    pub table: &'a [u16],
}

// The places of a header's or an attribute's name and of its value.
#[derive(Clone, Copy)]
struct Entry {
    name: Place,
    value: Place,
}

impl ReadPacket<'_> {
    // Prints the headers.
    pub fn headers(self, rt: &impl Print, direction: Direction, count: u16) -> io::Result<()> {
        for i in 0..count {
            header(rt, direction, self.bytes, self.entry(u32::from(i)))?;
        }
        Ok(())
    }

    // Prints the attributes, whose places follow those of so many headers.
    pub fn attributes(self, rt: &impl Print, headers: u16, count: u16) -> io::Result<()> {
        for i in 0..count {
            let number = u32::from(headers) + u32::from(i);
            attribute(rt, self.bytes, self.entry(number))?;
        }
        Ok(())
    }

    // The places of an entry, counted from the first header on.
    fn entry(self, number: u32) -> Entry {
        let at = 2 * number as usize;
        Entry {
            name: views::place_at(self.table, at),
            value: views::place_at(self.table, at + 1),
        }
    }
}

fn header(rt: &impl Print, direction: Direction, bytes: &[u8], at: Entry) -> io::Result<()> {
    field::label(rt, Field::Header)?;
    header_name(rt, direction, bytes, at.name)?;
    print!(rt; ": ")?;
    field::text(rt, bytes, at.value)
}

// Prints a header's name, behind its code where it has one.
fn header_name(
    rt: &impl Print,
    direction: Direction,
    bytes: &[u8],
    place: Place,
) -> io::Result<()> {
    match views::name_at(bytes, place) {
        HeaderName::Code(code) => {
            print!(rt; "{code:04x}  ")?;
            field::name(rt, views::header_name(direction, code))
        }
        HeaderName::Spelled => {
            print!(rt; "      ")?;
            rt.write_all(views::text_at(bytes, place))
        }
    }
}

fn attribute(rt: &impl Print, bytes: &[u8], at: Entry) -> io::Result<()> {
    let code = views::attribute_code_at(bytes, at.name);
    let kind = views::attribute_kind_at(bytes, at.name);
    field::label(rt, Field::Attribute)?;
    print!(rt; "{code:02x}    ")?;
    attribute_name(rt, kind, code, bytes, at.name)?;
    print!(rt; ": ")?;
    attribute_value(rt, kind, bytes, at.value)
}

// Prints an attribute's name: its own where it brings one with it, else the one that is listed for its code.
fn attribute_name(
    rt: &impl Print,
    kind: AttributeKind,
    code: u16,
    bytes: &[u8],
    place: Place,
) -> io::Result<()> {
    match kind {
        AttributeKind::Pair => rt.write_all(views::attribute_name_at(bytes, place)),
        _ => field::name(rt, views::attribute_name(code)),
    }
}

// Prints an attribute's value, an integer or a string.
fn attribute_value(
    rt: &impl Print,
    kind: AttributeKind,
    bytes: &[u8],
    place: Place,
) -> io::Result<()> {
    match kind {
        AttributeKind::Integer => rt.print(views::integer_at(bytes, place)),
        _ => field::text(rt, bytes, place),
    }
}
