// A field of a packet that was read, each in a line of its own.
use packet::{Name, Place};
use std::{fmt, io};
use wire::part_of;

#[derive(Clone, Copy)]
pub enum Field {
    Method,
    Protocol,
    ReqUri,
    RemoteAddr,
    RemoteHost,
    ServerName,
    ServerPort,
    IsSsl,
    Declared,
    Status,
    Message,
    Header,
    Attribute,
}

// What a field is called.
impl fmt::Display for Field {
    fn fmt<W: fmt::Write>(&self, f: &mut fmt::Formatter<W>) -> fmt::Result {
        f.pad(match self {
            Field::Method => "method",
            Field::Protocol => "protocol",
            Field::ReqUri => "req_uri",
            Field::RemoteAddr => "remote_addr",
            Field::RemoteHost => "remote_host",
            Field::ServerName => "server_name",
            Field::ServerPort => "server_port",
            Field::IsSsl => "is_ssl",
            Field::Declared => "declared",
            Field::Status => "status",
            Field::Message => "message",
            Field::Header => "header",
            Field::Attribute => "attribute",
        })
    }
}

// Begins a line, up to the field's value.
pub fn label(rt: &impl Print, field: Field) -> io::Result<()> {
    print!(rt; "\n      {field:<13}")
}

// Prints a listed name.
pub fn name(rt: &impl Print, found: Name) -> io::Result<()> {
    let bytes = found.bytes;
    rt.write_all(part_of(&bytes, 0, found.len))
}

// Prints the string at a place. Its bytes need not be UTF-8, so they are written as they are.
pub fn text(rt: &impl Print, bytes: &[u8], place: Place) -> io::Result<()> {
    if views::is_null_at(bytes, place) {
        print!(rt; "null")
    } else {
        rt.write_all(views::text_at(bytes, place))
    }
}

// Prints a field that is a string, and one that is a number.
pub fn string(rt: &impl Print, field: Field, bytes: &[u8], place: Place) -> io::Result<()> {
    label(rt, field)?;
    text(rt, bytes, place)
}

pub fn number(rt: &impl Print, field: Field, n: impl fmt::Display + Drop) -> io::Result<()> {
    label(rt, field)?;
    rt.print(n)
}
