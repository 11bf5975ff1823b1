// What an end read of a packet, shown by the views.
use crate::entry::ReadPacket;
use crate::field;
use crate::field::Field;
use packet::{Direction, Forward, Packet, Part, SendHeaders};
use std::io;

// Prints a packet: its kind and its fields.
pub fn show(rt: &impl Print, packet: Packet, bytes: &[u8], table: &[u16]) -> io::Result<()> {
    let read = ReadPacket { bytes, table };
    match packet {
        Packet::CPing => print!(rt; "CPing")?,
        Packet::CPong => print!(rt; "CPong")?,
        Packet::Forward(f) => forward(rt, f, read)?,
        Packet::Body(part) => content(rt, "body packet", bytes, part)?,
        Packet::GetBody(asked) => print!(rt; "Get Body Chunk, asks for {asked}")?,
        Packet::SendHeaders(h) => send_headers(rt, h, read)?,
        Packet::BodyChunk(part) => content(rt, "Send Body Chunk", bytes, part)?,
        Packet::End(reuse) => print!(rt; "End, reuse {}", u8::from(reuse))?,
    }
    println!(rt)
}

// Prints a body or a chunk with its text.
fn content(rt: &impl Print, kind: &str, bytes: &[u8], part: Part) -> io::Result<()> {
    print!(rt; "{kind}, \"")?;
    rt.write_all(views::bytes_of(bytes, part))?;
    print!(rt; "\"")
}

// Prints a Forward, a field a line.
fn forward(rt: &impl Print, f: Forward, read: ReadPacket<'_>) -> io::Result<()> {
    print!(rt; "Forward")?;
    fixed_fields(rt, f, read.bytes)?;
    read.headers(rt, Direction::ToContainer, f.headers)?;
    read.attributes(rt, f.headers, f.attributes)?;
    field::number(rt, Field::Declared, f.declared.0)
}

fn fixed_fields(rt: &impl Print, f: Forward, bytes: &[u8]) -> io::Result<()> {
    field::label(rt, Field::Method)?;
    field::name(rt, views::method_name(f.method))?;
    field::string(rt, Field::Protocol, bytes, f.protocol)?;
    field::string(rt, Field::ReqUri, bytes, f.req_uri)?;
    field::string(rt, Field::RemoteAddr, bytes, f.remote_addr)?;
    field::string(rt, Field::RemoteHost, bytes, f.remote_host)?;
    field::string(rt, Field::ServerName, bytes, f.server_name)?;
    field::number(rt, Field::ServerPort, f.server_port)?;
    field::number(rt, Field::IsSsl, u8::from(f.is_ssl))
}

// Prints a Send Headers, a field a line.
fn send_headers(rt: &impl Print, h: SendHeaders, read: ReadPacket<'_>) -> io::Result<()> {
    print!(rt; "Send Headers")?;
    field::number(rt, Field::Status, h.status)?;
    field::string(rt, Field::Message, read.bytes, h.message)?;
    read.headers(rt, Direction::ToServer, h.headers)
}
