// The commands that send a packet: in one call, or by closing one that was built. The first part behind the command is the connection.
use crate::{record, refused};
use connection::Written;
use std::io;
use std::io::Write;
use vectors_text::commands::{BYTES, Sending};
use vectors_text::words::{BytesWord, ConnectionWords};
use vectors_text::{parse, text};
use wire::refusal::Refusal;

// The parts of a case: the connection, the record where a packet is closed, else what the packet holds: bytes, a number or a flag.
const CONNECTION: usize = 1;

const RECORD: usize = 2;

const CONTENT: usize = 3;

// Writes the library's answer to a case.
pub fn answer(packet: Sending, case: &[u8], out: &mut text::Written) -> io::Result<()> {
    let lent = text::part(case, buffer_part(packet));
    let mut room = [0u8; BYTES];
    let buffer = parse::bytes(lent, &mut room);
    match sent(packet, case, buffer) {
        Err(refusal) => refused(refusal, lent, buffer, out),
        Ok(Written { size, connection }) => {
            let connection = ConnectionWords(connection);
            write!(
                out,
                "ok len={size} conn={connection} buf={}",
                BytesWord(buffer)
            )
        }
    }
}

// The part that is the buffer.
fn buffer_part(packet: Sending) -> usize {
    match packet {
        Sending::Close => 3,
        _ => 2,
    }
}

// Sends a packet.
fn sent(packet: Sending, case: &[u8], buffer: &mut [u8]) -> Result<Written, Refusal> {
    let connection = parse::connection(text::part(case, CONNECTION));
    let content = text::part(case, CONTENT);
    let mut room = [0u8; BYTES];
    let bytes = parse::bytes(content, &mut room);
    match packet {
        Sending::CPing => writer::cping(connection, buffer),
        Sending::CPong => writer::cpong(connection, buffer),
        Sending::Body => writer::body(connection, buffer, bytes),
        Sending::Chunk => writer::body_chunk(connection, buffer, bytes),
        Sending::Get => writer::get_body(connection, buffer, parse::number(content, 0)),
        Sending::End => writer::end(connection, buffer, parse::flag(content, 0)),
        Sending::Close => {
            closing::close(connection, record::parse(text::part(case, RECORD)), buffer)
        }
    }
}
