// The command `read`: what reading at one of the ends answers.
use packet::{Direction, Forward, Packet};
use reader::Received;
use std::io;
use std::io::Write;
use vectors_text::text::Written;
use vectors_text::words::{ConnectionWords, FlagWord, TableWord};
use vectors_text::{commands, parse, text};
use wire::refusal::Refusal;

// The parts of a case: the connection, the table and the bytes.
const CONNECTION: usize = 2;

const TABLE: usize = 3;

const BYTES: usize = 4;

// Writes the library's answer to a case.
pub fn answer(direction: Direction, case: &[u8], out: &mut Written) -> io::Result<()> {
    let lent = text::part(case, TABLE);
    let mut room = [0u16; commands::PLACES];
    let table = parse::places(lent, &mut room);
    match received(direction, case, table) {
        Err(refusal) => {
            write!(out, "refused {}", refusal.number())?;
            unchanged(lent, table, out)
        }
        Ok(Received::Needs(n)) => {
            write!(out, "needs {n}")?;
            unchanged(lent, table, out)
        }
        Ok(
            Received::Accepted {
                packet,
                taken,
                connection,
            },
        ) => {
            let connection = ConnectionWords(connection);
            write!(out, "ok {} taken={taken} conn={connection}", kind(packet))?;
            fields(packet, out)?;
            write!(out, " table={}", TableWord(table))
        }
    }
}

// Writes the table where it is not as the case lends it. It is to stay so where nothing was read.
fn unchanged(lent: &[u8], table: &[u16], out: &mut Written) -> io::Result<()> {
    let mut room = [0u16; commands::PLACES];
    let before: &[u16] = parse::places(lent, &mut room);
    if before == table {
        return Ok(());
    }
    write!(out, ", changed to - {}", TableWord(table))
}

// Reads at the end to which a direction leads.
fn received(direction: Direction, case: &[u8], table: &mut [u16]) -> Result<Received, Refusal> {
    let mut room = [0u8; commands::BYTES];
    let bytes = parse::bytes(text::part(case, BYTES), &mut room);
    let connection = parse::connection(text::part(case, CONNECTION));
    match direction {
        Direction::ToContainer => reader::read_at_container(connection, bytes, table),
        Direction::ToServer => reader::read_at_server(connection, bytes, table),
    }
}

// What a kind of packet is called.
fn kind(packet: Packet) -> &'static str {
    match packet {
        Packet::CPing => "cping",
        Packet::CPong => "cpong",
        Packet::Forward(_) => "forward",
        Packet::Body(_) => "body",
        Packet::GetBody(_) => "get",
        Packet::SendHeaders(_) => "sendheaders",
        Packet::BodyChunk(_) => "chunk",
        Packet::End(_) => "end",
    }
}

// Writes a packet's fields.
fn fields(packet: Packet, out: &mut Written) -> io::Result<()> {
    match packet {
        Packet::CPing | Packet::CPong => Ok(()),
        Packet::Forward(f) => forward(f, out),
        Packet::Body(p) | Packet::BodyChunk(p) => {
            let start = p.start;
            write!(out, " start={} len={}", start.0, p.len)
        }
        Packet::GetBody(asked) => write!(out, " asked={asked}"),
        Packet::SendHeaders(h) => {
            let message = h.message;
            write!(
                out,
                " status={} message={} headers={}",
                h.status, message.0, h.headers
            )
        }
        Packet::End(reuse) => write!(out, " reuse={}", FlagWord(reuse)),
    }
}

fn forward(f: Forward, out: &mut Written) -> io::Result<()> {
    let protocol = f.protocol.0;
    let req_uri = f.req_uri.0;
    let remote_addr = f.remote_addr.0;
    let remote_host = f.remote_host.0;
    let server_name = f.server_name.0;
    let ssl = FlagWord(f.is_ssl);
    write!(
        out,
        " method={} protocol={protocol} req_uri={req_uri}",
        f.method
    )?;
    write!(
        out,
        " remote_addr={remote_addr} remote_host={remote_host} server_name={server_name}"
    )?;
    write!(
        out,
        " port={} ssl={ssl} headers={} attributes={}",
        f.server_port, f.headers, f.attributes
    )
}
