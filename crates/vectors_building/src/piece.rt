// The commands that make a piece. Those that add one begin with the record, K,N,N,N,F, and have what they add from word 7 on.
use crate::{record, refused};
use building_record::Building;
use pieces::forward::Numbers;
use pieces::{attribute, forward, header, send_headers};
use std::io;
use std::io::Write;
use vectors_text::commands::{BYTES, Piece};
use vectors_text::parse;
use vectors_text::string::Strings;
use vectors_text::text::{ROOM, Written, part, word};
use vectors_text::words::BytesWord;
use wire::refusal::Refusal;

// Writes the library's answer to a case.
pub fn answer(piece: Piece, case: &[u8], out: &mut Written) -> io::Result<()> {
    let lent = part(case, buffer_part(piece));
    let mut room = [0u8; BYTES];
    let buffer = parse::bytes(lent, &mut room);
    match made(piece, case, buffer) {
        Err(refusal) => refused(refusal, lent, buffer, out),
        Ok(building) => {
            let record = record::Words(building);
            write!(out, "ok rec={record} buf={}", BytesWord(buffer))
        }
    }
}

// The part that is the buffer.
fn buffer_part(piece: Piece) -> usize {
    match piece {
        Piece::Forward | Piece::SendHeaders => 1,
        _ => 2,
    }
}

// Makes a piece.
fn made(piece: Piece, case: &[u8], buffer: &mut [u8]) -> Result<Building, Refusal> {
    let mut room = [0u8; ROOM];
    let strings = Strings::within(&mut room);
    match piece {
        Piece::Forward => forward(case, strings, buffer),
        Piece::SendHeaders => send_headers(case, strings, buffer),
        Piece::HeaderByCode => header_by_code(case, strings, buffer),
        Piece::HeaderByName => header_by_name(case, strings, buffer),
        Piece::TextAttribute => text_attribute(case, strings, buffer),
        Piece::IntegerAttribute => integer_attribute(case, buffer),
        Piece::PairAttribute => pair_attribute(case, strings, buffer),
    }
}

// Begins a Forward.
fn forward(case: &[u8], mut strings: Strings<'_>, buffer: &mut [u8]) -> Result<Building, Refusal> {
    let numbers = Numbers {
        method: parse::number(case, 2),
        server_port: parse::number(case, 8),
        is_ssl: parse::flag(case, 9),
    };
    let strings = forward::Strings {
        protocol: strings.string(word(case, 3)),
        req_uri: strings.string(word(case, 4)),
        remote_addr: strings.string(word(case, 5)),
        remote_host: strings.string(word(case, 6)),
        server_name: strings.string(word(case, 7)),
    };
    forward::begin(buffer, numbers, strings)
}

// Begins a Send Headers.
fn send_headers(
    case: &[u8],
    mut strings: Strings<'_>,
    buffer: &mut [u8],
) -> Result<Building, Refusal> {
    let status = parse::number(case, 2);
    let message = strings.string(word(case, 3));
    send_headers::begin(buffer, status, message)
}

// Adds a header: word 8 is its code or its name, 9 its value.
fn header_by_code(
    case: &[u8],
    mut strings: Strings<'_>,
    buffer: &mut [u8],
) -> Result<Building, Refusal> {
    let building = record::parse(part(case, 1));
    let code = parse::number(case, 8);
    let value = strings.string(word(case, 9));
    header::coded(building, buffer, code, value)
}

fn header_by_name(
    case: &[u8],
    mut strings: Strings<'_>,
    buffer: &mut [u8],
) -> Result<Building, Refusal> {
    let building = record::parse(part(case, 1));
    let name = strings.string(word(case, 8));
    let value = strings.string(word(case, 9));
    header::spelled(building, buffer, name, value)
}

// Adds an attribute: word 7 is its code, 9 its value, or its name before the value.
fn text_attribute(
    case: &[u8],
    mut strings: Strings<'_>,
    buffer: &mut [u8],
) -> Result<Building, Refusal> {
    let building = record::parse(part(case, 1));
    let code = parse::number(case, 7);
    let value = strings.string(word(case, 9));
    attribute::text(building, buffer, code, value)
}

fn integer_attribute(case: &[u8], buffer: &mut [u8]) -> Result<Building, Refusal> {
    let building = record::parse(part(case, 1));
    attribute::integer(
        building,
        buffer,
        parse::number(case, 7),
        parse::number(case, 9),
    )
}

fn pair_attribute(
    case: &[u8],
    mut strings: Strings<'_>,
    buffer: &mut [u8],
) -> Result<Building, Refusal> {
    let building = record::parse(part(case, 1));
    let code = parse::number(case, 7);
    let name = strings.string(word(case, 9));
    let value = strings.string(word(case, 10));
    attribute::pair(building, buffer, code, name, value)
}
