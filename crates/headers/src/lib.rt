// The headers of a packet: each one's name and value, one after the other, and their places. An inner crate: the layers above call it,
// a user of the library does not. A packet is a slice of its own bytes and no others.
#![tactic(auto)]

ghost use Rattle.std.specs.Prelude.{◌≡◌, None, ◌+◌, ◌≤◌, length};
ghost use Rattle.wire.specs.Pick.{pick};
ghost use Rattle.wire.specs.Refusal.{string_wrong};
ghost use Rattle.wire.specs.Bytes.{over};
ghost use Rattle.wire.specs.Field.{is_optional, holds_barred, after_length, string_at, integer_at};
ghost use Rattle.wire.specs.Read.{fault_number};
ghost use Rattle.names.specs.Header.{spelled_fault};
ghost use Rattle.places.specs.Private.{max_place};
ghost use Rattle.wire.specs.Text.{is_null, bytes_in};
ghost use Rattle.headers.specs.Read.{length_meaning, name_meaning, header_meaning, headers_meaning};
ghost use Rattle.headers.specs.Headers.{name_at, code_name_of, spelled_of, declares, declared_after, header_value_at, header_at, headers_at};

use names::header;
use packet::Direction;
use places::put_pair;
use wire::read::{Field, Span};
use wire::refusal::Refusal;
use wire::{NULL_LENGTH, StringField, has_room, holds_barred, part_of, read};

pub mod length;

// A header's name as read: its code, or where its bytes stand.
#[derive(Clone, Copy, Debug, PartialEq, Eq)]
pub enum ReadName {
    Code(u16),
    Spelled(Span),
}

// A header as read: its value's place, what is declared after it, and the place after it.
#[derive(Clone, Copy, Debug, PartialEq, Eq)]
pub struct ReadHeader {
    pub value: usize,
    pub declared: Option<u32>,
    pub next: usize,
}

// The header name at a place. Nothing is judged before its first two bytes are there.
#[tactic(auto, using(wire::proofs::Bytes::room_in), unfolding(crate::specs::Headers::name_at))]
pub fn name_at(direction: Direction, packet: &[u8], at: usize) -> Result<Field<ReadName>, Refusal>
    ensures { name_meaning result ≡ name_at direction packet.now at }
{
    if !has_room(packet.len(), at, 2) {
        return Err(Refusal::CutShort);
    }
    if header::begins_code(packet[at]) {
        return code_name(direction, packet, at);
    }
    spelled_name(direction, packet, at)
}

// The name at a place where its code is.
#[tactic(auto, using(wire::proofs::Exits::refused_some), unfolding(crate::specs::Headers::code_name_of))]
fn code_name(direction: Direction, packet: &[u8], at: usize) -> Result<Field<ReadName>, Refusal>
    ensures { name_meaning result ≡ code_name_of direction (integer_at packet.now at) }
{
    let Field { value, next } = read::integer(packet, at)?;
    header::code_fault(direction, value)?;
    Ok(Field {
        value: ReadName::Code(value),
        next,
    })
}

// A name that is spelled out: a string, by its length.
#[tactic(auto, unfolding(wire::specs::Field::string_at))]
fn spelled_name(direction: Direction, packet: &[u8], at: usize) -> Result<Field<ReadName>, Refusal>
    ensures { name_meaning result ≡ spelled_of direction packet.now (string_at packet.now at (is_optional StringField.HeaderName)) }
{
    let Field { value, next } = read::integer(packet, at)?;
    name_text(direction, packet, value, next)
}

// What follows a spelled name's length, judged as `read::string` judges it, but for its bytes: they are looked through once, for all their
// faults.
#[tactic(auto, using(wire::proofs::Bytes::room_in, wire::proofs::Exits::refused_some), unfolding(crate::specs::Headers::spelled_at, wire::specs::Field::after_length, wire::specs::Field::text_at, wire::specs::Bytes::part))]
fn name_text(
    direction: Direction,
    packet: &[u8],
    size: u16,
    start: usize,
) -> Result<Field<ReadName>, Refusal>
    ensures { name_meaning result ≡ spelled_of direction packet.now (after_length packet.now (is_optional StringField.HeaderName) size start) }
{
    if size == NULL_LENGTH || size == 0 {
        return Err(Refusal::StringWrong);
    }
    let len = size as usize;
    if !has_room(packet.len(), start, len + 1) {
        return Err(Refusal::CutShort);
    }
    let end = start + len;
    if packet[end] != 0 {
        return Err(Refusal::StringWrong);
    }
    text_fault(direction, &packet[start..end])?;
    Ok(Field {
        value: ReadName::Spelled(Span { start, len }),
        next: end + 1,
    })
}

// The fault of a spelled name's bytes: a barred byte, then the name's own. A name without a fault holds no barred byte, so only another is
// looked through for one.
#[tactic(auto, using(names::proofs::Codes::spelled_clear))]
fn text_fault(direction: Direction, text: &[u8]) -> Result<(), Refusal>
    ensures { fault_number result ≡ pick (holds_barred text.now) string_wrong (spelled_fault direction text.now) }
{
    header::spelled_fault(direction, text).map_err(|fault| {
        if holds_barred(text) {
            Refusal::StringWrong
        } else {
            fault
        }
    })
}

// Whether a header with this code declares the length of a request's body.
pub fn declares_length(direction: Direction, code: u16) -> bool
    ensures { result ≡ declares direction code }
{
    matches!(direction, Direction::ToContainer) && length::is_content_length(code)
}

// What is declared after a header's value.
#[tactic(auto, unfolding(crate::specs::Headers::declared_after))]
pub fn declared_after(
    declares: bool,
    before: Option<u32>,
    value: Option<&[u8]>,
) -> Result<Option<u32>, Refusal>
    ensures { length_meaning result ≡ declared_after declares before (is_null value.entry) (bytes_in value.entry) }
{
    if declares {
        return length::length_after(before, value);
    }
    Ok(before)
}

// The value at a place, of a header whose name stands before it; `declares` says that it declares a length.
#[tactic(auto, unfolding(crate::specs::Headers::header_value_at))]
fn value_at(
    packet: &[u8],
    at: usize,
    declares: bool,
    before: Option<u32>,
) -> Result<ReadHeader, Refusal>
    ensures { header_meaning result ≡ header_value_at packet.now at declares before }
{
    let Field { value, next } = read::string(packet, at, StringField::HeaderValue)?;
    let text = match value {
        None => None,
        Some(Span { start, len }) => Some(part_of(packet, start, len)),
    };
    let declared = declared_after(declares, before, text)?;
    Ok(ReadHeader {
        value: at,
        declared,
        next,
    })
}

// The header at a place; `before` is what the headers before it declare.
#[tactic(auto, unfolding(crate::specs::Headers::header_at))]
pub fn header_at(
    direction: Direction,
    packet: &[u8],
    at: usize,
    before: Option<u32>,
) -> Result<ReadHeader, Refusal>
    ensures { header_meaning result ≡ header_at direction packet.now at before }
{
    let Field { value, next } = name_at(direction, packet, at)?;
    match value {
        ReadName::Code(code) => value_at(packet, next, declares_length(direction, code), before),
        ReadName::Spelled(_) => value_at(packet, next, false, before),
    }
}

// Reads `count` headers from a place on, and puts the places of each one's name and value into a table, from its start on.
#[tactic(auto, using(crate::proofs::Laws::reading_start, crate::proofs::Laws::reading_turn, crate::proofs::Laws::header_bounds))]
pub fn headers(
    direction: Direction,
    packet: &[u8],
    at: usize,
    count: u16,
    table: &mut [u16],
) -> Result<Field<Option<u32>>, Refusal>
    requires { (length packet.now ≤ max_place) × (count + count ≤ length table.old) }
    ensures value { headers_meaning result ≡ (headers_at direction packet.now at count None).end }
    ensures table_after { table.new ≡ over table.old 0 (headers_at direction packet.now at count None).places }
{
    let mut declared = None;
    let mut place = at;
    for i in 0..count as usize {
        let header = header_at(direction, packet, place, declared)?;
        put_pair(table, i + i, place as u16, header.value as u16);
        declared = header.declared;
        place = header.next;
    }
    Ok(Field {
        value: declared,
        next: place,
    })
}
