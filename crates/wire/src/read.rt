// Reads a field at a place of a packet.
ghost use Rattle.std.specs.Prelude.{◌≡◌};
ghost use Rattle.wire.specs.Field.{byte_at, integer_at, boolean_at, text_at, after_length, string_at, is_optional};
ghost use Rattle.wire.specs.Read.{number_meaning, boolean_meaning, string_meaning};

use crate::refusal::Refusal;
use crate::{NULL_LENGTH, StringField, has_room, holds_barred, is_optional, lacks};

// A field as read: its value, and the place after it.
#[derive(Clone, Copy, Debug, PartialEq, Eq)]
pub struct Field<T> {
    pub value: T,
    pub next: usize,
}

// Where a string's bytes start, and how many they are.
#[derive(Clone, Copy, Debug, PartialEq, Eq)]
pub struct Span {
    pub start: usize,
    pub len: usize,
}

// The byte at a place.
#[tactic(auto, using(crate::proofs::Bytes::room_in), unfolding(crate::specs::Field::byte_at))]
pub fn byte(packet: &[u8], at: usize) -> Result<Field<u16>, Refusal>
    ensures { number_meaning result ≡ byte_at packet.now at }
{
    let Some(byte) = packet.get(at) else {
        return Err(Refusal::CutShort);
    };
    Ok(Field {
        value: u16::from(*byte),
        next: at + 1,
    })
}

// The integer at a place, high byte first. It asks `has_room`, as its callers do: by `get` and a slice pattern, which was tried, the compiler
// asks for the room again, and headers are read slower.
#[tactic(auto, using(crate::proofs::Bytes::room_in), unfolding(crate::specs::Field::integer_at, crate::specs::Bytes::integer_in))]
pub fn integer(packet: &[u8], at: usize) -> Result<Field<u16>, Refusal>
    ensures { number_meaning result ≡ integer_at packet.now at }
{
    if !has_room(packet.len(), at, 2) {
        return Err(Refusal::CutShort);
    }
    Ok(Field {
        value: u16::from_be_bytes([packet[at], packet[at + 1]]),
        next: at + 2,
    })
}

// The boolean at a place.
#[tactic(auto, unfolding(crate::specs::Field::boolean_at))]
pub fn boolean(packet: &[u8], at: usize) -> Result<Field<bool>, Refusal>
    ensures { boolean_meaning result ≡ boolean_at packet.now at }
{
    let Field { value, next } = byte(packet, at)?;
    match value {
        0 => Ok(Field { value: false, next }),
        1 => Ok(Field { value: true, next }),
        _ => Err(Refusal::OutOfRange),
    }
}

// The string of a field at a place, None for null; null and empty are refused unless the field is optional.
#[tactic(auto, unfolding(crate::specs::Field::string_at))]
pub fn string(packet: &[u8], at: usize, field: StringField) -> Result<Field<Option<Span>>, Refusal>
    ensures { string_meaning result ≡ string_at packet.now at (is_optional field) }
{
    let length = integer(packet, at)?;
    after_length(packet, is_optional(field), length.value, length.next)
}

// What follows a string's length: nothing for null, else its bytes.
#[tactic(auto, unfolding(crate::specs::Field::after_length))]
fn after_length(
    packet: &[u8],
    optional: bool,
    len: u16,
    start: usize,
) -> Result<Field<Option<Span>>, Refusal>
    ensures { string_meaning result ≡ after_length packet.now optional len start }
{
    let null = len == NULL_LENGTH;
    if lacks(optional, null, len as usize) {
        return Err(Refusal::StringWrong);
    }
    if null {
        return Ok(Field {
            value: None,
            next: start,
        });
    }
    text(packet, start, len)
}

// A string's bytes and its last zero.
#[tactic(auto, using(crate::proofs::Bytes::room_in), unfolding(crate::specs::Field::text_at, crate::specs::Bytes::part))]
fn text(packet: &[u8], start: usize, len: u16) -> Result<Field<Option<Span>>, Refusal>
    ensures { string_meaning result ≡ text_at packet.now start len }
{
    let len = len as usize;
    if !has_room(packet.len(), start, len + 1) {
        return Err(Refusal::CutShort);
    }
    let end = start + len;
    if packet[end] != 0 {
        return Err(Refusal::StringWrong);
    }
    if holds_barred(&packet[start..end]) {
        return Err(Refusal::StringWrong);
    }
    Ok(Field {
        value: Some(Span { start, len }),
        next: end + 1,
    })
}
