// Writes a field at a place of a buffer and tells the place behind it. That the field fits was asked before, for all fields at once.
ghost use Rattle.std.specs.Prelude.{◌≡◌, [], ◌∷◌, ◌++◌, ◌+◌, length};
ghost use Rattle.wire.specs.Bytes.{over, integer_bytes};
ghost use Rattle.wire.specs.Field.{boolean_bytes, string_bytes};
ghost use Rattle.wire.specs.Text.{is_null, bytes_in};
ghost use Rattle.wire.specs.Packet.{packet_head, Fits};

use crate::{MAX_PACKET, NULL_LENGTH, leading_bytes};
use packet::Direction;

// Bytes as they are. They go through a local array, since the compiler does not know that the two slices never overlap: a copy straight from
// one to the other asks that first, and was tried and is slower. These two copies become one memmove, and the array takes no room.
#[tactic(auto, using(crate::proofs::Copying::copying_start, crate::proofs::Copying::copying_front, crate::proofs::Copying::copying_end))]
pub fn bytes(buffer: &mut [u8], at: usize, from: &[u8]) -> usize
    requires { Fits at from.now buffer.old }
    ensures value { result ≡ at + length from.now }
    ensures buffer_after { buffer.new ≡ over buffer.old at from.now }
{
    let n = from.len();
    let mut copy = [0u8; MAX_PACKET];
    copy[..n].copy_from_slice(from);
    for i in 0..n {
        buffer[at + i] = copy[i];
    }
    at + n
}

// A byte.
#[tactic(auto, using(crate::proofs::Bytes::over_set))]
pub fn byte(buffer: &mut [u8], at: usize, value: u8) -> usize
    requires { Fits at (value ∷ []) buffer.old }
    ensures value { result ≡ at + 1 }
    ensures buffer_after { buffer.new ≡ over buffer.old at (value ∷ []) }
{
    buffer[at] = value;
    at + 1
}

// An integer, high byte first.
#[tactic(auto, using(crate::proofs::Bytes::over_two))]
pub fn integer(buffer: &mut [u8], at: usize, value: u16) -> usize
    requires { Fits at (integer_bytes value) buffer.old }
    ensures value { result ≡ at + 2 }
    ensures buffer_after { buffer.new ≡ over buffer.old at (integer_bytes value) }
{
    let [high, low] = value.to_be_bytes();
    buffer[at] = high;
    buffer[at + 1] = low;
    at + 2
}

// A boolean: 1 for true, 0 for false.
pub fn boolean(buffer: &mut [u8], at: usize, value: bool) -> usize
    requires { Fits at (boolean_bytes value) buffer.old }
    ensures value { result ≡ at + 1 }
    ensures buffer_after { buffer.new ≡ over buffer.old at (boolean_bytes value) }
{
    byte(buffer, at, value as u8)
}

// How many bytes a string's field takes, None for null.
#[tactic(auto, unfolding(crate::specs::Field::string_bytes))]
pub fn string_size(text: Option<&[u8]>) -> usize
    ensures { result ≡ length (string_bytes (is_null text.entry) (bytes_in text.entry)) }
{
    match text {
        None => 2,
        Some(text) => text.len() + 3,
    }
}

// A string: its length, its bytes and a zero, or null.
#[tactic(auto, using(crate::proofs::Bytes::over_over), unfolding(crate::specs::Field::string_bytes))]
pub fn string(buffer: &mut [u8], at: usize, text: Option<&[u8]>) -> usize
    requires { Fits at (string_bytes (is_null text) (bytes_in text)) buffer.old }
    ensures value { result ≡ at + length (string_bytes (is_null text.entry) (bytes_in text.entry)) }
    ensures buffer_after { buffer.new ≡ over buffer.old at (string_bytes (is_null text.entry) (bytes_in text.entry)) }
{
    let Some(text) = text else {
        return integer(buffer, at, NULL_LENGTH);
    };
    let start = integer(buffer, at, text.len() as u16);
    let end = bytes(buffer, start, text);
    byte(buffer, end, 0)
}

// Two strings, one behind the other.
#[tactic(auto, using(crate::proofs::Rows::fits_first, crate::proofs::Rows::fits_later, crate::proofs::Rows::joined))]
pub fn two_strings(
    buffer: &mut [u8],
    at: usize,
    first: Option<&[u8]>,
    second: Option<&[u8]>,
) -> usize
    requires { Fits at (string_bytes (is_null first) (bytes_in first) ++ string_bytes (is_null second) (bytes_in second)) buffer.old }
    ensures value { result ≡ at + length (string_bytes (is_null first.entry) (bytes_in first.entry) ++ string_bytes (is_null second.entry) (bytes_in second.entry)) }
    ensures buffer_after { buffer.new ≡ over buffer.old at (string_bytes (is_null first.entry) (bytes_in first.entry) ++ string_bytes (is_null second.entry) (bytes_in second.entry)) }
{
    let next = string(buffer, at, first);
    string(buffer, next, second)
}

// A packet's first four bytes, at the buffer's start: its leading bytes and how long its payload is.
#[tactic(auto, using(crate::proofs::Rows::fits_first, crate::proofs::Rows::fits_later, crate::proofs::Rows::joined))]
pub fn packet_head(buffer: &mut [u8], direction: Direction, payload: u16) -> usize
    requires { Fits 0 (packet_head direction payload) buffer.old }
    ensures value { result ≡ length (packet_head direction payload) }
    ensures buffer_after { buffer.new ≡ over buffer.old 0 (packet_head direction payload) }
{
    let first = leading_bytes(direction);
    let at = bytes(buffer, 0, &first);
    integer(buffer, at, payload)
}
