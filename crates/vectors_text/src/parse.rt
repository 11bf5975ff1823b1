// What the words of a case say, where it is of its form.
ghost use Rattle.std.specs.Prelude.{◌<◌};

use crate::text;
use connection::{Connection, State};
use packet::BodyLeft;

// A number too large for any case.
const MANY: u64 = 4294967296;

// The number of a text in decimal, up to `MANY`. `str::parse` refuses a text that spells no number, which has an answer here.
pub fn decimal(s: &[u8]) -> u64 {
    s.iter().fold(0, |n: u64, spelled| {
        n.saturating_mul(10)
            .saturating_add(u64::from(digit(*spelled)))
            .min(MANY)
    })
}

// The digit that a byte spells, up to 15; 0 where it spells none. `char::to_digit` takes capital letters too, and what is printed of a list
// with one would change.
fn digit(spelled: u8) -> u8
    ensures { result < 16 }
{
    match spelled {
        b'0'..=b'9' => spelled - b'0',
        b'a'..=b'f' => spelled - b'a' + 10,
        _ => 0,
    }
}

// The number that a word says, in four bytes and in two, the largest where it is larger; whether it says 1.
fn long_number(case: &[u8], word: usize) -> u32 {
    u32::try_from(decimal(text::word(case, word))).unwrap_or(u32::MAX)
}

pub fn number(case: &[u8], word: usize) -> u16 {
    u16::try_from(decimal(text::word(case, word))).unwrap_or(u16::MAX)
}

pub fn flag(case: &[u8], word: usize) -> bool {
    number(case, word) == 1
}

// The byte of two hexadecimal digits.
fn byte(digits: &[u8]) -> u8 {
    match digits {
        [high, low] => digit(*high) * 16 + digit(*low),
        _ => 0,
    }
}

// The place of four hexadecimal digits.
fn place(digits: &[u8]) -> u16 {
    match digits {
        [a, b, c, d] => u16::from_be_bytes([byte(&[*a, *b]), byte(&[*c, *d])]),
        _ => 0,
    }
}

// Writes bytes, of two hexadecimal digits each, into a room: those that are written, no more than there is room for.
pub fn bytes<'a>(s: &[u8], room: &'a mut [u8]) -> &'a mut [u8] {
    let count = (s.len() / 2).min(room.len());
    let written = &mut room[..count];
    for (b, digits) in written.iter_mut().zip(s.chunks_exact(2)) {
        *b = byte(digits);
    }
    written
}

// Places, of four hexadecimal digits each, in the same way.
pub fn places<'a>(s: &[u8], room: &'a mut [u16]) -> &'a mut [u16] {
    let count = (s.len() / 4).min(room.len());
    let written = &mut room[..count];
    for (p, digits) in written.iter_mut().zip(s.chunks_exact(4)) {
        *p = place(digits);
    }
    written
}

// The connection that a text says, such as B,9000,1,8186,0. What is left out is 0.
pub fn connection(s: &[u8]) -> Connection {
    Connection::rest(state(text::word(s, 0)))
        .with_left(BodyLeft(long_number(s, 1)))
        .with_due(flag(s, 2), number(s, 3))
        .with_headers(flag(s, 4))
        .with_head(flag(s, 5))
}

fn state(letter: &[u8]) -> State {
    match letter {
        b"I" => State::Idle,
        b"P" => State::Pinged,
        b"B" => State::Busy,
        _ => State::Closed,
    }
}
