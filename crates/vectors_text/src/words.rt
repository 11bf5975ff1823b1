// Words of cases and of answers, as they are printed.
use connection::{Connection, State};
use std::fmt::{Display, Formatter};
use std::{fmt, str};
use wire::part_of;

// The digits of hexadecimal numbers.
static DIGITS: [u8; 16] = *b"0123456789abcdef";

// How many bytes are written in one call: one for each byte takes several times as long.
const AT_ONCE: usize = 64;

// The two digits of a byte.
fn spelled(b: u8) -> [u8; 2] {
    [DIGITS[usize::from(b / 16)], DIGITS[usize::from(b % 16)]]
}

// Writes so many digits from the front of a text of digits.
fn write_front<W: fmt::Write>(f: &mut Formatter<W>, text: &[u8], count: usize) -> fmt::Result {
    let front = str::from_utf8(part_of(text, 0, count)).map_err(|_| fmt::Error)?;
    f.write_str(front)
}

// Bytes in hexadecimal, two digits each.
#[derive(Clone, Copy)]
pub struct Digits<'a>(pub &'a [u8]);

impl Display for Digits<'_> {
    fn fmt<W: fmt::Write>(&self, f: &mut Formatter<W>) -> fmt::Result {
        for part in self.0.chunks(AT_ONCE) {
            let mut text = [0u8; 2 * AT_ONCE];
            for (pair, b) in text.chunks_exact_mut(2).zip(part) {
                pair.copy_from_slice(&spelled(*b));
            }
            write_front(f, &text, 2 * part.len())?;
        }
        Ok(())
    }
}

// The same, - where there are none.
#[derive(Clone, Copy)]
pub struct BytesWord<'a>(pub &'a [u8]);

impl Display for BytesWord<'_> {
    fn fmt<W: fmt::Write>(&self, f: &mut Formatter<W>) -> fmt::Result {
        if self.0.is_empty() {
            return write!(f, "-");
        }
        write!(f, "{}", Digits(self.0))
    }
}

// A table of places in hexadecimal, four digits each, - where it is empty.
#[derive(Clone, Copy)]
pub struct TableWord<'a>(pub &'a [u16]);

impl Display for TableWord<'_> {
    fn fmt<W: fmt::Write>(&self, f: &mut Formatter<W>) -> fmt::Result {
        if self.0.is_empty() {
            return write!(f, "-");
        }
        for places in self.0.chunks(AT_ONCE / 2) {
            let mut text = [0u8; 2 * AT_ONCE];
            for (four, place) in text.chunks_exact_mut(4).zip(places) {
                let [high, low] = place.to_be_bytes();
                let [a, b] = spelled(high);
                let [c, d] = spelled(low);
                four.copy_from_slice(&[a, b, c, d]);
            }
            write_front(f, &text, 4 * places.len())?;
        }
        Ok(())
    }
}

// 1 for true, 0 for false.
#[derive(Clone, Copy)]
pub struct FlagWord(pub bool);

impl Display for FlagWord {
    fn fmt<W: fmt::Write>(&self, f: &mut Formatter<W>) -> fmt::Result {
        let bit = u8::from(self.0);
        write!(f, "{bit}")
    }
}

// A connection: the state's letter, what is left, whether a body packet is due, what was asked for, whether headers were sent, whether the
// request is HEAD.
#[derive(Clone, Copy)]
pub struct ConnectionWords(pub Connection);

impl Display for ConnectionWords {
    fn fmt<W: fmt::Write>(&self, f: &mut Formatter<W>) -> fmt::Result {
        let c = self.0;
        let state = state_letter(c.state());
        let left = c.left();
        let left = left.0;
        let due = FlagWord(c.due());
        let asked = c.asked();
        let headers = FlagWord(c.headers());
        let head = FlagWord(c.head());
        write!(f, "{state},{left},{due},{asked},{headers},{head}")
    }
}

pub(crate) fn state_letter(state: State) -> char {
    match state {
        State::Idle => 'I',
        State::Pinged => 'P',
        State::Busy => 'B',
        State::Closed => 'C',
    }
}
