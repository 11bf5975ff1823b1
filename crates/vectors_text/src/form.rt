// The forms of cases. In a form a capital letter stands for a word:
//   C  a connection, K  the letter of a packet that is built
//   N  a number in two bytes, F  1 or 0
//   B  bytes, T  a table of places, S  a string, null or bytes
// and every other character for itself.
use crate::{commands, parse, text};
use itoa::Buffer;

// What a capital letter of a form stands for.
#[derive(Clone, Copy)]
enum Word {
    Connection,
    Kind,
    Number,
    Flag,
    Bytes,
    Table,
    Text,
}

impl Word {
    // The word for which a character of a form stands. None: it stands for itself.
    fn of(sign: u8) -> Option<Word> {
        match sign {
            b'C' => Some(Word::Connection),
            b'K' => Some(Word::Kind),
            b'N' => Some(Word::Number),
            b'F' => Some(Word::Flag),
            b'B' => Some(Word::Bytes),
            b'T' => Some(Word::Table),
            b'S' => Some(Word::Text),
            _ => None,
        }
    }

    // Whether a byte ends it. A connection is several words, and ends as a part of a case does.
    fn is_ended_by(self, b: u8) -> bool {
        match self {
            Word::Connection => b == b' ',
            _ => text::ends_word(b),
        }
    }

    // Whether a text is such a word.
    fn is(self, s: &[u8]) -> bool {
        match self {
            Word::Connection => is_connection(s),
            Word::Kind => matches!(s, b"F" | b"H"),
            Word::Number => is_number(s, u16::MAX as u64),
            Word::Flag => is_flag(s),
            Word::Bytes => is_hex(s) && s.len() <= 2 * commands::BYTES,
            Word::Table => is_hex(s) && s.len() <= 4 * commands::PLACES && s.len() % 4 < 2,
            Word::Text => matches!(s, b"null") || is_hex(s),
        }
    }
}

// Whether a case is of a form.
pub fn is_of(case: &[u8], form: &[u8]) -> bool {
    matches!(behind(case, form), Some([]))
}

// What stands behind the beginning of a case that is of a form. None: it begins otherwise.
fn behind<'a>(case: &'a [u8], form: &[u8]) -> Option<&'a [u8]> {
    let mut rest = case;
    for sign in form {
        rest = behind_sign(rest, *sign)?;
    }
    Some(rest)
}

// The same of one character of a form.
fn behind_sign(case: &[u8], sign: u8) -> Option<&[u8]> {
    let Some(word) = Word::of(sign) else {
        return case.strip_prefix(&[sign]);
    };
    let end = case
        .iter()
        .position(|b| word.is_ended_by(*b))
        .unwrap_or(case.len());
    let (said, rest) = case.split_at_checked(end)?;
    if word.is(said) { Some(rest) } else { None }
}

// Whether a text is a connection: the letter of a state, the bytes of body left, whether a body packet is due, the bytes asked for, whether
// headers were sent, and then, each only behind the one before, whether the request is HEAD and the edition. A connection has no field for
// the edition yet: only the new one may stand there.
pub fn is_connection(s: &[u8]) -> bool {
    let mut words = s.split(|b| *b == b',');
    words
        .next()
        .is_some_and(|w| matches!(w, b"I" | b"P" | b"B" | b"C"))
        && words.next().is_some_and(|w| is_number(w, u32::MAX as u64))
        && words.next().is_some_and(is_flag)
        && words.next().is_some_and(|w| is_number(w, u16::MAX as u64))
        && words.next().is_some_and(is_flag)
        && words.next().is_none_or(is_flag)
        && words.next().is_none_or(|w| matches!(w, b"new"))
        && words.next().is_none()
}

fn is_flag(word: &[u8]) -> bool {
    matches!(word, b"0" | b"1")
}

// Whether a word is a number up to this one, as it is printed.
fn is_number(word: &[u8], most: u64) -> bool {
    let n = parse::decimal(word);
    let mut digits = Buffer::new();
    n <= most && word == digits.format(n).as_bytes()
}

// Whether a word is an even number of hexadecimal digits, or - for none.
fn is_hex(word: &[u8]) -> bool {
    match word {
        b"-" => true,
        [] => false,
        _ => word.len() % 2 == 0 && word.iter().all(is_digit),
    }
}

fn is_digit(b: &u8) -> bool {
    matches!(b, b'0'..=b'9' | b'a'..=b'f')
}
