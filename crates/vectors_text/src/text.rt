// Texts and their parts. Every call answers for any text and any index.
ghost use Rattle.std.specs.Prelude.{IfSome, length, ◌<◌, ◌≡◌, ◌++◌, ◌∷◌};

use arrayvec::ArrayVec;

// Room for a line that is written out, or for an answer. Longer lines are refused.
pub const ROOM: usize = 262143;

// A text that is written into such a room.
pub type Written = ArrayVec<u8, ROOM>;

// The field at an index of a text whose fields a separator parts; nothing where there are not so many.
pub fn field(s: &[u8], separator: u8, index: usize) -> &[u8] {
    s.split(|b| *b == separator).nth(index).unwrap_or(&[])
}

// Whether a byte parts the words of a case.
pub(crate) fn ends_word(b: u8) -> bool {
    matches!(b, b' ' | b':' | b',')
}

// A word of a case.
pub fn word(case: &[u8], index: usize) -> &[u8] {
    case.split(|b| ends_word(*b)).nth(index).unwrap_or(&[])
}

// A part of a case, as spaces part them: a connection is one part, of several words.
pub fn part(case: &[u8], index: usize) -> &[u8] {
    field(case, b' ', index)
}

// What stands before the first of a byte, and what stands behind it.
pub fn split_once(s: &[u8], separator: u8) -> Option<(&[u8], &[u8])>
    ensures parts { IfSome result (λ parts. s.now ≡ parts.0.now ++ separator ∷ parts.1.now) }
    ensures shorter { IfSome result (λ parts. length parts.1.now < length s.now) }
{
    let at = s.iter().position(|b| *b == separator)?;
    Some((&s[..at], &s[at + 1..]))
}
