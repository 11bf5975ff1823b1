// The strings of a case: null, or bytes in hexadecimal. The bytes of each take a part of a lent room.
use crate::parse;

#[derive(Drop)]
pub struct Strings<'a> {
    room: &'a mut [u8],
}

impl<'a> Strings<'a> {
    pub fn within(room: &'a mut [u8]) -> Strings<'a> {
        Strings { room }
    }

    // The bytes that a word says.
    pub fn bytes(&mut self, word: &[u8]) -> &'a [u8] {
        let count = (word.len() / 2).min(self.room.len());
        match self.room.split_off_mut(..count) {
            Some(part) => parse::bytes(word, part),
            None => &[],
        }
    }

    // The string that a word says. None: it is null.
    pub fn string(&mut self, word: &[u8]) -> Option<&'a [u8]> {
        if matches!(word, b"null") {
            return None;
        }
        Some(self.bytes(word))
    }
}
