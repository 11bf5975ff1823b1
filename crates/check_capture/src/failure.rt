// What keeps the program from its answer.
use std::{fmt, io};

#[derive(Clone, Copy)]
pub enum Failure<'a> {
    // There is more than one word on the command line.
    TooManyWords,
    // The word begins with - and is none that the program takes.
    UnknownWord(&'a str),
    // What of this name could not be opened, read or written, and why.
    Io { name: &'a str, why: io::Error },
}

const HINT: &str = "(check_capture --help says what it takes)";

impl fmt::Display for Failure<'_> {
    fn fmt<W: fmt::Write>(&self, f: &mut fmt::Formatter<W>) -> fmt::Result {
        match self {
            Failure::TooManyWords => write!(f, "only one capture is checked at a time {HINT}"),
            Failure::UnknownWord(word) => write!(f, "unknown word {word} {HINT}"),
            Failure::Io { name, why } => write!(f, "{name}: {why}"),
        }
    }
}
