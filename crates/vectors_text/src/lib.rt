// The text form of cases: the forms in which they are listed, their words, writing groups out, and answers in the words of the list. The
// program `vectors` is made of it. An inner crate: a user of the library does not call it. Every call answers for any text and any buffer.
#![tactic(auto)]

pub mod commands;
pub mod expand;
pub mod form;
pub mod parse;
pub mod same;
pub mod string;
pub mod text;
pub mod words;
