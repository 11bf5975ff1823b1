// The C entry points of the library. A connection and a building record cross as arrays of words, and so does what a call answers
// (`words`, `answers`, `checking_words`, `view_words`). Every call answers for any numbers and any lent arrays. It returns a status: done, the number of a
// refusal, or an error's. An error and a refusal write nothing at all, and nothing is kept between calls. `bindings/c/ajp13_words.h`
// declares these calls for C, and `bindings/c/ajp13.h` has types over them.
#![tactic(auto)]

mod check;
mod close;
mod held;
mod name;
mod piece;
mod read;
mod send;
mod view;
