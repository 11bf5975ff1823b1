// What is shown of a conversation: the bytes of a packet, what was read of it, and a connection. The printing half of the program
// `conversation`. An inner crate: a user of the library does not call it. Every call answers for any bytes and any places.
#![tactic(auto)]

mod entry;
mod field;
pub mod record;
pub mod row;
pub mod told;
pub mod words;
