// What the exported calls tell: the words of an answer, and what a call writes by what the library answered it: reading, sending a packet,
// adding a piece.
#![tactic(auto)]

pub mod added;
pub mod answer;
pub mod received;
pub mod sent;
