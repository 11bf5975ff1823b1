// The words by which records and numbers cross the C boundary: what a call returns, flags and 16-bit numbers, the kinds of packet, a
// connection, a building record, and a Forward's fixed numbers. Every exported call is made of these and looks behind none of them: a word
// more in a record is a matter of this crate.
#![tactic(auto)]

pub mod building_words;
pub mod connection_words;
pub mod fixed_words;
pub mod kinds;
pub mod number;
pub mod status;
pub mod text;
