// Names and codes: tokens, and the listed names of methods, headers and attributes.
// An inner crate: the layers above call it, a user of the library does not. Every call answers for any bytes and any code.
#![tactic(auto)]

pub mod attribute;
pub mod header;
pub mod method;
pub mod table;
pub mod token;

// The lists of names that have codes.
#[derive(Clone, Copy, Debug, PartialEq, Eq)]
pub enum NameList {
    Methods,
    RequestHeaders,
    ResponseHeaders,
    Attributes,
}
