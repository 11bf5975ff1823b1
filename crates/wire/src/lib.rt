// The fields of a packet, over lent bytes: `read` and `write`. An inner crate: the layers above call it, a user of the library does not.
// A packet is a slice of its own bytes and no others; a place is an index into it. Every call that reads answers for any place; one that
// writes asks that the field fits.
#![tactic(auto)]

ghost use Rattle.std.specs.Prelude.{◌≡◌, ◌+◌, ◌≤◌, ◌<◌, leb, length};
ghost use Rattle.wire.specs.Bytes.{part};
ghost use Rattle.wire.specs.Field.{is_optional, lacks, barred, holds_barred, string_allowed};
ghost use Rattle.wire.specs.Text.{is_null, bytes_in};
ghost use Rattle.wire.specs.Packet.{leading};
ghost use Rattle.wire.specs.Private.{low, holds_low};

use packet::Direction;

pub mod read;
pub mod refusal;
pub mod write;

// The fields that are strings.
#[derive(Clone, Copy, Debug, PartialEq, Eq)]
pub enum StringField {
    Protocol,
    ReqUri,
    RemoteAddr,
    RemoteHost,
    ServerName,
    HeaderName,
    HeaderValue,
    AttributeName,
    AttributeValue,
    Message,
}

// The most bytes of a packet.
pub const MAX_PACKET: usize = 8192;

// The length that says null.
pub const NULL_LENGTH: u16 = 65535;

// The places of a packet's length, behind the leading bytes, and of its payload, behind the length.
pub const LENGTH_PLACE: usize = 2;

pub const PAYLOAD_PLACE: usize = 4;

// The place of a packet's code, which is the payload's first byte, and the place behind it. A body packet has no code.
pub const CODE_PLACE: usize = PAYLOAD_PLACE;

pub const AFTER_CODE_PLACE: usize = 5;

// The bytes that end a line.
const LINE_FEED: u8 = 10;

const CARRIAGE_RETURN: u8 = 13;

// The number above those of all bytes that are barred from strings.
const ABOVE_BARRED: u8 = 14;

// How many bytes of a text are judged at once: those of two vector registers, of one, of half a register and of a quarter.
const DOUBLE_BLOCK: usize = 32;

const BLOCK: usize = 16;

const HALF_BLOCK: usize = 8;

const QUARTER_BLOCK: usize = 4;

// The leading bytes of a packet of a direction.
pub fn leading_bytes(direction: Direction) -> [u8; 2]
    ensures { result ≡ leading direction }
{
    match direction {
        Direction::ToContainer => [0x12, 0x34],
        Direction::ToServer => [0x41, 0x42],
    }
}

// Whether a field's string may be null or empty.
pub fn is_optional(field: StringField) -> bool
    ensures { result ≡ is_optional field }
{
    !matches!(
        field,
        StringField::Protocol
            | StringField::ReqUri
            | StringField::HeaderName
            | StringField::AttributeName
    )
}

// Whether `count` bytes from a place on lie within `size` bytes: for who needs a length and then one part or another, which `get` would ask
// for again.
pub fn has_room(size: usize, at: usize, count: usize) -> bool
    ensures { result ≡ leb (at + count) size }
{
    count <= size && at <= size - count
}

// The bytes from a place on, `len` of them, or as many as there are. Two `min` were tried and are slower where strings are read.
#[tactic(auto, using(crate::proofs::Bytes::part_to, crate::proofs::Bytes::part_rest, crate::proofs::Bytes::part_past, crate::proofs::Bytes::part_none))]
pub fn part_of(s: &[u8], start: usize, len: usize) -> &[u8]
    ensures { result.now ≡ part s.now start len }
{
    let n = s.len();
    if n < start {
        return &s[n..];
    }
    if n - start < len {
        return &s[start..];
    }
    let end = start + len;
    &s[start..end]
}

// Whether a string is null or empty in a field that may be neither.
fn lacks(optional: bool, null: bool, len: usize) -> bool
    ensures { result ≡ lacks optional null len }
{
    !optional && (null || len == 0)
}

// Whether a byte is barred from strings: a zero, or what ends a line.
fn is_barred(b: u8) -> bool
    ensures { result ≡ barred b }
{
    matches!(b, 0 | LINE_FEED | CARRIAGE_RETURN)
}

// Whether a byte is below the number above all barred ones. Every barred byte is, and of the others hardly one stands in a string.
fn is_low(b: u8) -> bool
    ensures { result ≡ low b }
{
    b < ABOVE_BARRED
}

// Whether `count` bytes from a place on hold a low one. There is no early way out: for a constant count the fold becomes one comparison of a
// vector, or two, and `any`, which was tried, goes byte by byte.
fn part_holds_low(text: &[u8], at: usize, count: usize) -> bool
    requires { at + count ≤ length text.now }
    ensures { result ≡ holds_low (part text.now at count) }
{
    text[at..at + count]
        .iter()
        .fold(false, |found, &b| found | is_low(b))
}

// `holds_low` for a text of one to two blocks of `count` bytes: the first and the last block, which may overlap.
#[tactic(auto, using(crate::proofs::Blocks::any_ends))]
fn ends_hold_low(text: &[u8], count: usize) -> bool
    requires count_in_bounds { count ≤ length text.now }
    requires text_len_bound { length text.now ≤ count + count }
    ensures { result ≡ holds_low text.now }
{
    let last = text.len() - count;
    part_holds_low(text, 0, count) | part_holds_low(text, last, count)
}

// `holds_low` for a text of one block of `count` bytes or more: block after block, then the last one, which may overlap the one before it.
// The early way out is behind a whole block, so that the bytes of a block are judged together.
fn blocks_hold_low(text: &[u8], count: usize) -> bool
    requires count_nonzero { 0 < count }
    requires count_in_bounds { count ≤ length text.now }
    ensures { result ≡ holds_low text.now }
{
    let last = text.len() - count;
    for at in (0..last).step_by(count) {
        if part_holds_low(text, at, count) {
            return true;
        }
    }
    part_holds_low(text, last, count)
}

// Whether a text holds a low byte. Only a text that is shorter than the least block is judged byte by byte.
#[tactic(auto, using(crate::proofs::Blocks::any_whole))]
fn holds_low(text: &[u8]) -> bool
    ensures { result ≡ holds_low text.now }
{
    let n = text.len();
    if DOUBLE_BLOCK <= n {
        return blocks_hold_low(text, DOUBLE_BLOCK);
    }
    if BLOCK <= n {
        return ends_hold_low(text, BLOCK);
    }
    if HALF_BLOCK <= n {
        return ends_hold_low(text, HALF_BLOCK);
    }
    if QUARTER_BLOCK <= n {
        return ends_hold_low(text, QUARTER_BLOCK);
    }
    part_holds_low(text, 0, n)
}

// `holds_barred` for a text that may hold a barred byte: each byte is held against all of them, with no early way out, as above.
fn finds_barred(text: &[u8]) -> bool
    ensures { result ≡ holds_barred text.now }
{
    text.iter().fold(false, |found, &b| found | is_barred(b))
}

// Whether a text holds a byte that no string may hold. Only a text with a low byte is looked through for one.
#[tactic(auto, using(crate::proofs::Clear::none_barred))]
pub fn holds_barred(text: &[u8]) -> bool
    ensures { result ≡ holds_barred text.now }
{
    holds_low(text) && finds_barred(text)
}

// Whether a string may stand in a field, None for null, judged for building as reading judges it.
#[tactic(auto, unfolding(crate::specs::Field::string_allowed))]
pub fn allows_string(optional: bool, text: Option<&[u8]>) -> bool
    ensures { result ≡ string_allowed optional (is_null text.entry) (bytes_in text.entry) }
{
    match text {
        None => optional,
        Some(text) => !lacks(optional, false, text.len()) && !holds_barred(text),
    }
}
