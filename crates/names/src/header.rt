// What a header's name may be.
ghost use Rattle.std.specs.Prelude.{◌≡◌, None, true, false, map, ◌<◌, length};
ghost use Rattle.wire.specs.Bits.{bit};
ghost use Rattle.wire.specs.Read.{fault_number};
ghost use Rattle.names.specs.Private.{has_all, alphabet_place};
ghost use Rattle.names.specs.Names.{names_in, code_in};
ghost use Rattle.names.specs.Header.{begins_code, header_names, code_fault, is_found, is_transfer_encoding, unlisted_fault, spelled_fault};

use crate::{NameList, table, token};
use packet::{Direction, NAME_ROOM};
use wire::refusal::Refusal;

// Whether a name that begins with this byte is a code, and no string.
pub fn begins_code(first: u8) -> bool
    ensures { result ≡ begins_code first }
{
    first == 0xA0
}

// The header names of a direction.
pub fn names_of(direction: Direction) -> NameList
    ensures { result ≡ header_names direction }
{
    match direction {
        Direction::ToContainer => NameList::RequestHeaders,
        Direction::ToServer => NameList::ResponseHeaders,
    }
}

// The fault of a code as a header's name.
#[tactic(auto, unfolding(crate::specs::Header::code_fault))]
pub fn code_fault(direction: Direction, code: u16) -> Result<(), Refusal>
    ensures { fault_number result ≡ code_fault direction code }
{
    if table::is_listed(names_of(direction), code) {
        return Ok(());
    }
    Err(Refusal::NameWrong)
}

// Whether a text spells transfer-encoding.
#[tactic(auto, unfolding(crate::specs::Header::is_transfer_encoding))]
pub fn is_transfer_encoding(text: &[u8]) -> bool
    ensures { result ≡ is_transfer_encoding text.now }
{
    table::is_same(true, b"transfer-encoding", text)
}

// How many bits a set has.
const BITS: u8 = 32;

// Whether a number is in a set.
#[tactic(auto, using(wire::proofs::Bits::bit_shifted))]
fn in_set(set: u32, n: u8) -> bool
    requires { n < 32 }
    ensures { result ≡ bit set n }
{
    (set >> n) & 1 == 1
}

// What tells most texts from the listed names of a direction, as sets of numbers: the names' lengths, and the places in the alphabet of the
// letters that they begin with, capital or small.
#[derive(Clone, Copy, Debug, PartialEq, Eq)]
struct ListedSets {
    lengths: u32,
    letters: u32,
}

// The sets of a direction's listed names.
#[tactic(auto, unfolding(wire::specs::Pick::all, wire::specs::Bits::bit, crate::specs::Names::request_names, crate::specs::Names::response_names))]
fn listed_sets(direction: Direction) -> ListedSets
    ensures lengths { has_all result.lengths (map length (names_in (header_names direction))) ≡ true }
    ensures letters { has_all result.letters (map alphabet_place (names_in (header_names direction))) ≡ true }
{
    match direction {
        Direction::ToContainer => ListedSets {
            lengths: 0xF4D0,
            letters: 0x25010A,
        },
        Direction::ToServer => ListedSets {
            lengths: 0x17D50,
            letters: 0x881018,
        },
    }
}

// Whether a text may spell a listed name, by its length and its first letter, which tell most spelled names from the listed ones.
#[tactic(auto, using(crate::proofs::Codes::unlisted_long, crate::proofs::Codes::unlisted_length, crate::proofs::Codes::unlisted_letter))]
fn may_be_listed(direction: Direction, text: &[u8]) -> bool
    ensures { result ≡ false → code_in (header_names direction) text.now ≡ None }
{
    match text {
        [] => true,
        [first, ..] if text.len() <= NAME_ROOM => {
            let sets = listed_sets(direction);
            in_set(sets.lengths, text.len() as u8) && in_set(sets.letters, first % BITS)
        }
        _ => false,
    }
}

// The code of the header's name that a text spells, small and capital letters taken as one.
pub fn code_of(direction: Direction, text: &[u8]) -> Option<u16>
    ensures { result ≡ code_in (header_names direction) text.now }
{
    if !may_be_listed(direction, text) {
        return None;
    }
    table::code_of(names_of(direction), text)
}

// Whether a text spells a listed name.
fn is_listed_name(direction: Direction, text: &[u8]) -> bool
    ensures { result ≡ is_found (code_in (header_names direction) text.now) }
{
    code_of(direction, text).is_some()
}

// The fault of a text as a header's spelled name. That it is not empty is the string's own rule.
#[tactic(auto, unfolding(crate::specs::Header::spelled_fault))]
pub fn spelled_fault(direction: Direction, text: &[u8]) -> Result<(), Refusal>
    ensures { fault_number result ≡ spelled_fault direction text.now }
{
    if !token::is_token(text) || is_listed_name(direction, text) {
        return Err(Refusal::NameWrong);
    }
    unlisted_fault(direction, text)
}

// The fault of a spelled name that is not listed.
#[tactic(auto, unfolding(crate::specs::Header::unlisted_fault))]
fn unlisted_fault(direction: Direction, text: &[u8]) -> Result<(), Refusal>
    ensures { fault_number result ≡ unlisted_fault direction text.now }
{
    if matches!(direction, Direction::ToContainer) && is_transfer_encoding(text) {
        return Err(Refusal::ContentLengthWrong);
    }
    Ok(())
}
