// Listed names as bytes and their lists as numbers.
ghost use Rattle.std.specs.Prelude.{◌≡◌, length};
ghost use Rattle.wire.specs.Pick.{pick};
ghost use Rattle.names.specs.Names.{is_listed, name_for};
ghost use Rattle.names.specs.Row.{row_of};
ghost use Rattle.words.specs.Failure.{status_number};
ghost use Rattle.view_words.specs.Name.{list_in, list_fault, name_fault};

use names::{NameList, table};
use packet::NAME_ROOM;
use words::status::Failure;

// The lists of names, each by its number.
const METHODS: u32 = 0;

const REQUEST_HEADERS: u32 = 1;

const RESPONSE_HEADERS: u32 = 2;

const ATTRIBUTES: u32 = 3;

// What is told in place of a code where there is none.
pub const NO_CODE: u32 = 0;

// The list that a number says: a number that is none of a list is taken for the last.
#[tactic(auto, unfolding(crate::specs::Name::list_in))]
pub fn list_in(word: u32) -> NameList
    ensures { result ≡ list_in word }
{
    match word {
        METHODS => NameList::Methods,
        REQUEST_HEADERS => NameList::RequestHeaders,
        RESPONSE_HEADERS => NameList::ResponseHeaders,
        _ => NameList::Attributes,
    }
}

// The fault of a list's number.
pub fn list_fault(list: u32) -> Result<(), Failure>
    ensures { status_number result ≡ list_fault list }
{
    if list <= ATTRIBUTES {
        Ok(())
    } else {
        Err(Failure::Argument)
    }
}

// The fault of a call that tells a name.
#[tactic(auto, unfolding(crate::specs::Name::name_fault))]
pub fn name_fault(list: u32, name: &[u8]) -> Result<(), Failure>
    ensures { status_number result ≡ name_fault list name.now }
{
    if name.len() != NAME_ROOM {
        return Err(Failure::AnswerLength);
    }
    list_fault(list)
}

// Writes the name for a code, zeros behind it, and tells how long it is; where no such code is listed it writes nothing and tells 0.
pub fn put_name(name: &mut [u8; NAME_ROOM], list: NameList, code: u16) -> u32
    ensures value { result ≡ length (name_for list code) }
    ensures name_after { name.new ≡ pick (is_listed list code) (row_of (name_for list code)) name.old }
{
    let told = table::name_of(list, code);
    let bytes = told.bytes;
    if table::is_listed(list, code) {
        *name = bytes;
    }
    told.len as u32
}
