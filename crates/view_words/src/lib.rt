// Views of a packet's fields as words: a string as three words, the number of a kind of value and (`name`) the listed names. What a view of
// `views` hands out as a slice crosses the C boundary as where it starts and how long it is.
#![tactic(auto)]

ghost use Rattle.std.specs.Prelude.{◌≡◌, ◌+◌, ◌≤◌};
ghost use Rattle.views.specs.View.{integer_view, text_view};
ghost use Rattle.words.specs.Number.{last_number};
ghost use Rattle.words.specs.Failure.{status_number};
ghost use Rattle.view_words.specs.View.{text_words, text_fault, kind_number};

use building::size::INTEGER;
use packet::{AttributeKind, Place};
use wire::{NULL_LENGTH, read};
use words::number::number_fault;
use words::status::Failure;

pub mod name;

// How many words a string has: where its bytes start, how many they are, whether it is null.
pub const TEXT_SIZE: usize = 3;

// The numbers of the kinds of value that an attribute has.
const NOT_SERVED: u32 = 0;

const TEXT_KIND: u32 = 1;

const INTEGER_KIND: u32 = 2;

const PAIR_KIND: u32 = 3;

// The place that a number says.
pub fn place_in(word: u32) -> Place
    requires { word ≤ last_number }
    ensures { result.0 ≡ word }
{
    Place(word as u16)
}

// The length of the string at an index as it stands there, 0 where it is not there.
fn length_at(packet: &[u8], at: usize) -> u16
    ensures { result ≡ integer_view packet.now at }
{
    match read::integer(packet, at) {
        Ok(length) => length.value,
        Err(_) => 0,
    }
}

// The words of the string at an index, whose bytes are shown. They start behind its length, or at the packet's end where that is nearer.
pub fn text_words(packet: &[u8], at: usize, shown: &[u8]) -> [u32; TEXT_SIZE]
    requires { (at ≤ last_number + 1) × (shown.now ≡ text_view packet.now at) }
    ensures { result ≡ text_words packet.now at }
{
    let null = length_at(packet, at) == NULL_LENGTH;
    let start = (at + INTEGER).min(packet.len()) as u32;
    let size = shown.len() as u32;
    [start, size, u32::from(null)]
}

// The fault of a call that tells a string.
#[tactic(auto, unfolding(crate::specs::View::text_fault))]
pub fn text_fault(place: u32, text: &[u32]) -> Result<(), Failure>
    ensures { status_number result ≡ text_fault place text.now }
{
    if text.len() != TEXT_SIZE {
        return Err(Failure::AnswerLength);
    }
    number_fault(place)
}

// The number of a kind of value.
pub fn kind_number(kind: AttributeKind) -> u32
    ensures { result ≡ kind_number kind }
{
    match kind {
        AttributeKind::NotServed => NOT_SERVED,
        AttributeKind::Text => TEXT_KIND,
        AttributeKind::Integer => INTEGER_KIND,
        AttributeKind::Pair => PAIR_KIND,
    }
}
