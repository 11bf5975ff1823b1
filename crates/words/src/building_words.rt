// A building record as words.
ghost use Rattle.std.specs.Prelude.{◌≡◌};
ghost use Rattle.words.specs.BuildingWords.{building_kind_in, building_room, building_fault, building_in, building_words};
ghost use Rattle.words.specs.Failure.{status_number};

use crate::kinds::{FORWARD, SEND_HEADERS, kind_word};
use crate::number::{SET, flag_in, number_in};
use crate::status::Failure;
use building_record::{Building, BuildingKind};
use packet::Place;

// How many words, and where each stands.
pub const BUILDING_SIZE: usize = 5;

const KIND: usize = 0;

const NEXT: usize = 1;

const COUNT_PLACE: usize = 2;

const HEADERS: usize = 3;

const ATTRIBUTES: usize = 4;

// The packet in pieces that a word is: a word that is none of one is taken for a Send Headers.
#[tactic(auto, unfolding(crate::specs::BuildingWords::building_kind_in))]
fn building_kind_in(word: u32) -> BuildingKind
    ensures { result ≡ building_kind_in word }
{
    if word == FORWARD {
        return BuildingKind::Forward;
    }
    BuildingKind::SendHeaders
}

// The fault of an array that is to take a building record.
#[tactic(auto, unfolding(crate::specs::BuildingWords::building_room))]
pub fn building_room(words: &[u32]) -> Result<(), Failure>
    ensures { status_number result ≡ building_room words.now }
{
    if words.len() == BUILDING_SIZE {
        Ok(())
    } else {
        Err(Failure::BuildingLength)
    }
}

// The fault of the words of a building record.
#[tactic(auto, unfolding(crate::specs::BuildingWords::building_fault))]
pub fn building_fault(words: &[u32; BUILDING_SIZE]) -> Result<(), Failure>
    ensures { status_number result ≡ building_fault words.now }
{
    let kind = words[KIND];
    if (kind == FORWARD || kind == SEND_HEADERS) && words[ATTRIBUTES] <= SET {
        Ok(())
    } else {
        Err(Failure::BuildingWord)
    }
}

// The building record that words are, also where they have a fault.
#[tactic(auto, unfolding(crate::specs::BuildingWords::building_in))]
pub fn building_in(words: &[u32; BUILDING_SIZE]) -> Building
    ensures { result ≡ building_in words.now }
{
    Building {
        kind: building_kind_in(words[KIND]),
        next: Place(number_in(words[NEXT])),
        count: Place(number_in(words[COUNT_PLACE])),
        headers: number_in(words[HEADERS]),
        attributes: flag_in(words[ATTRIBUTES]),
    }
}

// The words of a building record.
#[tactic(auto, using(crate::proofs::Flags::flag_word), unfolding(crate::specs::BuildingWords::building_words))]
pub fn building_words(building: Building) -> [u32; BUILDING_SIZE]
    ensures { result ≡ building_words building }
{
    [
        kind_word(building.kind.kind()),
        u32::from(building.next.0),
        u32::from(building.count.0),
        u32::from(building.headers),
        u32::from(building.attributes),
    ]
}
