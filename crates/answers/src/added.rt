// What is told of a piece that was to be added.
ghost use Rattle.std.specs.Prelude.{◌≡◌, List, [], ◌∷◌, ℕ};
ghost use Rattle.building.specs.Fault.{first_fault};
ghost use Rattle.words.specs.BuildingWords.{building_fault};
ghost use Rattle.answers.specs.Told.{done_by, added_by, piece_leaves, after_adding};

use building_record::Building;
use payload::field::Fault;
use words::building_words::{BUILDING_SIZE, building_fault, building_words};
use words::status::{DONE, Failure, status_of};

// The first fault of a building record's words and of two arguments, as numbers, since those of the arguments may be any.
#[tactic(auto, unfolding(words::specs::BuildingWords::building_fault))]
pub fn piece_fault(words: &[u32], first: u32, second: u32) -> u32
    ensures { result ≡ first_fault (building_fault words.now ∷ first ∷ second ∷ []) }
{
    let own = match words.as_array() {
        None => Failure::BuildingLength.number(),
        Some(words) => status_of(building_fault(words)),
    };
    if own != DONE {
        return own;
    }
    if first != DONE {
        return first;
    }
    second
}

// Tells what a piece came to: what it is refused with, or done with the words of the next record written.
pub fn put_added<E: Fault>(
    building: &mut [u32; BUILDING_SIZE],
    added: Result<Building, E>,
) -> Result<(), E>
    ensures { (buffer : List ℕ) → piece_leaves (done_by E.number result) building.new buffer ≡ after_adding (added_by E.number added) building.old buffer }
{
    *building = building_words(added?);
    Ok(())
}
