// Flags and 16-bit numbers as words.
ghost use Rattle.std.specs.Prelude.{◌≡◌};
ghost use Rattle.words.specs.Number.{flag_in, capped, flag_fault, number_fault};
ghost use Rattle.words.specs.Failure.{status_number};

use crate::status::Failure;

// The words of a flag, and the greatest 16-bit number.
pub const CLEAR: u32 = 0;

pub const SET: u32 = 1;

pub const LAST_NUMBER: u32 = 65535;

// The flag that a word is.
pub fn flag_in(word: u32) -> bool
    ensures { result ≡ flag_in word }
{
    word == SET
}

// The 16-bit number that a word stands for: a word above 65535 stands for 65535.
#[tactic(auto, unfolding(crate::specs::Number::capped))]
pub fn number_in(word: u32) -> u16
    ensures { result ≡ capped word }
{
    word.min(LAST_NUMBER) as u16
}

// The fault of an argument that has to be a flag.
#[tactic(auto, unfolding(crate::specs::Number::flag_fault))]
pub fn flag_fault(word: u32) -> Result<(), Failure>
    ensures { status_number result ≡ flag_fault word }
{
    if word <= SET {
        Ok(())
    } else {
        Err(Failure::Argument)
    }
}

// The fault of an argument that has to be a 16-bit number.
#[tactic(auto, unfolding(crate::specs::Number::number_fault))]
pub fn number_fault(word: u32) -> Result<(), Failure>
    ensures { status_number result ≡ number_fault word }
{
    if word <= LAST_NUMBER {
        Ok(())
    } else {
        Err(Failure::Argument)
    }
}
