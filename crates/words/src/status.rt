// What a call returns: done, "needs", or the number of what failed, under the names that `specs/Status.antt` gives the numbers.
ghost use Rattle.std.specs.Prelude.{◌≡◌};
ghost use Rattle.words.specs.Failure.{failure_number, status_number, told_number};
ghost use Rattle.words.specs.declared.status.Failure.TheVariants.{Refused};

use wire::refusal::Refusal;

pub const DONE: u32 = 0;

// The packet is not whole yet: the answer tells how many bytes are needed in all.
pub const NEEDS: u32 = 0x10000;

// Why a call fails: the library refuses what it is given, or the call finds something wrong with an array or an argument itself.
#[derive(Clone, Copy, Debug, PartialEq, Eq)]
pub enum Failure {
    Refused(Refusal),
    // An array of another length than it must have, or a word of it out of range.
    ConnectionLength,
    ConnectionWord,
    BuildingLength,
    BuildingWord,
    FixedLength,
    FixedWord,
    AnswerLength,
    // An argument out of range.
    Argument,
    // A check on the way with another number of words, or with a word out of range.
    CheckingLength,
    CheckingWord,
}

impl Failure {
    // The number that a call returns for it.
    pub fn number(self) -> u32
        ensures { result ≡ failure_number self }
    {
        match self {
            Failure::Refused(refusal) => u32::from(refusal.number()),
            Failure::ConnectionLength => 0x10001,
            Failure::ConnectionWord => 0x10002,
            Failure::BuildingLength => 0x10003,
            Failure::BuildingWord => 0x10004,
            Failure::FixedLength => 0x10005,
            Failure::FixedWord => 0x10006,
            Failure::AnswerLength => 0x10007,
            Failure::Argument => 0x10008,
            Failure::CheckingLength => 0x10009,
            Failure::CheckingWord => 0x1000A,
        }
    }
}

impl From<Refusal> for Failure {
    ghost from_gives = { λ refusal failure. failure ≡ Refused refusal };

    fn from(refusal: Refusal) -> Failure {
        Failure::Refused(refusal)
    }
}

// What a call returns that has nothing else to tell.
pub fn status_of(outcome: Result<(), Failure>) -> u32
    ensures { result ≡ status_number outcome }
{
    match outcome {
        Ok(()) => DONE,
        Err(failure) => failure.number(),
    }
}

// What a call returns that tells a number.
pub fn told(number: Result<u32, Failure>) -> u32
    ensures { result ≡ told_number number }
{
    number.unwrap_or_else(Failure::number)
}
