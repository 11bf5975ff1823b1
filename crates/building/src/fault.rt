// Faults: the refusal of what a call is given, by one test after the other.
ghost use Rattle.std.specs.Prelude.{◌≡◌};
ghost use Rattle.wire.specs.Text.{is_null, bytes_in};
ghost use Rattle.wire.specs.Read.{fault_number};
ghost use Rattle.wire.specs.Refusal.{number_of};
ghost use Rattle.building.specs.Fault.{unless, string_fault, range_fault, fit_fault};

use connection::Connection;
use wire::refusal::Refusal;
use wire::{StringField, allows_string, is_optional};

// The fault of a test that does not hold.
pub fn unless(holds: bool, refusal: Refusal) -> Result<(), Refusal>
    ensures { fault_number result ≡ unless holds (number_of refusal) }
{
    if holds { Ok(()) } else { Err(refusal) }
}

// The fault of a string in a field, None for null.
pub fn string(field: StringField, text: Option<&[u8]>) -> Result<(), Refusal>
    ensures { fault_number result ≡ string_fault field (is_null text.entry) (bytes_in text.entry) }
{
    unless(
        allows_string(is_optional(field), text),
        Refusal::StringWrong,
    )
}

// The fault of a number that has to be from `low` to `high`.
pub fn range(low: u16, high: u16, value: u16) -> Result<(), Refusal>
    ensures { fault_number result ≡ range_fault low high value }
{
    unless(low <= value && value <= high, Refusal::OutOfRange)
}

// The fault of bytes that end at a place, in a buffer with so much room.
pub fn fit(end: usize, room: usize) -> Result<(), Refusal>
    ensures { fault_number result ≡ fit_fault end room }
{
    unless(Connection::fits_packet(end), Refusal::TooLong)?;
    unless(end <= room, Refusal::BufferTooShort)
}
