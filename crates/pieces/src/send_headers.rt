// The fixed fields of a Send Headers.
#![tactic(auto, using(crate::proofs::Calls::pieces), unfolding(building::specs::Fault::fit_fault, building::specs::Field::size_told, crate::specs::Fixed::send_headers_call))]

ghost use Rattle.std.specs.Prelude.{◌≡◌, length};
ghost use Rattle.wire.specs.Bytes.{over};
ghost use Rattle.wire.specs.Packet.{Fits};
ghost use Rattle.wire.specs.Text.{is_null, bytes_in};
ghost use Rattle.wire.specs.Read.{fault_number};
ghost use Rattle.building.specs.Fault.{first_fault};
ghost use Rattle.building.specs.Field.{faults_of, fields_bytes, needed_at};
ghost use Rattle.building.specs.Call.{outcome, buffer_after};
ghost use Rattle.building_record.specs.declared.BuildingKind.{BuildingKind};
ghost use Rattle.pieces.specs.Meaning.{added_outcome};
ghost use Rattle.pieces.specs.Fixed.{fixed, send_headers_fields, send_headers_call};

use crate::{COUNT_SIZE, opened};
use building::{fault, opening, size};
use building_record::{Building, BuildingKind};
use connection::Kind;
use payload::send_headers::{GREATEST_STATUS, LEAST_STATUS};
use wire::refusal::Refusal;
use wire::{AFTER_CODE_PLACE, StringField, write};

// The bytes in front of the message: four, the code and the status.
const BEFORE_MESSAGE: usize = AFTER_CODE_PLACE + size::INTEGER;

// How many bytes a buffer needs for the fixed fields, 8193 where no packet has room for them.
pub fn needs(status: u16, message: Option<&[u8]>) -> usize
    ensures { result ≡ needed_at 0 (fixed BuildingKind.SendHeaders (send_headers_fields status (is_null message.entry) (bytes_in message.entry))) }
{
    size::plus(size::string(BEFORE_MESSAGE, message), COUNT_SIZE)
}

// The first fault of the fixed fields.
fn fields_fault(status: u16, message: Option<&[u8]>) -> Result<(), Refusal>
    ensures { fault_number result ≡ first_fault (faults_of (fixed BuildingKind.SendHeaders (send_headers_fields status (is_null message.entry) (bytes_in message.entry)))) }
{
    fault::range(LEAST_STATUS, GREATEST_STATUS, status)?;
    fault::string(StringField::Message, message)
}

// Writes the fixed fields.
fn write(buffer: &mut [u8], status: u16, message: Option<&[u8]>)
    requires { Fits 0 (fields_bytes (fixed BuildingKind.SendHeaders (send_headers_fields status (is_null message) (bytes_in message)))) buffer.old }
    ensures { buffer.new ≡ over buffer.old 0 (fields_bytes (fixed BuildingKind.SendHeaders (send_headers_fields status (is_null message.entry) (bytes_in message.entry)))) }
{
    let at = opening::open(buffer, Kind::SendHeaders, 0);
    let at = write::integer(buffer, at, status);
    let at = write::string(buffer, at, message);
    write::integer(buffer, at, 0);
}

// Begins a Send Headers: writes its fixed fields at the buffer's start, its length and its count as 0, and answers the building record.
pub fn begin(buffer: &mut [u8], status: u16, message: Option<&[u8]>) -> Result<Building, Refusal>
    ensures result_value { added_outcome result ≡ outcome (send_headers_call status (is_null message.entry) (bytes_in message.entry)) (length buffer.old) }
    ensures buffer_after { buffer.new ≡ buffer_after (send_headers_call status (is_null message.entry) (bytes_in message.entry)) buffer.old }
{
    let end = needs(status, message);
    fields_fault(status, message)?;
    fault::fit(end, buffer.len())?;
    write(buffer, status, message);
    Ok(opened(BuildingKind::SendHeaders, end))
}
