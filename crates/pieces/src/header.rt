// A header, of a Forward or of a Send Headers.
#![tactic(auto, using(crate::proofs::Calls::pieces), unfolding(building::specs::Fault::fit_fault, building::specs::Field::size_told, building_record::specs::Record::count_fault, crate::specs::Header::value_fault, crate::specs::Header::coded_call, crate::specs::Header::spelled_call, crate::specs::Header::named_call))]

ghost use Rattle.std.specs.Prelude.{◌≡◌, ◌++◌, length};
ghost use Rattle.wire.specs.Bytes.{over, integer_bytes};
ghost use Rattle.wire.specs.Field.{string_bytes};
ghost use Rattle.wire.specs.Packet.{Fits};
ghost use Rattle.wire.specs.Text.{is_null, bytes_in};
ghost use Rattle.wire.specs.Read.{fault_number};
ghost use Rattle.names.specs.Header.{header_names};
ghost use Rattle.names.specs.Names.{code_in};
ghost use Rattle.building.specs.Fault.{first_fault};
ghost use Rattle.building.specs.Field.{needed_at};
ghost use Rattle.building.specs.Call.{outcome, buffer_after};
ghost use Rattle.building_record.specs.Record.{direction_in};
ghost use Rattle.pieces.specs.Meaning.{added_outcome};
ghost use Rattle.pieces.specs.Header.{value_fault, spelled_name, coded_fields, spelled_fields, coded_call, spelled_call, named_call, named_needs};

use crate::code::of_header;
use crate::with_header;
use building::{fault, size};
use building_record::Building;
use headers::{declared_after, declares_length};
use names::header::{code_fault, spelled_fault};
use packet::Direction;
use wire::refusal::Refusal;
use wire::{StringField, write};

// How many bytes a buffer needs for a header with a code for its name, 8193 where no packet has room for it.
pub fn coded_needs(building: Building, code: u16, value: Option<&[u8]>) -> usize
    ensures { result ≡ needed_at building.next.0 (coded_fields (direction_in building) code (is_null value.entry) (bytes_in value.entry)) }
{
    size::string(size::plus(building.next.index(), size::INTEGER), value)
}

// How many bytes a buffer needs for a header with a spelled name, 8193 where no packet has room for it.
pub fn spelled_needs(building: Building, name: Option<&[u8]>, value: Option<&[u8]>) -> usize
    ensures { result ≡ needed_at building.next.0 (spelled_fields (direction_in building) (is_null name.entry) (bytes_in name.entry) (is_null value.entry) (bytes_in value.entry)) }
{
    size::string(size::string(building.next.index(), name), value)
}

// How many bytes a buffer needs for a header whose name is given as a text, 8193 where no packet has room for it.
pub fn named_needs(building: Building, name: &[u8], value: Option<&[u8]>) -> usize
    ensures { result ≡ named_needs building name.now (is_null value.entry) (bytes_in value.entry) (code_in (header_names (direction_in building)) name.now) }
{
    match of_header(building.kind, name) {
        Some(code) => coded_needs(building, code, value),
        None => spelled_needs(building, Some(name), value),
    }
}

// The fault of a header's value.
fn value_fault(declares: bool, text: Option<&[u8]>) -> Result<(), Refusal>
    ensures { fault_number result ≡ value_fault declares (is_null text.entry) (bytes_in text.entry) }
{
    fault::string(StringField::HeaderValue, text)?;
    declared_after(declares, None, text)?;
    Ok(())
}

// The fault of a header's spelled name.
fn name_fault(direction: Direction, name: Option<&[u8]>) -> Result<(), Refusal>
    ensures { fault_number result ≡ (spelled_name direction (is_null name.entry) (bytes_in name.entry)).fault }
{
    fault::string(StringField::HeaderName, name)?;
    spelled_fault(direction, name.unwrap_or(&[]))
}

// The first fault of a header by code: the record, the name, the value, the number of headers.
fn coded_header_fault(
    building: Building,
    buffer: &[u8],
    code: u16,
    value: Option<&[u8]>,
) -> Result<(), Refusal>
    ensures { fault_number result ≡ first_fault (coded_call building buffer.now code (is_null value.entry) (bytes_in value.entry)).faults }
{
    let direction = building.direction();
    building.header_now(buffer)?;
    code_fault(direction, code)?;
    value_fault(declares_length(direction, code), value)?;
    building.count_fault()
}

// The first fault of a header with a spelled name.
fn spelled_header_fault(
    building: Building,
    buffer: &[u8],
    name: Option<&[u8]>,
    value: Option<&[u8]>,
) -> Result<(), Refusal>
    ensures { fault_number result ≡ first_fault (spelled_call building buffer.now (is_null name.entry) (bytes_in name.entry) (is_null value.entry) (bytes_in value.entry)).faults }
{
    building.header_now(buffer)?;
    name_fault(building.direction(), name)?;
    value_fault(false, value)?;
    building.count_fault()
}

// Writes a header with a code for its name.
fn write_coded(buffer: &mut [u8], at: usize, code: u16, value: Option<&[u8]>)
    requires { Fits at (integer_bytes code ++ string_bytes (is_null value) (bytes_in value)) buffer.old }
    ensures { buffer.new ≡ over buffer.old at (integer_bytes code ++ string_bytes (is_null value.entry) (bytes_in value.entry)) }
{
    let at = write::integer(buffer, at, code);
    write::string(buffer, at, value);
}

// Adds a header with a code for its name.
pub fn coded(
    building: Building,
    buffer: &mut [u8],
    code: u16,
    value: Option<&[u8]>,
) -> Result<Building, Refusal>
    ensures result_value { added_outcome result ≡ outcome (coded_call building buffer.old code (is_null value.entry) (bytes_in value.entry)) (length buffer.old) }
    ensures buffer_after { buffer.new ≡ buffer_after (coded_call building buffer.old code (is_null value.entry) (bytes_in value.entry)) buffer.old }
{
    let end = coded_needs(building, code, value);
    coded_header_fault(building, buffer, code, value)?;
    fault::fit(end, buffer.len())?;
    write_coded(buffer, building.next.index(), code, value);
    Ok(with_header(building, end))
}

// Adds a header with a spelled name.
pub fn spelled(
    building: Building,
    buffer: &mut [u8],
    name: Option<&[u8]>,
    value: Option<&[u8]>,
) -> Result<Building, Refusal>
    ensures result_value { added_outcome result ≡ outcome (spelled_call building buffer.old (is_null name.entry) (bytes_in name.entry) (is_null value.entry) (bytes_in value.entry)) (length buffer.old) }
    ensures buffer_after { buffer.new ≡ buffer_after (spelled_call building buffer.old (is_null name.entry) (bytes_in name.entry) (is_null value.entry) (bytes_in value.entry)) buffer.old }
{
    let end = spelled_needs(building, name, value);
    spelled_header_fault(building, buffer, name, value)?;
    fault::fit(end, buffer.len())?;
    write::two_strings(buffer, building.next.index(), name, value);
    Ok(with_header(building, end))
}

// Adds a header whose name is given as a text: by its code where the name is listed, else spelled out.
pub fn named(
    building: Building,
    buffer: &mut [u8],
    name: &[u8],
    value: Option<&[u8]>,
) -> Result<Building, Refusal>
    ensures result_value { added_outcome result ≡ outcome (named_call building buffer.old name.now (is_null value.entry) (bytes_in value.entry)) (length buffer.old) }
    ensures buffer_after { buffer.new ≡ buffer_after (named_call building buffer.old name.now (is_null value.entry) (bytes_in value.entry)) buffer.old }
{
    match of_header(building.kind, name) {
        Some(code) => coded(building, buffer, code, value),
        None => spelled(building, buffer, Some(name), value),
    }
}
