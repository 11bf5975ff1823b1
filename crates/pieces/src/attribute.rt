// An attribute of a Forward: with a string, an integer, or a name and a value.
#![tactic(auto, using(crate::proofs::Calls::pieces), unfolding(building::specs::Fault::fit_fault, building::specs::Field::size_told, crate::specs::Attribute::text_call, crate::specs::Attribute::integer_call, crate::specs::Attribute::pair_call))]

ghost use Rattle.std.specs.Prelude.{◌≡◌, ◌∷◌, ◌++◌, ◌≤◌, length};
ghost use Rattle.wire.specs.Bytes.{over, integer_bytes};
ghost use Rattle.wire.specs.Field.{string_bytes};
ghost use Rattle.wire.specs.Refusal.{attribute_wrong};
ghost use Rattle.wire.specs.Packet.{Fits};
ghost use Rattle.wire.specs.Text.{is_null, bytes_in};
ghost use Rattle.wire.specs.Read.{fault_number};
ghost use Rattle.names.specs.Attribute.{attribute_kind};
ghost use Rattle.building.specs.Fault.{unless, or_else, first_fault};
ghost use Rattle.building.specs.Field.{needed_at};
ghost use Rattle.building.specs.Call.{outcome, buffer_after};
ghost use Rattle.building_record.specs.Record.{attribute_now};
ghost use Rattle.pieces.specs.Meaning.{added_outcome};
ghost use Rattle.pieces.specs.Attribute.{is_text, is_integer, is_pair, text_fields, integer_fields, pair_fields, text_call, integer_call, pair_call};

use crate::with_attribute;
use building::{fault, size};
use building_record::Building;
use names::attribute::kind_of;
use packet::AttributeKind;
use wire::refusal::Refusal;
use wire::{StringField, write};

// The greatest code that a byte holds.
const MAX_CODE: u16 = 255;

// What value the attribute with a code has; no code past a byte is served.
fn kind_of_code(code: u16) -> AttributeKind
    ensures { result ≡ attribute_kind code }
{
    if MAX_CODE < code {
        return AttributeKind::NotServed;
    }
    kind_of(code as u8)
}

// Whether a kind of value is a string.
fn is_text(kind: AttributeKind) -> bool
    ensures { result ≡ is_text kind }
{
    matches!(kind, AttributeKind::Text)
}

// Whether a kind of value is an integer.
fn is_integer(kind: AttributeKind) -> bool
    ensures { result ≡ is_integer kind }
{
    matches!(kind, AttributeKind::Integer)
}

// Whether a kind of value is a name and a value.
fn is_pair(kind: AttributeKind) -> bool
    ensures { result ≡ is_pair kind }
{
    matches!(kind, AttributeKind::Pair)
}

// How many bytes a buffer needs for an attribute with a string, 8193 where no packet has room for it.
pub fn text_needs(building: Building, code: u16, value: Option<&[u8]>) -> usize
    ensures { result ≡ needed_at building.next.0 (text_fields code (is_null value.entry) (bytes_in value.entry)) }
{
    size::string(size::plus(building.next.index(), size::BYTE), value)
}

// How many bytes a buffer needs for an attribute with an integer, 8193 where no packet has room for it.
pub fn integer_needs(building: Building, code: u16, value: u16) -> usize
    ensures { result ≡ needed_at building.next.0 (integer_fields code value) }
{
    size::plus(size::plus(building.next.index(), size::BYTE), size::INTEGER)
}

// How many bytes a buffer needs for an attribute with a name and a value, 8193 where no packet has room for it.
pub fn pair_needs(building: Building, code: u16, name: Option<&[u8]>, value: Option<&[u8]>) -> usize
    ensures { result ≡ needed_at building.next.0 (pair_fields code (is_null name.entry) (bytes_in name.entry) (is_null value.entry) (bytes_in value.entry)) }
{
    let at = size::plus(building.next.index(), size::BYTE);
    let at = size::string(at, name);
    size::string(at, value)
}

// The first fault of an attribute up to its value: the record, and a code that takes no value of this kind.
fn code_fault(building: Building, buffer: &[u8], takes: bool) -> Result<(), Refusal>
    ensures { fault_number result ≡ or_else (attribute_now building buffer.now) (unless takes attribute_wrong) }
{
    building.attribute_now(buffer)?;
    fault::unless(takes, Refusal::AttributeWrong)
}

// The first fault of an attribute with a string.
fn text_fault(
    building: Building,
    buffer: &[u8],
    code: u16,
    value: Option<&[u8]>,
) -> Result<(), Refusal>
    ensures { fault_number result ≡ first_fault (text_call building buffer.now code (is_null value.entry) (bytes_in value.entry)).faults }
{
    code_fault(building, buffer, is_text(kind_of_code(code)))?;
    fault::string(StringField::AttributeValue, value)
}

// The first fault of an attribute with an integer.
fn integer_fault(building: Building, buffer: &[u8], code: u16, value: u16) -> Result<(), Refusal>
    ensures { fault_number result ≡ first_fault (integer_call building buffer.now code value).faults }
{
    code_fault(building, buffer, is_integer(kind_of_code(code)))
}

// The first fault of an attribute with a name and a value.
fn pair_fault(
    building: Building,
    buffer: &[u8],
    code: u16,
    name: Option<&[u8]>,
    value: Option<&[u8]>,
) -> Result<(), Refusal>
    ensures { fault_number result ≡ first_fault (pair_call building buffer.now code (is_null name.entry) (bytes_in name.entry) (is_null value.entry) (bytes_in value.entry)).faults }
{
    code_fault(building, buffer, is_pair(kind_of_code(code)))?;
    fault::string(StringField::AttributeName, name)?;
    fault::string(StringField::AttributeValue, value)
}

// Writes an attribute with a string.
fn write_text(buffer: &mut [u8], at: usize, code: u16, value: Option<&[u8]>)
    requires { (code ≤ 255) × Fits at (code ∷ string_bytes (is_null value) (bytes_in value)) buffer.old }
    ensures { buffer.new ≡ over buffer.old at (code ∷ string_bytes (is_null value.entry) (bytes_in value.entry)) }
{
    let at = write::byte(buffer, at, code as u8);
    write::string(buffer, at, value);
}

// Writes an attribute with an integer.
fn write_integer(buffer: &mut [u8], at: usize, code: u16, value: u16)
    requires { (code ≤ 255) × Fits at (code ∷ integer_bytes value) buffer.old }
    ensures { buffer.new ≡ over buffer.old at (code ∷ integer_bytes value) }
{
    let at = write::byte(buffer, at, code as u8);
    write::integer(buffer, at, value);
}

// Writes an attribute with a name and a value.
fn write_pair(buffer: &mut [u8], at: usize, code: u16, name: Option<&[u8]>, value: Option<&[u8]>)
    requires { (code ≤ 255) × Fits at (code ∷ (string_bytes (is_null name) (bytes_in name) ++ string_bytes (is_null value) (bytes_in value))) buffer.old }
    ensures { buffer.new ≡ over buffer.old at (code ∷ (string_bytes (is_null name.entry) (bytes_in name.entry) ++ string_bytes (is_null value.entry) (bytes_in value.entry))) }
{
    let at = write::byte(buffer, at, code as u8);
    write::two_strings(buffer, at, name, value);
}

// Adds an attribute with a string.
pub fn text(
    building: Building,
    buffer: &mut [u8],
    code: u16,
    value: Option<&[u8]>,
) -> Result<Building, Refusal>
    ensures result_value { added_outcome result ≡ outcome (text_call building buffer.old code (is_null value.entry) (bytes_in value.entry)) (length buffer.old) }
    ensures buffer_after { buffer.new ≡ buffer_after (text_call building buffer.old code (is_null value.entry) (bytes_in value.entry)) buffer.old }
{
    let end = text_needs(building, code, value);
    text_fault(building, buffer, code, value)?;
    fault::fit(end, buffer.len())?;
    write_text(buffer, building.next.index(), code, value);
    Ok(with_attribute(building, end))
}

// Adds an attribute with an integer.
pub fn integer(
    building: Building,
    buffer: &mut [u8],
    code: u16,
    value: u16,
) -> Result<Building, Refusal>
    ensures result_value { added_outcome result ≡ outcome (integer_call building buffer.old code value) (length buffer.old) }
    ensures buffer_after { buffer.new ≡ buffer_after (integer_call building buffer.old code value) buffer.old }
{
    let end = integer_needs(building, code, value);
    integer_fault(building, buffer, code, value)?;
    fault::fit(end, buffer.len())?;
    write_integer(buffer, building.next.index(), code, value);
    Ok(with_attribute(building, end))
}

// Adds an attribute with a name and a value.
pub fn pair(
    building: Building,
    buffer: &mut [u8],
    code: u16,
    name: Option<&[u8]>,
    value: Option<&[u8]>,
) -> Result<Building, Refusal>
    ensures result_value { added_outcome result ≡ outcome (pair_call building buffer.old code (is_null name.entry) (bytes_in name.entry) (is_null value.entry) (bytes_in value.entry)) (length buffer.old) }
    ensures buffer_after { buffer.new ≡ buffer_after (pair_call building buffer.old code (is_null name.entry) (bytes_in name.entry) (is_null value.entry) (bytes_in value.entry)) buffer.old }
{
    let end = pair_needs(building, code, name, value);
    pair_fault(building, buffer, code, name, value)?;
    fault::fit(end, buffer.len())?;
    write_pair(buffer, building.next.index(), code, name, value);
    Ok(with_attribute(building, end))
}
