// The fixed fields of a Forward.
#![tactic(auto, using(crate::proofs::Calls::pieces), unfolding(building::specs::Fault::range_fault, building::specs::Fault::fit_fault, building::specs::Field::size_told, crate::specs::Fixed::forward_call))]

ghost use Rattle.std.specs.Prelude.{◌≡◌, ◌+◌, ◌≤◌, length};
ghost use Rattle.wire.specs.Bytes.{over};
ghost use Rattle.wire.specs.Packet.{Fits};
ghost use Rattle.wire.specs.Read.{fault_number};
ghost use Rattle.payload.specs.Forward.{last_method};
ghost use Rattle.building.specs.Fault.{first_fault};
ghost use Rattle.building.specs.Field.{faults_of, fields_bytes, needed_at};
ghost use Rattle.building.specs.Call.{with_fault, outcome, buffer_after};
ghost use Rattle.building_record.specs.declared.BuildingKind.{BuildingKind};
ghost use Rattle.pieces.specs.Meaning.{added_outcome, numbered_outcome};
ghost use Rattle.pieces.specs.Fixed.{no_nulls, fixed};
ghost use Rattle.pieces.specs.Strings.{fields_with, strings_with, forward_with};
ghost use Rattle.pieces.specs.Private.{forward_tail};

use crate::{COUNT_SIZE, opened};
use building::{fault, opening, size};
use building_record::{Building, BuildingKind};
use connection::Kind;
use payload::forward::{FIRST_METHOD, LAST_METHOD};
use wire::refusal::Refusal;
use wire::{AFTER_CODE_PLACE, StringField, write};

// A Forward's fixed numbers.
#[derive(Clone, Copy, Debug, PartialEq, Eq)]
pub struct Numbers {
    pub method: u16,
    pub server_port: u16,
    pub is_ssl: bool,
}

// Which of a Forward's strings are null.
#[derive(Clone, Copy, Debug, PartialEq, Eq)]
pub struct Nulls {
    pub protocol: bool,
    pub req_uri: bool,
    pub remote_addr: bool,
    pub remote_host: bool,
    pub server_name: bool,
}

impl Nulls {
    // None of them is null.
    pub fn none() -> Nulls
        ensures { result ≡ no_nulls }
    {
        Nulls {
            protocol: false,
            req_uri: false,
            remote_addr: false,
            remote_host: false,
            server_name: false,
        }
    }
}

// A Forward's strings, None for null.
#[derive(Clone, Copy, Debug, PartialEq, Eq)]
pub struct Strings<'a> {
    pub protocol: Option<&'a [u8]>,
    pub req_uri: Option<&'a [u8]>,
    pub remote_addr: Option<&'a [u8]>,
    pub remote_host: Option<&'a [u8]>,
    pub server_name: Option<&'a [u8]>,
}

// The bytes in front of the first string: four, the code and the method. Behind the last one: port, is_ssl and the count.
const BEFORE_STRINGS: usize = AFTER_CODE_PLACE + size::BYTE;

const BEHIND_STRINGS: usize = size::INTEGER + size::BYTE + COUNT_SIZE;

// The number of no fault.
const NO_FAULT: u8 = 0;

// How many bytes a buffer needs for the fixed fields, 8193 where no packet has room for them.
pub fn needs(numbers: Numbers, strings: Strings<'_>) -> usize
    ensures { result ≡ needed_at 0 (fixed BuildingKind.Forward (fields_with numbers strings.entry)) }
{
    let at = size::string(BEFORE_STRINGS, strings.protocol);
    let at = size::string(at, strings.req_uri);
    let at = size::string(at, strings.remote_addr);
    let at = size::string(at, strings.remote_host);
    let at = size::string(at, strings.server_name);
    size::plus(at, BEHIND_STRINGS)
}

// The first fault of the fixed fields.
fn fields_fault(numbers: Numbers, strings: Strings<'_>) -> Result<(), Refusal>
    ensures { fault_number result ≡ first_fault (faults_of (fixed BuildingKind.Forward (fields_with numbers strings.entry))) }
{
    fault::range(FIRST_METHOD, LAST_METHOD, numbers.method)?;
    fault::string(StringField::Protocol, strings.protocol)?;
    fault::string(StringField::ReqUri, strings.req_uri)?;
    fault::string(StringField::RemoteAddr, strings.remote_addr)?;
    fault::string(StringField::RemoteHost, strings.remote_host)?;
    fault::string(StringField::ServerName, strings.server_name)
}

// Writes the five strings and tells the place behind them.
fn write_strings(buffer: &mut [u8], at: usize, strings: Strings<'_>) -> usize
    requires { Fits at (fields_bytes (strings_with strings)) buffer.old }
    ensures value { result ≡ at + length (fields_bytes (strings_with strings.entry)) }
    ensures buffer_after { buffer.new ≡ over buffer.old at (fields_bytes (strings_with strings.entry)) }
{
    let at = write::string(buffer, at, strings.protocol);
    let at = write::string(buffer, at, strings.req_uri);
    let at = write::string(buffer, at, strings.remote_addr);
    let at = write::string(buffer, at, strings.remote_host);
    write::string(buffer, at, strings.server_name)
}

// Writes what stands behind the strings: port, is_ssl, and 0 for the count.
fn tail(buffer: &mut [u8], at: usize, numbers: Numbers) -> usize
    requires { Fits at (fields_bytes (forward_tail numbers)) buffer.old }
    ensures value { result ≡ at + length (fields_bytes (forward_tail numbers)) }
    ensures buffer_after { buffer.new ≡ over buffer.old at (fields_bytes (forward_tail numbers)) }
{
    let at = write::integer(buffer, at, numbers.server_port);
    let at = write::boolean(buffer, at, numbers.is_ssl);
    write::integer(buffer, at, 0)
}

// Writes the fixed fields.
fn write(buffer: &mut [u8], numbers: Numbers, strings: Strings<'_>)
    requires { (Fits 0 (fields_bytes (fixed BuildingKind.Forward (fields_with numbers strings))) buffer.old) × (numbers.method ≤ last_method) }
    ensures { buffer.new ≡ over buffer.old 0 (fields_bytes (fixed BuildingKind.Forward (fields_with numbers strings.entry))) }
{
    let at = opening::open(buffer, Kind::Forward, 0);
    let at = write::byte(buffer, at, numbers.method as u8);
    let at = write_strings(buffer, at, strings);
    tail(buffer, at, numbers);
}

// Begins a Forward with one fault more, if there is one, that the caller found in a field: it counts behind the faults of the other fields,
// and before 2 and 15.
pub fn begin_after(
    buffer: &mut [u8],
    numbers: Numbers,
    strings: Strings<'_>,
    later: Result<(), Refusal>,
) -> Result<Building, Refusal>
    ensures result_value { added_outcome result ≡ outcome (with_fault (forward_with numbers strings.entry) (fault_number later)) (length buffer.old) }
    ensures buffer_after { buffer.new ≡ buffer_after (with_fault (forward_with numbers strings.entry) (fault_number later)) buffer.old }
{
    let end = needs(numbers, strings);
    fields_fault(numbers, strings)?;
    later?;
    fault::fit(end, buffer.len())?;
    write(buffer, numbers, strings);
    Ok(opened(BuildingKind::Forward, end))
}

// Begins a Forward: writes its fixed fields at the buffer's start, its length and its count as 0, and answers the building record.
pub fn begin(buffer: &mut [u8], numbers: Numbers, strings: Strings<'_>) -> Result<Building, Refusal>
    ensures result_value { added_outcome result ≡ outcome (forward_with numbers strings.entry) (length buffer.old) }
    ensures buffer_after { buffer.new ≡ buffer_after (forward_with numbers strings.entry) buffer.old }
{
    begin_after(buffer, numbers, strings, Ok(()))
}

// Begins a Forward with one fault more, as `begin_after` does, where that fault is any number, 0 for none. A refusal is told by its number.
pub fn begin_with(
    buffer: &mut [u8],
    numbers: Numbers,
    strings: Strings<'_>,
    later: u8,
) -> Result<Building, u8>
    ensures result_value { numbered_outcome result ≡ outcome (with_fault (forward_with numbers strings.entry) later) (length buffer.old) }
    ensures buffer_after { buffer.new ≡ buffer_after (with_fault (forward_with numbers strings.entry) later) buffer.old }
{
    if later == NO_FAULT {
        return begin(buffer, numbers, strings).map_err(Refusal::number);
    }
    fields_fault(numbers, strings).map_err(Refusal::number)?;
    Err(later)
}
