// The pieces of a Forward and of a Send Headers, each over the words of a building record. Where a piece is added, they are the words of
// the next record; an error and a refusal leave them and the buffer as they were.
ghost use Rattle.std.specs.Prelude.{◌≡◌, List, ℕ};
ghost use Rattle.building.specs.Call.{Call};
ghost use Rattle.building_record.specs.declared.Building.{Building};
ghost use Rattle.words.specs.BuildingWords.{building_in};
ghost use Rattle.words.specs.Failure.{status_number};
ghost use Rattle.pieces.specs.Meaning.{added_outcome};
ghost use Rattle.answers.specs.Told.{piece_leaves, after_adding};
ghost use Rattle.ajp13.specs.Piece.{piece_effect, forward_piece, send_headers_piece, coded_piece, spelled_piece, named_piece, text_piece, integer_piece, pair_piece};
ghost use Rattle.ajp13.specs.Private.{Adds, record_piece};

use answers::added::put_added;
use building_record::Building;
use pieces::{attribute, forward, header, send_headers};
use wire::refusal::Refusal;
use words::building_words::{BUILDING_SIZE, building_fault, building_in};
use words::fixed_words::{fixed_fault, numbers_in, ssl_fault, strings_in};
use words::number::{flag_fault, number_fault, number_in};
use words::status::{Failure, status_of};
use words::text::text_in;

// Tells what a piece came to, and fails where it was refused.
#[tactic(auto, using(answers::proofs::Refused::added_same))]
fn tell_added(
    building: &mut [u32; BUILDING_SIZE],
    added: Result<Building, Refusal>,
) -> Result<(), Failure>
    ensures { (buffer : List ℕ) → piece_leaves (status_number result) building.new buffer ≡ after_adding (added_outcome added) building.old buffer }
{
    Ok(put_added(building, added)?)
}

// Begins a Forward.
#[tactic(auto, using(words::proofs::Texts::forward_given), unfolding(words::specs::BuildingWords::building_room, words::specs::FixedWords::fixed_fault, crate::specs::Piece::piece_effect, crate::specs::Piece::forward_piece))]
fn begin_forward(
    building: &mut [u32],
    buffer: &mut [u8],
    fixed: &[u32],
    protocol: &[u8],
    uri: &[u8],
    addr: &[u8],
    host: &[u8],
    name: &[u8],
) -> Result<(), Failure>
    ensures { piece_leaves (status_number result) building.new buffer.new ≡ piece_effect (forward_piece building.old fixed.now protocol.now uri.now addr.now host.now name.now) building.old buffer.old }
{
    let words = building.as_mut_array().ok_or(Failure::BuildingLength)?;
    fixed_fault(fixed)?;
    let fixed = fixed.as_array().ok_or(Failure::FixedLength)?;
    let strings = strings_in(fixed, protocol, uri, addr, host, name);
    let added = forward::begin_after(buffer, numbers_in(fixed), strings, ssl_fault(fixed));
    tell_added(words, added)
}

// Begins a Forward: its fixed fields.
#[unsafe(no_mangle)]
pub extern "C" fn ajp13_words_begin_forward(
    building: &mut [u32],
    buffer: &mut [u8],
    fixed: &[u32],
    protocol: &[u8],
    uri: &[u8],
    addr: &[u8],
    host: &[u8],
    name: &[u8],
) -> u32
    ensures { piece_leaves result building.new buffer.new ≡ piece_effect (forward_piece building.old fixed.now protocol.now uri.now addr.now host.now name.now) building.old buffer.old }
{
    status_of(begin_forward(building, buffer, fixed, protocol, uri, addr, host, name))
}

// Begins a Send Headers.
#[tactic(auto, using(words::proofs::Texts::send_headers_given), unfolding(words::specs::BuildingWords::building_room, crate::specs::Piece::piece_effect, crate::specs::Piece::send_headers_piece))]
fn begin_send_headers(
    building: &mut [u32],
    buffer: &mut [u8],
    status: u32,
    message: &[u8],
    null: u32,
) -> Result<(), Failure>
    ensures { piece_leaves (status_number result) building.new buffer.new ≡ piece_effect (send_headers_piece building.old status message.now null) building.old buffer.old }
{
    let words = building.as_mut_array().ok_or(Failure::BuildingLength)?;
    flag_fault(null)?;
    let added = send_headers::begin(buffer, number_in(status), text_in(null, message));
    tell_added(words, added)
}

// Begins a Send Headers: its fixed fields.
#[unsafe(no_mangle)]
pub extern "C" fn ajp13_words_begin_send_headers(
    building: &mut [u32],
    buffer: &mut [u8],
    status: u32,
    message: &[u8],
    null: u32,
) -> u32
    ensures { piece_leaves result building.new buffer.new ≡ piece_effect (send_headers_piece building.old status message.now null) building.old buffer.old }
{
    status_of(begin_send_headers(building, buffer, status, message, null))
}

// Adds a piece to the packet that a building record says. The fault of the record comes first, then that of the call's other arguments.
#[tactic(auto, unfolding(words::specs::BuildingWords::building_fault, crate::specs::Piece::piece_effect))]
fn add<F: FnOnce(Building, &mut [u8]) -> Result<Building, Refusal>>(
    building: &mut [u32],
    buffer: &mut [u8],
    arguments: Result<(), Failure>,
    adds: F,
) -> Result<(), Failure>
    ghost call: { Building → List ℕ → Call Building }
    requires { Adds F.FnOnce adds call }
    ensures { piece_leaves (status_number result) building.new buffer.new ≡ piece_effect (record_piece building.old (status_number arguments) (call (building_in building.old) buffer.old)) building.old buffer.old }
{
    let words = building.as_mut_array().ok_or(Failure::BuildingLength)?;
    building_fault(words)?;
    arguments?;
    tell_added(words, adds(building_in(words), buffer))
}

// Adds a header with a code for its name.
#[tactic(auto, unfolding(crate::specs::Piece::coded_piece))]
#[unsafe(no_mangle)]
pub extern "C" fn ajp13_words_header_coded(
    building: &mut [u32],
    buffer: &mut [u8],
    code: u32,
    value: &[u8],
    null: u32,
) -> u32
    ensures { piece_leaves result building.new buffer.new ≡ piece_effect (coded_piece building.old buffer.old code value.now null) building.old buffer.old }
{
    status_of(add(
        building,
        buffer,
        flag_fault(null),
        |record, room| header::coded(record, room, number_in(code), text_in(null, value)),
    ))
}

// Adds a header with a spelled name.
#[tactic(auto, using(words::proofs::Failures::and_number, crate::proofs::Pieces::two_given), unfolding(crate::specs::Piece::spelled_piece))]
#[unsafe(no_mangle)]
pub extern "C" fn ajp13_words_header_spelled(
    building: &mut [u32],
    buffer: &mut [u8],
    name: &[u8],
    noname: u32,
    value: &[u8],
    novalue: u32,
) -> u32
    ensures { piece_leaves result building.new buffer.new ≡ piece_effect (spelled_piece building.old buffer.old name.now noname value.now novalue) building.old buffer.old }
{
    status_of(add(
        building,
        buffer,
        flag_fault(noname).and(flag_fault(novalue)),
        |record, room| header::spelled(
            record,
            room,
            text_in(noname, name),
            text_in(novalue, value),
        ),
    ))
}

// Adds a header whose name is given as a text: by its code where the name is listed, else spelled out.
#[tactic(auto, unfolding(crate::specs::Piece::named_piece))]
#[unsafe(no_mangle)]
pub extern "C" fn ajp13_words_header_named(
    building: &mut [u32],
    buffer: &mut [u8],
    name: &[u8],
    value: &[u8],
    null: u32,
) -> u32
    ensures { piece_leaves result building.new buffer.new ≡ piece_effect (named_piece building.old buffer.old name.now value.now null) building.old buffer.old }
{
    status_of(add(
        building,
        buffer,
        flag_fault(null),
        |record, room| header::named(record, room, name, text_in(null, value)),
    ))
}

// Adds an attribute with a string.
#[tactic(auto, unfolding(crate::specs::Piece::text_piece))]
#[unsafe(no_mangle)]
pub extern "C" fn ajp13_words_attribute_text(
    building: &mut [u32],
    buffer: &mut [u8],
    code: u32,
    value: &[u8],
    null: u32,
) -> u32
    ensures { piece_leaves result building.new buffer.new ≡ piece_effect (text_piece building.old buffer.old code value.now null) building.old buffer.old }
{
    status_of(add(
        building,
        buffer,
        flag_fault(null),
        |record, room| attribute::text(record, room, number_in(code), text_in(null, value)),
    ))
}

// Adds an attribute with an integer.
#[tactic(auto, using(crate::proofs::Pieces::integer_given), unfolding(crate::specs::Piece::integer_piece))]
#[unsafe(no_mangle)]
pub extern "C" fn ajp13_words_attribute_integer(
    building: &mut [u32],
    buffer: &mut [u8],
    code: u32,
    value: u32,
) -> u32
    ensures { piece_leaves result building.new buffer.new ≡ piece_effect (integer_piece building.old buffer.old code value) building.old buffer.old }
{
    status_of(add(
        building,
        buffer,
        number_fault(value),
        |record, room| attribute::integer(record, room, number_in(code), number_in(value)),
    ))
}

// Adds an attribute with a name and a value.
#[tactic(auto, using(words::proofs::Failures::and_number, crate::proofs::Pieces::two_given), unfolding(crate::specs::Piece::pair_piece))]
#[unsafe(no_mangle)]
pub extern "C" fn ajp13_words_attribute_pair(
    building: &mut [u32],
    buffer: &mut [u8],
    code: u32,
    name: &[u8],
    noname: u32,
    value: &[u8],
    novalue: u32,
) -> u32
    ensures { piece_leaves result building.new buffer.new ≡ piece_effect (pair_piece building.old buffer.old code name.now noname value.now novalue) building.old buffer.old }
{
    status_of(add(
        building,
        buffer,
        flag_fault(noname).and(flag_fault(novalue)),
        |record, room| attribute::pair(
            record,
            room,
            number_in(code),
            text_in(noname, name),
            text_in(novalue, value),
        ),
    ))
}
