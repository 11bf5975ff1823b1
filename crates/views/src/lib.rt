// Views of the fields of a packet, at the places that reading gives: parts of the lent bytes, not copies. Each answers for any bytes and
// any place; what is not there is told as 0, as no bytes or as a spelled name, as the definitions of `View` have it.
#![tactic(auto)]

ghost use Rattle.std.specs.Prelude.{◌≡◌, ◌+◌, get_or};
ghost use Rattle.wire.specs.Bytes.{part};
ghost use Rattle.views.specs.View.{null_view, text_view, name_view, integer_view};
ghost use Rattle.names.specs.Attribute.{attribute_kind};
ghost use Rattle.names.specs.Header.{header_names};
ghost use Rattle.names.specs.Names.{name_for};
ghost use Rattle.names.specs.Row.{padded};

use names::attribute::kind_of;
use names::{NameList, header, table};
use packet::{AttributeKind, Direction, HeaderName, Name, Part, Place};
use wire::{NULL_LENGTH, part_of, read};

// The byte at an index, 0 where it is not there.
fn byte_from(packet: &[u8], at: usize) -> u8
    ensures { result ≡ get_or packet.now at 0 }
{
    packet.get(at).copied().unwrap_or(0)
}

// The integer at an index, 0 where it is not there.
#[tactic(auto, unfolding(crate::specs::View::integer_view, wire::specs::Field::integer_at))]
fn integer_from(packet: &[u8], at: usize) -> u16
    ensures { result ≡ integer_view packet.now at }
{
    match read::integer(packet, at) {
        Ok(integer) => integer.value,
        Err(_) => 0,
    }
}

// The bytes of the string at an index; none where it is null, or where its length is not there.
#[tactic(auto, unfolding(crate::specs::View::text_view, crate::specs::View::null_view, crate::specs::View::integer_view, wire::specs::Field::integer_at, wire::specs::Bytes::part))]
fn text_from(packet: &[u8], at: usize) -> &[u8]
    ensures { result.now ≡ text_view packet.now at }
{
    match read::integer(packet, at) {
        Err(_) => &[],
        Ok(length) if length.value == NULL_LENGTH => &[],
        Ok(length) => part_of(packet, length.next, length.value as usize),
    }
}

// The integer at a place: an integer attribute's value, a string's length. 0 where it is not there.
pub fn integer_at(packet: &[u8], place: Place) -> u16
    ensures { result ≡ integer_view packet.now place.0 }
{
    integer_from(packet, place.index())
}

// Whether the string at a place is null; an empty string is not.
#[tactic(auto, unfolding(crate::specs::View::null_view))]
pub fn is_null_at(packet: &[u8], place: Place) -> bool
    ensures { result ≡ null_view packet.now place.0 }
{
    integer_at(packet, place) == NULL_LENGTH
}

// The bytes of the string at a place; none where it is null.
pub fn text_at(packet: &[u8], place: Place) -> &[u8]
    ensures { result.now ≡ text_view packet.now place.0 }
{
    text_from(packet, place.index())
}

// The header's name at a place.
#[tactic(auto, unfolding(crate::specs::View::name_view))]
pub fn name_at(packet: &[u8], place: Place) -> HeaderName
    ensures { result ≡ name_view packet.now place.0 }
{
    match packet.get(place.index()) {
        Some(first) if header::begins_code(*first) => HeaderName::Code(integer_at(packet, place)),
        _ => HeaderName::Spelled,
    }
}

// The attribute's code at a place, 0 where nothing is there.
pub fn attribute_code_at(packet: &[u8], place: Place) -> u16
    ensures { result ≡ get_or packet.now place.0 0 }
{
    u16::from(byte_from(packet, place.index()))
}

// The name that an attribute with code 0A brings with it, by the code's place.
pub fn attribute_name_at(packet: &[u8], place: Place) -> &[u8]
    ensures { result.now ≡ text_view packet.now (place.0 + 1) }
{
    text_from(packet, place.index() + 1)
}

// What value the attribute at a place has, by its code: a string, an integer, or a name and a string. Not served where no code is there.
pub fn attribute_kind_at(packet: &[u8], place: Place) -> AttributeKind
    ensures { result ≡ attribute_kind (get_or packet.now place.0 0) }
{
    kind_of(byte_from(packet, place.index()))
}

// A part of the packet: a delivered body or chunk.
pub fn bytes_of(packet: &[u8], of: Part) -> &[u8]
    ensures { result.now ≡ part packet.now of.start.0 of.len }
{
    let start = of.start;
    part_of(packet, start.index(), of.len as usize)
}

// The place at an index of the table, 0 where the table is not so long: the name of header i is at 2 * i and its value behind it; the
// attributes follow the headers.
pub fn place_at(list: &[u16], index: usize) -> Place
    ensures { result.0 ≡ get_or list.now index 0 }
{
    Place(list.get(index).copied().unwrap_or(0))
}

// The name of a header by its code; none where the direction has no such code.
pub fn header_name(direction: Direction, code: u16) -> Name
    ensures { result ≡ padded (name_for (header_names direction) code) }
{
    table::name_of(header::names_of(direction), code)
}

// The name of a method; none where there is no such method.
pub fn method_name(method: u16) -> Name
    ensures { result ≡ padded (name_for NameList.Methods method) }
{
    table::name_of(NameList::Methods, method)
}

// The name of an attribute by its code; none where the code is not served.
pub fn attribute_name(code: u16) -> Name
    ensures { result ≡ padded (name_for NameList.Attributes code) }
{
    table::name_of(NameList::Attributes, code)
}
