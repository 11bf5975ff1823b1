// The attributes of a Forward: each one's code and value, one after the other, and their places. An inner crate: the layers above call
// it, a user of the library does not. A packet is a slice of its own bytes and no others.
#![tactic(auto)]

ghost use Rattle.std.specs.Prelude.{◌≡◌, [], ◌+◌, ◌≤◌, length};
ghost use Rattle.wire.specs.Bytes.{over};
ghost use Rattle.wire.specs.Bits.{bit};
ghost use Rattle.places.specs.Entries.{max_attributes};
ghost use Rattle.places.specs.Private.{max_place};
ghost use Rattle.attributes.specs.Attributes.{value_meaning, attribute_meaning, attributes_meaning, text_value_at, integer_value_at, pair_value_at, attribute_value_at, coded_at, attribute_at, attributes_at};

use names::attribute;
use packet::AttributeKind;
use places::{MAX_ATTRIBUTES, put_pair};
use wire::read::Field;
use wire::refusal::Refusal;
use wire::{StringField, read};

pub mod seen;

use seen::Seen;

// The byte behind the last attribute.
pub const LAST_MARK: u8 = 0xFF;

// An attribute as read: its code, and its value's place.
#[derive(Clone, Copy, Debug, PartialEq, Eq)]
pub struct ReadAttribute {
    pub code: u8,
    pub value: usize,
}

// A value that is a string: its place, and the place after it.
#[tactic(auto, unfolding(crate::specs::Attributes::text_value_at))]
fn text_value(packet: &[u8], at: usize) -> Result<Field<usize>, Refusal>
    ensures { value_meaning result ≡ text_value_at packet.now at }
{
    let text = read::string(packet, at, StringField::AttributeValue)?;
    Ok(Field {
        value: at,
        next: text.next,
    })
}

// A value that is an integer. Apart from `text_value`: one function of both would take the call that reads as a closure, which is longer.
#[tactic(auto, unfolding(crate::specs::Attributes::integer_value_at))]
fn integer_value(packet: &[u8], at: usize) -> Result<Field<usize>, Refusal>
    ensures { value_meaning result ≡ integer_value_at packet.now at }
{
    let number = read::integer(packet, at)?;
    Ok(Field {
        value: at,
        next: number.next,
    })
}

// A name and then a value, both strings; the value's place is the second string's.
#[tactic(auto, unfolding(crate::specs::Attributes::pair_value_at))]
fn pair_value(packet: &[u8], at: usize) -> Result<Field<usize>, Refusal>
    ensures { value_meaning result ≡ pair_value_at packet.now at }
{
    let name = read::string(packet, at, StringField::AttributeName)?;
    if name.value.is_none() {
        return Err(Refusal::StringWrong);
    }
    text_value(packet, name.next)
}

// The value at a place, of an attribute whose code stands before it.
fn value_at(packet: &[u8], at: usize, kind: AttributeKind) -> Result<Field<usize>, Refusal>
    ensures { value_meaning result ≡ attribute_value_at packet.now at kind }
{
    match kind {
        AttributeKind::NotServed => Err(Refusal::AttributeWrong),
        AttributeKind::Text => text_value(packet, at),
        AttributeKind::Integer => integer_value(packet, at),
        AttributeKind::Pair => pair_value(packet, at),
    }
}

// The attribute with this code, whose value begins at a place; `again` says that the code came before.
#[tactic(auto, unfolding(crate::specs::Attributes::coded_at))]
fn coded(
    packet: &[u8],
    at: usize,
    code: u8,
    again: bool,
) -> Result<Field<Option<ReadAttribute>>, Refusal>
    ensures { attribute_meaning result ≡ coded_at packet.now at code again }
{
    attribute::code_fault(code, again)?;
    let Field { value, next } = value_at(packet, at, attribute::kind_of(code))?;
    Ok(Field {
        value: Some(ReadAttribute { code, value }),
        next,
    })
}

// The attribute at a place, None for the byte behind the last one. `seen` has the codes that came before; `full` says that no more may
// come.
#[tactic(auto, unfolding(crate::specs::Attributes::attribute_at))]
pub fn attribute_at(
    packet: &[u8],
    at: usize,
    full: bool,
    seen: Seen,
) -> Result<Field<Option<ReadAttribute>>, Refusal>
    ensures { attribute_meaning result ≡ attribute_at packet.now at full (bit seen.bits) }
{
    let Some(&code) = packet.get(at) else {
        return Err(Refusal::CutShort);
    };
    if code == LAST_MARK {
        return Ok(Field {
            value: None,
            next: at + 1,
        });
    }
    if full {
        return Err(Refusal::TooMany);
    }
    coded(packet, at + 1, code, seen.contains(code))
}

// Reads the attributes from a place on, and puts the places of each one's code and value into a table, from an index on. Says how many
// they are, and the place after the byte behind the last one.
pub fn attributes(
    packet: &[u8],
    at: usize,
    table: &mut [u16],
    from: usize,
) -> Result<Field<usize>, Refusal>
    requires { (length packet.now ≤ max_place) × (from + (max_attributes + max_attributes) ≤ length table.old) }
    ensures value { attributes_meaning result ≡ (attributes_at packet.now at max_attributes []).end }
    ensures table_after { table.new ≡ over table.old from (attributes_at packet.now at max_attributes []).places }
{
    let mut seen = Seen::EMPTY;
    let mut place = at;
    for count in 0..MAX_ATTRIBUTES {
        let Field { value: read, next } = attribute_at(packet, place, false, seen)?;
        let Some(ReadAttribute { code, value }) = read else {
            return Ok(Field { value: count, next });
        };
        // By index: an early return answers the count, which an iterator over pairs of places would need to enumerate as well.
        put_pair(table, from + (count + count), place as u16, value as u16);
        seen.insert(code);
        place = next;
    }
    let Field { value: more, next } = attribute_at(packet, place, true, seen)?;
    match more {
        None => Ok(Field {
            value: MAX_ATTRIBUTES,
            next,
        }),
        Some(_) => Err(Refusal::TooMany),
    }
}
