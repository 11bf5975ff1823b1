// The fixed fields of a packet, one after the other: each is read where the one before it ends, and a refusal stays.
ghost use Rattle.std.specs.Prelude.{◌≡◌, ◌≤◌, ℕ};
ghost use Rattle.wire.specs.Refusal.{number_of};
ghost use Rattle.wire.specs.Read.{NumberRead};
ghost use Rattle.connection.specs.Connection.{max_packet};
ghost use Rattle.payload.specs.Read.{placed, field_by};
ghost use Rattle.payload.specs.Sequence.{after_code, bounded, string_after, boolean_after, byte_after, any_integer_after, integer_after, field_place, field_number};
ghost use Rattle.payload.specs.Private.{Within};

use packet::Place;
use wire::read::Field;
use wire::refusal::Refusal;
use wire::{AFTER_CODE_PLACE, CODE_PLACE, StringField, read};

// What something is refused with: a refusal, or any number.
pub trait Fault: Copy {
    // The number that it tells.
    ghost number: { Self → ℕ };

    // The fault that stands for a refusal.
    fn of(refusal: Refusal) -> Self
        ensures { number result ≡ number_of refusal };
}

impl Fault for Refusal {
    ghost number = { number_of };

    fn of(refusal: Refusal) -> Refusal {
        refusal
    }
}

impl Fault for u8 {
    ghost number = { λ n. n };

    fn of(refusal: Refusal) -> u8 {
        refusal.number()
    }
}

// A field as read: its place, its number, 0 for a string, and the place after it.
#[derive(Clone, Copy, Debug, PartialEq, Eq)]
pub struct Placed {
    pub at: usize,
    pub value: u16,
    pub next: usize,
}

impl Placed {
    // The field's place in its packet.
    pub fn place(self) -> Place
        requires { self.at ≤ max_packet }
        ensures { result.0 ≡ self.at }
    {
        Place(self.at as u16)
    }
}

// The code, which was judged before: the first field is behind it.
pub fn after_code() -> Placed
    ensures { placed result ≡ after_code }
{
    Placed {
        at: CODE_PLACE,
        value: 0,
        next: AFTER_CODE_PLACE,
    }
}

// The string behind a field.
#[tactic(auto, unfolding(crate::specs::Sequence::string_after, crate::specs::Sequence::string_field_at))]
pub fn string_after<E: Fault>(
    packet: &[u8],
    field: StringField,
    before: Result<Placed, E>,
) -> Result<Placed, E>
    ensures { field_by E.number result ≡ string_after packet.now field (field_by E.number before) }
{
    let at = before?.next;
    match read::string(packet, at, field) {
        Err(refusal) => Err(E::of(refusal)),
        Ok(string) => Ok(Placed {
            at,
            value: 0,
            next: string.next,
        }),
    }
}

// The boolean behind a field; its number is 1 for true.
#[tactic(auto, unfolding(crate::specs::Sequence::boolean_after, crate::specs::Sequence::boolean_field_at))]
pub fn boolean_after<E: Fault>(packet: &[u8], before: Result<Placed, E>) -> Result<Placed, E>
    ensures { field_by E.number result ≡ boolean_after packet.now (field_by E.number before) }
{
    let at = before?.next;
    match read::boolean(packet, at) {
        Err(refusal) => Err(E::of(refusal)),
        Ok(Field { value, next }) => Ok(Placed {
            at,
            value: value as u16,
            next,
        }),
    }
}

// The byte behind a field, which is from `low` to `high`, else it is refused with `fault`. Apart from `integer_after`: both end in
// `bounded`, and one function of the two would take the call that reads as a closure, which is longer.
#[tactic(auto, unfolding(crate::specs::Sequence::byte_after))]
pub fn byte_after<E: Fault>(
    packet: &[u8],
    low: u16,
    high: u16,
    fault: E,
    before: Result<Placed, E>,
) -> Result<Placed, E>
    ensures { field_by E.number result ≡ byte_after packet.now low high (E.number fault) (field_by E.number before) }
{
    let at = before?.next;
    match read::byte(packet, at) {
        Err(refusal) => Err(E::of(refusal)),
        Ok(number) => bounded(at, low, high, fault, number),
    }
}

// The integer behind a field, which may be any: no bounds, and no fault of its own.
#[tactic(auto, unfolding(crate::specs::Sequence::any_integer_after))]
pub fn any_integer_after<E: Fault>(packet: &[u8], before: Result<Placed, E>) -> Result<Placed, E>
    ensures { field_by E.number result ≡ any_integer_after packet.now (field_by E.number before) }
{
    let at = before?.next;
    match read::integer(packet, at) {
        Err(refusal) => Err(E::of(refusal)),
        Ok(Field { value, next }) => Ok(Placed { at, value, next }),
    }
}

// The integer behind a field, which is from `low` to `high`, else it is refused with `fault`. It is put into its callers and `string_after`
// is not: of the ways that were tried, a Forward of few headers is then read fastest.
#[inline(always)]
#[tactic(auto, unfolding(crate::specs::Sequence::integer_after))]
pub fn integer_after<E: Fault>(
    packet: &[u8],
    low: u16,
    high: u16,
    fault: E,
    before: Result<Placed, E>,
) -> Result<Placed, E>
    ensures { field_by E.number result ≡ integer_after packet.now low high (E.number fault) (field_by E.number before) }
{
    let at = before?.next;
    match read::integer(packet, at) {
        Err(refusal) => Err(E::of(refusal)),
        Ok(number) => bounded(at, low, high, fault, number),
    }
}

// A number as read at a place, which is from `low` to `high`, else it is refused with `fault`.
fn bounded<E: Fault>(
    at: usize,
    low: u16,
    high: u16,
    fault: E,
    number: Field<u16>,
) -> Result<Placed, E>
    ensures { field_by E.number result ≡ bounded at low high (E.number fault) (NumberRead.Number number.value number.next) }
{
    let Field { value, next } = number;
    if !(low..=high).contains(&value) {
        return Err(fault);
    }
    Ok(Placed { at, value, next })
}

// A field's place, 0 for a refused one.
pub fn place_of<E: Fault>(field: Result<Placed, E>) -> Place
    requires { Within max_packet (field_by E.number field) }
    ensures { result ≡ field_place (field_by E.number field) }
{
    match field {
        Err(_) => Place(0),
        Ok(field) => field.place(),
    }
}

// A field's number, 0 for a refused one.
pub fn value_of<E: Fault>(field: Result<Placed, E>) -> u16
    ensures { result ≡ field_number (field_by E.number field) }
{
    match field {
        Err(_) => 0,
        Ok(field) => field.value,
    }
}
