// Attribute codes: what value each has, and which may repeat.
ghost use Rattle.std.specs.Prelude.{◌≡◌};
ghost use Rattle.wire.specs.Read.{fault_number};
ghost use Rattle.names.specs.Attribute.{attribute_kind, may_repeat, is_served, attribute_fault};

use packet::AttributeKind;
use wire::refusal::Refusal;

// What value the attribute with a code has.
#[tactic(auto, unfolding(crate::specs::Attribute::attribute_kind))]
pub fn kind_of(code: u8) -> AttributeKind
    ensures { result ≡ attribute_kind code }
{
    match code {
        3..=9 => AttributeKind::Text,
        10 => AttributeKind::Pair,
        11 => AttributeKind::Integer,
        12..=13 => AttributeKind::Text,
        _ => AttributeKind::NotServed,
    }
}

// Whether a code may appear more than once.
#[tactic(auto, unfolding(crate::specs::Attribute::may_repeat))]
pub fn may_repeat(code: u8) -> bool
    ensures { result ≡ may_repeat code }
{
    code == 10
}

// Whether an attribute with a value of this kind is served.
fn is_served(kind: AttributeKind) -> bool
    ensures { result ≡ is_served kind }
{
    !matches!(kind, AttributeKind::NotServed)
}

// The fault of an attribute's code; `seen` says that it came before.
#[tactic(auto, unfolding(crate::specs::Attribute::attribute_fault))]
pub fn code_fault(code: u8, seen: bool) -> Result<(), Refusal>
    ensures { fault_number result ≡ attribute_fault code seen }
{
    if !is_served(kind_of(code)) || (seen && !may_repeat(code)) {
        return Err(Refusal::AttributeWrong);
    }
    Ok(())
}
