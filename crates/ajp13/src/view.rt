// Views of the fields of a packet at the places that reading gives, as numbers.
ghost use Rattle.std.specs.Prelude.{◌≡◌, ℕ, ◌+◌, ◌≤◌, get_or};
ghost use Rattle.names.specs.Attribute.{attribute_kind};
ghost use Rattle.building.specs.Fault.{or_else};
ghost use Rattle.building.specs.Call.{outcome_by};
ghost use Rattle.views.specs.View.{integer_view, text_view, name_view};
ghost use Rattle.words.specs.Number.{number_fault};
ghost use Rattle.words.specs.Failure.{status_number, told_number, outcome_of};
ghost use Rattle.view_words.specs.View.{text_words, text_fault, text_after, name_number, kind_number};

use building::size::BYTE;
use packet::{HeaderName, Place};
use view_words::name::NO_CODE;
use view_words::{kind_number, place_in, text_words};
use words::number::number_fault;
use words::status::{Failure, status_of, told};

// The place that an argument says.
#[tactic(auto, unfolding(words::specs::Number::number_fault))]
fn place_of(word: u32) -> Result<Place, Failure>
    ensures { outcome_of result ≡ outcome_by (number_fault word) (record { 0 = word }) }
{
    number_fault(word)?;
    Ok(place_in(word))
}

// Tells a string, so many bytes behind a place, by the view that shows it.
#[tactic(auto, unfolding(view_words::specs::View::text_fault, view_words::specs::View::text_after))]
fn tell_text<'a, F: FnOnce(&'a [u8], Place) -> &'a [u8]>(
    packet: &'a [u8],
    place: u32,
    behind: usize,
    text: &mut [u32],
    view: F,
) -> Result<(), Failure>
    requires callable { F.IsAlwaysCallable view }
    requires shows { (n : ℕ) (shown : _) → F.post view packet (record { 0 = n }) shown → shown.now ≡ text_view packet.now (n + behind) }
    requires near { behind ≤ 1 }
    ensures value { status_number result ≡ text_fault place text.old }
    ensures text_after { text.new ≡ text_after place text.old (text_words packet.now (place + behind)) }
{
    let text = text.as_mut_array().ok_or(Failure::AnswerLength)?;
    let at = place_of(place)?;
    *text = text_words(packet, at.index() + behind, view(packet, at));
    Ok(())
}

// The string at a place.
#[unsafe(no_mangle)]
pub extern "C" fn ajp13_words_text_at(packet: &[u8], place: u32, text: &mut [u32]) -> u32
    ensures value { result ≡ text_fault place text.old }
    ensures text_after { text.new ≡ text_after place text.old (text_words packet.now place) }
{
    status_of(tell_text(packet, place, 0, text, views::text_at))
}

// The name that an attribute with code 0A brings with it, by the code's place.
#[unsafe(no_mangle)]
pub extern "C" fn ajp13_words_attribute_name_at(packet: &[u8], place: u32, text: &mut [u32]) -> u32
    ensures value { result ≡ text_fault place text.old }
    ensures text_after { text.new ≡ text_after place text.old (text_words packet.now (place + 1)) }
{
    status_of(tell_text(packet, place, BYTE, text, views::attribute_name_at))
}

// The integer at a place, 0 where it is not there.
#[unsafe(no_mangle)]
pub extern "C" fn ajp13_integer_at(packet: &[u8], place: u32) -> u32
    ensures { result ≡ or_else (number_fault place) (integer_view packet.now place) }
{
    told(place_of(place).map(|at| u32::from(views::integer_at(packet, at))))
}

// The code of the header's name at a place, 0 where the name is spelled.
#[unsafe(no_mangle)]
pub extern "C" fn ajp13_header_code_at(packet: &[u8], place: u32) -> u32
    ensures { result ≡ or_else (number_fault place) (name_number (name_view packet.now place)) }
{
    told(place_of(place).map(|at| match views::name_at(packet, at) {
        HeaderName::Code(code) => u32::from(code),
        HeaderName::Spelled => NO_CODE,
    }))
}

// The attribute's code at a place, 0 where nothing is there.
#[unsafe(no_mangle)]
pub extern "C" fn ajp13_attribute_code_at(packet: &[u8], place: u32) -> u32
    ensures { result ≡ or_else (number_fault place) (get_or packet.now place 0) }
{
    told(place_of(place).map(|at| u32::from(views::attribute_code_at(packet, at))))
}

// What value the attribute at a place has, by its code.
#[unsafe(no_mangle)]
pub extern "C" fn ajp13_attribute_kind_at(packet: &[u8], place: u32) -> u32
    ensures { result ≡ or_else (number_fault place) (kind_number (attribute_kind (get_or packet.now place 0))) }
{
    told(place_of(place).map(|at| kind_number(views::attribute_kind_at(packet, at))))
}
