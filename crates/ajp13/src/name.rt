// Names and codes: the listed names of methods, headers and attributes by their codes, and the codes by the names.
ghost use Rattle.std.specs.Prelude.{◌≡◌, length};
ghost use Rattle.names.specs.Names.{name_for, code_in};
ghost use Rattle.building.specs.Fault.{or_else};
ghost use Rattle.words.specs.Number.{capped};
ghost use Rattle.words.specs.Failure.{told_number};
ghost use Rattle.view_words.specs.Name.{list_in, list_fault, name_fault, name_after, code_number};

use names::table;
use view_words::name::{NO_CODE, list_fault, list_in, put_name};
use words::number::number_in;
use words::status::{Failure, told};

#[tactic(auto, unfolding(view_words::specs::Name::name_fault, view_words::specs::Name::name_after))]
fn name_of(list: u32, code: u32, name: &mut [u8]) -> Result<u32, Failure>
    ensures value { told_number result ≡ or_else (name_fault list name.old) (length (name_for (list_in list) (capped code))) }
    ensures name_after { name.new ≡ name_after list code name.old }
{
    let bytes = name.as_mut_array().ok_or(Failure::AnswerLength)?;
    list_fault(list)?;
    Ok(put_name(bytes, list_in(list), number_in(code)))
}

// The name for a code, and how long it is; 0 where no such code is listed, and nothing is written then.
#[unsafe(no_mangle)]
pub extern "C" fn ajp13_name(list: u32, code: u32, name: &mut [u8]) -> u32
    ensures value { result ≡ or_else (name_fault list name.old) (length (name_for (list_in list) (capped code))) }
    ensures name_after { name.new ≡ name_after list code name.old }
{
    told(name_of(list, code, name))
}

fn code_of(list: u32, text: &[u8]) -> Result<u32, Failure>
    ensures { told_number result ≡ or_else (list_fault list) (code_number (code_in (list_in list) text.now)) }
{
    list_fault(list)?;
    Ok(table::code_of(list_in(list), text).map_or(NO_CODE, u32::from))
}

// The code of a name, 0 where it is not listed.
#[unsafe(no_mangle)]
pub extern "C" fn ajp13_code(list: u32, text: &[u8]) -> u32
    ensures { result ≡ or_else (list_fault list) (code_number (code_in (list_in list) text.now)) }
{
    told(code_of(list, text))
}
