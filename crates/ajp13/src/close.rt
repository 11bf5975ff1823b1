// Closing a packet that was built in pieces.
ghost use Rattle.std.specs.Prelude.{◌≡◌};
ghost use Rattle.words.specs.Failure.{status_number};
ghost use Rattle.answers.specs.Effect.{leaves};
ghost use Rattle.ajp13.specs.Sending.{close_effect};

use crate::send::tell_written;
use words::building_words::{building_fault, building_in};
use words::connection_words::{connection_fault, connection_in};
use words::status::{Failure, status_of};

// Closes the packet that a building record says.
#[tactic(auto, using(crate::proofs::Within::close_within), unfolding(words::specs::ConnectionWords::connection_fault, words::specs::BuildingWords::building_fault, answers::specs::Answer::answer_fault, crate::specs::Sending::close_fault, crate::specs::Sending::close_effect))]
fn close(
    connection: &mut [u32],
    building: &[u32],
    buffer: &mut [u8],
    answer: &mut [u32],
) -> Result<(), Failure>
    ensures { leaves (status_number result) connection.new buffer.new answer.new ≡ close_effect connection.old building.now buffer.old answer.old }
{
    let words = connection.as_mut_array().ok_or(Failure::ConnectionLength)?;
    connection_fault(words)?;
    let building = building.as_array().ok_or(Failure::BuildingLength)?;
    building_fault(building)?;
    let answer = answer.as_mut_array().ok_or(Failure::AnswerLength)?;
    let record = building_in(building);
    let sent = closing::close(connection_in(words), record, buffer);
    tell_written(record.kind.kind(), sent, words, answer)
}

// The same for C.
#[unsafe(no_mangle)]
pub extern "C" fn ajp13_words_close(
    connection: &mut [u32],
    building: &[u32],
    buffer: &mut [u8],
    answer: &mut [u32],
) -> u32
    ensures { leaves result connection.new buffer.new answer.new ≡ close_effect connection.old building.now buffer.old answer.old }
{
    status_of(close(connection, building, buffer, answer))
}
