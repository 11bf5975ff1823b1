// The packets that one call builds. A packet is written from the buffer's first byte on, and its kind and length are answered; a refusal
// and an error write nothing.
ghost use Rattle.std.specs.Prelude.{◌≡◌, List, ℕ, length};
ghost use Rattle.connection.specs.declared.Connection.{Connection};
ghost use Rattle.building.specs.Fault.{or_else};
ghost use Rattle.building.specs.Call.{Call, outcome, buffer_after};
ghost use Rattle.building.specs.Sent.{Written, sent_outcome};
ghost use Rattle.words.specs.ConnectionWords.{connection_in};
ghost use Rattle.words.specs.Failure.{status_number};
ghost use Rattle.answers.specs.Effect.{leaves, call_fault};
ghost use Rattle.answers.specs.Told.{after_sending};
ghost use Rattle.answers.specs.Private.{SentWithin};
ghost use Rattle.ajp13.specs.Sending.{send_effect, cping_effect, cpong_effect, body_effect, chunk_effect, get_effect, end_effect, end_of};
ghost use Rattle.ajp13.specs.Private.{Sends};

use answers::answer::ANSWER_SIZE;
use answers::sent::{reuse_refusal, tell_sent};
use connection::{Connection, Kind, Written};
use wire::refusal::Refusal;
use words::connection_words::{CONNECTION_SIZE, connection_fault, connection_in};
use words::number::{SET, flag_in, number_fault, number_in};
use words::status::{Failure, status_of};

// Tells what sending a packet of a kind came to, and fails where it was refused.
#[tactic(auto, using(answers::proofs::Refused::sent_same))]
pub(crate) fn tell_written(
    kind: Kind,
    sent: Result<Written, Refusal>,
    connection: &mut [u32; CONNECTION_SIZE],
    answer: &mut [u32; ANSWER_SIZE],
) -> Result<(), Failure>
    requires { SentWithin (sent_outcome sent) }
    ensures { (buffer : List ℕ) → leaves (status_number result) connection.new buffer answer.new ≡ after_sending kind (sent_outcome sent) connection.old buffer answer.old }
{
    Ok(tell_sent(kind, sent, connection, answer)?)
}

// Sends a packet of a kind. The faults of the arrays come first, then that of the call's other arguments.
#[tactic(auto, using(crate::proofs::Private::sends_within), unfolding(words::specs::ConnectionWords::connection_fault, answers::specs::Answer::answer_fault, answers::specs::Effect::call_fault))]
fn send<F: FnOnce(Connection, &mut [u8]) -> Result<Written, Refusal>>(
    kind: Kind,
    connection: &mut [u32],
    buffer: &mut [u8],
    answer: &mut [u32],
    arguments: Result<(), Failure>,
    sends: F,
) -> Result<(), Failure>
    ghost call: { Connection → Call Written }
    requires { Sends F.FnOnce sends call }
    ensures { leaves (status_number result) connection.new buffer.new answer.new ≡ send_effect (or_else (call_fault connection.old answer.old) (status_number arguments)) kind (call (connection_in connection.old)) connection.old buffer.old answer.old }
{
    let words = connection.as_mut_array().ok_or(Failure::ConnectionLength)?;
    connection_fault(words)?;
    let answer = answer.as_mut_array().ok_or(Failure::AnswerLength)?;
    arguments?;
    tell_written(kind, sends(connection_in(words), buffer), words, answer)
}

// A CPing: the container is asked whether it is there.
#[tactic(auto, using(building::proofs::Sizes::or_none), unfolding(crate::specs::Sending::cping_effect, writer::specs::Sending::bare_call))]
#[unsafe(no_mangle)]
pub extern "C" fn ajp13_words_cping(
    connection: &mut [u32],
    buffer: &mut [u8],
    answer: &mut [u32],
) -> u32
    ensures { leaves result connection.new buffer.new answer.new ≡ cping_effect connection.old buffer.old answer.old }
{
    status_of(send(
        Kind::CPing,
        connection,
        buffer,
        answer,
        Ok(()),
        writer::cping,
    ))
}

// A CPong: the answer to a CPing.
#[tactic(auto, using(building::proofs::Sizes::or_none), unfolding(crate::specs::Sending::cpong_effect, writer::specs::Sending::bare_call))]
#[unsafe(no_mangle)]
pub extern "C" fn ajp13_words_cpong(
    connection: &mut [u32],
    buffer: &mut [u8],
    answer: &mut [u32],
) -> u32
    ensures { leaves result connection.new buffer.new answer.new ≡ cpong_effect connection.old buffer.old answer.old }
{
    status_of(send(
        Kind::CPong,
        connection,
        buffer,
        answer,
        Ok(()),
        writer::cpong,
    ))
}

// A body packet with these bytes; without any it is the empty one.
#[tactic(auto, using(building::proofs::Sizes::or_none), unfolding(crate::specs::Sending::body_effect, writer::specs::Sending::body_call))]
#[unsafe(no_mangle)]
pub extern "C" fn ajp13_words_body(
    connection: &mut [u32],
    buffer: &mut [u8],
    bytes: &[u8],
    answer: &mut [u32],
) -> u32
    ensures { leaves result connection.new buffer.new answer.new ≡ body_effect connection.old buffer.old bytes.now answer.old }
{
    status_of(send(
        Kind::Body,
        connection,
        buffer,
        answer,
        Ok(()),
        |held, room| writer::body(held, room, bytes),
    ))
}

// A Send Body Chunk with these bytes.
#[tactic(auto, using(building::proofs::Sizes::or_none), unfolding(crate::specs::Sending::chunk_effect, writer::specs::Sending::chunk_call))]
#[unsafe(no_mangle)]
pub extern "C" fn ajp13_words_body_chunk(
    connection: &mut [u32],
    buffer: &mut [u8],
    bytes: &[u8],
    answer: &mut [u32],
) -> u32
    ensures { leaves result connection.new buffer.new answer.new ≡ chunk_effect connection.old buffer.old bytes.now answer.old }
{
    status_of(send(
        Kind::BodyChunk,
        connection,
        buffer,
        answer,
        Ok(()),
        |held, room| writer::body_chunk(held, room, bytes),
    ))
}

// A Get Body Chunk that asks for so many bytes.
#[tactic(auto, using(crate::proofs::Private::get_given), unfolding(crate::specs::Sending::get_effect, writer::specs::Sending::get_call))]
#[unsafe(no_mangle)]
pub extern "C" fn ajp13_words_get_body(
    connection: &mut [u32],
    buffer: &mut [u8],
    asked: u32,
    answer: &mut [u32],
) -> u32
    ensures { leaves result connection.new buffer.new answer.new ≡ get_effect connection.old buffer.old asked answer.old }
{
    status_of(send(
        Kind::GetBody,
        connection,
        buffer,
        answer,
        number_fault(asked),
        |held, room| writer::get_body(held, room, number_in(asked)),
    ))
}

// Sends an End, or refuses a reuse that is no flag.
#[tactic(auto, using(crate::proofs::Private::end_comes, crate::proofs::Private::end_writes, crate::proofs::Private::reuse_comes, crate::proofs::Private::reuse_writes))]
fn end(connection: Connection, buffer: &mut [u8], reuse: u32) -> Result<Written, Refusal>
    ensures result_value { sent_outcome result ≡ outcome (end_of connection reuse) (length buffer.old) }
    ensures buffer_after { buffer.new ≡ buffer_after (end_of connection reuse) buffer.old }
{
    if SET < reuse {
        return Err(reuse_refusal(connection));
    }
    writer::end(connection, buffer, flag_in(reuse))
}

// An End; `reuse` says whether the connection is used again.
#[tactic(auto, using(building::proofs::Sizes::or_none), unfolding(crate::specs::Sending::end_effect, writer::specs::Sending::end_call))]
#[unsafe(no_mangle)]
pub extern "C" fn ajp13_words_end(
    connection: &mut [u32],
    buffer: &mut [u8],
    reuse: u32,
    answer: &mut [u32],
) -> u32
    ensures { leaves result connection.new buffer.new answer.new ≡ end_effect connection.old buffer.old reuse answer.old }
{
    status_of(send(
        Kind::End,
        connection,
        buffer,
        answer,
        Ok(()),
        |held, room| end(held, room, reuse),
    ))
}
