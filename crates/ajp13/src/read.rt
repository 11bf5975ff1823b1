// Reading at both ends. "needs" writes the answer alone; a refusal and an error write nothing.
// A body packet and a chunk go a short way each, from the connection's words to the answer's without a record in memory between them.
ghost use Rattle.std.specs.Prelude.{◌≡◌, List, ℕ};
ghost use Rattle.packet.specs.declared.Direction.{Direction};
ghost use Rattle.packet.specs.declared.Packet.{Packet};
ghost use Rattle.packet.specs.declared.Part.{Part};
ghost use Rattle.words.specs.Failure.{told_number};
ghost use Rattle.reader.specs.Meaning.{received_meaning};
ghost use Rattle.answers.specs.Effect.{leaves};
ghost use Rattle.answers.specs.Told.{after_reading};
ghost use Rattle.answers.specs.Private.{ReadWithin};
ghost use Rattle.ajp13.specs.Reading.{sound_reading, read_effect};
ghost use Rattle.ajp13.specs.Private.{GoesShort};

use answers::answer::ANSWER_SIZE;
use answers::received::{tell_part, tell_received};
use connection::{Connection, Kind};
use packet::Direction;
use reader::{Received, read};
use short_ways::{ReadPart, read_body, read_body_chunk};
use wire::refusal::Refusal;
use words::connection_words::{CONNECTION_SIZE, connection_fault, connection_in};
use words::status;
use words::status::{Failure, told};

// Tells what reading answered: done or "needs", or the number that it is refused with.
#[tactic(auto, using(answers::proofs::Refused::received_same))]
fn tell_read(
    received: Result<Received, Refusal>,
    connection: &mut [u32; CONNECTION_SIZE],
    answer: &mut [u32; ANSWER_SIZE],
) -> u32
    requires { ReadWithin (received_meaning received) }
    ensures { (table : List ℕ) → leaves result connection.new table answer.new ≡ after_reading (received_meaning received) connection.old table answer.old }
{
    match tell_received(received, connection, answer) {
        Err(refusal) => u32::from(refusal.number()),
        Ok(status) => status,
    }
}

// Reads a packet of any kind, with the connection that the words say. Both ends call it for all that goes no short way, so that it stays
// out of the short ways. It takes the words, and not the record that they are: lent to it, that would stand in memory in the short ways too.
#[tactic(auto, using(crate::proofs::Within::read_within))]
fn read_any(
    direction: Direction,
    connection: &mut [u32; CONNECTION_SIZE],
    bytes: &[u8],
    table: &mut [u16],
    answer: &mut [u32; ANSWER_SIZE],
) -> u32
    ensures { leaves result connection.new table.new answer.new ≡ sound_reading direction connection.old bytes.now table.old answer.old }
{
    let received = read(direction, connection_in(connection), bytes, table);
    tell_read(received, connection, answer)
}

// The end to which packets of a direction go reads the first packet of the bytes: a short way for the parts of one kind, else as any.
#[tactic(auto, unfolding(words::specs::ConnectionWords::connection_fault, answers::specs::Answer::answer_fault, answers::specs::Effect::call_fault, crate::specs::Reading::read_effect))]
fn read_at<F: FnOnce(Connection, &[u8]) -> Result<Option<ReadPart>, Refusal>>(
    direction: Direction,
    kind: Kind,
    connection: &mut [u32],
    bytes: &[u8],
    table: &mut [u16],
    answer: &mut [u32],
    short: F,
) -> Result<u32, Failure>
    ghost of: { Part → Packet }
    requires { GoesShort F.FnOnce short direction kind of }
    ensures { leaves (told_number result) connection.new table.new answer.new ≡ read_effect direction connection.old bytes.now table.old answer.old }
{
    let words = connection.as_mut_array().ok_or(Failure::ConnectionLength)?;
    connection_fault(words)?;
    let answer = answer.as_mut_array().ok_or(Failure::AnswerLength)?;
    match short(connection_in(words), bytes)? {
        Some(read) => {
            tell_part(kind, read.part, read.taken, read.connection, words, answer);
            Ok(status::DONE)
        }
        None => Ok(read_any(direction, words, bytes, table, answer)),
    }
}

// The container's end reads the first packet of the bytes. Where it is accepted, the table has the places of its headers and attributes.
#[tactic(auto, unfolding(answers::specs::Answer::packet_words))]
#[unsafe(no_mangle)]
pub extern "C" fn ajp13_words_read_at_container(
    connection: &mut [u32],
    bytes: &[u8],
    table: &mut [u16],
    answer: &mut [u32],
) -> u32
    ensures { leaves result connection.new table.new answer.new ≡ read_effect Direction.ToContainer connection.old bytes.now table.old answer.old }
{
    told(read_at(
        Direction::ToContainer,
        Kind::Body,
        connection,
        bytes,
        table,
        answer,
        read_body,
    ))
}

// The server's end reads the first packet of the bytes, in the same way.
#[tactic(auto, unfolding(answers::specs::Answer::packet_words))]
#[unsafe(no_mangle)]
pub extern "C" fn ajp13_words_read_at_server(
    connection: &mut [u32],
    bytes: &[u8],
    table: &mut [u16],
    answer: &mut [u32],
) -> u32
    ensures { leaves result connection.new table.new answer.new ≡ read_effect Direction.ToServer connection.old bytes.now table.old answer.old }
{
    told(read_at(
        Direction::ToServer,
        Kind::BodyChunk,
        connection,
        bytes,
        table,
        answer,
        read_body_chunk,
    ))
}
