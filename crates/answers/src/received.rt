// What is told of a packet that was to be read. "needs" writes the answer alone; a refusal writes nothing.
ghost use Rattle.std.specs.Prelude.{◌≡◌, List, ℕ, ◌≤◌};
ghost use Rattle.connection.specs.Connection.{max_packet};
ghost use Rattle.words.specs.ConnectionWords.{connection_words};
ghost use Rattle.answers.specs.Answer.{part_words};
ghost use Rattle.answers.specs.Told.{told_by, received_by, after_reading};
ghost use Rattle.answers.specs.Effect.{leaves};
ghost use Rattle.answers.specs.Private.{ReadWithin};

use crate::answer::{ANSWER_SIZE, bytes_word, needs_words, packet_words, part_words};
use connection::{Connection, Kind};
use packet::Part;
use payload::field::Fault;
use reader::Received;
use words::connection_words::{CONNECTION_SIZE, connection_words};
use words::status;

// Tells what the reader answered: done or "needs", the connection after it and the answer's words.
pub fn tell_received<E: Fault>(
    received: Result<Received, E>,
    connection: &mut [u32; CONNECTION_SIZE],
    answer: &mut [u32; ANSWER_SIZE],
) -> Result<u32, E>
    requires { ReadWithin (received_by E.number received) }
    ensures { (table : List ℕ) → leaves (told_by E.number result) connection.new table answer.new ≡ after_reading (received_by E.number received) connection.old table answer.old }
{
    match received? {
        Received::Needs(n) => {
            *answer = needs_words(bytes_word(n));
            Ok(status::NEEDS)
        }
        Received::Accepted {
            packet,
            taken,
            connection: after,
        } => {
            *connection = connection_words(after);
            *answer = packet_words(packet, bytes_word(taken));
            Ok(status::DONE)
        }
    }
}

// Tells of a body packet or a chunk that was accepted, in the same way as any packet; it is small, so that it becomes part of its caller.
pub fn tell_part(
    kind: Kind,
    part: Part,
    taken: usize,
    after: Connection,
    connection: &mut [u32; CONNECTION_SIZE],
    answer: &mut [u32; ANSWER_SIZE],
)
    requires { taken ≤ max_packet }
    ensures connection_after { connection.new ≡ connection_words after }
    ensures answer_after { answer.new ≡ part_words kind part taken }
{
    *connection = connection_words(after);
    *answer = part_words(kind, part, bytes_word(taken));
}
