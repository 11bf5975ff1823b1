// What is told of a packet that was to be sent.
ghost use Rattle.std.specs.Prelude.{◌≡◌, List, ℕ};
ghost use Rattle.wire.specs.Refusal.{not_now, out_of_range, number_of};
ghost use Rattle.connection.specs.Cycle.{in_state};
ghost use Rattle.connection.specs.declared.Kind.{Kind};
ghost use Rattle.building.specs.Fault.{unless, or_else};
ghost use Rattle.answers.specs.Effect.{leaves};
ghost use Rattle.answers.specs.Told.{done_by, sent_by, after_sending};
ghost use Rattle.answers.specs.Private.{SentWithin};

use crate::answer::{ANSWER_SIZE, bytes_word, written_words};
use connection::{Connection, Kind, Written};
use payload::field::Fault;
use wire::refusal::Refusal;
use words::connection_words::{CONNECTION_SIZE, connection_words};

// Tells what sending a packet of a kind came to: the connection after it and the answer's words.
pub fn tell_sent<E: Fault>(
    kind: Kind,
    sent: Result<Written, E>,
    connection: &mut [u32; CONNECTION_SIZE],
    answer: &mut [u32; ANSWER_SIZE],
) -> Result<(), E>
    requires { SentWithin (sent_by E.number sent) }
    ensures { (buffer : List ℕ) → leaves (done_by E.number result) connection.new buffer answer.new ≡ after_sending kind (sent_by E.number sent) connection.old buffer answer.old }
{
    let written = sent?;
    *connection = connection_words(written.connection);
    *answer = written_words(kind, bytes_word(written.size));
    Ok(())
}

// The refusal of an End whose reuse is no boolean: 13 where the state does not allow an End, else 7.
pub fn reuse_refusal(connection: Connection) -> Refusal
    ensures { number_of result ≡ or_else (unless (in_state connection Kind.End) not_now) out_of_range }
{
    if connection.allows(Kind::End) {
        return Refusal::OutOfRange;
    }
    Refusal::NotNow
}
