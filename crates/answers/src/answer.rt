// The words of an answer.
ghost use Rattle.std.specs.Prelude.{◌≡◌, ◌≤◌};
ghost use Rattle.connection.specs.Connection.{max_packet};
ghost use Rattle.packet.specs.declared.Packet.{Packet};
ghost use Rattle.words.specs.Failure.{status_number};
ghost use Rattle.answers.specs.Answer.{answer_fault, row, needs_words, written_words, part_words, packet_words};
ghost use Rattle.answers.specs.Effect.{call_fault};

use connection::Kind;
use packet::{Forward, Packet, Part};
use words::connection_words::connection_fault;
use words::kinds::kind_word;
use words::status::Failure;

// How many words an answer has.
pub const ANSWER_SIZE: usize = 16;

// The word of no kind, where no packet is told of.
const NO_KIND: u32 = 0;

// A word that is kept for later.
const UNUSED: u32 = 0;

// The fault of an array lent for an answer.
#[tactic(auto, unfolding(crate::specs::Answer::answer_fault))]
pub fn answer_fault(answer: &[u32]) -> Result<(), Failure>
    ensures { status_number result ≡ answer_fault answer.now }
{
    if answer.len() == ANSWER_SIZE {
        Ok(())
    } else {
        Err(Failure::AnswerLength)
    }
}

// The fault of a connection and of an array lent for an answer.
#[tactic(auto, using(words::proofs::Failures::and_number), unfolding(words::specs::ConnectionWords::connection_fault, crate::specs::Effect::call_fault))]
pub fn call_fault(connection: &[u32], answer: &[u32]) -> Result<(), Failure>
    ensures { status_number result ≡ call_fault connection.now answer.now }
{
    let words = connection.as_array().ok_or(Failure::ConnectionLength)?;
    connection_fault(words).and(answer_fault(answer))
}

// A number of bytes as a word: no packet has more than a word holds.
pub fn bytes_word(bytes: usize) -> u32
    requires { bytes ≤ max_packet }
    ensures { result ≡ bytes }
{
    bytes as u32
}

// The words of an answer that has no more than these.
fn row(kind: u32, bytes: u32, first: u32, second: u32, headers: u32) -> [u32; ANSWER_SIZE]
    ensures { result ≡ row kind bytes first second headers }
{
    [
        kind, bytes, first, second, 0, 0, 0, 0, 0, 0, headers, 0, 0, UNUSED, UNUSED, UNUSED,
    ]
}

// What is told of a packet that is not whole.
#[tactic(auto, unfolding(crate::specs::Answer::needs_words))]
pub fn needs_words(bytes: u32) -> [u32; ANSWER_SIZE]
    ensures { result ≡ needs_words bytes }
{
    row(NO_KIND, bytes, 0, 0, 0)
}

// What is told of a packet that was written.
#[tactic(auto, unfolding(crate::specs::Answer::written_words))]
pub fn written_words(kind: Kind, bytes: u32) -> [u32; ANSWER_SIZE]
    ensures { result ≡ written_words kind bytes }
{
    row(kind_word(kind), bytes, 0, 0, 0)
}

// What is told of a body packet or a chunk.
pub fn part_words(kind: Kind, part: Part, bytes: u32) -> [u32; ANSWER_SIZE]
    ensures { result ≡ part_words kind part bytes }
{
    row(
        kind_word(kind),
        bytes,
        u32::from(part.start.0),
        u32::from(part.len),
        0,
    )
}

// What is told of a Forward.
#[tactic(auto, using(words::proofs::Flags::flag_word), unfolding(crate::specs::Answer::packet_words))]
fn forward_words(f: Forward, bytes: u32) -> [u32; ANSWER_SIZE]
    ensures { result ≡ packet_words (Packet.Forward f) bytes }
{
    [
        kind_word(Kind::Forward),
        bytes,
        u32::from(f.method),
        u32::from(f.protocol.0),
        u32::from(f.req_uri.0),
        u32::from(f.remote_addr.0),
        u32::from(f.remote_host.0),
        u32::from(f.server_name.0),
        u32::from(f.server_port),
        u32::from(f.is_ssl),
        u32::from(f.headers),
        u32::from(f.attributes),
        f.declared.0,
        UNUSED,
        UNUSED,
        UNUSED,
    ]
}

// What is told of a packet that was read.
#[tactic(auto, using(words::proofs::Flags::flag_word), unfolding(crate::specs::Answer::packet_words, crate::specs::Answer::written_words))]
pub fn packet_words(packet: Packet, bytes: u32) -> [u32; ANSWER_SIZE]
    ensures { result ≡ packet_words packet bytes }
{
    match packet {
        Packet::CPing => written_words(Kind::CPing, bytes),
        Packet::CPong => written_words(Kind::CPong, bytes),
        Packet::Forward(f) => forward_words(f, bytes),
        Packet::Body(p) => part_words(Kind::Body, p, bytes),
        Packet::GetBody(asked) => row(kind_word(Kind::GetBody), bytes, u32::from(asked), 0, 0),
        Packet::SendHeaders(h) => row(
            kind_word(Kind::SendHeaders),
            bytes,
            u32::from(h.status),
            u32::from(h.message.0),
            u32::from(h.headers),
        ),
        Packet::BodyChunk(p) => part_words(Kind::BodyChunk, p, bytes),
        Packet::End(reuse) => row(kind_word(Kind::End), bytes, u32::from(reuse), 0, 0),
    }
}
