// The short ways: a body packet at the container's end and a Send Body Chunk at the server's, each where it is whole and allowed now.
// They answer what `read` answers. Each has one caller, in which the compiler keeps all of it in registers; `read` is too large for that.
#![tactic(auto)]

ghost use Rattle.std.specs.Prelude.{◌≡◌};
ghost use Rattle.wire.specs.Field.{byte_at};
ghost use Rattle.packet.specs.declared.Direction.{Direction};
ghost use Rattle.packet.specs.declared.Packet.{Packet};
ghost use Rattle.payload.specs.Kinds.{packet_kind};
ghost use Rattle.payload.specs.Read.{PacketRead};
ghost use Rattle.reader.specs.Frame.{frame_at};
ghost use Rattle.reader.specs.Private.{sizing};
ghost use Rattle.short_ways.specs.Private.{no_part, part_in, some_size, with_part};
ghost use Rattle.short_ways.specs.Short.{whole_size, is_chunk, body_size, chunk_size, answered, part_meaning, short_reading};
ghost use Rattle.wire.specs.Packet.{code_place};

use connection::{Connection, Kind};
use packet::{Direction, Packet, Part, Place};
use payload::BODY_CHUNK;
use payload::movement::move_of;
use reader::frame::{Extent, frame};
use wire::read::byte;
use wire::refusal::Refusal;
use wire::{CODE_PLACE, part_of};

// What a short way answers of a packet that goes it and is not refused: the packet's part, how many bytes were taken, and the connection
// after it.
#[derive(Clone, Copy, Debug, PartialEq, Eq)]
pub struct ReadPart {
    pub part: Part,
    pub taken: usize,
    pub connection: Connection,
}

// The container's end reads the first packet of the bytes where it is whole and a body packet is due: it has no places for the table.
// None: the packet is another one, which `read` reads.
pub fn read_body(connection: Connection, bytes: &[u8]) -> Result<Option<ReadPart>, Refusal>
    ensures { part_meaning Packet.Body result ≡ short_reading Direction.ToContainer connection bytes.now }
{
    let Some(size) = body_size(connection, bytes) else {
        return Ok(None); // not whole, or no body packet is due
    };
    let body = part_of(bytes, 0, size);
    let found = payload::body::read(body)?;
    stepped(connection, body.len(), found)
}

// The server's end reads the first packet of the bytes where it is whole and a Send Body Chunk that is allowed, in the same way. One function
// over the direction for both would ask for it twice: which packets go the short way, and how they are read.
pub fn read_body_chunk(connection: Connection, bytes: &[u8]) -> Result<Option<ReadPart>, Refusal>
    ensures { part_meaning Packet.BodyChunk result ≡ short_reading Direction.ToServer connection bytes.now }
{
    let Some(size) = chunk_size(connection, bytes) else {
        return Ok(None); // not whole, or no chunk that is allowed
    };
    let chunk = part_of(bytes, 0, size);
    let found = payload::body_chunk::read(chunk)?;
    stepped(connection, chunk.len(), found)
}

// How many bytes the first packet has where it is whole and a body packet is due.
#[tactic(auto, unfolding(crate::specs::Short::body_size))]
fn body_size(connection: Connection, bytes: &[u8]) -> Option<usize>
    ensures { result ≡ some_size (body_size connection bytes.now) }
{
    if !connection.is_body_due() {
        return None;
    }
    whole_size(Direction::ToContainer, bytes)
}

// How many bytes the first packet has where it is whole and a Send Body Chunk that is allowed.
#[tactic(auto, unfolding(crate::specs::Short::chunk_size))]
fn chunk_size(connection: Connection, bytes: &[u8]) -> Option<usize>
    ensures { result ≡ some_size (chunk_size connection bytes.now) }
{
    if !connection.allows(Kind::BodyChunk) {
        return None;
    }
    let size = whole_size(Direction::ToServer, bytes)?;
    if !is_chunk(part_of(bytes, 0, size)) {
        return None;
    }
    Some(size)
}

// How many bytes the first packet has where it is whole.
#[tactic(auto, using(crate::proofs::ShortWays::whole_some))]
fn whole_size(direction: Direction, bytes: &[u8]) -> Option<usize>
    ensures { result ≡ some_size (whole_size (frame_at direction bytes.now)) }
{
    match frame(direction, bytes) {
        Ok(Extent::Whole(n)) => Some(n),
        _ => None,
    }
}

// Whether a packet has a code, and it is the one of a Send Body Chunk.
fn is_chunk(packet: &[u8]) -> bool
    ensures { result ≡ is_chunk (byte_at packet.now code_place) }
{
    matches!(byte(packet, CODE_PLACE), Ok(code) if code.value == BODY_CHUNK)
}

// The part of a packet that was read and whose kind is allowed now, by the step that the packet makes.
#[tactic(auto, using(crate::proofs::ShortWays::own), unfolding(reader::specs::Private::sizing))]
fn stepped(
    connection: Connection,
    taken: usize,
    packet: Packet,
) -> Result<Option<ReadPart>, Refusal>
    ensures { part_meaning (with_part (packet_kind packet) packet) result ≡ answered (sizing connection taken (PacketRead.Packet packet)) }
{
    let after = connection.step_allowed(move_of(packet))?;
    Ok(Some(ReadPart {
        part: part_in(packet),
        taken,
        connection: after,
    }))
}

// The part of a packet: one of no bytes where it is neither a body packet nor a chunk. No such packet comes here, but with `unreachable!` in
// its place the compiler makes one number of the part's place and length, and takes it apart again.
fn part_in(packet: Packet) -> Part
    ensures { result ≡ part_in packet }
{
    match packet {
        Packet::Body(part) | Packet::BodyChunk(part) => part,
        _ => Part {
            start: Place(0),
            len: 0,
        },
    }
}
