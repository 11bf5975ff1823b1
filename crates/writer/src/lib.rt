// The packets that one call builds: CPing and body packet at the server's end; CPong, Send Body Chunk, Get Body Chunk and End at the
// container's. A packet is written at the start of the buffer; its length and the connection after it are answered, and no byte behind it
// is touched. A refusal leaves the buffer as it was, and the connection given still counts. Every public call answers for any connection,
// any buffer and any bytes. A CPing and a CPong have 5 bytes, a Get Body Chunk 7, an End 6; `body_needs` and `body_chunk_needs` tell the
// others. A buffer of 8192 bytes is long enough for every packet.
#![tactic(auto, using(crate::proofs::Laws::writing), unfolding(wire::specs::Field::string_bytes, building::specs::Fault::fit_fault, building::specs::Field::size_told, crate::specs::Sending::bare_call, crate::specs::Sending::body_call, crate::specs::Sending::chunk_call, crate::specs::Sending::get_call, crate::specs::Sending::end_call))]

ghost use Rattle.std.specs.Prelude.{◌≡◌, length};
ghost use Rattle.wire.specs.Bytes.{over};
ghost use Rattle.wire.specs.Packet.{Fits};
ghost use Rattle.connection.specs.declared.Move.{Move};
ghost use Rattle.connection.specs.Step.{step_meaning};
ghost use Rattle.building.specs.Field.{size_told};
ghost use Rattle.building.specs.Call.{outcome, buffer_after};
ghost use Rattle.building.specs.Sent.{sent_outcome};
ghost use Rattle.writer.specs.Private.{ready_of};
ghost use Rattle.writer.specs.Sending.{packet_of, body_payload, chunk_payload, get_payload, end_payload, bare_call, cping_call, cpong_call, body_call, chunk_call, get_call, end_call};

use building::{fault, opening, size};
use connection::{Connection, Kind, Move, Written};
use packet::Direction;
use payload::body::BODY_START;
use wire::refusal::Refusal;
use wire::{AFTER_CODE_PLACE, PAYLOAD_PLACE, write};

// Payload sizes: of a CPing and a CPong, of a Get Body Chunk, of an End.
const BARE_PAYLOAD: u16 = 1;

const GET_BODY_PAYLOAD: u16 = 3;

const END_PAYLOAD: u16 = 2;

// How long these packets are.
const BARE_SIZE: usize = PAYLOAD_PLACE + BARE_PAYLOAD as usize;

const GET_BODY_SIZE: usize = PAYLOAD_PLACE + GET_BODY_PAYLOAD as usize;

const END_SIZE: usize = PAYLOAD_PLACE + END_PAYLOAD as usize;

// How many bytes a chunk's payload has beside the chunk: the code, the length and the zero; and a body packet's beside the body: the size.
const AROUND_CHUNK: usize = 4;

const BEFORE_BODY: usize = size::INTEGER;

// How many bytes a buffer needs for a body packet with these bytes, 8193 where no packet has room for them.
pub fn body_needs(bytes: &[u8]) -> usize
    ensures { result ≡ size_told (length (packet_of (Move.Body (length bytes.now)) (body_payload bytes.now))) }
{
    if bytes.is_empty() {
        return PAYLOAD_PLACE;
    }
    size::plus(BODY_START as usize, bytes.len())
}

// How many bytes a buffer needs for a Send Body Chunk with these bytes, 8193 where no packet has room for them. A chunk has the shape of a
// string, a length before and a zero behind, and is measured and written as one; its bytes are any, since no string's rule is asked.
pub fn body_chunk_needs(bytes: &[u8]) -> usize
    ensures { result ≡ size_told (length (packet_of (Move.BodyChunk (length bytes.now)) (chunk_payload bytes.now))) }
{
    size::string(AFTER_CODE_PLACE, Some(bytes))
}

// What a packet of so many bytes that makes a step comes to on a buffer with so much room: the step, then whether it fits.
fn ready(step: Result<Connection, Refusal>, size: usize, room: usize) -> Result<Written, Refusal>
    ensures { sent_outcome result ≡ ready_of (step_meaning step) size room }
{
    let connection = step?;
    fault::fit(size, room)?;
    Ok(Written { size, connection })
}

// Writes a body packet.
fn write_body(buffer: &mut [u8], bytes: &[u8])
    requires { Fits 0 (packet_of (Move.Body (length bytes.now)) (body_payload bytes.now)) buffer.old }
    ensures { buffer.new ≡ over buffer.old 0 (packet_of (Move.Body (length bytes.now)) (body_payload bytes.now)) }
{
    if bytes.is_empty() {
        write::packet_head(buffer, Direction::ToContainer, 0);
        return;
    }
    let at = write::packet_head(
        buffer,
        Direction::ToContainer,
        (bytes.len() + BEFORE_BODY) as u16,
    );
    let at = write::integer(buffer, at, bytes.len() as u16);
    write::bytes(buffer, at, bytes);
}

// Writes a Send Body Chunk.
fn write_body_chunk(buffer: &mut [u8], bytes: &[u8])
    requires { Fits 0 (packet_of (Move.BodyChunk (length bytes.now)) (chunk_payload bytes.now)) buffer.old }
    ensures { buffer.new ≡ over buffer.old 0 (packet_of (Move.BodyChunk (length bytes.now)) (chunk_payload bytes.now)) }
{
    let at = opening::open(buffer, Kind::BodyChunk, (bytes.len() + AROUND_CHUNK) as u16);
    write::string(buffer, at, Some(bytes));
}

// Writes a Get Body Chunk.
fn write_get_body(buffer: &mut [u8], asked: u16)
    requires { Fits 0 (packet_of (Move.GetBody asked) (get_payload asked)) buffer.old }
    ensures { buffer.new ≡ over buffer.old 0 (packet_of (Move.GetBody asked) (get_payload asked)) }
{
    let at = opening::open(buffer, Kind::GetBody, GET_BODY_PAYLOAD);
    write::integer(buffer, at, asked);
}

// Writes an End.
fn write_end(buffer: &mut [u8], reuse: bool)
    requires { Fits 0 (packet_of (Move.End reuse) (end_payload reuse)) buffer.old }
    ensures { buffer.new ≡ over buffer.old 0 (packet_of (Move.End reuse) (end_payload reuse)) }
{
    let at = opening::open(buffer, Kind::End, END_PAYLOAD);
    write::boolean(buffer, at, reuse);
}

// Sends a packet whose code is all.
fn bare(connection: Connection, buffer: &mut [u8], m: Move) -> Result<Written, Refusal>
    ensures result_value { sent_outcome result ≡ outcome (bare_call connection m) (length buffer.old) }
    ensures buffer_after { buffer.new ≡ buffer_after (bare_call connection m) buffer.old }
{
    let answer = ready(connection.step(m), BARE_SIZE, buffer.len())?;
    opening::open(buffer, m.kind(), BARE_PAYLOAD);
    Ok(answer)
}

// Sends a CPing: the container is asked whether it is there.
pub fn cping(connection: Connection, buffer: &mut [u8]) -> Result<Written, Refusal>
    ensures result_value { sent_outcome result ≡ outcome (cping_call connection) (length buffer.old) }
    ensures buffer_after { buffer.new ≡ buffer_after (cping_call connection) buffer.old }
{
    bare(connection, buffer, Move::CPing)
}

// Sends a CPong: the answer to a CPing.
pub fn cpong(connection: Connection, buffer: &mut [u8]) -> Result<Written, Refusal>
    ensures result_value { sent_outcome result ≡ outcome (cpong_call connection) (length buffer.old) }
    ensures buffer_after { buffer.new ≡ buffer_after (cpong_call connection) buffer.old }
{
    bare(connection, buffer, Move::CPong)
}

// Sends a body packet with these bytes. Without any it is the empty body packet, in the form that has no payload.
pub fn body(connection: Connection, buffer: &mut [u8], bytes: &[u8]) -> Result<Written, Refusal>
    ensures result_value { sent_outcome result ≡ outcome (body_call connection bytes.now) (length buffer.old) }
    ensures buffer_after { buffer.new ≡ buffer_after (body_call connection bytes.now) buffer.old }
{
    let written = ready(
        connection.step_body(bytes.len()),
        body_needs(bytes),
        buffer.len(),
    )?;
    write_body(buffer, bytes);
    Ok(written)
}

// Sends a Send Body Chunk with these bytes, which may be none and of any value.
pub fn body_chunk(
    connection: Connection,
    buffer: &mut [u8],
    bytes: &[u8],
) -> Result<Written, Refusal>
    ensures result_value { sent_outcome result ≡ outcome (chunk_call connection bytes.now) (length buffer.old) }
    ensures buffer_after { buffer.new ≡ buffer_after (chunk_call connection bytes.now) buffer.old }
{
    let written = ready(
        connection.step_body_chunk(bytes.len()),
        body_chunk_needs(bytes),
        buffer.len(),
    )?;
    write_body_chunk(buffer, bytes);
    Ok(written)
}

// Sends a Get Body Chunk that asks for so many bytes.
pub fn get_body(connection: Connection, buffer: &mut [u8], asked: u16) -> Result<Written, Refusal>
    ensures result_value { sent_outcome result ≡ outcome (get_call connection asked) (length buffer.old) }
    ensures buffer_after { buffer.new ≡ buffer_after (get_call connection asked) buffer.old }
{
    let written = ready(connection.step_get_body(asked), GET_BODY_SIZE, buffer.len())?;
    write_get_body(buffer, asked);
    Ok(written)
}

// Sends an End; `reuse` says whether the connection is used again.
pub fn end(connection: Connection, buffer: &mut [u8], reuse: bool) -> Result<Written, Refusal>
    ensures result_value { sent_outcome result ≡ outcome (end_call connection reuse) (length buffer.old) }
    ensures buffer_after { buffer.new ≡ buffer_after (end_call connection reuse) buffer.old }
{
    let written = ready(connection.step_end(reuse), END_SIZE, buffer.len())?;
    write_end(buffer, reuse);
    Ok(written)
}
