// A body packet: without payload it is empty, else it holds a size and so many bytes, which may be none.
ghost use Rattle.std.specs.Prelude.{◌≡◌};
ghost use Rattle.packet.specs.declared.Packet.{Packet};
ghost use Rattle.payload.specs.Read.{PacketRead, packet_meaning};
ghost use Rattle.payload.specs.Body.{body_of_size, body_at, sized_at};

use packet::{Packet, Part, Place};
use wire::PAYLOAD_PLACE;
use wire::read::integer;
use wire::refusal::Refusal;

// Where a body's bytes start: behind the size.
pub const BODY_START: u16 = 6;

// Reads a body packet.
#[tactic(auto, unfolding(crate::specs::Body::body_at, wire::specs::Field::integer_at))]
pub fn read(packet: &[u8]) -> Result<Packet, Refusal>
    ensures { packet_meaning result ≡ body_at packet.now }
{
    if packet.len() < BODY_START as usize {
        // No size is there: the packet has no payload, or a payload of one byte.
        if packet.len() == PAYLOAD_PLACE {
            return Ok(empty());
        }
        return Err(Refusal::CutShort);
    }
    let size = integer(packet, PAYLOAD_PLACE)?;
    sized(packet.len(), size.value)
}

// A body packet of `size` bytes in all, whose own size is `len`. A size of 0 is looked for before bytes that are left over, for speed.
#[tactic(auto, unfolding(crate::specs::Body::sized_at))]
fn sized(size: usize, len: u16) -> Result<Packet, Refusal>
    ensures { packet_meaning result ≡ sized_at size len }
{
    let end = BODY_START as usize + len as usize;
    if size < end {
        return Err(Refusal::CutShort);
    }
    if len == 0 {
        if size > BODY_START as usize {
            return Err(Refusal::LeftOver);
        }
        return Ok(empty());
    }
    if end < size {
        return Err(Refusal::LeftOver);
    }
    Ok(Packet::Body(Part {
        start: Place(BODY_START),
        len,
    }))
}

// An empty body packet, told at the payload's place, whether it has a size or not.
fn empty() -> Packet
    ensures { result ≡ Packet.Body (body_of_size 0) }
{
    Packet::Body(Part {
        start: Place(PAYLOAD_PLACE as u16),
        len: 0,
    })
}
