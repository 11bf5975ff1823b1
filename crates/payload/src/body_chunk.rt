// Send Body Chunk: a length, so many bytes of any value, and one zero.
ghost use Rattle.std.specs.Prelude.{◌≡◌};
ghost use Rattle.payload.specs.Read.{packet_meaning};
ghost use Rattle.payload.specs.BodyChunk.{chunk_at, chunk_of};

use crate::found::finished;
use packet::{Packet, Part, Place};
use wire::AFTER_CODE_PLACE;
use wire::read::integer;
use wire::refusal::Refusal;

// Where a chunk's bytes start: behind the code and the length.
pub const CHUNK_START: u16 = 7;

// Reads a Send Body Chunk.
#[tactic(auto, unfolding(crate::specs::BodyChunk::chunk_at))]
pub fn read(packet: &[u8]) -> Result<Packet, Refusal>
    ensures { packet_meaning result ≡ chunk_at packet.now }
{
    let length = integer(packet, AFTER_CODE_PLACE)?;
    chunk(packet, length.value)
}

// A chunk of `len` bytes, and the zero behind them.
#[tactic(auto, unfolding(crate::specs::BodyChunk::chunk_of))]
fn chunk(packet: &[u8], len: u16) -> Result<Packet, Refusal>
    ensures { packet_meaning result ≡ chunk_of packet.now len }
{
    let start = CHUNK_START as usize;
    let end = start + len as usize;
    let Some(&last) = packet.get(end) else {
        return Err(Refusal::CutShort);
    };
    if last != 0 {
        return Err(Refusal::StringWrong);
    }
    finished(
        packet.len(),
        end + 1,
        Packet::BodyChunk(Part {
            start: Place(CHUNK_START),
            len,
        }),
    )
}
