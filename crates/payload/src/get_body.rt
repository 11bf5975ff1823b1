// Get Body Chunk: how many bytes are asked for.
ghost use Rattle.std.specs.Prelude.{◌≡◌};
ghost use Rattle.payload.specs.Read.{packet_meaning};
ghost use Rattle.payload.specs.GetBody.{get_at};

use crate::found::finished;
use packet::Packet;
use wire::AFTER_CODE_PLACE;
use wire::read::integer;
use wire::refusal::Refusal;

// Reads a Get Body Chunk. Apart from `end::read`: both end in `finished`, and one function of the two would take the call that reads and the
// packet's variant as closures, which is longer.
#[tactic(auto, unfolding(crate::specs::GetBody::get_at))]
pub fn read(packet: &[u8]) -> Result<Packet, Refusal>
    ensures { packet_meaning result ≡ get_at packet.now }
{
    let asked = integer(packet, AFTER_CODE_PLACE)?;
    finished(packet.len(), asked.next, Packet::GetBody(asked.value))
}
