// End: whether the connection is used again.
ghost use Rattle.std.specs.Prelude.{◌≡◌};
ghost use Rattle.payload.specs.Read.{packet_meaning};
ghost use Rattle.payload.specs.End.{end_at};

use crate::found::finished;
use packet::Packet;
use wire::AFTER_CODE_PLACE;
use wire::read::boolean;
use wire::refusal::Refusal;

// Reads an End.
#[tactic(auto, unfolding(crate::specs::End::end_at))]
pub fn read(packet: &[u8]) -> Result<Packet, Refusal>
    ensures { packet_meaning result ≡ end_at packet.now }
{
    let reuse = boolean(packet, AFTER_CODE_PLACE)?;
    finished(packet.len(), reuse.next, Packet::End(reuse.value))
}
