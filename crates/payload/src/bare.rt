// CPing and CPong: the code alone.
ghost use Rattle.std.specs.Prelude.{◌≡◌};
ghost use Rattle.payload.specs.Read.{packet_meaning};
ghost use Rattle.payload.specs.Bare.{bare_at};

use crate::found::finished;
use packet::Packet;
use wire::AFTER_CODE_PLACE;
use wire::refusal::Refusal;

// Reads a packet that is its code alone.
pub fn read(packet: &[u8], found: Packet) -> Result<Packet, Refusal>
    ensures { packet_meaning result ≡ bare_at packet.now found }
{
    finished(packet.len(), AFTER_CODE_PLACE, found)
}
