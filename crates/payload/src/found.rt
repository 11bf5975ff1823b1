// A packet that was read to its end.
ghost use Rattle.std.specs.Prelude.{◌≡◌};
ghost use Rattle.payload.specs.Read.{packet_meaning};
ghost use Rattle.payload.specs.Packet.{finished};

use packet::Packet;
use wire::refusal::Refusal;

// A packet of `size` bytes whose last field ends at a place: bytes behind it are refused.
pub fn finished(size: usize, next: usize, found: Packet) -> Result<Packet, Refusal>
    ensures { packet_meaning result ≡ finished size next found }
{
    if next != size {
        return Err(Refusal::LeftOver);
    }
    Ok(found)
}
