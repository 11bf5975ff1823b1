// How a packet of a kind begins.
ghost use Rattle.std.specs.Prelude.{◌≡◌, length};
ghost use Rattle.wire.specs.Bytes.{over};
ghost use Rattle.wire.specs.Packet.{Fits};
ghost use Rattle.building.specs.Field.{opening};

use connection::Kind;
use payload::code_of;
use wire::write;

// Writes the first bytes of a packet of a kind, at the buffer's start, up to its code, and tells the place behind them.
pub fn open(buffer: &mut [u8], kind: Kind, payload: u16) -> usize
    requires { Fits 0 (opening kind payload) buffer.old }
    ensures value { result ≡ length (opening kind payload) }
    ensures buffer_after { buffer.new ≡ over buffer.old 0 (opening kind payload) }
{
    let at = write::packet_head(buffer, kind.direction(), payload);
    write::byte(buffer, at, code_of(kind) as u8)
}
