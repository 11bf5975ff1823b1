// How many bytes fields take. A size is exact up to 8192, and 8193 where it is more, as the definition `size_told` has it: no packet is so
// long, and the C calls tell this number.
ghost use Rattle.std.specs.Prelude.{◌≡◌, ◌+◌, length};
ghost use Rattle.wire.specs.Field.{string_bytes};
ghost use Rattle.wire.specs.Text.{is_null, bytes_in};
ghost use Rattle.building.specs.Field.{size_told};

use connection::Connection;
use wire::write::string_size;

// How many bytes a byte and an integer take.
pub const BYTE: usize = 1;

pub const INTEGER: usize = 2;

// The size that is told of all that is longer than a packet may be.
const OVER_PACKET: usize = Connection::MAX_PACKET + 1;

// Two sizes together.
pub fn plus(size: usize, more: usize) -> usize
    ensures { result ≡ size_told (size + more) }
{
    size.saturating_add(more).min(OVER_PACKET)
}

// A size and a string behind it, None for null.
pub fn string(size: usize, text: Option<&[u8]>) -> usize
    ensures { result ≡ size_told (size + length (string_bytes (is_null text.entry) (bytes_in text.entry))) }
{
    plus(size, string_size(text))
}
