// Captures: packets of both directions back to back, as they are seen at the server's end. An inner crate: what all tools over captures
// share. The course of a capture is defined in `specs/`, and its laws are in `proofs/`; the calls are the first packet's.
#![tactic(auto)]

ghost use Rattle.std.specs.Prelude.{◌≡◌};
ghost use Rattle.capture.specs.Course.{direction_in, first_in};
ghost use Rattle.reader.specs.Meaning.{received_meaning};

use connection::Connection;
use packet::Direction;
use places::MAX_PLACES;
use reader::Received;
use wire::leading_bytes;
use wire::refusal::Refusal;

pub mod window;

// Which way the next packet of the bytes goes, by their first byte.
#[tactic(auto, unfolding(crate::specs::Course::direction_in))]
pub fn direction_in(bytes: &[u8]) -> Direction
    ensures { result ≡ direction_in bytes.now }
{
    let leading = leading_bytes(Direction::ToServer);
    if bytes.first() == Some(&leading[0]) {
        return Direction::ToServer;
    }
    Direction::ToContainer
}

// Reads the first packet of the bytes, whichever way it goes. The table is long enough for any packet; what it holds then is the reader's.
#[tactic(auto, unfolding(crate::specs::Course::first_in))]
pub fn read_first(
    connection: Connection,
    bytes: &[u8],
    table: &mut [u16; MAX_PLACES],
) -> Result<Received, Refusal>
    ensures { received_meaning result ≡ first_in connection bytes.now }
{
    reader::read(direction_in(bytes), connection, bytes, table)
}
