// Reading at both ends: takes a packet out of lent bytes, checks it, tells what it is, fills the lent table and steps the connection.
// Every call answers for any connection, any bytes and any table.
#![tactic(auto)]

ghost use Rattle.std.specs.Prelude.{◌≡◌, length};
ghost use Rattle.reader.specs.Meaning.{received_meaning, places_needed};
ghost use Rattle.reader.specs.Reading.{reading, table_after};

use connection::Connection;
use packet::{Direction, Packet};
use wire::part_of;
use wire::refusal::Refusal;

pub mod frame;
mod whole;

use crate::frame::Extent;
use crate::whole::Whole;

// What reading answers where nothing is refused: how many bytes it needs in all, or the packet, how many bytes were taken, and the
// connection after it.
#[derive(Clone, Copy, Debug, PartialEq, Eq)]
pub enum Received {
    Needs(usize),
    Accepted {
        packet: Packet,
        taken: usize,
        connection: Connection,
    },
}

// The container's end reads the first packet of the bytes. Where it is accepted, the table has the places of its headers and attributes;
// else the table is as it was, and the connection given still counts.
pub fn read_at_container(
    connection: Connection,
    bytes: &[u8],
    table: &mut [u16],
) -> Result<Received, Refusal>
    ensures result_value { received_meaning result ≡ reading Direction.ToContainer connection bytes.now (length table.old) }
    ensures table_after { table.new ≡ table_after Direction.ToContainer connection bytes.now table.old }
{
    read(Direction::ToContainer, connection, bytes, table)
}

// The server's end reads the first packet of the bytes, in the same way. Both are `read` under a name that says the end.
pub fn read_at_server(
    connection: Connection,
    bytes: &[u8],
    table: &mut [u16],
) -> Result<Received, Refusal>
    ensures result_value { received_meaning result ≡ reading Direction.ToServer connection bytes.now (length table.old) }
    ensures table_after { table.new ≡ table_after Direction.ToServer connection bytes.now table.old }
{
    read(Direction::ToServer, connection, bytes, table)
}

// The end to which packets of a direction go reads the first packet of the bytes: both calls above, for a caller that has the direction.
#[tactic(auto, unfolding(crate::specs::Reading::parse, crate::specs::Reading::reading, crate::specs::Reading::table_after, crate::specs::Private::whole_of, crate::specs::Private::table_whole))]
pub fn read(
    direction: Direction,
    connection: Connection,
    bytes: &[u8],
    table: &mut [u16],
) -> Result<Received, Refusal>
    ensures result_value { received_meaning result ≡ reading direction connection bytes.now (length table.old) }
    ensures table_after { table.new ≡ table_after direction connection bytes.now table.old }
{
    match frame::frame(direction, bytes)? {
        Extent::Needs(n) => Ok(Received::Needs(n)),
        Extent::Whole(n) => Whole {
            direction,
            connection,
            bytes: part_of(bytes, 0, n),
        }
        .read(table),
    }
}

// How many places a packet needs: two for each header and each attribute.
pub fn places_needed(packet: Packet) -> usize
    ensures { result ≡ places_needed packet }
{
    match packet {
        Packet::Forward(request) => 2 * (request.headers as usize + request.attributes as usize),
        Packet::SendHeaders(response) => 2 * response.headers as usize,
        _ => 0,
    }
}
