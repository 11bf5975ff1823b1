// Send Headers: status, message and headers.
ghost use Rattle.std.specs.Prelude.{◌≡◌, ◌≤◌, length};
ghost use Rattle.wire.specs.Bytes.{over};
ghost use Rattle.connection.specs.Connection.{max_packet};
ghost use Rattle.places.specs.Entries.{max_places};
ghost use Rattle.payload.specs.Read.{packet_meaning};
ghost use Rattle.payload.specs.SendHeaders.{send_headers_at};

use crate::field::{after_code, integer_after, string_after};
use crate::found::finished;
use crate::lists::headers_after;
use packet::{Direction, Packet, SendHeaders};
use places::MAX_HEADERS;
use wire::StringField;
use wire::refusal::Refusal;

// The least and the greatest status.
pub const LEAST_STATUS: u16 = 100;

pub const GREATEST_STATUS: u16 = 599;

// Reads Send Headers. The table has room for all places, and is filled from its start on.
#[tactic(auto, using(wire::proofs::Bytes::over_none, crate::proofs::Fields::string_place, crate::proofs::Fields::integer_counts), unfolding(crate::specs::SendHeaders::send_headers_at, crate::specs::SendHeaders::send_headers_reads, crate::specs::Lists::headers_after, crate::specs::Sequence::string_after, crate::specs::Sequence::integer_after))]
pub fn read(packet: &[u8], table: &mut [u16]) -> Result<Packet, Refusal>
    requires { (length packet.now ≤ max_packet) × (max_places ≤ length table.old) }
    ensures value { packet_meaning result ≡ (send_headers_at packet.now).end }
    ensures table_after { table.new ≡ over table.old 0 (send_headers_at packet.now).places }
{
    let code = Ok(after_code());
    let status = integer_after(
        packet,
        LEAST_STATUS,
        GREATEST_STATUS,
        Refusal::OutOfRange,
        code,
    )?;
    let message = string_after(packet, StringField::Message, Ok(status))?;
    let headers = integer_after(packet, 0, MAX_HEADERS, Refusal::TooMany, Ok(message))?;
    let behind = headers_after(Direction::ToServer, packet, Ok(headers), table)?;
    finished(
        packet.len(),
        behind.next,
        Packet::SendHeaders(SendHeaders {
            status: status.value,
            message: message.place(),
            headers: headers.value,
        }),
    )
}
