// A Forward: its fixed fields in their order, its headers and its attributes.
ghost use Rattle.std.specs.Prelude.{◌≡◌, ◌≤◌, length};
ghost use Rattle.wire.specs.Bytes.{over};
ghost use Rattle.connection.specs.Connection.{max_packet};
ghost use Rattle.places.specs.Entries.{max_places};
ghost use Rattle.payload.specs.Read.{packet_meaning};
ghost use Rattle.payload.specs.Forward.{forward_at};

use crate::field::{
    after_code, any_integer_after, boolean_after, byte_after, integer_after, string_after,
};
use crate::lists::lists;
use packet::{Forward, Packet};
use places::MAX_HEADERS;
use wire::StringField;
use wire::refusal::Refusal;

// The first and the last method.
pub const FIRST_METHOD: u16 = 1;

pub const LAST_METHOD: u16 = 27;

// Reads a Forward. The table has room for all places, and is filled from its start on.
#[tactic(auto, using(wire::proofs::Bytes::over_none, crate::proofs::Fields::string_place, crate::proofs::Fields::integer_counts), unfolding(crate::specs::Forward::forward_at, crate::specs::Forward::forward_reads, crate::specs::Lists::lists_at, crate::specs::Lists::headers_after, crate::specs::Sequence::string_after, crate::specs::Sequence::boolean_after, crate::specs::Sequence::any_integer_after, crate::specs::Sequence::integer_after))]
pub fn read(packet: &[u8], table: &mut [u16]) -> Result<Packet, Refusal>
    requires { (length packet.now ≤ max_packet) × (max_places ≤ length table.old) }
    ensures value { packet_meaning result ≡ (forward_at packet.now).end }
    ensures table_after { table.new ≡ over table.old 0 (forward_at packet.now).places }
{
    let code = Ok(after_code());
    let method = byte_after(packet, FIRST_METHOD, LAST_METHOD, Refusal::OutOfRange, code)?;
    let protocol = string_after(packet, StringField::Protocol, Ok(method))?;
    let uri = string_after(packet, StringField::ReqUri, Ok(protocol))?;
    let addr = string_after(packet, StringField::RemoteAddr, Ok(uri))?;
    let host = string_after(packet, StringField::RemoteHost, Ok(addr))?;
    let name = string_after(packet, StringField::ServerName, Ok(host))?;
    let port = any_integer_after(packet, Ok(name))?;
    let ssl = boolean_after(packet, Ok(port))?;
    let headers = integer_after(packet, 0, MAX_HEADERS, Refusal::TooMany, Ok(ssl))?;
    let lists = lists(packet, Ok(headers), table)?;
    Ok(Packet::Forward(Forward {
        method: method.value,
        protocol: protocol.place(),
        req_uri: uri.place(),
        remote_addr: addr.place(),
        remote_host: host.place(),
        server_name: name.place(),
        server_port: port.value,
        is_ssl: ssl.value == 1,
        headers: headers.value,
        attributes: lists.attributes,
        declared: lists.declared,
    }))
}
