// What stands behind the count of headers: the headers of a Forward or of Send Headers, and a Forward's attributes behind its headers.
// Their places fill the table from its start on.
ghost use Rattle.std.specs.Prelude.{◌≡◌, ◌+◌, ◌≤◌, length};
ghost use Rattle.wire.specs.Bytes.{over};
ghost use Rattle.connection.specs.Connection.{max_packet};
ghost use Rattle.places.specs.Entries.{max_headers, max_attributes, max_places};
ghost use Rattle.payload.specs.Read.{field_by, headers_by, lists_by, lists_meaning};
ghost use Rattle.payload.specs.Private.{Counts};
ghost use Rattle.payload.specs.Lists.{headers_after, attributes_behind, lists_at};

use crate::field::{Fault, Placed};
use headers::length::length_of;
use packet::{BodyLeft, Direction};
use wire::read::Field;
use wire::refusal::Refusal;

// What follows a Forward's fixed fields: the declared length of the body, and how many attributes there are.
#[derive(Clone, Copy, Debug, PartialEq, Eq)]
pub struct ReadLists {
    pub declared: BodyLeft,
    pub attributes: u16,
}

// The headers behind their count. It is put into its callers: that costs less where a packet is closed and where it has few headers, and
// more where it has a hundred.
#[inline(always)]
#[tactic(auto, using(wire::proofs::Bytes::over_none), unfolding(crate::specs::Lists::headers_after))]
pub fn headers_after<E: Fault>(
    direction: Direction,
    packet: &[u8],
    count: Result<Placed, E>,
    table: &mut [u16],
) -> Result<Field<Option<u32>>, E>
    requires { (length packet.now ≤ max_packet) × (Counts max_headers (field_by E.number count) × (max_headers + max_headers ≤ length table.old)) }
    ensures value { headers_by E.number result ≡ (headers_after direction packet.now (field_by E.number count)).end }
    ensures table_after { table.new ≡ over table.old 0 (headers_after direction packet.now (field_by E.number count)).places }
{
    let Placed { value, next, .. } = count?;
    match headers::headers(direction, packet, next, value, table) {
        Err(refusal) => Err(E::of(refusal)),
        Ok(headers) => Ok(headers),
    }
}

// The attributes behind the headers, which are a Forward's last field.
#[tactic(auto, using(crate::proofs::Below::attributes_few), unfolding(crate::specs::Lists::attributes_behind))]
fn attributes_behind(
    packet: &[u8],
    declared: Option<u32>,
    at: usize,
    table: &mut [u16],
    from: usize,
) -> Result<ReadLists, Refusal>
    requires { (length packet.now ≤ max_packet) × (from + (max_attributes + max_attributes) ≤ length table.old) }
    ensures value { lists_meaning result ≡ (attributes_behind packet.now declared at).end }
    ensures table_after { table.new ≡ over table.old from (attributes_behind packet.now declared at).places }
{
    let Field { value, next } = attributes::attributes(packet, at, table, from)?;
    if next != packet.len() {
        return Err(Refusal::LeftOver);
    }
    Ok(ReadLists {
        declared: BodyLeft(length_of(declared)),
        attributes: value as u16,
    })
}

// The headers and attributes behind the count of headers. It is put into its one caller: as a call of its own it was tried and is slower.
#[inline(always)]
#[tactic(auto, using(wire::proofs::Bytes::over_none), unfolding(crate::specs::Lists::lists_at, crate::specs::Lists::headers_after))]
pub fn lists<E: Fault>(
    packet: &[u8],
    count: Result<Placed, E>,
    table: &mut [u16],
) -> Result<ReadLists, E>
    requires { (length packet.now ≤ max_packet) × (Counts max_headers (field_by E.number count) × (max_places ≤ length table.old)) }
    ensures value { lists_by E.number result ≡ (lists_at packet.now (field_by E.number count)).end }
    ensures table_after { table.new ≡ over table.old 0 (lists_at packet.now (field_by E.number count)).places }
{
    let count = count?;
    let headers = headers_after(Direction::ToContainer, packet, Ok(count), table)?;
    let many = count.value as usize;
    match attributes_behind(packet, headers.value, headers.next, table, many + many) {
        Err(refusal) => Err(E::of(refusal)),
        Ok(lists) => Ok(lists),
    }
}
