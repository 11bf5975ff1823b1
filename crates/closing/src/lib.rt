// Closing a packet that was built in pieces, a Forward at the server's end or a Send Headers at the container's: the count of headers, the
// length and, in a Forward, FF are set, and the packet that then stands there is judged by the reader of the end to which it goes. Where it
// passes, its length and the connection after it are answered. A refusal leaves the buffer as it was, and the connection and the record
// given still count. `close` answers for any connection, any record and any buffer.
#![tactic(auto, using(crate::proofs::Laws::closing), unfolding(crate::specs::Closing::closing_fault))]

ghost use Rattle.std.specs.Prelude.{◌≡◌, length};
ghost use Rattle.wire.specs.Bytes.{over};
ghost use Rattle.wire.specs.Read.{fault_number};
ghost use Rattle.reader.specs.Meaning as read;
ghost use Rattle.building.specs.Sent.{sent_outcome};
ghost use Rattle.closing.specs.Closing.{closed_length, closing_fault, closed, verdict, judgement, close_outcome, close_buffer};
ghost use Rattle.closing.specs.Private.{last_with, Closable, put_back};

use attributes::LAST_MARK;
use building::fault;
use building::sent::is_written;
use building::size::BYTE;
use building_record::{Building, BuildingKind};
use connection::{Connection, Written};
use packet::Place;
use places::MAX_PLACES;
use reader::{Received, read};
use wire::refusal::Refusal;
use wire::{LENGTH_PLACE, PAYLOAD_PLACE, write};

// What stood where closing writes: two bytes at the count and two at the length, each pair as the integer that it is, and the byte behind
// the last piece.
#[derive(Clone, Copy)]
struct Old {
    count: u16,
    payload: u16,
    last: u8,
}

// How long the packet is once it is closed: so many bytes the buffer needs. A Forward has one more then, its FF.
pub fn needs(building: Building) -> usize
    ensures { result ≡ closed_length building }
{
    let next = building.next().index();
    match building.kind() {
        BuildingKind::Forward => next + BYTE,
        BuildingKind::SendHeaders => next,
    }
}

// What is looked for before the packet is judged: 16, 13, then 2 and 15.
fn closing_fault(connection: Connection, building: Building, buffer: &[u8]) -> Result<(), Refusal>
    ensures { fault_number result ≡ closing_fault connection building buffer.now }
{
    fault::unless(building.is_possible(buffer), Refusal::RecordWrong)?;
    fault::unless(connection.allows(building.kind().kind()), Refusal::NotNow)?;
    fault::fit(needs(building), buffer.len())
}

// Puts a byte behind the last piece of a Forward; behind a Send Headers nothing stands.
fn put_last(buffer: &mut [u8], building: Building, byte: u8)
    requires { Closable building buffer.old }
    ensures { buffer.new ≡ over buffer.old building.next.0 (last_with building.kind byte) }
{
    match building.kind() {
        BuildingKind::Forward => {
            write::byte(buffer, building.next().index(), byte);
        }
        BuildingKind::SendHeaders => {}
    }
}

// Sets the count, the length and the last byte, and tells what stood there.
fn set(building: Building, buffer: &mut [u8]) -> Old
    requires { Closable building buffer.old }
    ensures buffer_value { put_back building result (closed building buffer.old) ≡ buffer.old }
    ensures buffer_after { buffer.new ≡ closed building buffer.old }
{
    let place = building.count_place();
    let headers = building.headers();
    let payload = (needs(building) - PAYLOAD_PLACE) as u16;
    let count = views::integer_at(buffer, place);
    write::integer(buffer, place.index(), headers);
    let stood = views::integer_at(buffer, Place(LENGTH_PLACE as u16));
    write::integer(buffer, LENGTH_PLACE, payload);
    let last = buffer.get(building.next().index()).copied().unwrap_or(0);
    put_last(buffer, building, LAST_MARK);
    Old {
        count,
        payload: stood,
        last,
    }
}

// Puts back what stood there, the last that was set first.
fn put_back(building: Building, old: Old, buffer: &mut [u8])
    requires { Closable building buffer.old }
    ensures { buffer.new ≡ put_back building old buffer.old }
{
    let at = building.count_place().index();
    put_last(buffer, building, old.last);
    write::integer(buffer, LENGTH_PLACE, old.payload);
    write::integer(buffer, at, old.count);
}

// What the end to which a packet goes answers to it, the table aside: it is lent one that is long enough for every packet.
fn read_there(
    connection: Connection,
    building: Building,
    packet: &[u8],
) -> Result<Received, Refusal>
    ensures { read.received_meaning result ≡ judgement connection building packet.now }
{
    let direction = building.direction();
    let mut places = [0u16; MAX_PLACES];
    read(direction, connection, packet, &mut places)
}

// Judges a packet by that answer.
fn judge(connection: Connection, building: Building, packet: &[u8]) -> Result<Written, Refusal>
    ensures { sent_outcome result ≡ verdict (length packet.now) (judgement connection building packet.now) }
{
    let size = packet.len();
    match read_there(connection, building, packet)? {
        Received::Needs(_) => Err(Refusal::CutShort),
        Received::Accepted { connection, .. } => Ok(Written { size, connection }),
    }
}

// Closes the packet that the record says.
pub fn close(
    connection: Connection,
    building: Building,
    buffer: &mut [u8],
) -> Result<Written, Refusal>
    ensures result_value { sent_outcome result ≡ close_outcome connection building buffer.old }
    ensures buffer_after { buffer.new ≡ close_buffer connection building buffer.old }
{
    closing_fault(connection, building, buffer)?;
    let size = needs(building);
    let old = set(building, buffer);
    let sent = judge(connection, building, &buffer[..size]);
    if !is_written(sent) {
        put_back(building, old, buffer);
    }
    sent
}
