// A whole packet that an end reads: from its kind to the connection after it.
ghost use Rattle.std.specs.Prelude.{◌≡◌, ◌≤◌, length};
ghost use Rattle.connection.specs.Connection.{max_packet};
ghost use Rattle.payload.specs.Read.{PacketRead};
ghost use Rattle.reader.specs.Meaning.{received_meaning};
ghost use Rattle.reader.specs.Reading.{context_of, with_room};
ghost use Rattle.reader.specs.Private.{table_given, sizing, allowed_reading, allowed_table, whole_of, table_whole};

use crate::{Received, places_needed};
use connection::{Connection, Kind};
use packet::{Direction, Packet};
use payload::Context;
use payload::movement::move_of;
use places::{MAX_PLACES, fill, first};
use wire::refusal::Refusal;

// The bytes of a whole packet, which way it goes, and the connection of the end that reads it.
#[derive(Clone, Copy)]
pub(crate) struct Whole<'a> {
    pub(crate) direction: Direction,
    pub(crate) connection: Connection,
    pub(crate) bytes: &'a [u8],
    ghost fits: { length bytes.now ≤ max_packet },
}

#[tactic(auto, unfolding(crate::specs::Reading::parse_whole, crate::specs::Private::whole_of, crate::specs::Private::table_whole, crate::specs::Private::allowed_reading, crate::specs::Private::allowed_table, crate::specs::Private::table_given, crate::specs::Private::sizing))]
impl Whole<'_> {
    // The packet's kind, whether that is allowed now, then its fields.
    pub(crate) fn read(self, table: &mut [u16]) -> Result<Received, Refusal>
        ensures result_value { received_meaning result ≡ whole_of self.entry.direction self.entry.connection self.entry.bytes.now (length table.old) }
        ensures table_after { table.new ≡ table_whole self.entry.direction self.entry.connection self.entry.bytes.now table.old }
    {
        let kind = payload::kind_of(self.context(), self.bytes)?;
        if !self.connection.allows(kind) {
            return Err(Refusal::NotNow);
        }
        self.fields(kind, table)
    }

    // What this end knows of the packet beside its bytes: the container's takes it for a body packet while one is due, the server's never.
    fn context(self) -> Context
        ensures { result ≡ context_of self.entry.direction self.entry.connection }
    {
        let body = match self.direction {
            Direction::ToContainer => self.connection.is_body_due(),
            Direction::ToServer => false,
        };
        Context {
            direction: self.direction,
            body,
        }
    }

    // A packet of a kind that is allowed: its fields, then the step, then the table.
    fn fields(self, kind: Kind, table: &mut [u16]) -> Result<Received, Refusal>
        ensures result_value { received_meaning result ≡ allowed_reading (context_of self.entry.direction self.entry.connection) self.entry.connection kind self.entry.bytes.now (length table.old) }
        ensures table_after { table.new ≡ allowed_table (context_of self.entry.direction self.entry.connection) self.entry.connection kind self.entry.bytes.now table.old }
    {
        let bytes = self.bytes;
        match kind {
            Kind::CPing => self.accept(payload::bare::read(bytes, Packet::CPing)?),
            Kind::CPong => self.accept(payload::bare::read(bytes, Packet::CPong)?),
            Kind::Forward => self.forward(table),
            Kind::Body => self.accept(payload::body::read(bytes)?),
            Kind::GetBody => self.accept(payload::get_body::read(bytes)?),
            Kind::SendHeaders => self.send_headers(table),
            Kind::BodyChunk => self.accept(payload::body_chunk::read(bytes)?),
            Kind::End => self.accept(payload::end::read(bytes)?),
        }
    }

    // A Forward. Its places go into a list of our own, from which the table is filled at the very end, so that a refusal leaves the table.
    // It stays a function of its own: put into `read`, which was tried, its fields stand in memory where a packet of another kind is read too.
    #[inline(never)]
    fn forward(self, table: &mut [u16]) -> Result<Received, Refusal>
        ensures result_value { received_meaning result ≡ allowed_reading (context_of self.entry.direction self.entry.connection) self.entry.connection Kind.Forward self.entry.bytes.now (length table.old) }
        ensures table_after { table.new ≡ allowed_table (context_of self.entry.direction self.entry.connection) self.entry.connection Kind.Forward self.entry.bytes.now table.old }
    {
        let mut places = [0u16; MAX_PLACES];
        let packet = payload::forward::read(self.bytes, &mut places)?;
        self.accept_with_places(packet, &places, table)
    }

    // Send Headers, in the same way. A function for both, over the call that reads the fields, would have to say in its clauses all that such
    // a call answers and writes.
    #[inline(never)]
    fn send_headers(self, table: &mut [u16]) -> Result<Received, Refusal>
        ensures result_value { received_meaning result ≡ allowed_reading (context_of self.entry.direction self.entry.connection) self.entry.connection Kind.SendHeaders self.entry.bytes.now (length table.old) }
        ensures table_after { table.new ≡ allowed_table (context_of self.entry.direction self.entry.connection) self.entry.connection Kind.SendHeaders self.entry.bytes.now table.old }
    {
        let mut places = [0u16; MAX_PLACES];
        let packet = payload::send_headers::read(self.bytes, &mut places)?;
        self.accept_with_places(packet, &places, table)
    }

    // Steps the connection by what was read of a packet whose kind is allowed now; the table aside.
    fn accept(self, packet: Packet) -> Result<Received, Refusal>
        ensures { received_meaning result ≡ sizing self.entry.connection (length self.entry.bytes.now) (PacketRead.Packet packet) }
    {
        let after = self.connection.step_allowed(move_of(packet))?;
        Ok(Received::Accepted {
            packet,
            taken: self.bytes.len(),
            connection: after,
        })
    }

    // The same, and fills the table from a list of places where it is long enough for those that the packet needs. It is put into both of
    // its callers, so that the packet stays in registers.
    #[inline(always)]
    fn accept_with_places(
        self,
        packet: Packet,
        places: &[u16],
        table: &mut [u16],
    ) -> Result<Received, Refusal>
        ensures result_value { received_meaning result ≡ with_room (length table.old) (sizing self.entry.connection (length self.entry.bytes.now) (PacketRead.Packet packet)) }
        ensures table_after { table.new ≡ table_given (sizing self.entry.connection (length self.entry.bytes.now) (PacketRead.Packet packet)) places.now table.old }
    {
        let answer = self.accept(packet)?;
        let count = places_needed(packet);
        if table.len() < count {
            return Err(Refusal::BufferTooShort);
        }
        fill(table, first(places, count));
        Ok(answer)
    }
}
