// What is known of a Forward or a Send Headers that is being built in pieces: the building record, and whether one is possible.
// No call has a condition: any record gets an answer over any buffer.
#![tactic(auto)]

ghost use Rattle.std.specs.Prelude.{◌≡◌};
ghost use Rattle.wire.specs.Read.{fault_number};
ghost use Rattle.building_record.specs.Record.{built_kind, is_forward, direction_in, building_fields, is_possible, header_now, attribute_now, count_fault};

use building::fault::unless;
use building::size::INTEGER;
use connection::{Connection, Kind};
use packet::{Direction, Place};
use payload::code_of;
use places::MAX_HEADERS;
use wire::refusal::Refusal;
use wire::{CODE_PLACE, PAYLOAD_PLACE};

// How many bytes the count of headers takes.
pub const COUNT_SIZE: usize = INTEGER;

// The packets that are built in pieces.
#[derive(Clone, Copy, Debug, PartialEq, Eq)]
pub enum BuildingKind {
    Forward,
    SendHeaders,
}

// What is known of a packet that is being built: its kind, how far it reaches, where its count of headers stands, how many headers it
// has, and whether an attribute was added. The calls for the fixed fields make such a record, and each piece makes the next.
// Every record has an answer from every call, so its fields are open to the crates that build with it.
#[derive(Clone, Copy, Debug, PartialEq, Eq)]
pub struct Building {
    pub kind: BuildingKind,
    pub next: Place,
    pub count: Place,
    pub headers: u16,
    pub attributes: bool,
}

impl BuildingKind {
    // The kind of packet that is being built.
    pub fn kind(self) -> Kind
        ensures { result ≡ built_kind self }
    {
        match self {
            BuildingKind::Forward => Kind::Forward,
            BuildingKind::SendHeaders => Kind::SendHeaders,
        }
    }

    // Whether it is a Forward.
    pub fn is_forward(self) -> bool
        ensures { result ≡ is_forward self }
    {
        matches!(self, BuildingKind::Forward)
    }
}

impl Building {
    // A record with these fields as they stand, also one that no call answers. In ordinary use a record comes from a call.
    pub fn with_fields(
        kind: BuildingKind,
        next: Place,
        count: Place,
        headers: u16,
        attributes: bool,
    ) -> Building
        ensures { result ≡ building_fields kind next.0 count.0 headers attributes }
    {
        Building {
            kind,
            next,
            count,
            headers,
            attributes,
        }
    }

    // Which packet is being built.
    pub fn kind(self) -> BuildingKind
        ensures { result ≡ self.kind }
    {
        self.kind
    }

    // The place where the next piece will stand: so many bytes are built.
    pub fn next(self) -> Place
        ensures { result ≡ self.next }
    {
        self.next
    }

    // Where the count of headers stands.
    pub fn count_place(self) -> Place
        ensures { result ≡ self.count }
    {
        self.count
    }

    // How many headers there are so far.
    pub fn headers(self) -> u16
        ensures { result ≡ self.headers }
    {
        self.headers
    }

    // Whether attributes began: no header may come any more.
    pub fn attributes_began(self) -> bool
        ensures { result ≡ self.attributes }
    {
        self.attributes
    }

    // Whether the record is possible over this buffer; else every piece and closing refuse it with 16.
    pub fn is_possible(self, buffer: &[u8]) -> bool
        ensures { result ≡ is_possible self buffer.now }
    {
        let next = self.next.index();
        let count = self.count.index();
        Connection::fits_packet(next)
            && next <= buffer.len()
            && PAYLOAD_PLACE <= count
            && count + COUNT_SIZE <= next
            && self.headers <= MAX_HEADERS
            && buffer[CODE_PLACE] as u16 == code_of(self.kind.kind())
    }

    // Which way the packet goes.
    pub fn direction(self) -> Direction
        ensures { result ≡ direction_in self }
    {
        self.kind.kind().direction()
    }

    // The fault of a header that comes now: the record is impossible, or attributes began.
    pub fn header_now(self, buffer: &[u8]) -> Result<(), Refusal>
        ensures { fault_number result ≡ header_now self buffer.now }
    {
        unless(
            self.is_possible(buffer) && !self.attributes,
            Refusal::RecordWrong,
        )
    }

    // The fault of an attribute that comes now: the record is impossible, or is not a Forward's.
    pub fn attribute_now(self, buffer: &[u8]) -> Result<(), Refusal>
        ensures { fault_number result ≡ attribute_now self buffer.now }
    {
        unless(
            self.is_possible(buffer) && self.kind.is_forward(),
            Refusal::RecordWrong,
        )
    }

    // The fault of one more header: a hundred came before.
    pub fn count_fault(self) -> Result<(), Refusal>
        ensures { fault_number result ≡ count_fault self }
    {
        unless(self.headers < MAX_HEADERS, Refusal::TooMany)
    }
}
