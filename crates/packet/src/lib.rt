// What the library hands out: packets as they were read, the parts they are made of, and places in them. Types alone, and the index of a
// place; whoever uses the library imports them from here.
#![tactic(auto)]

ghost use Rattle.std.specs.Prelude.{◌≡◌, ◌-◌};

// Which way a packet goes.
#[derive(Clone, Copy, Debug, PartialEq, Eq)]
pub enum Direction {
    ToContainer,
    ToServer,
}

// Bytes of a request's body that are still left. No place in a packet can be passed for it.
#[derive(Clone, Copy, Debug, PartialEq, Eq)]
pub struct BodyLeft(pub u32);

impl BodyLeft {
    // What is left when k bytes have come, 0 where that is more than there was.
    pub fn less(self, k: usize) -> BodyLeft
        ensures { result.0 ≡ self.0 - k }
    {
        BodyLeft((self.0 as usize).saturating_sub(k) as u32)
    }
}

// A place in a packet, counted from its first byte. No number of body bytes can be passed for it.
#[derive(Clone, Copy, Debug, PartialEq, Eq)]
pub struct Place(pub u16);

impl Place {
    // The place as an index into the packet's bytes.
    pub fn index(self) -> usize
        ensures { result ≡ self.0 }
    {
        self.0 as usize
    }
}

// A part of a packet: where it starts and how many bytes it has.
#[derive(Clone, Copy, Debug, PartialEq, Eq)]
pub struct Part {
    pub start: Place,
    pub len: u16,
}

// A Forward: its fixed numbers, the places of its fixed strings, how many headers and attributes it has, and the declared length of
// the body, 0 where none is declared, as the definition `declared_length` and the C call's word have it.
#[derive(Clone, Copy, Debug, PartialEq, Eq)]
pub struct Forward {
    pub method: u16,
    pub protocol: Place,
    pub req_uri: Place,
    pub remote_addr: Place,
    pub remote_host: Place,
    pub server_name: Place,
    pub server_port: u16,
    pub is_ssl: bool,
    pub headers: u16,
    pub attributes: u16,
    pub declared: BodyLeft,
}

// Send Headers: the status, the message's place and how many headers it has.
#[derive(Clone, Copy, Debug, PartialEq, Eq)]
pub struct SendHeaders {
    pub status: u16,
    pub message: Place,
    pub headers: u16,
}

// A packet, by its kind.
#[derive(Clone, Copy, Debug, PartialEq, Eq)]
pub enum Packet {
    CPing,
    CPong,
    Forward(Forward),
    Body(Part),
    GetBody(u16),
    SendHeaders(SendHeaders),
    BodyChunk(Part),
    End(bool),
}

// A header's name: its code, or a string, whose bytes `views::text_at` shows. No Option: a spelled name is there too.
#[derive(Clone, Copy, Debug, PartialEq, Eq)]
pub enum HeaderName {
    Code(u16),
    Spelled,
}

// What value an attribute has. Not served is one of these, as the definition `attribute_kind` and the C call's number have it.
#[derive(Clone, Copy, Debug, PartialEq, Eq)]
pub enum AttributeKind {
    NotServed,
    Text,
    Integer,
    Pair,
}

// Room for the longest name, transfer-encoding.
pub const NAME_ROOM: usize = 17;

// A name that is handed out: its bytes, zeros behind them, and how many bytes it has. Where there is no such name it has 0. It is fixed room
// with a length beside: there is no heap, and the C call `ajp13_name` copies the room out.
#[derive(Clone, Copy, Debug, PartialEq, Eq)]
pub struct Name {
    pub bytes: [u8; NAME_ROOM],
    pub len: usize,
}
