// What a packet says, from its own bytes alone: no connection is looked at. An inner crate: the layers above call it; what it hands out,
// `Packet`, goes on to the user of the library. A file for each kind of packet, with a function `read`; here is what kind a packet is.
#![tactic(auto)]

ghost use Rattle.std.specs.Prelude.{◌≡◌};
ghost use Rattle.payload.specs.Read.{kind_meaning};
ghost use Rattle.payload.specs.Code.{code_of, code_kind, kind_at};

use connection::Kind;
use packet::Direction;
use wire::refusal::Refusal;
use wire::{CODE_PLACE, read};

pub mod bare;
pub mod body;
pub mod body_chunk;
pub mod end;
pub mod field;
pub mod forward;
pub mod found;
pub mod get_body;
pub mod lists;
pub mod movement;
pub mod send_headers;

// The codes of the kinds of packet, and the two that a server may send and nobody serves: numbers of the protocol, which a packet's byte is
// matched with.
pub const FORWARD: u16 = 2;

pub const BODY_CHUNK: u16 = 3;

pub const SEND_HEADERS: u16 = 4;

pub const END: u16 = 5;

pub const GET_BODY: u16 = 6;

pub const SHUTDOWN: u16 = 7;

pub const PING: u16 = 8;

pub const CPONG: u16 = 9;

pub const CPING: u16 = 10;

// What is known of a packet beside its bytes: which way it goes, and whether it is read as a body packet.
#[derive(Clone, Copy, Debug, PartialEq, Eq)]
pub struct Context {
    pub direction: Direction,
    pub body: bool,
}

// The code of a kind of packet; a body packet has none, and 0 stands for that, as the definition `code_of` has it.
pub fn code_of(kind: Kind) -> u16
    ensures { result ≡ code_of kind }
{
    match kind {
        Kind::CPing => CPING,
        Kind::CPong => CPONG,
        Kind::Forward => FORWARD,
        Kind::Body => 0,
        Kind::GetBody => GET_BODY,
        Kind::SendHeaders => SEND_HEADERS,
        Kind::BodyChunk => BODY_CHUNK,
        Kind::End => END,
    }
}

// The kind of a packet, by its code as read.
#[tactic(auto, unfolding(crate::specs::Code::code_kind))]
fn kind_of_code(direction: Direction, code: u16) -> Result<Kind, Refusal>
    ensures { kind_meaning result ≡ code_kind direction code }
{
    match direction {
        Direction::ToContainer => match code {
            FORWARD => Ok(Kind::Forward),
            CPING => Ok(Kind::CPing),
            SHUTDOWN | PING => Err(Refusal::CodeNotServed),
            _ => Err(Refusal::CodeWrong),
        },
        Direction::ToServer => match code {
            BODY_CHUNK => Ok(Kind::BodyChunk),
            SEND_HEADERS => Ok(Kind::SendHeaders),
            END => Ok(Kind::End),
            GET_BODY => Ok(Kind::GetBody),
            CPONG => Ok(Kind::CPong),
            _ => Err(Refusal::CodeWrong),
        },
    }
}

// The kind of a packet: a body packet where it is read as one, else by its code.
#[tactic(auto, unfolding(crate::specs::Code::kind_at))]
pub fn kind_of(context: Context, packet: &[u8]) -> Result<Kind, Refusal>
    ensures { kind_meaning result ≡ kind_at context packet.now }
{
    if context.body {
        return Ok(Kind::Body);
    }
    let code = read::byte(packet, CODE_PLACE)?;
    kind_of_code(context.direction, code.value)
}
