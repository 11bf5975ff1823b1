// The words of the kinds of packet.
ghost use Rattle.std.specs.Prelude.{◌≡◌};
ghost use Rattle.words.specs.Kinds.{kind_word};

use connection::Kind;

pub const CPING: u32 = 1;

pub const CPONG: u32 = 2;

pub const FORWARD: u32 = 3;

pub const BODY: u32 = 4;

pub const GET_BODY: u32 = 5;

pub const SEND_HEADERS: u32 = 6;

pub const BODY_CHUNK: u32 = 7;

pub const END: u32 = 8;

// The word of a kind.
pub fn kind_word(kind: Kind) -> u32
    ensures { result ≡ kind_word kind }
{
    match kind {
        Kind::CPing => CPING,
        Kind::CPong => CPONG,
        Kind::Forward => FORWARD,
        Kind::Body => BODY,
        Kind::GetBody => GET_BODY,
        Kind::SendHeaders => SEND_HEADERS,
        Kind::BodyChunk => BODY_CHUNK,
        Kind::End => END,
    }
}
