// Where a packet ends: its leading bytes and its length.
ghost use Rattle.std.specs.Prelude.{◌≡◌};
ghost use Rattle.reader.specs.Frame.{frame_meaning, leading_differs, differs, frame_at, length_at};

use connection::Connection;
use packet::Direction;
use wire::refusal::Refusal;
use wire::{LENGTH_PLACE, PAYLOAD_PLACE, leading_bytes, read};

// How far the first packet of the bytes reaches: how many bytes it needs, or how many it has where all of them are there.
#[derive(Clone, Copy, Debug, PartialEq, Eq)]
pub enum Extent {
    Needs(usize),
    Whole(usize),
}

// Whether a byte is there and is not this one.
fn is_other(bytes: &[u8], at: usize, byte: u8) -> bool
    ensures { result ≡ differs bytes.now at byte }
{
    matches!(bytes.get(at), Some(there) if *there != byte)
}

// Whether a leading byte is there and is not the direction's.
#[tactic(auto, unfolding(crate::specs::Frame::leading_differs))]
fn leading_differs(direction: Direction, bytes: &[u8]) -> bool
    ensures { result ≡ leading_differs direction bytes.now }
{
    let leading = leading_bytes(direction);
    is_other(bytes, 0, leading[0]) | is_other(bytes, 1, leading[1])
}

// The first packet of the bytes, which goes in a direction.
#[tactic(auto, unfolding(crate::specs::Frame::frame_at))]
pub fn frame(direction: Direction, bytes: &[u8]) -> Result<Extent, Refusal>
    ensures { frame_meaning result ≡ frame_at direction bytes.now }
{
    if leading_differs(direction, bytes) {
        return Err(Refusal::LeadingWrong);
    }
    match read::integer(bytes, LENGTH_PLACE) {
        Ok(length) => sized(bytes.len(), length.value),
        Err(_) => Ok(Extent::Needs(PAYLOAD_PLACE)),
    }
}

// A packet of which `there` bytes are there, by its payload's length.
#[tactic(auto, unfolding(crate::specs::Frame::length_at))]
fn sized(there: usize, payload: u16) -> Result<Extent, Refusal>
    ensures { frame_meaning result ≡ length_at there payload }
{
    let n = payload as usize;
    if !Connection::fits_payload(n) {
        return Err(Refusal::TooLong);
    }
    if there < PAYLOAD_PLACE + n {
        return Ok(Extent::Needs(PAYLOAD_PLACE + n));
    }
    Ok(Extent::Whole(PAYLOAD_PLACE + n))
}
