// What a packet is for the cycle.
ghost use Rattle.std.specs.Prelude.{◌≡◌};
ghost use Rattle.payload.specs.Kinds.{forward_move, packet_move};

use connection::{ForwardMove, Move};
use names::method::is_head;
use packet::{Forward, Packet};

// What a Forward is for the cycle.
fn forward_move(f: Forward) -> ForwardMove
    ensures { result ≡ forward_move f }
{
    ForwardMove {
        declared: f.declared,
        head: is_head(f.method),
    }
}

// The move that a packet makes.
pub fn move_of(packet: Packet) -> Move
    ensures { result ≡ packet_move packet }
{
    match packet {
        Packet::CPing => Move::CPing,
        Packet::CPong => Move::CPong,
        Packet::Forward(f) => Move::Forward(forward_move(f)),
        Packet::Body(p) => Move::Body(p.len as usize),
        Packet::GetBody(asked) => Move::GetBody(asked),
        Packet::SendHeaders(_) => Move::SendHeaders,
        Packet::BodyChunk(p) => Move::BodyChunk(p.len as usize),
        Packet::End(reuse) => Move::End(reuse),
    }
}
