// One end's connection, and the cycle that every packet steps it through. It does not know which end holds it.
// This crate alone makes a connection record or takes one apart. No call has a condition: any record gets an answer.
#![tactic(auto)]

ghost use Rattle.std.specs.Prelude.{◌≡◌, ◌-◌, leb};
ghost use Rattle.connection.specs.Connection.{max_packet, max_payload, fresh, rest, with_left, with_due, with_headers, with_head, busy, body_due, is_head};
ghost use Rattle.connection.specs.Cycle.{move_kind, direction_of, in_state, largest_body, size_allowed, chunk_allowed, forwarded, sized_step, step_of};
ghost use Rattle.connection.specs.Step.{step_meaning};
ghost use Rattle.wire.specs.Refusal.{none, not_now};
ghost use Rattle.wire.specs.Pick.{pick};
ghost use Rattle.wire.specs.Read.{fault_number};

use packet::{BodyLeft, Direction};
pub use wire::refusal::Refusal;

// Where a connection stands.
#[derive(Clone, Copy, Debug, PartialEq, Eq)]
pub enum State {
    Idle,
    Pinged,
    Busy,
    Closed,
}

// A connection. All but the state counts only in Busy, and asked only where a body packet is due. Yet it is no payload of Busy, and due and
// asked are no Option: the clauses of with_left, with_due, with_headers and with_head, and the law `ignored`, speak of records that hold
// anything in what does not count.
// The short fields come first: the compiler then loads each by itself, and not the state together with what lies behind it.
#[derive(Clone, Copy, Debug, PartialEq, Eq)]
pub struct Connection {
    state: State,
    due: bool,
    headers: bool,
    head: bool,
    asked: u16,
    left: BodyLeft,
}

// The kinds of packet.
#[derive(Clone, Copy, Debug, PartialEq, Eq)]
pub enum Kind {
    CPing,
    CPong,
    Forward,
    Body,
    GetBody,
    SendHeaders,
    BodyChunk,
    End,
}

// A Forward, as far as the cycle goes: the length of body that it declares, and whether its method is HEAD.
#[derive(Clone, Copy, Debug, PartialEq, Eq)]
pub struct ForwardMove {
    pub declared: BodyLeft,
    pub head: bool,
}

// A packet, as far as the cycle goes: how many bytes, how many asked for, whether the connection is kept.
#[derive(Clone, Copy, Debug, PartialEq, Eq)]
pub enum Move {
    CPing,
    CPong,
    Forward(ForwardMove),
    Body(usize),
    GetBody(u16),
    SendHeaders,
    BodyChunk(usize),
    End(bool),
}

// A packet that stands in the buffer from its first byte on: how long it is, and the connection after it.
#[derive(Clone, Copy, Debug, PartialEq, Eq)]
pub struct Written {
    pub size: usize,
    pub connection: Connection,
}

impl Kind {
    // Which way a kind of packet goes.
    pub fn direction(self) -> Direction
        ensures { result ≡ direction_of self }
    {
        match self {
            Kind::CPing => Direction::ToContainer,
            Kind::CPong => Direction::ToServer,
            Kind::Forward => Direction::ToContainer,
            Kind::Body => Direction::ToContainer,
            Kind::GetBody => Direction::ToServer,
            Kind::SendHeaders => Direction::ToServer,
            Kind::BodyChunk => Direction::ToServer,
            Kind::End => Direction::ToServer,
        }
    }
}

impl Move {
    // The kind of packet that makes a move.
    pub fn kind(self) -> Kind
        ensures { result ≡ move_kind self }
    {
        match self {
            Move::CPing => Kind::CPing,
            Move::CPong => Kind::CPong,
            Move::Forward(_) => Kind::Forward,
            Move::Body(_) => Kind::Body,
            Move::GetBody(_) => Kind::GetBody,
            Move::SendHeaders => Kind::SendHeaders,
            Move::BodyChunk(_) => Kind::BodyChunk,
            Move::End(_) => Kind::End,
        }
    }
}

impl Connection {
    // The most bytes of a packet, of its payload, and of the body in a body packet.
    pub const MAX_PACKET: usize = wire::MAX_PACKET;

    pub const MAX_PAYLOAD: usize = 8188;

    pub const MAX_BODY: u16 = 8186;

    // A connection made new: Idle, for either end.
    pub fn fresh() -> Connection
        ensures { result ≡ fresh }
    {
        Self::rest(State::Idle)
    }

    // Whether a payload of so many bytes fits a packet, else it is refused as too long.
    pub fn fits_payload(size: usize) -> bool
        ensures { result ≡ leb size max_payload }
    {
        size <= Self::MAX_PAYLOAD
    }

    // Whether so many bytes are no more than a packet may have.
    pub fn fits_packet(size: usize) -> bool
        ensures { result ≡ leb size max_packet }
    {
        size <= Self::MAX_PACKET
    }

    // A connection of which only the state counts; all else is 0.
    pub fn rest(state: State) -> Connection
        ensures { result ≡ rest state }
    {
        Connection {
            state,
            due: false,
            headers: false,
            head: false,
            asked: 0,
            left: BodyLeft(0),
        }
    }

    // The record with so many bytes of body left, whether that counts or not; all else stays. The record is made anew, here and in the next
    // three: fields of a copy set one by one keep the compiler from putting a step into its callers.
    pub fn with_left(self, left: BodyLeft) -> Connection
        ensures { result ≡ with_left left.0 self }
    {
        Connection { left, ..self }
    }

    // With whether a body packet is due and how many bytes were asked for.
    pub fn with_due(self, due: bool, asked: u16) -> Connection
        ensures { result ≡ with_due due asked self }
    {
        Connection { due, asked, ..self }
    }

    // With whether the response's headers were sent.
    pub fn with_headers(self, headers: bool) -> Connection
        ensures { result ≡ with_headers headers self }
    {
        Connection { headers, ..self }
    }

    // With whether the request is HEAD.
    pub fn with_head(self, head: bool) -> Connection
        ensures { result ≡ with_head head self }
    {
        Connection { head, ..self }
    }

    pub fn state(self) -> State
        ensures { result ≡ self.state }
    {
        self.state
    }

    // Bytes of body still left.
    pub fn left(self) -> BodyLeft
        ensures { result ≡ self.left }
    {
        self.left
    }

    // Whether the record says that a body packet is due; in Busy alone it counts.
    pub fn due(self) -> bool
        ensures { result ≡ self.due }
    {
        self.due
    }

    // How many bytes of body were asked for.
    pub fn asked(self) -> u16
        ensures { result ≡ self.asked }
    {
        self.asked
    }

    // Whether the record says that the response's headers were sent; in Busy alone it counts.
    pub fn headers(self) -> bool
        ensures { result ≡ self.headers }
    {
        self.headers
    }

    // Whether the record says that the request is HEAD; in Busy alone it counts.
    pub fn head(self) -> bool
        ensures { result ≡ self.head }
    {
        self.head
    }

    // The record in Busy; what was asked is kept only where a body packet is due.
    fn busy(self) -> Connection
        ensures { result ≡ busy self }
    {
        let asked = if self.due { self.asked } else { 0 };
        Connection {
            state: State::Busy,
            asked,
            ..self
        }
    }

    // Whether a body packet is due: the container's end reads the next packet as one exactly then.
    pub fn is_body_due(self) -> bool
        ensures { result ≡ body_due self }
    {
        self.state == State::Busy && self.due
    }

    // Whether the request under way is HEAD: its response has no body.
    pub fn is_head(self) -> bool
        ensures { result ≡ is_head self }
    {
        self.state == State::Busy && self.head
    }

    // Whether a kind of packet is allowed now.
    pub fn allows(self, kind: Kind) -> bool
        ensures { result ≡ in_state self kind }
    {
        let state = self.state;
        match kind {
            Kind::CPing => state == State::Idle,
            Kind::CPong => state == State::Pinged,
            Kind::Forward => state == State::Idle,
            Kind::Body => self.is_body_due(),
            Kind::GetBody => state == State::Busy && !self.due,
            Kind::SendHeaders => state == State::Busy && !self.headers,
            Kind::BodyChunk => state == State::Busy && self.headers,
            Kind::End => state == State::Busy && (self.headers && !self.due),
        }
    }

    // The most bytes that the next body packet may hold: the least of asked, MAX_BODY and left, none where no body packet is due.
    #[tactic(auto, unfolding(crate::specs::Cycle::largest_body))]
    pub fn largest_body(self) -> u16
        ensures { result ≡ largest_body self }
    {
        if !self.is_body_due() {
            return 0;
        }
        let most = self.asked.min(Self::MAX_BODY);
        self.left.0.min(most as u32) as u16
    }

    // A move, by the rows of the cycle: refused as not allowed now or as of a wrong size, or the connection after it.
    #[tactic(auto, unfolding(crate::specs::Cycle::step_of))]
    pub fn step(self, m: Move) -> Result<Connection, Refusal>
        ensures { step_meaning result ≡ step_of self m }
    {
        self.check_kind(m.kind())?;
        self.step_allowed(m)
    }

    // The same for a caller that asked before whether the kind is allowed: refused as of a wrong size, or the connection after it.
    pub fn step_allowed(self, m: Move) -> Result<Connection, Refusal>
        ensures { step_meaning result ≡ sized_step self m }
    {
        match m {
            Move::CPing => Ok(Self::rest(State::Pinged)),
            Move::CPong => Ok(Self::rest(State::Idle)),
            Move::Forward(f) => Ok(Self::forwarded(f).busy()),
            Move::Body(k) => self.sized_body(k),
            Move::GetBody(r) => Ok(self.busy().with_due(true, r)),
            Move::SendHeaders => Ok(self.busy().with_headers(true)),
            Move::BodyChunk(k) => self.sized_chunk(k),
            Move::End(reuse) => Ok(Self::ended(reuse)),
        }
    }

    // A body packet of k bytes, for a caller that knows the move: refused in the same way, or the connection after it.
    #[tactic(auto, unfolding(crate::specs::Cycle::step_of))]
    pub fn step_body(self, k: usize) -> Result<Connection, Refusal>
        ensures { step_meaning result ≡ step_of self (Move.Body k) }
    {
        self.check_kind(Kind::Body)?;
        self.sized_body(k)
    }

    // A Send Body Chunk of k bytes, in the same way.
    #[tactic(auto, unfolding(crate::specs::Cycle::step_of))]
    pub fn step_body_chunk(self, k: usize) -> Result<Connection, Refusal>
        ensures { step_meaning result ≡ step_of self (Move.BodyChunk k) }
    {
        self.check_kind(Kind::BodyChunk)?;
        self.sized_chunk(k)
    }

    // A Get Body Chunk that asks for so many bytes, in the same way.
    #[tactic(auto, unfolding(crate::specs::Cycle::step_of))]
    pub fn step_get_body(self, asked: u16) -> Result<Connection, Refusal>
        ensures { step_meaning result ≡ step_of self (Move.GetBody asked) }
    {
        self.check_kind(Kind::GetBody)?;
        Ok(self.busy().with_due(true, asked))
    }

    // An End, in the same way.
    #[tactic(auto, unfolding(crate::specs::Cycle::step_of))]
    pub fn step_end(self, reuse: bool) -> Result<Connection, Refusal>
        ensures { step_meaning result ≡ step_of self (Move.End reuse) }
    {
        self.check_kind(Kind::End)?;
        Ok(Self::ended(reuse))
    }

    // Refused where a kind of packet is not allowed now.
    fn check_kind(self, kind: Kind) -> Result<(), Refusal>
        ensures { fault_number result ≡ pick (in_state self kind) none not_now }
    {
        if !self.allows(kind) {
            return Err(Refusal::NotNow);
        }
        Ok(())
    }

    // A body packet of k bytes where one is due: its size, then the connection after it.
    fn sized_body(self, k: usize) -> Result<Connection, Refusal>
        ensures { step_meaning result ≡ sized_step self (Move.Body k) }
    {
        let left = self.left;
        if !is_size_allowed(self.largest_body(), k) {
            return Err(Refusal::BodySizeWrong);
        }
        Ok(self.busy().with_left(left.less(k)).with_due(false, 0))
    }

    // A Send Body Chunk of k bytes where one is allowed, in the same way.
    fn sized_chunk(self, k: usize) -> Result<Connection, Refusal>
        ensures { step_meaning result ≡ sized_step self (Move.BodyChunk k) }
    {
        if !is_chunk_allowed(self.is_head(), k) {
            return Err(Refusal::BodySizeWrong);
        }
        Ok(self.busy())
    }

    // A request as its Forward tells of it: all of its body is left, a body packet is due where there is any, and whether it is HEAD.
    fn forwarded(f: ForwardMove) -> Connection
        ensures { result ≡ forwarded f }
    {
        let left = f.declared;
        Self::rest(State::Busy)
            .with_left(left)
            .with_due(0 < left.0, Self::MAX_BODY)
            .with_head(f.head)
    }

    // The connection after a request's end: Idle where it is used again, else Closed.
    fn ended(reuse: bool) -> Connection
        ensures { result ≡ rest (pick reuse State.Idle State.Closed) }
    {
        Self::rest(if reuse { State::Idle } else { State::Closed })
    }
}

// Whether a body packet of k bytes is allowed where at most `most` may come: empty where that is none, else 1 to that many.
fn is_size_allowed(most: u16, k: usize) -> bool
    ensures { result ≡ size_allowed most k }
{
    if k == 0 {
        return most == 0;
    }
    k <= most as usize
}

// Whether a Send Body Chunk of k bytes is allowed, by whether the request is HEAD: then only an empty one is.
fn is_chunk_allowed(head: bool, k: usize) -> bool
    ensures { result ≡ chunk_allowed head k }
{
    !head || k == 0
}
