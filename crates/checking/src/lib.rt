// The checker over a capture: does it keep the rules? Over a whole lent slice, or in parts: begin, go on with more bytes, finish with the
// capture's size. No call has a condition: any record gets an answer.
#![tactic(auto)]

ghost use Rattle.std.specs.Prelude.{◌≡◌, ◌+◌, ◌-◌, ◌≤◌, length};
ghost use Rattle.wire.specs.Refusal.{none};
ghost use Rattle.capture.specs.Course.{course};
ghost use Rattle.checking.specs.Checking.{max_capture, requests_in, body_in, verdict, verdict_place, checked, begun, goes_on, advanced, gone_on, finished};
ghost use Rattle.checking.specs.Private.{FiguresCount, PacketCounts, counted};

use capture::read_first;
use connection::{Connection, State};
use packet::Packet;
use places::MAX_PLACES;
use reader::Received;
use wire::part_of;
use wire::refusal::Refusal;

// The most bytes of a capture: of a longer one only so many are judged.
pub const MAX_CAPTURE: u32 = 4294967295;

// What a check's refusal is where nothing was refused.
pub const NO_REFUSAL: u8 = 0;

// A check on the way: the connection and the figures of the packets that were accepted, the place behind them, and the refusal of the
// packet that stands there, 0 for none. The refusal is a number and not a `Refusal`, so that any record gets an answer.
#[derive(Clone, Copy, Debug, PartialEq, Eq)]
pub struct Checking {
    pub connection: Connection,
    pub packets: u32,
    pub requests: u32,
    pub body: u32,
    pub place: u32,
    pub refusal: u8,
}

// The checker's answer: packets, requests and body bytes of accepted packets, the state after them, the refusal, 0 where the capture
// passes, and the place where the refused packet starts, or the end.
// It has the figures of a check one by one, since the definitions `finished` and `checked_by` name the fields of both.
#[derive(Clone, Copy, Debug, PartialEq, Eq)]
pub struct Checked {
    pub packets: u32,
    pub requests: u32,
    pub body: u32,
    pub state: State,
    pub refusal: u8,
    pub place: u32,
}

// Checks a whole capture.
pub fn check(capture: &[u8]) -> Checked
    ensures { result ≡ checked capture.now }
{
    let size = capture.len() as u64;
    Checking::begin().go_on(capture).finish(size)
}

// How many requests a packet is.
fn requests_in(packet: Packet) -> u32
    ensures { result ≡ requests_in packet }
{
    matches!(packet, Packet::Forward(_)) as u32
}

// How many bytes of a request's body a packet holds.
fn body_in(packet: Packet) -> u32
    ensures { result ≡ body_in packet }
{
    match packet {
        Packet::Body(part) => part.len as u32,
        _ => 0,
    }
}

impl Checking {
    // Before the first byte.
    pub fn begin() -> Checking
        ensures { result ≡ begun }
    {
        Checking {
            connection: Connection::fresh(),
            packets: 0,
            requests: 0,
            body: 0,
            place: 0,
            refusal: NO_REFUSAL,
        }
    }

    // Whether more bytes are looked at: nothing was refused, and the figures can be.
    #[tactic(auto, unfolding(crate::specs::Checking::goes_on))]
    pub fn goes_on(self) -> bool
        ensures { result ≡ goes_on self }
    {
        self.refusal == NO_REFUSAL
            && self.packets <= self.place
            && self.requests <= self.place
            && self.body <= self.place
    }

    // Goes on with more bytes, from this check's place on. It takes whole packets: by so many bytes its place moves, and those behind
    // them are to be given again, with more behind them. Where something was refused it stays as it is.
    #[tactic(auto, unfolding(crate::specs::Checking::gone_on))]
    pub fn go_on(self, bytes: &[u8]) -> Checking
        ensures { result ≡ gone_on self bytes.now }
    {
        if !self.goes_on() {
            return self;
        }
        let room = MAX_CAPTURE as usize - self.place as usize;
        self.run(part_of(bytes, 0, room))
    }

    // One packet more, which was accepted.
    fn counted(self, packet: Packet, taken: usize, after: Connection) -> Checking
        requires { (self.place + taken ≤ max_capture) × PacketCounts self packet taken }
        ensures { result ≡ counted self packet taken after }
    {
        Checking {
            connection: after,
            packets: self.packets + 1,
            requests: self.requests + requests_in(packet),
            body: self.body + body_in(packet),
            place: self.place + taken as u32,
            refusal: NO_REFUSAL,
        }
    }

    // The packets of the bytes, one after the other. The table is laid out once for all of them.
    fn run(self, bytes: &[u8]) -> Checking
        requires { (self.place + length bytes.now ≤ max_capture) × (FiguresCount self × (self.refusal ≡ none)) }
        ensures { result ≡ advanced self (course self.connection bytes.now) }
    {
        let mut table = [0u16; MAX_PLACES];
        let mut checking = self;
        let mut left = bytes;
        while !left.is_empty() {
            match read_first(checking.connection, left, &mut table) {
                Ok(
                    Received::Accepted {
                        packet,
                        taken,
                        connection,
                    },
                ) => {
                    checking = checking.counted(packet, taken, connection);
                    left = &left[taken..];
                }
                Ok(Received::Needs(_)) => return checking,
                Err(refusal) => {
                    checking.refusal = refusal.number();
                    return checking;
                }
            }
        }
        checking
    }

    // The answer at the end of a capture of `size` bytes.
    #[tactic(auto, unfolding(crate::specs::Checking::finished))]
    pub fn finish(self, size: u64) -> Checked
        ensures { result ≡ finished self size }
    {
        Checked {
            packets: self.packets,
            requests: self.requests,
            body: self.body,
            state: self.connection.state(),
            refusal: self.verdict(size),
            place: self.verdict_place(size),
        }
    }

    // The refusal of a capture of `size` bytes.
    #[tactic(auto, unfolding(crate::specs::Checking::verdict))]
    fn verdict(self, size: u64) -> u8
        ensures { result ≡ verdict self.refusal self.place size }
    {
        if self.refusal != NO_REFUSAL {
            return self.refusal;
        }
        if (MAX_CAPTURE as u64) < size {
            return Refusal::CaptureTooLong.number();
        }
        if self.place as u64 != size {
            return Refusal::UnfinishedPacket.number();
        }
        NO_REFUSAL
    }

    // The place that is told.
    #[tactic(auto, unfolding(crate::specs::Checking::verdict_place))]
    fn verdict_place(self, size: u64) -> u32
        ensures { result ≡ verdict_place self.refusal self.place size }
    {
        if self.refusal == NO_REFUSAL && (MAX_CAPTURE as u64) < size {
            return MAX_CAPTURE;
        }
        self.place
    }
}
