// A connection as words.
ghost use Rattle.std.specs.Prelude.{◌≡◌};
ghost use Rattle.words.specs.ConnectionWords.{state_word, state_in, are_unused, are_busy, connection_room, connection_fault, connection_in, connection_words};
ghost use Rattle.words.specs.Failure.{status_number};

use crate::number::{LAST_NUMBER, SET, flag_in, number_in};
use crate::status::Failure;
use connection::{Connection, State};
use packet::BodyLeft;

// How many words, and where each stands.
pub const CONNECTION_SIZE: usize = 8;

const STATE: usize = 0;

const LEFT: usize = 1;

const DUE: usize = 2;

const ASKED: usize = 3;

const HEADERS: usize = 4;

const HEAD: usize = 5;

const EDITION: usize = 6;

const OPEN: usize = 7;

// The word that is kept for later.
const UNUSED: u32 = 0;

// The words of the states.
const IDLE: u32 = 0;

const PINGED: u32 = 1;

const BUSY: u32 = 2;

const CLOSED: u32 = 3;

// The word of a state.
pub fn state_word(state: State) -> u32
    ensures { result ≡ state_word state }
{
    match state {
        State::Idle => IDLE,
        State::Pinged => PINGED,
        State::Busy => BUSY,
        State::Closed => CLOSED,
    }
}

// Whether the words that are kept for later are 0.
fn are_unused(words: &[u32; CONNECTION_SIZE]) -> bool
    ensures { result ≡ are_unused words.now }
{
    (words[EDITION] == UNUSED) & (words[OPEN] == UNUSED)
}

// Whether the words that count in Busy alone are what they have to be there.
fn are_busy(words: &[u32; CONNECTION_SIZE]) -> bool
    ensures { result ≡ are_busy words.now }
{
    words[DUE] <= SET
        && words[HEADERS] <= SET
        && words[HEAD] <= SET
        && (words[DUE] != SET || words[ASKED] <= LAST_NUMBER)
}

// The state that a word is: a word that is none of a state is taken for the last.
#[tactic(auto, unfolding(crate::specs::ConnectionWords::state_in))]
fn state_in(word: u32) -> State
    ensures { result ≡ state_in word }
{
    match word {
        IDLE => State::Idle,
        PINGED => State::Pinged,
        BUSY => State::Busy,
        _ => State::Closed,
    }
}

// The connection that words are, also where they have a fault.
#[tactic(auto, unfolding(crate::specs::ConnectionWords::connection_in))]
pub fn connection_in(words: &[u32; CONNECTION_SIZE]) -> Connection
    ensures { result ≡ connection_in words.now }
{
    Connection::rest(state_in(words[STATE]))
        .with_left(BodyLeft(words[LEFT]))
        .with_due(flag_in(words[DUE]), number_in(words[ASKED]))
        .with_headers(flag_in(words[HEADERS]))
        .with_head(flag_in(words[HEAD]))
}

// The fault of an array that is to take a connection.
#[tactic(auto, unfolding(crate::specs::ConnectionWords::connection_room))]
pub fn connection_room(words: &[u32]) -> Result<(), Failure>
    ensures { status_number result ≡ connection_room words.now }
{
    if words.len() == CONNECTION_SIZE {
        Ok(())
    } else {
        Err(Failure::ConnectionLength)
    }
}

// The fault of the words of a connection.
#[tactic(auto, unfolding(crate::specs::ConnectionWords::connection_fault, crate::specs::ConnectionWords::are_connection))]
pub fn connection_fault(words: &[u32; CONNECTION_SIZE]) -> Result<(), Failure>
    ensures { status_number result ≡ connection_fault words.now }
{
    let right = are_unused(words)
        && match words[STATE] {
            BUSY => are_busy(words),
            state => state <= CLOSED,
        };
    if right {
        Ok(())
    } else {
        Err(Failure::ConnectionWord)
    }
}

// The words of a connection.
#[tactic(auto, using(crate::proofs::Flags::flag_word), unfolding(crate::specs::ConnectionWords::connection_words))]
pub fn connection_words(connection: Connection) -> [u32; CONNECTION_SIZE]
    ensures { result ≡ connection_words connection }
{
    let left = connection.left();
    [
        state_word(connection.state()),
        left.0,
        u32::from(connection.due()),
        u32::from(connection.asked()),
        u32::from(connection.headers()),
        u32::from(connection.head()),
        UNUSED,
        UNUSED,
    ]
}
