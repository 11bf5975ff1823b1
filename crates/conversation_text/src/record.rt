// A connection, in a line.
use connection::{Connection, State};
use std::fmt;

// The connection of an end of this name.
#[derive(Clone, Copy)]
pub struct Record<'a> {
    pub name: &'a str,
    pub connection: Connection,
}

// Each field from a column of its own.
impl fmt::Display for Record<'_> {
    fn fmt<W: fmt::Write>(&self, f: &mut fmt::Formatter<W>) -> fmt::Result {
        let name = self.name;
        let state = state(self.connection.state());
        let left = self.connection.left().0;
        let due = answer(self.connection.due());
        let asked = self.connection.asked();
        let headers = answer(self.connection.headers());
        let head = answer(self.connection.head());
        write!(
            f,
            "{name:<15}{state:<8}left {left:<4}due {due:<5}asked {asked:<6}headers {headers:<5}head {head}"
        )
    }
}

fn answer(is: bool) -> &'static str {
    if is { "yes" } else { "no" }
}

fn state(s: State) -> &'static str {
    match s {
        State::Idle => "Idle",
        State::Pinged => "Pinged",
        State::Busy => "Busy",
        State::Closed => "Closed",
    }
}
