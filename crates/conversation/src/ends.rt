// The two ends: the connection that each of them keeps, and how many sends there were. A packet that one of them wrote is carried to the
// other, which reads it.
use crate::content::Content;
use connection::{Connection, Written};
use conversation_text::record::Record;
use conversation_text::{row, told, words};
use packet::Direction;
use places::MAX_PLACES;
use reader::Received;
use std::{fmt, io};
use wire::part_of;

#[derive(Clone, Copy)]
pub struct Ends {
    server: Connection,
    container: Connection,
    sends: u32,
}

impl Ends {
    pub fn fresh() -> Ends {
        Ends {
            server: Connection::fresh(),
            container: Connection::fresh(),
            sends: 0,
        }
    }

    // Sends a packet. The send is printed, and so are the ends after it: where it was refused, as they were.
    pub fn send(&mut self, rt: &impl Print, content: Content<'_>) -> io::Result<()> {
        let direction = content.direction();
        self.sends = self.sends.saturating_add(1);
        print!(rt; "\n{}. ", self.sends)?;
        words::way(rt, direction)?;
        println!(rt; "{content}")?;
        let mut buffer = [0u8; Connection::MAX_PACKET];
        let (sender, receiver) = self.along(direction);
        match content.write(*sender, &mut buffer) {
            Err(refusal) => words::refusal(rt, refusal)?,
            Ok(Written { size, connection }) => {
                let packet = part_of(&buffer, 0, size);
                *sender = connection;
                row::show_all(rt, packet)?;
                receive(rt, direction, receiver, packet)?;
            }
        }
        print!(rt; "{self}")
    }

    // The connections of the end that sends in a direction, and of the one that receives.
    fn along(&mut self, direction: Direction) -> (&mut Connection, &mut Connection) {
        match direction {
            Direction::ToContainer => (&mut self.server, &mut self.container),
            Direction::ToServer => (&mut self.container, &mut self.server),
        }
    }
}

// Reads a packet at the end to which a direction leads. What it reads is printed.
fn receive(
    rt: &impl Print,
    direction: Direction,
    receiver: &mut Connection,
    bytes: &[u8],
) -> io::Result<()> {
    let mut table = [0u16; MAX_PLACES];
    let received = match direction {
        Direction::ToContainer => reader::read_at_container(*receiver, bytes, &mut table),
        Direction::ToServer => reader::read_at_server(*receiver, bytes, &mut table),
    };
    match received {
        Err(refusal) => words::refusal(rt, refusal),
        Ok(Received::Needs(n)) => println!(rt; "    needs {n} bytes"),
        Ok(
            Received::Accepted {
                packet,
                taken,
                connection,
            },
        ) => {
            *receiver = connection;
            words::reads(rt, direction, taken)?;
            told::show(rt, packet, bytes, &table)
        }
    }
}

// Both connections, each in a line.
impl fmt::Display for Ends {
    fn fmt<W: fmt::Write>(&self, f: &mut fmt::Formatter<W>) -> fmt::Result {
        let server = Record {
            name: "    server",
            connection: self.server,
        };
        let container = Record {
            name: "    container",
            connection: self.container,
        };
        writeln!(f, "{server}")?;
        writeln!(f, "{container}")
    }
}
