// A conversation between the two ends of the library. Each end keeps its own connection, and this program carries every packet from the end
// that sent it to the other, which reads it. It prints each send with its bytes, what the other end read of them, and both connections.
#![tactic(auto)]

mod content;
mod ends;
mod piece;
mod sections;

use crate::ends::Ends;
use std::io;

fn main(rt: HostRuntime) -> io::Result<()> {
    println!(rt; "Two ends of a connection, both fresh")?;
    let mut ends = Ends::fresh();
    print!(rt; "{ends}")?;
    for section in sections::SECTIONS {
        println!(rt; "\n{}", section.title)?;
        for content in section.sends {
            ends.send(&rt, *content)?;
        }
    }
    Ok(())
}
