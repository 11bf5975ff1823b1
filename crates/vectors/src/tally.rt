// How many cases there were, and how many differ: for each command, and in all.
use std::io;
use vectors_text::commands::{COUNT, Command, LISTED};

#[derive(Clone, Copy)]
struct Tally {
    cases: u64,
    differ: u64,
}

impl Tally {
    const NONE: Tally = Tally {
        cases: 0,
        differ: 0,
    };

    fn count(&mut self, differs: bool) {
        self.cases = self.cases.saturating_add(1);
        if differs {
            self.differ = self.differ.saturating_add(1);
        }
    }

    fn show(self, name: &str, rt: &impl Print) -> io::Result<()> {
        let cases = self.cases;
        let differ = self.differ;
        println!(rt; "{name}: {cases} cases, {differ} differ")
    }
}

// The tallies of the commands, in the order of their list, and the one of all cases.
#[derive(Clone, Copy)]
pub struct Tallies {
    commands: [Tally; COUNT],
    all: Tally,
}

impl Tallies {
    pub fn none() -> Tallies {
        Tallies {
            commands: [Tally::NONE; COUNT],
            all: Tally::NONE,
        }
    }

    // Counts a case of a command. One of no command counts in all alone.
    pub fn count(&mut self, command: Option<Command>, differs: bool) {
        self.all.count(differs);
        for (listed, tally) in LISTED.iter().zip(self.commands.iter_mut()) {
            if command == Some(listed.command) {
                tally.count(differs);
            }
        }
    }

    // Prints a line for each tally.
    pub fn show(&self, rt: &impl Print) -> io::Result<()> {
        for (listed, tally) in LISTED.iter().zip(self.commands.iter()) {
            tally.show(listed.name, rt)?;
        }
        self.all.show("in all", rt)
    }
}
