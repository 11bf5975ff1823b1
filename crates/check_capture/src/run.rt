// A capture read in parts through a window on the stack, so that it may have any size.
ghost use Rattle.std.specs.Prelude.{◌+◌, ◌≡◌, ◌≤◌, IfOk};
ghost use Rattle.check_capture.specs.Window.{window_size};

use capture::window::keep;
use checking::{Checked, Checking, MAX_CAPTURE, NO_REFUSAL};
use std::io;
use std::io::Read;

// The window has room for many packets, so that few reads are made.
const WINDOW: usize = 131072;

// A run on the way: the check, the window, and how many bytes that the check has not taken are kept at its front.
#[derive(Drop)]
struct Run {
    checking: Checking,
    window: [u8; WINDOW],
    kept: usize,
    ghost in_window: { kept ≤ window_size },
}

// Checks what is read from a file.
pub fn check(file: &mut impl Read) -> io::Result<Checked> {
    let mut run = Run {
        checking: Checking::begin(),
        window: [0; WINDOW],
        kept: 0,
    };
    run.read_all(file)?;
    Ok(run.checking.finish(run.size()))
}

impl Run {
    // Reads to the end, or until no more bytes would be looked at. No run uses up the turns.
    fn read_all(&mut self, file: &mut impl Read) -> io::Result<()> {
        for _ in 0..u64::MAX {
            let count = self.read(file)?;
            if count == 0 {
                return Ok(());
            }
            self.go_on(count);
            if self.is_decided() {
                return Ok(());
            }
        }
        Err(io::Error::other("it has no end"))
    }

    // Reads once behind the bytes that are kept: how many bytes came. Where there is no room none is made: it would be taken for the end.
    fn read(&mut self, file: &mut impl Read) -> io::Result<usize>
        ensures kept { self.new.kept ≡ self.old.kept }
        ensures in_window { IfOk result (λ count. self.old.kept + count ≤ window_size) }
    {
        if self.kept == WINDOW {
            return Err(io::Error::other("no room is left to read into"));
        }
        file.read(&mut self.window[self.kept..])
    }

    // Goes on with so many bytes more, and keeps those that were not taken.
    #[tactic(auto, using(checking::proofs::Parts::taken_there))]
    fn go_on(&mut self, count: usize)
        requires { self.old.kept + count ≤ window_size }
    {
        let there = self.kept + count;
        let checking = self.checking.go_on(&self.window[..there]);
        let taken = (checking.place - self.checking.place) as usize;
        keep(&mut self.window, taken, there - taken);
        self.checking = checking;
        self.kept = there - taken;
    }

    // Whether no more bytes would be looked at: something was refused, or more came than is judged.
    fn is_decided(&self) -> bool {
        self.checking.refusal != NO_REFUSAL || self.size() > u64::from(MAX_CAPTURE)
    }

    // How many bytes were read: those up to the check's place, and those that are kept behind it.
    fn size(&self) -> u64 {
        u64::from(self.checking.place) + self.kept as u64
    }
}
