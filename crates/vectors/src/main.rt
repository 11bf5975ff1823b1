// Runs the library on the cases that standard input lists, one a line, and compares its answers with those of the list. It prints each case
// that differs, and at the end how many there were. The list itself says how a case is written.
#![tactic(auto)]

mod check;
mod command;
mod line;
mod name;
mod read;
mod tally;

ghost use Rattle.std.specs.Prelude.{◌≤◌, IfOk, length};

use crate::line::Judge;
use std::io;
use std::io::Read;
use wire::part_of;

// The list is shorter than this.
const LIST: usize = 1048576;

// The room for it, in a function of its own. Tried in `main`: its proof looks into so large an array, and runs out of stack.
fn room_for_list() -> [u8; LIST] {
    [0; LIST]
}

fn main(rt: HostRuntime) -> io::Result<()> {
    let mut room = room_for_list();
    let count = read_full(&mut rt.stdin(), &mut room)?;
    let mut judge = Judge::new();
    judge.judge_all(&rt, part_of(&room, 0, count))?;
    if count == LIST {
        println!(rt; "the list is too long to be read")?;
        judge.tallies.count(None, true);
    }
    judge.tallies.show(&rt)
}

// Reads until the room is full or the input ends: how many bytes came.
fn read_full(input: &mut impl Read, room: &mut [u8]) -> io::Result<usize>
    ensures { IfOk result (λ count. count ≤ length room.new) }
{
    let mut done = 0;
    while done < room.len() {
        let n = input.read(&mut room[done..])?;
        if n == 0 {
            break;
        }
        done += n;
    }
    Ok(done)
}
