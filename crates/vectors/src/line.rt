// A line of the list: a case and the answer that is expected.
use crate::command;
use crate::tally::Tallies;
use std::io;
use vectors_text::text::Written;
use vectors_text::{commands, expand, same, text};
use wire::part_of;

// A line and its number.
#[derive(Clone, Copy)]
struct Line<'a> {
    number: usize,
    text: &'a [u8],
}

// Judges the lines, and counts them.
#[derive(Drop)]
pub struct Judge {
    case: Written,
    answer: Written,
    pub tallies: Tallies,
}

impl Judge {
    pub fn new() -> Judge {
        Judge {
            case: Written::new(),
            answer: Written::new(),
            tallies: Tallies::none(),
        }
    }

    // Judges the lines of a list.
    pub fn judge_all(&mut self, rt: &impl Print, list: &[u8]) -> io::Result<()> {
        for (i, text) in list.split(|b| *b == b'\n').enumerate() {
            self.judge(
                rt,
                Line {
                    number: i + 1,
                    text,
                },
            )?;
        }
        Ok(())
    }

    // Judges a line. A comment and an empty line have no case.
    fn judge(&mut self, rt: &impl Print, line: Line<'_>) -> io::Result<()> {
        if matches!(line.text, [] | [b'#', ..]) {
            return Ok(());
        }
        self.case.clear();
        if expand::line(line.text, &mut self.case).is_err() {
            self.tallies.count(None, true);
            return report(rt, line, b"", b"cannot be written out");
        }
        self.compare(rt, line.number)
    }

    // Compares the answer to the case that is written out with the one that is expected. Where it differs, that is printed.
    fn compare(&mut self, rt: &impl Print, number: usize) -> io::Result<()> {
        let written = self.case.as_slice();
        let (case, expected) = text::split_once(written, b'\t').unwrap_or((written, &[]));
        let line = Line { number, text: case };
        let Some(command) = commands::of(case) else {
            self.tallies.count(None, true);
            return report(rt, line, expected, b"not understood");
        };
        self.answer.clear();
        command::answer(command, case, &mut self.answer)?;
        let came = self.answer.as_slice();
        let differs = !same::answers(came, expected);
        self.tallies.count(Some(command), differs);
        if differs {
            report(rt, line, expected, came)?;
        }
        Ok(())
    }
}

// How many characters of a case are printed at most.
const SHOWN: usize = 60;

// Prints a case that differs: its line's number, how it begins, what was expected and what came.
fn report(rt: &impl Print, case: Line<'_>, expected: &[u8], came: &[u8]) -> io::Result<()> {
    let number = case.number;
    print!(rt; "line {number}: ")?;
    rt.write_all(part_of(case.text, 0, SHOWN))?;
    print!(rt; "\n  expected: ")?;
    rt.write_all(expected)?;
    print!(rt; "\n  came:     ")?;
    rt.write_all(came)?;
    println!(rt; "")
}
