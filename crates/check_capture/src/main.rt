// Checks a capture of an AJP13 connection: a file by its name, or standard input. It writes the checker's six lines to standard output. What
// keeps it from reading the whole of a capture is told on standard error, and then nothing is written to standard output.
#![tactic(auto)]

mod command;
mod failure;
mod run;
mod show;

use crate::command::Command;
use crate::failure::Failure;
use std::env::FillError;
use std::fs::File;
use std::io::Read;
use std::rt::Env;
use std::{io, str};

// Room for the longest name that the system opens.
const NAME: usize = 4096;

fn main(rt: HostRuntime) {
    let mut room = [0u8; NAME];
    if let Err(failure) = obey(&rt, &mut room) {
        let _ = eprintln!(rt; "check_capture: {failure}");
    }
}

// Does what the command line asks for. Its word is stored in the room.
fn obey<'a>(rt: &HostRuntime, room: &'a mut [u8]) -> Result<(), Failure<'a>> {
    match asked(rt, room)? {
        Command::Help => help(rt),
        Command::StandardInput => judge(rt, &mut rt.stdin(), "standard input"),
        Command::File(name) => {
            let mut file = File::open(rt, name).map_err(|why| Failure::Io { name, why })?;
            judge(rt, &mut file, name)
        }
    }
}

// What the command line asks for. A name that is no text cannot be opened. Words are asked for by number, since `std::env::args` allocates.
fn asked<'a>(rt: &impl Env, room: &'a mut [u8]) -> Result<Command<'a>, Failure<'a>> {
    if !has_word(rt, 1) {
        return Ok(Command::StandardInput);
    }
    if has_word(rt, 2) {
        return Err(Failure::TooManyWords);
    }
    let word = named(rt, room).map_err(|why| Failure::Io {
        name: "the name of the capture",
        why,
    })?;
    Command::try_from(word)
}

// Whether the command line has a word of this number. The program's own name is number 0.
fn has_word(rt: &impl Env, number: usize) -> bool {
    !matches!(rt.arg(number, &mut [0; 0]), Err(FillError::NotPresent))
}

// The first word on the command line.
fn named<'a>(rt: &impl Env, room: &'a mut [u8]) -> io::Result<&'a str> {
    let size = rt
        .arg(1, room)
        .map_err(|_| io::Error::from(io::ErrorKind::InvalidFilename))?;
    str::from_utf8(&room[..size]).map_err(|_| io::Error::new(
        io::ErrorKind::InvalidInput,
        "it is not UTF-8",
    ))
}

// Checks what is read from a file, and writes the six lines.
fn judge<'a>(rt: &impl Print, file: &mut impl Read, name: &'a str) -> Result<(), Failure<'a>> {
    let checked = run::check(file).map_err(|why| Failure::Io { name, why })?;
    written(show::lines(rt, checked))
}

// Says what the program does.
fn help(rt: &impl Print) -> Result<(), Failure<'static>> {
    written(rt.print(
        "usage: check_capture [FILE]

Checks a capture of an AJP13 connection: whole packets of both directions, one behind the other, as
they are seen at the web server's end. Reads FILE, or standard input without one, and writes six lines:

packets=    how many packets were accepted     state=     idle, pinged, busy or closed after them
requests=   how many of them are requests      refusal=   0: the capture passes; else what is wrong
body=       bytes of request bodies in them    place=     where the refused packet starts, or the end

It stops at the first fault. docs/CAPTURES.md says what each number means, and how to make a capture.
",
    ))
}

// What became of writing to standard output.
fn written(outcome: io::Result<()>) -> Result<(), Failure<'static>> {
    outcome.map_err(|why| Failure::Io {
        name: "standard output",
        why,
    })
}
