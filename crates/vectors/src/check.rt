// The command `check`: what the checker answers to a capture.
use connection::State;
use std::io;
use std::io::Write;
use vectors_text::text::Written;
use vectors_text::{commands, parse, text};

// The part of a case that has the capture.
const CAPTURE: usize = 1;

// Writes the checker's answer to a case.
pub fn answer(case: &[u8], out: &mut Written) -> io::Result<()> {
    let mut room = [0u8; commands::BYTES];
    let capture = parse::bytes(text::part(case, CAPTURE), &mut room);
    let checked = checking::check(capture);
    let packets = checked.packets;
    let requests = checked.requests;
    let body = checked.body;
    let state = state_word(checked.state);
    let refusal = checked.refusal;
    let place = checked.place;
    write!(
        out,
        "packets={packets};requests={requests};body={body};state={state};refusal={refusal};place={place}"
    )
}

fn state_word(state: State) -> &'static str {
    match state {
        State::Idle => "idle",
        State::Pinged => "pinged",
        State::Busy => "busy",
        State::Closed => "closed",
    }
}
