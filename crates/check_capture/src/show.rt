// The checker's six lines.
use checking::Checked;
use connection::State;
use std::io;

// Writes the six lines.
pub fn lines(rt: &impl Print, checked: Checked) -> io::Result<()> {
    println!(rt; "packets={}", checked.packets)?;
    println!(rt; "requests={}", checked.requests)?;
    println!(rt; "body={}", checked.body)?;
    println!(rt; "state={}", name(checked.state))?;
    println!(rt; "refusal={}", checked.refusal)?;
    println!(rt; "place={}", checked.place)
}

// A state's name.
fn name(state: State) -> &'static str {
    match state {
        State::Idle => "idle",
        State::Pinged => "pinged",
        State::Busy => "busy",
        State::Closed => "closed",
    }
}
