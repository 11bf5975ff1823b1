// Words for what is printed.
use packet::Direction;
use std::io;
use wire::refusal::Refusal;

// Prints a refusal's number and what it says.
pub fn refusal(rt: &impl Print, refusal: Refusal) -> io::Result<()> {
    println!(rt; "    refused {}: {}", refusal.number(), reason(refusal))
}

// What a refusal says.
fn reason(refusal: Refusal) -> &'static str {
    match refusal {
        Refusal::LeadingWrong => "wrong leading bytes",
        Refusal::TooLong => "packet too long",
        Refusal::CutShort => "cut short",
        Refusal::CodeWrong => "unknown code",
        Refusal::CodeNotServed => "code not served",
        Refusal::StringWrong => "wrong string",
        Refusal::OutOfRange => "out of range",
        Refusal::NameWrong => "wrong header name",
        Refusal::AttributeWrong => "wrong attribute code",
        Refusal::ContentLengthWrong => "wrong content-length",
        Refusal::TooMany => "too many",
        Refusal::LeftOver => "bytes left over",
        Refusal::NotNow => "not allowed in this state",
        Refusal::BodySizeWrong => "wrong body size",
        Refusal::BufferTooShort => "too little room",
        Refusal::RecordWrong => "wrong building record",
        Refusal::UnfinishedPacket => "unfinished packet",
        Refusal::CaptureTooLong => "capture too long",
    }
}

// Prints the end that sends in a direction, and the one to which it leads.
pub fn way(rt: &impl Print, direction: Direction) -> io::Result<()> {
    match direction {
        Direction::ToContainer => print!(rt; "server -> container: "),
        Direction::ToServer => print!(rt; "container -> server: "),
    }
}

// Prints the end that reads, and how many bytes.
pub fn reads(rt: &impl Print, direction: Direction, taken: usize) -> io::Result<()> {
    match direction {
        Direction::ToContainer => print!(rt; "    container reads {taken} bytes: "),
        Direction::ToServer => print!(rt; "    server reads {taken} bytes: "),
    }
}
