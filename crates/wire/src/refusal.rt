// The refusals, under the names that `specs/Refusal.antt` gives their numbers.
ghost use Rattle.std.specs.Prelude.{◌≡◌, map};
ghost use Rattle.wire.specs.Refusal.{refusals, number_of};

// Why a packet, a call or a capture is refused. The number of each is that of document 01's table.
#[derive(Clone, Copy, Debug, PartialEq, Eq)]
pub enum Refusal {
    LeadingWrong = 1,
    TooLong = 2,
    CutShort = 3,
    CodeWrong = 4,
    CodeNotServed = 5,
    StringWrong = 6,
    OutOfRange = 7,
    NameWrong = 8,
    AttributeWrong = 9,
    ContentLengthWrong = 10,
    TooMany = 11,
    LeftOver = 12,
    NotNow = 13,
    BodySizeWrong = 14,
    BufferTooShort = 15,
    RecordWrong = 16,
    UnfinishedPacket = 17,
    CaptureTooLong = 18,
}

impl Refusal {
    // The refusal's number.
    pub fn number(self) -> u8
        ensures { result ≡ number_of self }
    {
        self as u8
    }
}

// How many there are.
const COUNT: usize = 18;

// All of them, in the order of the table. A place in the list says nothing of a number: later ones join at the end, and some may be left out.
pub fn all() -> [Refusal; COUNT]
    ensures { map number_of result ≡ refusals }
{
    [
        Refusal::LeadingWrong,
        Refusal::TooLong,
        Refusal::CutShort,
        Refusal::CodeWrong,
        Refusal::CodeNotServed,
        Refusal::StringWrong,
        Refusal::OutOfRange,
        Refusal::NameWrong,
        Refusal::AttributeWrong,
        Refusal::ContentLengthWrong,
        Refusal::TooMany,
        Refusal::LeftOver,
        Refusal::NotNow,
        Refusal::BodySizeWrong,
        Refusal::BufferTooShort,
        Refusal::RecordWrong,
        Refusal::UnfinishedPacket,
        Refusal::CaptureTooLong,
    ]
}
