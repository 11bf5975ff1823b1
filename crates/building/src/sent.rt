// What the answer of a call that sends says.
ghost use Rattle.std.specs.Prelude.{◌≡◌};
ghost use Rattle.building.specs.Sent.{is_written};

use connection::{Refusal, Written};

// Whether an answer says that the packet is written.
pub fn is_written(sent: Result<Written, Refusal>) -> bool
    ensures { result ≡ is_written sent }
{
    sent.is_ok()
}
