// The pieces of a Forward and of a Send Headers: the fixed fields (`forward`, `send_headers`), then each header (`header`), then each
// attribute (`attribute`). Each call takes the building record that the one before it answered, and answers the next one. A refusal
// leaves the buffer as it was, and the record given still counts. Every public call answers for any record, any buffer and any arguments.
// For each piece a call with the same arguments tells how many bytes the buffer needs for it, counted from the buffer's first byte;
// 8193 says that no buffer helps. When a Forward is closed, its FF needs one byte more. A buffer of 8192 bytes is always long enough.
#![tactic(auto)]

ghost use Rattle.std.specs.Prelude.{◌≡◌, ◌≤◌, ◌<◌};
ghost use Rattle.places.specs.Entries.{max_headers};
ghost use Rattle.connection.specs.Connection.{max_packet};
ghost use Rattle.building_record.specs.Record.{count_size, opened, with_header, with_attribute};

use building_record::{Building, BuildingKind, COUNT_SIZE};
use packet::Place;

pub mod attribute;
pub mod code;
pub mod forward;
pub mod header;
pub mod send_headers;

// The record behind a header that ends at a place.
fn with_header(building: Building, end: usize) -> Building
    requires { (end ≤ max_packet) × (building.headers < max_headers) }
    ensures { result ≡ with_header building end }
{
    Building {
        next: Place(end as u16),
        headers: building.headers + 1,
        ..building
    }
}

// The record behind an attribute that ends at a place.
fn with_attribute(building: Building, end: usize) -> Building
    requires { end ≤ max_packet }
    ensures { result ≡ with_attribute building end }
{
    Building {
        next: Place(end as u16),
        attributes: true,
        ..building
    }
}

// The first record of a packet whose fixed fields end at a place; the count is their last two bytes.
fn opened(kind: BuildingKind, end: usize) -> Building
    requires { (count_size ≤ end) × (end ≤ max_packet) }
    ensures { result ≡ opened kind end }
{
    Building {
        kind,
        next: Place(end as u16),
        count: Place((end - COUNT_SIZE) as u16),
        headers: 0,
        attributes: false,
    }
}
