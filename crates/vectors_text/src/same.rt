// Whether two answers say the same. A connection is compared by what its words say, and not by which of them are left out.
use crate::{form, parse, words};
use connection::Connection;

pub fn answers(a: &[u8], b: &[u8]) -> bool {
    let count = a.split(is_space).count();
    count == b.split(is_space).count()
        && a.split(is_space)
            .zip(b.split(is_space))
            .all(|(a, b)| parts(a, b))
}

fn is_space(b: &u8) -> bool {
    *b == b' '
}

// Whether two parts of answers say the same.
fn parts(a: &[u8], b: &[u8]) -> bool {
    match (connection(a), connection(b)) {
        (Some(a), Some(b)) => fields(a) == fields(b),
        _ => a == b,
    }
}

// The connection of a part that is one.
fn connection(part: &[u8]) -> Option<Connection> {
    let words = part.strip_prefix(b"conn=")?;
    if form::is_connection(words) {
        Some(parse::connection(words))
    } else {
        None
    }
}

// The fields of a connection.
fn fields(c: Connection) -> (char, u32, bool, u16, bool, bool) {
    let left = c.left();
    (
        words::state_letter(c.state()),
        left.0,
        c.due(),
        c.asked(),
        c.headers(),
        c.head(),
    )
}
