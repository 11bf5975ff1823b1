// A connection as a caller holds it: made new, and asked how much body it takes now.
ghost use Rattle.std.specs.Prelude.{◌≡◌};
ghost use Rattle.connection.specs.Cycle.{largest_body};
ghost use Rattle.building.specs.Fault.{or_else};
ghost use Rattle.words.specs.ConnectionWords.{connection_room, connection_fault, connection_in, fresh_after};
ghost use Rattle.words.specs.Failure.{status_number, told_number};

use connection::Connection;
use words::connection_words::{connection_fault, connection_in, connection_words};
use words::status::{Failure, status_of, told};

#[tactic(auto, unfolding(words::specs::ConnectionWords::connection_room, words::specs::ConnectionWords::fresh_after))]
fn fresh(connection: &mut [u32]) -> Result<(), Failure>
    ensures value { status_number result ≡ connection_room connection.old }
    ensures connection_after { connection.new ≡ fresh_after connection.old }
{
    let words = connection.as_mut_array().ok_or(Failure::ConnectionLength)?;
    *words = connection_words(Connection::fresh());
    Ok(())
}

// Writes the words of a fresh connection, for either end. What stood there does not matter.
#[unsafe(no_mangle)]
pub extern "C" fn ajp13_words_fresh(connection: &mut [u32]) -> u32
    ensures value { result ≡ connection_room connection.old }
    ensures connection_after { connection.new ≡ fresh_after connection.old }
{
    status_of(fresh(connection))
}

#[tactic(auto, unfolding(words::specs::ConnectionWords::connection_fault))]
fn largest_body(connection: &[u32]) -> Result<u32, Failure>
    ensures { told_number result ≡ or_else (connection_fault connection.now) (largest_body (connection_in connection.now)) }
{
    let words = connection.as_array().ok_or(Failure::ConnectionLength)?;
    connection_fault(words)?;
    Ok(u32::from(connection_in(words).largest_body()))
}

// The most bytes that the next body packet may hold, 0 where none is due.
#[unsafe(no_mangle)]
pub extern "C" fn ajp13_words_largest_body(connection: &[u32]) -> u32
    ensures { result ≡ or_else (connection_fault connection.now) (largest_body (connection_in connection.now)) }
{
    told(largest_body(connection))
}
