// The bytes of a packet in rows of sixteen, with their text beside them.
use std::{fmt, io};

// How many bytes a row has, and half a row.
const ROW: usize = 16;

const HALF: usize = 8;

// A row: the place of its first byte, and its bytes.
#[derive(Clone, Copy)]
struct Row<'a> {
    at: usize,
    bytes: &'a [u8],
}

// The bytes in hexadecimal, with spaces for those that it lacks, and their text.
impl fmt::Display for Row<'_> {
    fn fmt<W: fmt::Write>(&self, f: &mut fmt::Formatter<W>) -> fmt::Result {
        let at = self.at;
        write!(f, "    {at:04x} ")?;
        for i in 0..ROW {
            if i == HALF {
                write!(f, " ")?;
            }
            match self.bytes.get(i) {
                Some(byte) => write!(f, " {byte:02x}")?,
                None => write!(f, "   ")?,
            }
        }
        write!(f, "  |")?;
        for byte in self.bytes {
            write!(f, "{}", letter(*byte))?;
        }
        write!(f, "|")
    }
}

// Prints the rows of a packet.
pub fn show_all(rt: &impl Print, packet: &[u8]) -> io::Result<()> {
    for (i, bytes) in packet.chunks(ROW).enumerate() {
        println!(rt; "{}", Row { at: i * ROW, bytes })?;
    }
    Ok(())
}

// What stands for a byte in the text of a row, a dot for one that is no letter.
fn letter(byte: u8) -> char {
    match byte {
        b' '..=b'~' => char::from(byte),
        _ => '.',
    }
}
