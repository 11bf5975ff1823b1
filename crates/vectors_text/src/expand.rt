// Writes a listed line out: [6162*3] stands for 616261626162, and "ab" for 6162.
use crate::parse;
use crate::text::{Written, field, split_once};
use crate::words::Digits;
use std::io;
use std::io::{ErrorKind, Write};

// Writes the line out. Fails where there is no room for it, and where a group or quotes do not end.
pub fn line(listed: &[u8], out: &mut Written) -> io::Result<()> {
    let mut rest = listed;
    while let Some((first, behind)) = rest.split_first() {
        rest = match first {
            b'[' => {
                let (inside, behind) = split_once(behind, b']').ok_or(ErrorKind::InvalidData)?;
                group(inside, out)?;
                behind
            }
            b'"' => {
                let (quoted, behind) = split_once(behind, b'"').ok_or(ErrorKind::InvalidData)?;
                write!(out, "{}", Digits(quoted))?;
                behind
            }
            itself => {
                out.write_all(&[*itself])?;
                behind
            }
        };
    }
    Ok(())
}

// Writes a group out, such as 6162*3. One with no number, or with 0, fails. One of nothing is nothing, however often.
fn group(inside: &[u8], out: &mut Written) -> io::Result<()> {
    let unit = field(inside, b'*', 0);
    let times = parse::decimal(field(inside, b'*', 1));
    if times == 0 {
        return Err(ErrorKind::InvalidData.into());
    }
    if unit.is_empty() {
        return Ok(());
    }
    for _ in 0..times {
        out.try_extend_from_slice(unit)
            .map_err(|_| ErrorKind::WriteZero)?;
    }
    Ok(())
}
