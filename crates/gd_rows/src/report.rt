//! What is printed of a case.
use crate::case::Case;
use crate::served::{Faults, Served};
use gd_top::status::Status;
use std::io::{self, Write};

/// Prints a count that is not 0.
fn count<W: Write>(whose: &str, faults: u64, out: &mut W) -> io::Result<()> {
    if faults == 0 {
        return Ok(());
    }
    writeln!(out, "faults {whose} {faults}")
}

/// Prints the counts of faults that are not 0.
fn counts<W: Write>(faults: Faults, out: &mut W) -> io::Result<()> {
    count("source", faults.source, out)?;
    count("sink", faults.sink, out)?;
    count("shelf", faults.shelf, out)
}

/// Prints the last lines of an output, at most so many, `< ` before each. Where no newline ends the
/// output, a line `<cut` follows.
fn lines<W: Write>(output: &[u8], most: u64, out: &mut W) -> io::Result<()> {
    let mut ahead = output.iter().filter(|byte| **byte == b'\n').count() as u64;
    let mut is_begun = false;
    for byte in output {
        if ahead <= most {
            if !is_begun {
                out.write_all(b"< ")?;
            }
            out.write_all(&[*byte])?;
        }
        is_begun = *byte != b'\n';
        ahead = ahead.saturating_sub(u64::from(!is_begun));
    }
    if is_begun {
        out.write_all(b"\n<cut\n")?;
    }
    Ok(())
}

/// Prints bytes as hexadecimal digits.
pub(crate) fn digits<W: Write>(bytes: &[u8], out: &mut W) -> io::Result<()> {
    for byte in bytes {
        write!(out, "{byte:02x}")?;
    }
    Ok(())
}

/// Prints what the file holds afterwards.
fn left<W: Write>(bytes: &[u8], out: &mut W) -> io::Result<()> {
    write!(out, "left ")?;
    digits(bytes, out)?;
    writeln!(out)
}

/// Prints the number of a status, and those that it tells.
pub(crate) fn status<W: Write>(status: Status, out: &mut W) -> io::Result<()> {
    let code = status.code();
    match status {
        Status::Damaged { offset } => write!(out, "{code} {offset}"),
        Status::BadDump { offset } => write!(out, "{code} {offset}"),
        Status::DumpFrom { asked, have } => write!(out, "{code} {asked} {have}"),
        Status::Unfit { batch } => write!(out, "{code} {batch}"),
        _ => write!(out, "{code}"),
    }
}

/// Prints what a case came to: the name, the status, the counts of faults, the output, and what the
/// file holds, where it is not what it held before.
pub(crate) fn report<W: Write>(case: &Case, served: &Served, out: &mut W) -> io::Result<()> {
    let name = case.setting.name.as_str();
    writeln!(out, "row {name}")?;
    write!(out, "status ")?;
    status(served.status, out)?;
    writeln!(out)?;
    counts(served.faults, out)?;
    lines(&served.output, case.setting.last, out)?;
    if served.disk.bytes() == case.setting.file.as_slice() {
        return Ok(());
    }
    left(served.disk.bytes(), out)
}
