//! Tables over the bytes of the file, and over the calls of source and sink.
use crate::case::Case;
use crate::report::{digits, report, status};
use crate::served::{Lent, Served, serve};
use crate::streams::{Giving, Taking};
use crate::trouble::Trouble;
use gd_top::status::Status;
use std::alloc::Global;
use std::io::Write;
use std::sync::Wait;
use std::thread::Threads;

/// A table has fewer runs than this.
const MOST: u64 = 100_000;

/// Lines of a table that say the same, one behind the other: they are printed as one.
#[derive(Drop)]
struct Lines {
    first: u64,
    next: u64,
    text: Vec<u8>,
}

impl Lines {
    /// None yet.
    fn new(alloc: Global) -> Lines {
        Lines {
            first: 0,
            next: 0,
            text: Vec::new(alloc),
        }
    }

    /// Prints what the last ones said, if there are any.
    fn print<W: Write>(&self, out: &mut W) -> Result<(), Trouble> {
        if self.first == self.next {
            return Ok(());
        }
        let (first, last) = (self.first, self.next.saturating_sub(1));
        write!(out, "at {first}-{last} ")?;
        out.write_all(&self.text)?;
        writeln!(out)?;
        Ok(())
    }

    /// Takes the text of the next line.
    fn take<W: Write>(&mut self, text: Vec<u8>, out: &mut W) -> Result<(), Trouble> {
        if self.first == self.next || self.text != text {
            self.print(out)?;
            self.first = self.next;
            self.text = text;
        }
        self.next = self.next.saturating_add(1);
        Ok(())
    }
}

/// How many bytes two texts begin with in common.
fn in_common(left: &[u8], right: &[u8]) -> usize {
    let most = left.len().min(right.len());
    for at in 0..most {
        if left[at] != right[at] {
            return at;
        }
    }
    most
}

/// What came of a file: the status, and where it was opened how many of its bytes stayed, and what
/// stands behind them.
fn opened(alloc: Global, file: &[u8], served: &Served) -> Result<Vec<u8>, Trouble> {
    let mut text = Vec::new(alloc);
    status(served.status, &mut text)?;
    if served.status == Status::Done {
        let left = served.disk.bytes();
        let stays = in_common(file, left);
        write!(text, " keeps {stays}")?;
        if stays < left.len() {
            write!(text, " ")?;
            digits(&left[stays..], &mut text)?;
        }
    } else if served.disk.bytes() != file {
        write!(text, " changed")?;
    }
    Ok(text)
}

/// Runs a case over a file, and says what came of it.
fn over<R: Threads + Wait + Sync>(
    rt: &R,
    alloc: Global,
    case: &Case,
    file: &[u8],
) -> Result<Vec<u8>, Trouble> {
    let served = serve(rt, alloc, case, Lent::over(alloc, case, file)?)?;
    opened(alloc, file, &served)
}

/// Runs a case over the first bytes of its file, for each number of them up to all.
pub(crate) fn cut_short<R: Threads + Wait + Sync, W: Write>(
    rt: &R,
    alloc: Global,
    case: &Case,
    out: &mut W,
) -> Result<(), Trouble> {
    let (name, file) = (case.setting.name.as_str(), &case.setting.file);
    writeln!(out, "row {name}")?;
    let mut lines = Lines::new(alloc);
    for count in 0..file.len() {
        lines.take(over(rt, alloc, case, &file[..count])?, out)?;
    }
    lines.take(over(rt, alloc, case, file)?, out)?;
    lines.print(out)
}

/// Runs a case over a file with one byte set to this one, for each place.
fn byte_set<R: Threads + Wait + Sync, W: Write>(
    rt: &R,
    alloc: Global,
    case: &Case,
    file: &mut [u8],
    byte: u8,
    out: &mut W,
) -> Result<(), Trouble> {
    let mut lines = Lines::new(alloc);
    for place in 0..file.len() {
        let was = std::mem::replace(&mut file[place], byte);
        lines.take(over(rt, alloc, case, file)?, out)?;
        file[place] = was;
    }
    lines.print(out)
}

/// Runs a case over its file with one byte set to each of these, for each place.
pub(crate) fn bytes_set<R: Threads + Wait + Sync, W: Write>(
    rt: &R,
    alloc: Global,
    case: &Case,
    bytes: &[u8],
    out: &mut W,
) -> Result<(), Trouble> {
    let name = case.setting.name.as_str();
    writeln!(out, "row {name}")?;
    let mut file = case.setting.file.as_slice().to_vec(alloc)?;
    for byte in bytes {
        writeln!(out, "byte {byte:02x}")?;
        byte_set(rt, alloc, case, file.as_mut_slice(), *byte, out)?;
    }
    Ok(())
}

/// What a case is lent where one call of its source or its sink fails.
fn lent(alloc: Global, case: &Case, is_source: bool, call: u64) -> Result<Lent, Trouble> {
    let mut lent = Lent::over(alloc, case, &case.setting.file)?;
    if is_source {
        lent.source = Giving::new(alloc, case, &[call])?;
    } else {
        lent.sink = Taking::new(alloc, &case.setting, &[call])?;
    }
    Ok(lent)
}

/// What came of a run: the status, and of how many bytes its output is, where it is a front of the
/// whole one.
fn printed(alloc: Global, whole: &[u8], served: &Served) -> Result<Vec<u8>, Trouble> {
    let mut text = Vec::new(alloc);
    status(served.status, &mut text)?;
    let count = served.output.len();
    if in_common(whole, &served.output) == count {
        write!(text, " gives {count}")?;
    } else {
        write!(text, " gives other bytes")?;
    }
    Ok(text)
}

/// Runs a case as it is, and then for each call of its source or its sink that fails, from the
/// first one on, until a run meets none that fails.
pub(crate) fn streamed<R: Threads + Wait + Sync, W: Write>(
    rt: &R,
    alloc: Global,
    case: &Case,
    is_source: bool,
    out: &mut W,
) -> Result<(), Trouble> {
    let whole = serve(
        rt,
        alloc,
        case,
        Lent::over(alloc, case, &case.setting.file)?,
    )?;
    report(case, &whole, out)?;
    let mut lines = Lines::new(alloc);
    for call in 0..MOST {
        let served = serve(rt, alloc, case, lent(alloc, case, is_source, call)?)?;
        if served.status == Status::Done {
            return lines.print(out);
        }
        lines.take(printed(alloc, &whole.output, &served)?, out)?;
    }
    Err(Trouble::Endless)
}
