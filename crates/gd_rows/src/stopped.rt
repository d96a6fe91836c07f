//! Tables over the calls of the disk: it stops at one of them, or fails there once, and each image
//! that this may leave is opened again.
use crate::case::Case;
use crate::report::status;
use crate::served::{Lent, serve};
use crate::trouble::Trouble;
use gd_base::text::Text;
use gd_disk::memory_disk::{Fill, MemoryDisk};
use gd_top::status::Status;
use std::alloc::Global;
use std::io::Write;
use std::sync::Wait;
use std::thread::Threads;

/// A table has fewer runs than this.
const MOST: u64 = 100_000;

/// Which calls of a disk fail: all behind so many, or the one with a number.
#[derive(Clone, Copy)]
pub(crate) enum Broken {
    After,
    At,
}

/// The disk of a case, of which the call with this number fails, or it and all later ones.
fn disk_of(alloc: Global, case: &Case, broken: Broken, call: u64) -> Result<MemoryDisk, Trouble> {
    let file = &case.setting.file;
    match broken {
        Broken::After => Ok(MemoryDisk::stopping(alloc, file, call)?),
        Broken::At => Ok(MemoryDisk::new(alloc, file, &[call])?),
    }
}

/// The case that dumps a file.
fn dumping(alloc: Global) -> Result<Case, Trouble> {
    let mut case = Case::new(alloc, "dump")?;
    for word in ["dump", "--file", "a/store"] {
        case.setting.words.push(Text::of(alloc, word)?)?;
    }
    Ok(case)
}

/// The dump of a file, and no text where it is not opened.
fn dump<R: Threads + Wait + Sync>(
    rt: &R,
    alloc: Global,
    dumping: &Case,
    file: &[u8],
) -> Result<String, Trouble> {
    let served = serve(rt, alloc, dumping, Lent::over(alloc, dumping, file)?)?;
    match (served.status, std::str::from_utf8(&served.output)) {
        (Status::Done, Ok(text)) => Ok(String::from_str(alloc, text)?),
        _ => Ok(String::new(alloc)),
    }
}

/// What stands between two texts, the first time that the first one stands there.
pub(crate) fn between<'a>(text: &'a str, before: &str, behind: &str) -> Option<&'a str> {
    let (_, rest) = text.split_once(before)?;
    let (inside, _) = rest.split_once(behind)?;
    Some(inside)
}

/// A reply in a word: `ok`, its error, or where the disk failed whether the write is stored.
fn word_of(reply: &str) -> &str {
    match between(reply, "\"error\":\"", "\"") {
        None => "ok",
        Some("DiskFault") => between(reply, "\"stored\":\"", "\"").unwrap_or("DiskFault"),
        Some(error) => error,
    }
}

/// How many batches a dump has, where these are the first ones of the other dump.
fn front_of(text: &str, whole: &str) -> Option<usize> {
    let (batches, count) = text.split_once("\nend ")?;
    let rest = whole.strip_prefix(batches)?;
    if !rest.starts_with("\nbatch ") && !rest.starts_with("\nend ") {
        return None;
    }
    match count.trim().parse::<usize>() {
        Ok(count) => Some(count),
        Err(_) => None,
    }
}

/// Prints of each image how many batches it stands for, where these are the first ones of `whole`.
fn images<R: Threads + Wait + Sync, W: Write>(
    rt: &R,
    alloc: Global,
    dumping: &Case,
    disk: &MemoryDisk,
    whole: &str,
    out: &mut W,
) -> Result<(), Trouble> {
    for fill in [Fill::Kept, Fill::Dropped, Fill::Ones, Fill::Twos] {
        let image = disk.image(alloc, fill)?;
        let text = dump(rt, alloc, dumping, &image)?;
        match front_of(&text, whole) {
            Some(count) => write!(out, " {count}")?,
            None => write!(out, " no")?,
        }
    }
    Ok(())
}

/// Prints a word for each reply.
fn words<W: Write>(output: &[u8], out: &mut W) -> Result<(), Trouble> {
    let Ok(text) = std::str::from_utf8(output) else {
        return Err(Trouble::Failed);
    };
    for reply in text.lines() {
        let word = word_of(reply);
        write!(out, " {word}")?;
    }
    Ok(())
}

/// Runs a case on a broken disk, prints what came of it on a line, and says whether a call failed.
fn run<R: Threads + Wait + Sync, W: Write>(
    rt: &R,
    alloc: Global,
    case: &Case,
    dumping: &Case,
    disk: MemoryDisk,
    whole: Option<&str>,
    out: &mut W,
) -> Result<bool, Trouble> {
    let mut lent = Lent::over(alloc, case, &[])?;
    lent.disk = disk;
    let served = serve(rt, alloc, case, lent)?;
    status(served.status, out)?;
    words(&served.output, out)?;
    write!(out, " |")?;
    match whole {
        Some(whole) => images(rt, alloc, dumping, &served.disk, whole, out)?,
        None => {
            let own = dump(rt, alloc, dumping, served.disk.bytes())?;
            images(rt, alloc, dumping, &served.disk, &own, out)?;
        }
    }
    writeln!(out)?;
    Ok(served.faults.shelf != 0)
}

/// The dump of what the file holds in the end where no call fails.
fn unbroken<R: Threads + Wait + Sync>(
    rt: &R,
    alloc: Global,
    case: &Case,
    dumping: &Case,
) -> Result<String, Trouble> {
    let served = serve(
        rt,
        alloc,
        case,
        Lent::over(alloc, case, &case.setting.file)?,
    )?;
    dump(rt, alloc, dumping, served.disk.bytes())
}

/// Runs a case for each call of the disk at which it breaks, from the first one on, until a run
/// meets none that fails. Where the disk stops, each image has to be a front of what the file holds
/// without a stop; where one call fails, a front of what the file holds in the end of that run.
pub(crate) fn stopped<R: Threads + Wait + Sync, W: Write>(
    rt: &R,
    alloc: Global,
    case: &Case,
    broken: Broken,
    out: &mut W,
) -> Result<(), Trouble> {
    let name = case.setting.name.as_str();
    writeln!(out, "row {name}")?;
    let dumping = dumping(alloc)?;
    let text = unbroken(rt, alloc, case, &dumping)?;
    let whole = match broken {
        Broken::After => Some(text.as_str()),
        Broken::At => None,
    };
    for call in 0..MOST {
        write!(out, "at {call} ")?;
        let disk = disk_of(alloc, case, broken, call)?;
        if !run(rt, alloc, case, &dumping, disk, whole, out)? {
            return Ok(());
        }
    }
    Err(Trouble::Endless)
}
