//! A reading that is put away after each number of slices of one step, and taken up again in
//! another run.
use crate::case::Case;
use crate::served::{Lent, serve};
use crate::stopped::between;
use crate::trouble::Trouble;
use gd_base::text::Text;
use std::alloc::Global;
use std::io::Write;
use std::sync::Wait;
use std::thread::Threads;

/// A table has fewer runs than this.
const MOST: u64 = 100_000;

/// A read over a file, and what was told last of what it owes.
#[derive(Drop)]
struct Owing<'a> {
    read: &'a str,
    file: &'a [u8],
    told: String,
}

/// A run of events over a file, in which a read begins, or goes on from a text.
fn going(alloc: Global, read: &str, text: Option<&str>) -> Result<Case, Trouble> {
    let mut case = Case::new(alloc, "going")?;
    for word in ["replay", "--file", "a/store"] {
        case.setting.words.push(Text::of(alloc, word)?)?;
    }
    let input = &mut case.input;
    match text {
        Some(_) => input.take(alloc, ">+", "{\"thaw\":{\"sid\":0,\"read\":")?,
        None => input.take(alloc, ">+", "{\"begin\":{\"sid\":0,\"read\":")?,
    }
    input.take(alloc, ">+", read)?;
    if let Some(text) = text {
        input.take(alloc, ">+", ",\"text\":\"")?;
        input.take(alloc, ">+", text)?;
        input.take(alloc, ">+", "\"")?;
    }
    input.take(alloc, ">", "}}")?;
    Ok(case)
}

/// What a case prints over a file.
fn printed<R: Threads + Wait + Sync>(
    rt: &R,
    alloc: Global,
    case: &Case,
    file: &[u8],
) -> Result<String, Trouble> {
    let served = serve(rt, alloc, case, Lent::over(alloc, case, file)?)?;
    match std::str::from_utf8(&served.output) {
        Ok(text) => Ok(String::from_str(alloc, text)?),
        Err(_) => Err(Trouble::BadLine),
    }
}

impl<'a> Owing<'a> {
    /// What is printed where the read begins or goes on from a text, has so many slices of one
    /// step, and is put away.
    fn put_away<R: Threads + Wait + Sync>(
        &self,
        rt: &R,
        alloc: Global,
        text: Option<&str>,
        slices: u64,
    ) -> Result<String, Trouble> {
        let mut case = going(alloc, self.read, text)?;
        for _ in 0..slices {
            let slice = "{\"slice\":{\"sid\":0,\"budget\":1}}";
            case.input.take(alloc, ">", slice)?;
        }
        case.input.take(alloc, ">", "{\"freeze\":{\"sid\":0}}")?;
        printed(rt, alloc, &case, self.file)
    }

    /// Goes on from a text to the end, and prints the reply, unless it is the one that was told
    /// last.
    fn take_up<R: Threads + Wait + Sync, W: Write>(
        &mut self,
        rt: &R,
        alloc: Global,
        text: &str,
        out: &mut W,
    ) -> Result<(), Trouble> {
        let mut case = going(alloc, self.read, Some(text))?;
        let slice = "{\"slice\":{\"sid\":0,\"budget\":1000000}}";
        case.input.take(alloc, ">", slice)?;
        let output = printed(rt, alloc, &case, self.file)?;
        let (_, reply) = output.split_once('\n').ok_or(Trouble::BadLine)?;
        if reply != self.told.as_str() {
            write!(out, "owes {reply}")?;
            self.told = String::from_str(alloc, reply)?;
        }
        Ok(())
    }
}

/// Runs a case, and then a read over the file that it leaves: put away behind each number of slices
/// of one step until it has its reply, and taken up in a run of its own; and so once more behind a
/// slice of one step there. Prints what it owes, again where that is another reply.
pub(crate) fn put_away<R: Threads + Wait + Sync, W: Write>(
    rt: &R,
    alloc: Global,
    case: &Case,
    read: &str,
    out: &mut W,
) -> Result<(), Trouble> {
    let name = case.setting.name.as_str();
    writeln!(out, "row {name}")?;
    let before = Lent::over(alloc, case, &case.setting.file)?;
    let written = serve(rt, alloc, case, before)?;
    let mut owing = Owing {
        read,
        file: written.disk.bytes(),
        told: String::new(alloc),
    };
    for slices in 0..MOST {
        let output = owing.put_away(rt, alloc, None, slices)?;
        let Some(text) = between(&output, "{\"frozen\":\"", "\"}") else {
            return Ok(());
        };
        owing.take_up(rt, alloc, text, out)?;
        let output = owing.put_away(rt, alloc, Some(text), 1)?;
        if let Some(text) = between(&output, "{\"frozen\":\"", "\"}") {
            owing.take_up(rt, alloc, text, out)?;
        }
    }
    Err(Trouble::Endless)
}
