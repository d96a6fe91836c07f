//! A run of the top call over an input in memory and the files of the system.
use gd_base::memory::Memory;
use gd_base::text::Text;
use gd_disk::file_shelf::FileShelf;
use gd_outside::clock::FixedClock;
use gd_outside::gate::Gate;
use gd_outside::memory::{MemorySink, MemorySource};
use gd_top::program::graphd;
use gd_top::status::Status;
use std::alloc::Global;
use std::fs::File;
use std::rt::Files;
use std::sync::Wait;
use std::thread::Threads;

/// These words as texts.
fn texts(alloc: Global, words: &[&str]) -> Option<Vec<Text>> {
    let mut texts = Vec::new(alloc);
    for word in words {
        let text = Text::new(alloc, word.as_bytes()).ok()?;
        texts.push(text).ok()?;
    }
    Some(texts)
}

/// A run with the clock at 0: its status, and its output.
fn ended<R: Files<File = File> + Threads + Wait + Sync, G: Gate>(
    rt: &R,
    alloc: Global,
    words: &[Text],
    input: &str,
    gate: &G,
) -> Result<(Status, MemorySink), Memory> {
    let mut source = MemorySource::new(alloc, input.as_bytes(), &[])?;
    let mut sink = MemorySink::new(alloc, &[])?;
    let mut shelf = FileShelf::new(alloc, rt);
    let status = graphd(
        rt,
        alloc,
        words,
        &mut source,
        &mut sink,
        &mut shelf,
        FixedClock::new(0),
        gate,
    );
    Ok((status, sink))
}

/// Whether a run is done, and prints this.
pub(crate) fn prints<R: Files<File = File> + Threads + Wait + Sync, G: Gate>(
    rt: &R,
    alloc: Global,
    words: &[&str],
    input: &str,
    gate: &G,
    want: &str,
) -> bool {
    let Some(words) = texts(alloc, words) else {
        return false;
    };
    match ended(rt, alloc, &words, input, gate) {
        Ok((status, sink)) => status == Status::Done && sink.bytes() == want.as_bytes(),
        Err(_) => false,
    }
}
