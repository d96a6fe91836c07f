//! The program: the words of the command line, standard input and output, files, and the clock of
//! the system.
#![tactic(auto)]

use gd_base::memory::Memory;
use gd_base::text::{Text, TextFault};
use gd_disk::file_shelf::FileShelf;
use gd_outside::clock::StdClock;
use gd_outside::gate::OpenGate;
use gd_outside::stream::{StdSink, StdSource};
use gd_top::program::graphd;
use gd_top::status::Status;
use gd_words::help::help_text;
use std::alloc::Global;
use std::fs::File;
use std::io::BufWriter;
use std::process::ExitCode;
use std::rt::{Env, Files};
use std::sync::Wait;
use std::thread::Threads;
use std::time::Clock;
use std::{env, io};

/// How many bytes of replies are gathered, up to the end of their round, before they are written.
const OUTPUT_ROOM: usize = 65_536;

const VERSION: &str = "graphd 0.1.0\n";

/// A word as a text. One that is no text is handed in as the empty text, which is no word of the
/// grammar.
fn word(alloc: Global, bytes: &[u8]) -> Result<Text, Memory> {
    match Text::new(alloc, bytes) {
        Ok(text) => Ok(text),
        Err(TextFault::Memory) => Err(Memory),
        Err(_) => Text::of(alloc, ""),
    }
}

/// How the program ends where the system gives no words.
fn unworded(error: io::Error) -> Status {
    match error.kind() {
        io::ErrorKind::OutOfMemory => Status::Memory,
        _ => Status::Usage,
    }
}

/// The words after the program's name.
fn words(rt: &(impl Env + AllocGlobal)) -> Result<Vec<Text>, Status> {
    let args = env::args(rt).map_err(unworded)?;
    let mut words = Vec::new(rt.alloc());
    for arg in args.skip(1) {
        let text = word(rt.alloc(), arg.as_bytes()).map_err(|_| Status::Memory)?;
        words.push(text).map_err(|_| Status::Memory)?;
    }
    Ok(words)
}

/// What the program says of itself, where the only word asks for that.
fn said_of_itself(words: &[Text]) -> Option<&'static str> {
    let [word] = words else {
        return None;
    };
    match word.as_str() {
        "--help" => Some(help_text()),
        "--version" => Some(VERSION),
        _ => None,
    }
}

/// Prints a text on standard output.
fn say(rt: &impl Print, text: &str) -> Status {
    match print!(rt; "{text}") {
        Ok(()) => Status::Done,
        Err(_) => Status::SinkFault,
    }
}

/// Serves or replays standard input over the files of the system. Replies are gathered, and written
/// at the end of a round.
fn serve(
    rt: &(impl Input + Print + Clock + Files<File = File> + AllocGlobal + Threads + Wait + Sync),
    words: &[Text],
) -> Status {
    let Ok(writer) = BufWriter::with_capacity(rt.alloc(), OUTPUT_ROOM, io::writer(rt)) else {
        return Status::Memory;
    };
    let mut source = StdSource::new(rt.reader());
    let mut sink = StdSink::new(writer);
    let mut shelf = FileShelf::new(rt.alloc(), rt);
    graphd(
        rt,
        rt.alloc(),
        words,
        &mut source,
        &mut sink,
        &mut shelf,
        StdClock::new(rt),
        &OpenGate,
    )
}

fn run(
    rt: &(impl Env
        + Input
        + Print
        + Clock
        + Files<File = File>
        + AllocGlobal
        + Threads
        + Wait
        + Sync),
) -> Status {
    match words(rt) {
        Ok(words) => match said_of_itself(&words) {
            Some(text) => say(rt, text),
            None => serve(rt, &words),
        },
        Err(status) => status,
    }
}

fn main(rt: HostRuntime) -> ExitCode {
    let status = run(&rt);
    if status != Status::Done {
        let _ = eprintln!(rt; "graphd: {status}");
    }
    ExitCode::from(status.code())
}
