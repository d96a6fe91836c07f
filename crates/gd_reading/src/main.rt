//! Reads lines, as JSON or as requests, and does nothing else with them, so that what the reading
//! of a line costs can be told from the rest.
#![tactic(auto)]

mod lines;
mod trouble;

use crate::lines::{Form, is_of_form};
use crate::trouble::Trouble;
use std::alloc::Global;
use std::env;
use std::io::{BufRead, BufReader};
use std::process::ExitCode;
use std::rt::Env;

/// How many lines there were, and how many of them are of the form that they were read as.
#[derive(Clone, Copy)]
struct Count {
    lines: u64,
    fitting: u64,
}

/// A count with one line more.
fn counted(count: Count, fits: bool) -> Count {
    Count {
        lines: count.lines.saturating_add(1),
        fitting: count.fitting.saturating_add(u64::from(fits)),
    }
}

/// Reads the lines of an input one after another.
fn read_lines<R: BufRead>(alloc: Global, form: Form, input: &mut R) -> Result<Count, Trouble> {
    let mut count = Count {
        lines: 0,
        fitting: 0,
    };
    let mut line = Vec::new(alloc);
    for _ in 0..u64::MAX {
        line.clear();
        if input.read_until(b'\n', &mut line)? == 0 {
            break;
        }
        count = counted(count, is_of_form(alloc, form, &line)?);
    }
    Ok(count)
}

/// Reads the lines of standard input.
fn read_all(rt: &(impl Input + AllocGlobal), form: Form) -> Result<Count, Trouble> {
    let mut input = BufReader::new(rt.alloc(), rt.reader())?;
    read_lines(rt.alloc(), form, &mut input)
}

/// What the lines are read as: requests where the word `requests` follows the program's name, else
/// JSON.
fn form(rt: &(impl Env + AllocGlobal)) -> Result<Form, Trouble> {
    for word in env::args(rt)?.skip(1) {
        if word.as_str() == "requests" {
            return Ok(Form::Request);
        }
    }
    Ok(Form::Json)
}

/// Reads the lines of standard input, and prints how many there were.
fn run(rt: &(impl Env + Input + Print + AllocGlobal)) -> Result<(), Trouble> {
    let form = form(rt)?;
    let count = read_all(rt, form)?;
    let name = match form {
        Form::Json => "JSON",
        Form::Request => "requests",
    };
    println!(rt; "{} lines, {} of them {}", count.lines, count.fitting, name)?;
    Ok(())
}

fn main(rt: HostRuntime) -> ExitCode {
    match run(&rt) {
        Ok(()) => ExitCode::from(0),
        Err(trouble) => {
            let _ = eprintln!(rt; "gd_reading: {trouble}");
            ExitCode::from(1)
        }
    }
}
