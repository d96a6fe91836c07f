//! Cases as texts: each is a run of the top call over memory, and what it came to is printed.
//! `tools/README.md` says what stands in a text.
#![tactic(auto)]

mod case;
mod frozen;
mod hex;
mod input;
mod report;
mod served;
mod stopped;
mod streams;
mod tables;
mod trouble;

use crate::case::{Case, Table};
use crate::frozen::put_away;
use crate::report::report;
use crate::served::{Lent, serve};
use crate::stopped::{Broken, stopped};
use crate::tables::{bytes_set, cut_short, streamed};
use crate::trouble::Trouble;
use std::alloc::Global;
use std::io::{self, BufRead, BufReader, BufWriter, Write};
use std::process::ExitCode;
use std::sync::Wait;
use std::thread::Threads;

/// Takes a line of a text: a new case, or a line of the last one.
fn take(alloc: Global, cases: &mut Vec<Case>, line: &str) -> Result<(), Trouble> {
    if let Some(name) = line.strip_prefix("row ") {
        cases.push(Case::new(alloc, name)?)?;
        return Ok(());
    }
    match cases.last_mut() {
        Some(case) => case.take(alloc, line),
        None => Err(Trouble::BadLine),
    }
}

/// The cases of a text.
fn cases<R: BufRead + Drop>(alloc: Global, text: R) -> Result<Vec<Case>, Trouble> {
    let mut cases = Vec::new(alloc);
    for line in text.lines(alloc) {
        take(alloc, &mut cases, line?.as_str())?;
    }
    Ok(cases)
}

/// Runs a case, once or for each number of its table.
fn run_case<R: Threads + Wait + Sync, W: Write>(
    rt: &R,
    alloc: Global,
    case: &Case,
    out: &mut W,
) -> Result<(), Trouble> {
    match &case.setting.table {
        Table::Once => {
            let lent = Lent::over(alloc, case, &case.setting.file)?;
            let served = serve(rt, alloc, case, lent)?;
            Ok(report(case, &served, out)?)
        }
        Table::Stops => stopped(rt, alloc, case, Broken::After, out),
        Table::Fails => stopped(rt, alloc, case, Broken::At, out),
        Table::Cuts => cut_short(rt, alloc, case, out),
        Table::Bytes(bytes) => bytes_set(rt, alloc, case, bytes, out),
        Table::Source => streamed(rt, alloc, case, true, out),
        Table::Sink => streamed(rt, alloc, case, false, out),
        Table::Freezes(read) => put_away(rt, alloc, case, read, out),
    }
}

/// Runs cases, one after another.
fn run<R: Threads + Wait + Sync, W: Write>(
    rt: &R,
    alloc: Global,
    cases: &[Case],
    out: &mut W,
) -> Result<(), Trouble> {
    for case in cases {
        run_case(rt, alloc, case, out)?;
    }
    out.flush()?;
    Ok(())
}

/// The cases of standard input, on standard output.
fn run_all(rt: &(impl Input + Print + AllocGlobal + Threads + Wait + Sync)) -> Result<(), Trouble> {
    let cases = cases(rt.alloc(), BufReader::new(rt.alloc(), rt.reader())?)?;
    let mut out = BufWriter::new(rt.alloc(), io::writer(rt))?;
    run(rt, rt.alloc(), &cases, &mut out)
}

fn main(rt: HostRuntime) -> ExitCode {
    match run_all(&rt) {
        Ok(()) => ExitCode::from(0),
        Err(trouble) => {
            let _ = eprintln!(rt; "gd_rows: {trouble}");
            ExitCode::from(1)
        }
    }
}
