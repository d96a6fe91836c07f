//! Rounds whose lines workers answer at once, in each order.
use crate::order::Order;
use crate::run::prints;
use std::alloc::Global;
use std::fs::File;
use std::rt::Files;
use std::sync::Wait;
use std::thread::Threads;

static WORDS: [&str; 3] = ["serve", "--workers", "2"];

/// Reads of two sessions.
const TWO_READS: &str = "\
{\"sid\":0,\"read\":{\"query\":[{\"guid\":null,\"name\":\"English\"}]}}
{\"sid\":1,\"read\":{\"query\":[{\"guid\":null,\"name\":\"Ann\"}]}}
";

const TWO_REPLIES: &str = "\
{\"code\":\"/api/status/ok\",\"dateline\":0,\"line\":0,\"result\":[{\"guid\":\"#00000000000000010000000000000003\",\"name\":\"English\"}]}
{\"code\":\"/api/status/ok\",\"dateline\":0,\"line\":1,\"result\":[]}
";

/// A read of one session, and a write and a read of another.
const READ_AND_WRITE: &str = "\
{\"sid\":0,\"read\":{\"query\":[{\"guid\":null,\"name\":\"Ann\"}]}}
{\"sid\":1,\"write\":{\"query\":{\"create\":\"unconditional\",\"guid\":null,\"name\":\"Ann\"}}}
{\"sid\":1,\"read\":{\"query\":[{\"guid\":null,\"name\":\"Ann\"}]}}
";

const BOTH_SEE_IT: &str = "\
{\"code\":\"/api/status/ok\",\"dateline\":1,\"line\":0,\"result\":[{\"guid\":\"#00000000000000010000000000000046\",\"name\":\"Ann\"}]}
{\"code\":\"/api/status/ok\",\"dateline\":1,\"line\":1,\"result\":{\"create\":\"created\",\"guid\":\"#00000000000000010000000000000046\",\"name\":\"Ann\"}}
{\"code\":\"/api/status/ok\",\"dateline\":1,\"line\":2,\"result\":[{\"guid\":\"#00000000000000010000000000000046\",\"name\":\"Ann\"}]}
";

/// A run of one round: the line that is held, the one that has to be answered meanwhile, the input
/// and the output.
struct Run {
    held: u64,
    until: u64,
    input: &'static str,
    output: &'static str,
}

static RUNS: [Run; 3] = [
    Run {
        held: 0,
        until: 1,
        input: TWO_READS,
        output: TWO_REPLIES,
    },
    Run {
        held: 1,
        until: 0,
        input: TWO_READS,
        output: TWO_REPLIES,
    },
    Run {
        held: 0,
        until: 2,
        input: READ_AND_WRITE,
        output: BOTH_SEE_IT,
    },
];

/// Whether the line is held until the other one was answered, and what workers answered to both
/// reads is what is printed.
fn takes_order<R: Files<File = File> + Threads + Wait + Sync>(
    rt: &R,
    alloc: Global,
    run: &Run,
) -> bool {
    let order = Order::new(run.held, run.until);
    prints(rt, alloc, &WORDS, run.input, &order, run.output)
        && order.is_met()
        && order.answers(run.output) == 2
}

/// Each of two workers answers while the other one is held: so both are at work at once.
#[test]
fn both_at_once(rt: HostRuntime) {
    assert!(rt; RUNS.iter().all(|run| takes_order(&rt, rt.alloc(), run)));
}
