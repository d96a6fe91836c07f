//! A line of a node is answered.
ghost use Rattle.std.specs.Prelude.{◌≡◌, ◌≤◌, ◌<◌, ◌^◌, length};
ghost use Rattle.gd_answering.specs.Texts.{answer_text};
ghost use Rattle.gd_follow.specs.Node.{node_of};
ghost use Rattle.gd_mql.specs.Requests.{read_set_view};
ghost use Rattle.gd_runs.specs.Input.{input_fault_line, line_too_long};
ghost use Rattle.gd_runs.specs.Request.{reply_of};
ghost use Rattle.gd_replay_laws.specs.Faults.{IsCounted};
ghost use Rattle.gd_following.specs.Read.{line_view, IsBounded};
ghost use Rattle.gd_following.specs.Given.{GoesOn, LineReply, MayAnswer, MayBeLine};
ghost use Rattle.gd_following.specs.Given.{TellsAsk, TellsFault};

use crate::asking::ask_reply;
use crate::giving::give_reply;
use crate::line::{FollowLine, LINE_LIMIT, follow_line};
use crate::lines::{fault_line, long_line};
use crate::made::made;
use gd_answering::answer::Answer;
use gd_answering::answers::Answers;
use gd_base::steps::Steps;
use gd_disk::disk::Disk;
use gd_fault::fault::LineFault;
use gd_follow::Node;
use gd_input::line::RoundLine;
use gd_mql::request::ReadSet;
use gd_read_at::whole::reply_at;
use gd_store::store::Store;
use std::alloc::Global;
use std::marker::Model;

/// How many steps a slice of a read has.
const BUDGET: u64 = 10_000;

/// What steps are counted for.
struct Reads;

/// A node that answers lines. Contracts see its node.
#[derive(Drop)]
pub struct Following<D: Disk> {
    node: Node<D>,
}

impl<D: Disk> Model for Following<D> {
    ghost use Rattle.gd_follow.specs.Node.{NodeValue};

    ghost Value = { NodeValue D };

    ghost view = { λ f. f.node };
}

/// The answer to an ask for at most so many batches, 1 to 256, from a number on.
fn answer_ask<D: Disk>(alloc: Global, node: &Node<D>, line: u64, from: u32, most: u32) -> Answer
    requires line { line < 2 ^ 63 }
    requires some { 1 ≤ most }
    requires few { most ≤ 256 }
    ensures { TellsAsk node.now.list line from most (answer_text result) }
{
    made(line, ask_reply(alloc, node, line, from, most))
}

/// The answer to a read of a store as it is now.
fn answer_read(alloc: Global, store: &Store, line: u64, request: ReadSet) -> Answer
    requires { line < 2 ^ 63 }
    ensures { MayBeLine line (reply_of store.now (length store.now) line (read_set_view request))
        (answer_text result) }
{
    let mut steps: Steps<Reads> = Steps::new();
    let at = store.requests();
    made(
        line,
        reply_at(alloc, store, at, line, request, BUDGET, &mut steps),
    )
}

/// Refuses a line that has too many bytes.
fn refuse_long(alloc: Global, line: u64) -> Answer
    requires { line < 2 ^ 63 }
    ensures { MayBeLine line (input_fault_line line line_too_long) (answer_text result) }
{
    made(line, long_line(alloc, line))
}

/// Refuses a line by its form.
fn refuse(alloc: Global, line: u64, fault: LineFault) -> Answer
    requires { line < 2 ^ 63 }
    ensures { TellsFault line fault (answer_text result) }
{
    made(line, fault_line(alloc, line, fault))
}

/// Answers what a line asks.
fn answer_asked<D: Disk>(alloc: Global, node: &mut Node<D>, line: u64, asked: FollowLine) -> Answer
    requires line { line < 2 ^ 63 }
    requires bounded { IsBounded asked }
    ensures replies { MayAnswer (node_of node.old) line (line_view asked) (answer_text result)
        (node_of node.new) }
    ensures counted { IsCounted line (answer_text result) (D.faults node.old.log.disk)
        (D.faults node.new.log.disk) }
    ensures on { GoesOn D.content D.images D.faults node.old node.new }
{
    match asked {
        FollowLine::Ask { from, most } => answer_ask(alloc, node, line, from, most),
        FollowLine::Give { from, group } => give_reply(alloc, node, line, from, &group),
        FollowLine::Read { request, .. } => answer_read(alloc, node.store(), line, request),
    }
}

/// Answers the bytes of a line.
fn answer_bytes<D: Disk>(alloc: Global, node: &mut Node<D>, line: u64, bytes: &[u8]) -> Answer
    requires line { line < 2 ^ 63 }
    requires short { length bytes.now ≤ LINE_LIMIT }
    ensures { LineReply D.content D.images D.faults node.old line bytes.now (answer_text result)
        node.new }
{
    match follow_line(alloc, bytes) {
        Ok(asked) => answer_asked(alloc, node, line, asked),
        Err(fault) => refuse(alloc, line, fault),
    }
}

impl<D: Disk> Following<D> {
    /// A node that answers lines.
    pub fn of(node: Node<D>) -> Following<D>
        ensures { result ≡ node }
    {
        Following { node }
    }

    /// The node.
    pub fn into_node(self) -> Node<D>
        ensures { result ≡ self }
    {
        self.node
    }
}

impl<D: Disk> Answers for Following<D> {
    ghost most = { 1_048_576 };

    ghost answers = { LineReply D.content D.images D.faults };

    fn most() -> usize {
        LINE_LIMIT
    }

    fn answer(&mut self, alloc: Global, line: u64, text: RoundLine) -> Answer {
        match text {
            RoundLine::Bytes(bytes) => answer_bytes(alloc, &mut self.node, line, &bytes),
            RoundLine::TooLong => refuse_long(alloc, line),
        }
    }
}
