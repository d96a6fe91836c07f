//! Groups that a node is given, and their reply lines.
ghost use Rattle.std.specs.Prelude.{◌≡◌, ◌⊎◌, ◌<◌, ◌+◌, ◌^◌, length, Ok, Err, codes};
ghost use Rattle.gd_answering.specs.Texts.{answer_text};
ghost use Rattle.gd_codec.specs.Writable.{MayWrite};
ghost use Rattle.gd_follow.specs.Node.{node_of};
ghost use Rattle.gd_follow.specs.declared.answer.Given.TheVariants.{Taken as was_taken};
ghost use Rattle.gd_reply.specs.Replies.{failure_line};
ghost use Rattle.gd_replay_laws.specs.Faults.{IsCounted};
ghost use Rattle.gd_following.specs.Replies.{word_line, GroupReply, GiveReply, LacksMemory};
ghost use Rattle.gd_following.specs.Given.{GivenLine, GoesOn};

use crate::lines::word_line;
use crate::made::{made, no_memory};
use crate::refusal::{Refusal, refusal_line};
use gd_answering::answer::Answer;
use gd_codec::{CodecFault, Group, decode_group};
use gd_disk::disk::Disk;
use gd_follow::{GiveFault, Given, Node};
use gd_reply::reply::Failure;
use std::alloc::Global;

/// The line of a failure of the disk. It takes no memory.
fn disk_failed(failure: Failure, line: u64) -> Answer
    ensures { answer_text result ≡ failure_line failure line }
{
    Answer::Failed { failure, line }
}

/// The line of why a group is refused, at so many entries.
fn refused_line(alloc: Global, entries: u32, line: u64, fault: GiveFault) -> Answer
    requires { line < 2 ^ 63 }
    ensures { GivenLine entries line (Err fault) (answer_text result) }
{
    match fault {
        GiveFault::Fork { at } => {
            made(
                line,
                refusal_line(alloc, entries, line, Refusal::Fork { at }),
            )
        }
        GiveFault::Unfit { entry } => {
            made(
                line,
                refusal_line(alloc, entries, line, Refusal::Unfit { entry }),
            )
        }
        GiveFault::DiskNo => disk_failed(Failure::NotStored, line),
        GiveFault::DiskMaybe => disk_failed(Failure::MaybeStored, line),
        GiveFault::Memory => no_memory(line),
    }
}

/// The line of what comes of a group, at so many entries. That it was taken has its line already,
/// so that no memory is wanted for it.
fn given_line(
    alloc: Global,
    entries: u32,
    line: u64,
    given: Result<Given, GiveFault>,
    taken: Vec<u8>,
) -> Answer
    requires line { line < 2 ^ 63 }
    requires taken { given ≡ Ok was_taken
        → taken.items ≡ word_line entries line (codes "taken") }
    ensures { GivenLine entries line given (answer_text result) }
{
    match given {
        Ok(Given::Taken) => Answer::Made(taken),
        Ok(Given::Known) => made(line, word_line(alloc, entries, line, "known")),
        Ok(Given::Gap) => made(line, word_line(alloc, entries, line, "gap")),
        Err(fault) => refused_line(alloc, entries, line, fault),
    }
}

/// Gives a node a group, for which the line that it was taken is there.
fn answer_group<D: Disk>(
    alloc: Global,
    node: &mut Node<D>,
    line: u64,
    from: u32,
    group: &Group,
    taken: Vec<u8>,
) -> Answer
    requires line { line < 2 ^ 63 }
    requires group { MayWrite group.now }
    requires taken { from + length group.now < 2 ^ 32
        → taken.items ≡ word_line (from + length group.now) line (codes "taken") }
    ensures replies { GroupReply (node_of node.old) (record { from = from; group = group.now }) line
        (answer_text result) (node_of node.new)
        ⊎ LacksMemory (node_of node.old) line (answer_text result) (node_of node.new) }
    ensures counted { IsCounted line (answer_text result) (D.faults node.old.log.disk)
        (D.faults node.new.log.disk) }
    ensures on { GoesOn D.content D.images D.faults node.old node.new }
{
    let given = node.give(from, group);
    let entries = node.store().requests();
    given_line(alloc, entries, line, given, taken)
}

/// Gives a node a group, and answers by its line.
fn take_group<D: Disk>(
    alloc: Global,
    node: &mut Node<D>,
    line: u64,
    from: u32,
    group: &Group,
) -> Answer
    requires line { line < 2 ^ 63 }
    requires group { MayWrite group.now }
    ensures replies { GroupReply (node_of node.old) (record { from = from; group = group.now }) line
        (answer_text result) (node_of node.new)
        ⊎ LacksMemory (node_of node.old) line (answer_text result) (node_of node.new) }
    ensures counted { IsCounted line (answer_text result) (D.faults node.old.log.disk)
        (D.faults node.new.log.disk) }
    ensures on { GoesOn D.content D.images D.faults node.old node.new }
{
    let entries = from.saturating_add(group.batches().len() as u32);
    match word_line(alloc, entries, line, "taken") {
        Ok(taken) => answer_group(alloc, node, line, from, group, taken),
        Err(_) => no_memory(line),
    }
}

/// The answer to bytes that are given as a group, of the batches from a number on: they are no
/// group, or what comes of it.
pub(crate) fn give_reply<D: Disk>(
    alloc: Global,
    node: &mut Node<D>,
    line: u64,
    from: u32,
    bytes: &[u8],
) -> Answer
    requires line { line < 2 ^ 63 }
    requires few { length bytes.now < 2 ^ 63 }
    ensures replies { GiveReply (node_of node.old) line from bytes.now (answer_text result)
        (node_of node.new) }
    ensures counted { IsCounted line (answer_text result) (D.faults node.old.log.disk)
        (D.faults node.new.log.disk) }
    ensures on { GoesOn D.content D.images D.faults node.old node.new }
{
    match decode_group(alloc, bytes) {
        Ok(group) => take_group(alloc, node, line, from, &group),
        Err(CodecFault::BadBytes { offset }) => {
            let entries = node.store().requests();
            made(
                line,
                refusal_line(alloc, entries, line, Refusal::BadGroup { offset }),
            )
        }
        Err(CodecFault::Memory) => no_memory(line),
    }
}
