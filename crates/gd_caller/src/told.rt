//! What is told of the write lines of a round.
ghost use Rattle.std.specs.Prelude.{◌≡◌, ◌≤◌, ◌<◌, ◌+◌, ◌^◌, length, map, vec_len, None};
ghost use Rattle.std.specs.List.{AllByRecursion};
ghost use Rattle.gd_writer.specs.Outcomes.{kept_view, told_view, IsTold};
ghost use Rattle.gd_reply.specs.Replies.{reply_text};
ghost use Rattle.gd_caller.specs.Told.{line_number};
ghost use Rattle.gd_caller.specs.Tells.{TellsOne, TellsAll, IsOutcomeWithin};

use crate::reads::put;
use gd_reply::reply::Reply;
use gd_round_lines::work::LineNumber;
use gd_writer::outcome::{Outcome, WriteOf};

/// A number that is no entry that is shown.
fn at_number(number: Option<u32>) -> LineNumber
    ensures { result ≡ record { number = number; entry = None } }
{
    LineNumber {
        number,
        entry: None,
    }
}

/// What a write line came to, by numbers.
fn number_of(outcome: &Outcome) -> LineNumber
    ensures { result ≡ line_number (kept_view outcome.now) }
{
    match outcome {
        Outcome::Stored { entry, .. } => LineNumber {
            number: Some(*entry),
            entry: Some(*entry),
        },
        Outcome::Late { entry } => at_number(Some(*entry)),
        Outcome::Refused { at, .. } => at_number(Some(*at)),
        Outcome::Doubt { at } => at_number(Some(*at)),
        Outcome::Unsettled | Outcome::Memory => at_number(None),
    }
}

/// Tells what was kept of a write line, in place of its first reply.
fn tell_one(first: u64, written: WriteOf, numbers: &mut Vec<LineNumber>, replies: &mut Vec<Reply>)
    requires told { IsTold written.line written.outcome }
    requires within { IsOutcomeWithin first (first + length numbers.old.items) written }
    requires lines { first + length numbers.old.items < 2 ^ 63 }
    requires many { length replies.old.items ≡ length numbers.old.items }
    ensures { TellsOne first (told_view written) numbers.old.items numbers.new.items
        (map reply_text replies.old.items) (map reply_text replies.new.items) }
{
    let WriteOf { line, outcome } = written;
    let at = (line - first) as usize;
    numbers[at] = number_of(&outcome);
    put(replies, at, outcome.tell(line));
}

/// Tells what was kept of the write lines of a round, each in place of its first reply. It takes no
/// memory.
pub fn tell_all(
    first: u64,
    mut outcomes: Vec<WriteOf>,
    numbers: &mut Vec<LineNumber>,
    replies: &mut Vec<Reply>,
)
    requires told { AllByRecursion (λ w. IsTold w.line w.outcome) outcomes.items }
    requires within { AllByRecursion (IsOutcomeWithin first (first + length numbers.old.items))
        outcomes.items }
    requires lines { first + length numbers.old.items < 2 ^ 63 }
    requires many { length replies.old.items ≡ length numbers.old.items }
    ensures { TellsAll first (map told_view outcomes.items) numbers.old.items numbers.new.items
        (map reply_text replies.old.items) (map reply_text replies.new.items) }
{
    while let Some(written) = outcomes.pop() {
        tell_one(first, written, numbers, replies);
    }
}
