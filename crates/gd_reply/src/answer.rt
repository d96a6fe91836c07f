//! What a query comes to, and the reply lines of one and of several.
ghost use Rattle.std.specs.Prelude.{◌≡◌, ◌<◌, ◌^◌, ◌++◌, List, map, option_map, IfOk, OnOk};
ghost use Rattle.std.specs.Prelude.{Ok, Err};
ghost use Rattle.gd_tree.specs.Json as tree;
ghost use Rattle.gd_json.specs.View.{view};
ghost use Rattle.gd_defs.specs.Lines as printed;
ghost use Rattle.gd_defs.specs.Reply as reply;
ghost use Rattle.gd_reply.specs.Refusals.{refusal_of, CountsFit};
ghost use Rattle.gd_reply.specs.Answers.{told_by, told_of, AnswerFits, further, joined};
ghost use Rattle.gd_reply.specs.Replies.{found_front, item_front};

use crate::lines::{cursor_front, err_line, ok_front, within_reply};
use crate::members::{object, push_member, push_text};
use crate::refusal::{Refusal, error_name, info};
use gd_base::memory::Memory;
use gd_json::text::{json_text, with_json};
use gd_json::value::Json;
use std::alloc::Global;

/// Room for what stands around the result of an answer among others.
const SHORT_ITEM: usize = 128;

/// What a query comes to. Contracts see what it tells, by `told_by`.
#[derive(Drop)]
pub enum Answer {
    /// The compact text of what it prints, with the cursor of its page where one is asked: a text,
    /// or false where nothing follows.
    Found {
        cursor: Option<Json>,
        outcome: Vec<u8>,
    },
    /// Why it is refused.
    Refused(Refusal),
}

/// What stands before the result in the reply line of what a query prints, with the cursor of its
/// page where one is asked, and with room for so many bytes more.
fn front_of(
    alloc: Global,
    dateline: u32,
    line: u64,
    cursor: &Option<Json>,
    room: usize,
) -> Result<Vec<u8>, Memory>
    ensures { IfOk result (λ bytes. bytes.items
        ≡ found_front dateline line (option_map view cursor.now)) }
{
    match cursor {
        Some(cursor) => cursor_front(alloc, dateline, line, cursor, room),
        None => ok_front(alloc, dateline, line, room),
    }
}

/// The reply line of what a query prints, with the cursor of its page where one is asked.
fn found_line(
    alloc: Global,
    dateline: u32,
    line: u64,
    cursor: &Option<Json>,
    outcome: &[u8],
) -> Result<Vec<u8>, Memory>
    requires { line < 2 ^ 63 }
    ensures { IfOk result (λ bytes. (expected : reply.Answer)
        → Ok (option_map view cursor.now, outcome.now) ≡ told_of expected
        → bytes.items ≡ reply.answer_line dateline line expected) }
{
    let mut bytes = front_of(alloc, dateline, line, cursor, outcome.len())?;
    bytes.extend_from_slice(outcome)?;
    bytes.push(b'}')?;
    within_reply(alloc, dateline, line, bytes)
}

/// What stands before the result of what a query prints among others, with the cursor of its page
/// where one is asked, and with room for so many bytes more.
fn item_front_of(alloc: Global, cursor: &Option<Json>, room: usize) -> Result<Vec<u8>, Memory>
    ensures { IfOk result (λ bytes. bytes.items
        ≡ item_front (option_map view cursor.now)) }
{
    let mut bytes = Vec::with_capacity(alloc, room.saturating_add(SHORT_ITEM))?;
    match cursor {
        Some(cursor) => {
            bytes.extend_from_slice(b"{\"cursor\":")?;
            let mut bytes = with_json(bytes, cursor)?;
            bytes.extend_from_slice(b",\"result\":")?;
            Ok(bytes)
        }
        None => {
            bytes.extend_from_slice(b"{\"result\":")?;
            Ok(bytes)
        }
    }
}

/// What a query prints as it stands among others, with the cursor of its page where one is asked.
fn found_text(alloc: Global, cursor: &Option<Json>, outcome: &[u8]) -> Result<Vec<u8>, Memory>
    ensures { IfOk result (λ bytes. (expected : reply.Answer)
        → Ok (option_map view cursor.now, outcome.now) ≡ told_of expected
        → bytes.items ≡ tree.compact (reply.answer_item expected)) }
{
    let mut bytes = item_front_of(alloc, cursor, outcome.len())?;
    bytes.extend_from_slice(outcome)?;
    bytes.push(b'}')?;
    Ok(bytes)
}

/// A refusal as it stands among other answers.
fn refused_text(alloc: Global, refusal: &Refusal) -> Result<Vec<u8>, Memory>
    requires { CountsFit refusal.now }
    ensures { IfOk result (λ bytes. bytes.items
        ≡ tree.compact (reply.answer_item (Err (refusal_of refusal.now)))) }
{
    let mut members = Vec::new(alloc);
    push_text(alloc, &mut members, "error", error_name(refusal))?;
    push_member(alloc, &mut members, "info", info(alloc, refusal)?)?;
    json_text(alloc, &object(members))
}

impl Answer {
    /// The reply line of the answer that it tells, where it stands alone, at a dateline and with
    /// the number of its line; in place of a line of more than 1,048,576 bytes the refusal
    /// `ReplyTooLarge`. `Memory`: an allocation was refused.
    #[tactic(auto, using(crate::proofs::Found::refused_told))]
    pub fn line(self, alloc: Global, dateline: u32, line: u64) -> Result<Vec<u8>, Memory>
        requires line { line < 2 ^ 63 }
        requires fits { AnswerFits self }
        ensures { IfOk result (λ bytes. (expected : reply.Answer) → told_by self ≡ told_of expected
            → bytes.items ≡ reply.answer_line dateline line expected) }
    {
        match self {
            Answer::Found { cursor, outcome } => {
                found_line(alloc, dateline, line, &cursor, outcome.as_slice())
            }
            Answer::Refused(refusal) => err_line(alloc, dateline, line, &refusal),
        }
    }

    /// The answer that it tells as it stands among others: an object of `result`, with `cursor`
    /// where one is asked, or of `error` and `info`. `Memory`: an allocation was refused.
    #[tactic(auto, using(crate::proofs::Found::refused_told))]
    pub fn text(self, alloc: Global) -> Result<Vec<u8>, Memory>
        requires fits { AnswerFits self }
        ensures { IfOk result (λ bytes. (expected : reply.Answer) → told_by self ≡ told_of expected
            → bytes.items ≡ tree.compact (reply.answer_item expected)) }
    {
        match self {
            Answer::Found { cursor, outcome } => found_text(alloc, &cursor, outcome.as_slice()),
            Answer::Refused(refusal) => refused_text(alloc, &refusal),
        }
    }
}

/// Appends texts, a comma before each.
fn push_further(bytes: &mut Vec<u8>, texts: &[&[u8]]) -> Result<(), Memory>
    ensures { OnOk result (bytes.new.items
        ≡ bytes.old.items ++ further (map (λ t. t.now) texts.now)) }
{
    for text in texts {
        bytes.push(b',')?;
        bytes.extend_from_slice(text)?;
    }
    Ok(())
}

/// Appends texts with commas between them.
fn push_joined(bytes: &mut Vec<u8>, texts: &[&[u8]]) -> Result<(), Memory>
    ensures { OnOk result (bytes.new.items
        ≡ bytes.old.items ++ joined (map (λ t. t.now) texts.now)) }
{
    if let Some((first, rest)) = texts.split_first() {
        bytes.extend_from_slice(first)?;
        push_further(bytes, rest)?;
    }
    Ok(())
}

/// The reply line of several answers, of which these are the texts, in order, at the dateline of
/// all of them: what they print stands in one list. In place of a line of more than 1,048,576 bytes
/// stands the refusal `ReplyTooLarge`. `Memory`: an allocation was refused.
pub fn answers_line(
    alloc: Global,
    dateline: u32,
    line: u64,
    texts: &[&[u8]],
) -> Result<Vec<u8>, Memory>
    requires line { line < 2 ^ 63 }
    ensures { IfOk result (λ bytes. (js : List tree.Json)
        → map (λ t. t.now) texts.now ≡ map tree.compact js
        → bytes.items ≡ reply.within_reply dateline line
        (printed.ok_line dateline line (tree.list (printed.items_of js)))) }
{
    let mut bytes = ok_front(alloc, dateline, line, 0)?;
    bytes.push(b'[')?;
    push_joined(&mut bytes, texts)?;
    bytes.extend_from_slice(b"]}")?;
    within_reply(alloc, dateline, line, bytes)
}
