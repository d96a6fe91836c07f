//! The reply lines of an output, and what they tell.
ghost use Rattle.std.specs.Prelude.{◌≡◌, ◌≢◌, [], ◌∷◌, drop, codes};
ghost use Rattle.std.specs.Prelude.{IfOk, MatchOption, option_map, option_and_then};
ghost use Rattle.std.specs.List.{position};
ghost use Rattle.gd_tree.specs.Look.{member_of, text_of};
ghost use Rattle.gd_json.specs.View.{view};
ghost use Rattle.gd_gen.specs.Replies as replies;

use gd_base::memory::Memory;
use gd_json::from::{JsonFault, json_from};
use gd_json::value::Json;
use std::alloc::Global;
use std::marker::Model;

/// What the member `code` of a reply is that tells success.
const OK: &str = "/api/status/ok";

/// How many bytes stand before the first newline, if there is one.
fn newline_in(bytes: &[u8]) -> Option<usize>
    ensures { result ≡ position replies.is_newline bytes.now }
{
    bytes.iter().position(|byte| *byte == b'\n')
}

/// The first line of an output that is not empty, without its newline, and the bytes behind it.
fn first_line(output: &[u8]) -> (&[u8], &[u8])
    requires { output.now ≢ [] }
    ensures { replies.reply_lines output.now ≡ result.0.now ∷ replies.reply_lines result.1.now }
{
    match newline_in(output) {
        Some(place) => (&output[..place], &output[place + 1..]),
        None => (output, &[]),
    }
}

/// The lines of an output, one after another. Contracts see the list of those that are left.
#[derive(Drop)]
pub(crate) struct Lines<'a> {
    left: &'a [u8],
}

impl<'a> Model for Lines<'a> {
    ghost use Rattle.std.specs.Prelude.{ℕ, List};
    ghost use Rattle.gd_gen.specs.Replies.{reply_lines};

    ghost Value = { List (List ℕ) };

    ghost view = { λ lines. reply_lines lines.left.now };
}

impl<'a> Lines<'a> {
    /// The lines of an output.
    pub(crate) fn new(output: &'a [u8]) -> Lines<'a>
        ensures { result ≡ replies.reply_lines output.now }
    {
        Lines { left: output }
    }

    /// The next line, without its newline; nothing where none is left.
    pub(crate) fn next(&mut self) -> Option<&'a [u8]>
        ensures line { MatchOption result (self.old ≡ [])
            (λ line. self.old ≡ line.now ∷ self.new) }
        ensures later { self.new ≡ drop 1 self.old }
    {
        if self.left.is_empty() {
            return None;
        }
        let (line, left) = first_line(self.left);
        self.left = left;
        Some(line)
    }

    /// Goes past so many lines, or to the end where fewer are left.
    pub(crate) fn skip(&mut self, count: usize)
        ensures { self.new ≡ drop count self.old }
    {
        for _place in 0..count {
            let _line = self.next();
        }
    }
}

/// The value that a line is; nothing where it is no JSON of this profile.
fn reply_from(alloc: Global, line: &[u8]) -> Result<Option<Json>, Memory>
    ensures { IfOk result (λ reply. option_map view reply ≡ replies.reply_of line.now) }
{
    match json_from(alloc, line) {
        Ok(reply) => Ok(Some(reply)),
        Err(JsonFault::Memory) => Err(Memory),
        Err(_) => Ok(None),
    }
}

/// The text that the member `code` of a reply is.
fn code_of(reply: &Json) -> Option<&str>
    ensures { option_map (λ text. text.now) result
        ≡ option_and_then text_of (member_of (codes "code") (view reply.now)) }
{
    match reply.member("code") {
        Some(code) => code.as_text().map(|text| text.as_str()),
        None => None,
    }
}

/// Whether a reply tells success.
fn is_ok(reply: &Json) -> bool
    ensures { result ≡ replies.is_ok (view reply.now) }
{
    match code_of(reply) {
        Some(code) => code == OK,
        None => false,
    }
}

/// The member `result` of a reply, null where there is none.
fn result_in(reply: &Json) -> Result<Json, Memory>
    ensures { IfOk result (λ found. view found ≡ replies.result_in (view reply.now)) }
{
    match reply.member("result") {
        Some(found) => found.copy(),
        None => Ok(Json::Null),
    }
}

/// Whether a line is a reply that tells success. `Memory`: an allocation was refused.
#[tactic(auto, unfolding(crate::specs::Replies::is_ok_line))]
pub(crate) fn is_ok_line(alloc: Global, line: &[u8]) -> Result<bool, Memory>
    ensures { IfOk result (λ ok. ok ≡ replies.is_ok_line line.now) }
{
    match reply_from(alloc, line)? {
        Some(reply) => Ok(is_ok(&reply)),
        None => Ok(false),
    }
}

/// The result that a line tells, null where it tells none. `Memory`: an allocation was refused.
#[tactic(auto, unfolding(crate::specs::Replies::result_of))]
pub(crate) fn result_of(alloc: Global, line: &[u8]) -> Result<Json, Memory>
    ensures { IfOk result (λ found. view found ≡ replies.result_of line.now) }
{
    match reply_from(alloc, line)? {
        Some(reply) => result_in(&reply),
        None => Ok(Json::Null),
    }
}
