//! The text of what a read line asks.
ghost use Rattle.std.specs.Prelude.{◌≡◌, IfOk, codes, option_map};
ghost use Rattle.gd_json.specs.View.{view};
ghost use Rattle.gd_cache.specs.Asked.{key_of, read_text};

use crate::key::ReplyText;
use gd_base::memory::Memory;
use gd_json::from::{JsonFault, json_from};
use gd_json::text::json_text;
use gd_json::value::Json;
use std::alloc::Global;

/// The compact text of the member `read` of a value, if it has one.
fn text_of(alloc: Global, line: &Json) -> Result<Option<ReplyText>, Memory>
    ensures { IfOk result (λ text. text ≡ read_text (view line.now)) }
{
    match line.member("read") {
        Some(asked) => Ok(Some(ReplyText::new(json_text(alloc, asked)?))),
        None => Ok(None),
    }
}

/// The text of what a read line asks, under which its reply is kept: the compact text of its member
/// `read`. None where the bytes are no JSON of this profile, or have no such member. `Memory`: an
/// allocation was refused.
pub fn key_text(alloc: Global, bytes: &[u8]) -> Result<Option<ReplyText>, Memory>
    ensures { IfOk result (λ text. text ≡ key_of bytes.now) }
{
    match json_from(alloc, bytes) {
        Ok(line) => text_of(alloc, &line),
        Err(JsonFault::Memory) => Err(Memory),
        Err(_) => Ok(None),
    }
}
