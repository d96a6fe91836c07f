//! The refusals of a node's own, and their lines.
ghost use Rattle.std.specs.Prelude.{◌≡◌, ◌<◌, ◌^◌, ◌∷◌, [], IfOk, codes};
ghost use Rattle.gd_tree.specs.Json as tree;
ghost use Rattle.gd_json.specs.View.{view};
ghost use Rattle.gd_defs.specs.Lines as printed;
ghost use Rattle.gd_defs.specs.Lines.{count_json, object_of};
ghost use Rattle.gd_following.specs.Refusals.{refusal_of, CountsFit};

use gd_base::memory::Memory;
use gd_json::text::json_text;
use gd_json::value::Json;
use gd_reply::members::{object, push_count, push_member, push_text};
use std::alloc::Global;

/// Why an ask or a group is refused, with what the reply tells of it.
#[derive(Clone, Copy)]
pub(crate) enum Refusal {
    /// The group of this batch alone has so many bytes, more than an answer may have.
    BatchTooLarge { bytes: u64, entry: u32 },
    /// The bytes are no group, and so many of them go with some group.
    BadGroup { offset: u64 },
    /// The batch of this number is another than the node's.
    Fork { at: u32 },
    /// The batch of this number may not follow those before it.
    Unfit { entry: u32 },
}

/// The name of the refusal.
fn error_name(refusal: Refusal) -> &'static str
    ensures { result.now ≡ (refusal_of refusal).error }
{
    match refusal {
        Refusal::BatchTooLarge { .. } => "BatchTooLarge",
        Refusal::BadGroup { .. } => "BadGroup",
        Refusal::Fork { .. } => "Fork",
        Refusal::Unfit { .. } => "Unfit",
    }
}

/// An object of one number.
fn count_info(alloc: Global, name: &str, n: u64) -> Result<Json, Memory>
    requires { n < 2 ^ 63 }
    ensures { IfOk result (λ json. view json
        ≡ tree.object (object_of ((name.now, count_json n) ∷ []))) }
{
    let mut members = Vec::new(alloc);
    push_count(alloc, &mut members, name, n)?;
    Ok(object(members))
}

/// How many bytes a batch has, and which it is.
fn large_info(alloc: Global, bytes: u64, entry: u32) -> Result<Json, Memory>
    requires { bytes < 2 ^ 63 }
    ensures { IfOk result (λ json. view json
        ≡ tree.object (object_of ((codes "bytes", count_json bytes)
        ∷ (codes "entry", count_json entry) ∷ []))) }
{
    let mut members = Vec::new(alloc);
    push_count(alloc, &mut members, "bytes", bytes)?;
    push_count(alloc, &mut members, "entry", u64::from(entry))?;
    Ok(object(members))
}

/// What the reply tells of the refusal.
fn info(alloc: Global, refusal: Refusal) -> Result<Json, Memory>
    requires { CountsFit refusal }
    ensures { IfOk result (λ json. view json ≡ tree.object (refusal_of refusal).info) }
{
    match refusal {
        Refusal::BatchTooLarge { bytes, entry } => large_info(alloc, bytes, entry),
        Refusal::BadGroup { offset } => count_info(alloc, "offset", offset),
        Refusal::Fork { at } => count_info(alloc, "at", u64::from(at)),
        Refusal::Unfit { entry } => count_info(alloc, "entry", u64::from(entry)),
    }
}

/// The reply line of a refusal, at a dateline.
pub(crate) fn refusal_line(
    alloc: Global,
    dateline: u32,
    line: u64,
    refusal: Refusal,
) -> Result<Vec<u8>, Memory>
    requires line { line < 2 ^ 63 }
    requires counts { CountsFit refusal }
    ensures { IfOk result (λ bytes. bytes.items
        ≡ printed.err_line dateline line (refusal_of refusal)) }
{
    let mut members = Vec::new(alloc);
    push_text(alloc, &mut members, "code", "/api/status/error")?;
    push_count(alloc, &mut members, "dateline", u64::from(dateline))?;
    push_text(alloc, &mut members, "error", error_name(refusal))?;
    push_member(alloc, &mut members, "info", info(alloc, refusal)?)?;
    push_count(alloc, &mut members, "line", line)?;
    json_text(alloc, &object(members))
}
