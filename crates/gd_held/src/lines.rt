//! The reply line of a text that is not that of a frozen reading.
ghost use Rattle.std.specs.Prelude.{◌≡◌, ◌<◌, ◌^◌, ◌∷◌, [], IfOk, codes};
ghost use Rattle.gd_tree.specs.Json as tree;
ghost use Rattle.gd_json.specs.View.{members_view};
ghost use Rattle.gd_defs.specs.Lines as printed;
ghost use Rattle.gd_runs.specs.Core as core;

use gd_base::memory::Memory;
use gd_json::text::json_text;
use gd_reply::members::{Members, object, push_count, push_member, push_text};
use std::alloc::Global;

/// The reply line of a refusal at a dateline: its error, and what it tells.
fn refused_line(
    alloc: Global,
    dateline: u32,
    line: u64,
    error: &str,
    told: Members,
) -> Result<Vec<u8>, Memory>
    requires { line < 2 ^ 63 }
    ensures { IfOk result (λ bytes. bytes.items
        ≡ printed.line_text (printed.err_code ∷ (codes "dateline", printed.count_json dateline)
        ∷ (codes "error", tree.text error.now)
        ∷ (codes "info", tree.object (members_view told.items))
        ∷ (codes "line", printed.count_json line) ∷ [])) }
{
    let mut members = Vec::new(alloc);
    push_text(alloc, &mut members, "code", "/api/status/error")?;
    push_count(alloc, &mut members, "dateline", u64::from(dateline))?;
    push_text(alloc, &mut members, "error", error)?;
    push_member(alloc, &mut members, "info", object(told))?;
    push_count(alloc, &mut members, "line", line)?;
    json_text(alloc, &object(members))
}

/// The reply line of the refusal of bytes of which so many are those of a frozen reading.
pub(crate) fn bad_frozen_line(
    alloc: Global,
    dateline: u32,
    line: u64,
    offset: u64,
) -> Result<Vec<u8>, Memory>
    requires line { line < 2 ^ 63 }
    requires offset { offset < 2 ^ 63 }
    ensures { IfOk result (λ bytes. bytes.items
        ≡ printed.err_line dateline line (core.bad_frozen offset)) }
{
    let mut told = Vec::new(alloc);
    push_count(alloc, &mut told, "offset", offset)?;
    refused_line(alloc, dateline, line, "BadFrozen", told)
}
