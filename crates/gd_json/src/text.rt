//! From a value to its compact text.
ghost use Rattle.std.specs.Prelude.{◌≡◌, ◌++◌, IfOk, OnOk};
ghost use Rattle.gd_tree.specs.Json.{compact, list, object};
ghost use Rattle.gd_json.specs.View.{view, items_view, members_view};
ghost use Rattle.gd_json.specs.Tokens.{tokens_of};

use crate::value::{Json, JsonText};
use gd_base::memory::Memory;
use json::Writer;
use std::alloc::Global;

/// Room for a short text.
const SHORT: usize = 128;

/// The compact text of a value: no blanks, the members of an object in their order, and of the
/// escapes only those that JSON asks for.
pub fn json_text(alloc: Global, value: &Json) -> Result<Vec<u8>, Memory>
    ensures { IfOk result (λ text. text.items ≡ compact (view value.now)) }
{
    with_json(Vec::with_capacity(alloc, SHORT)?, value)
}

/// These bytes and, behind them, the compact text of a value. `Memory`: the bytes are let go.
pub fn with_json(bytes: Vec<u8>, value: &Json) -> Result<Vec<u8>, Memory>
    ensures { IfOk result (λ text. text.items ≡ bytes.items ++ compact (view value.now)) }
{
    let mut out = Writer::new(bytes);
    write(&mut out, value)?;
    Ok(out.into_inner())
}

/// Writes a value behind what was written before. `Memory`: what was written is of no use then.
#[cycle(write)]
pub fn write(out: &mut Writer, value: &Json) -> Result<(), Memory>
    ensures ok { OnOk result (out.new.tokens ≡ out.old.tokens ++ tokens_of (view value.now)) }
    ensures before { out.new.before ≡ out.old.before }
{
    match value {
        Json::Null => out.null()?,
        Json::Bool(b) => out.boolean(*b)?,
        Json::Int(n) => out.i64(*n)?,
        Json::Text(text) => out.string(text.as_str())?,
        Json::List(items) => write_items(out, items)?,
        Json::Object(members) => write_members(out, members)?,
    }
    Ok(())
}

// The items within their brackets.
#[cycle(write)]
fn write_items(out: &mut Writer, items: &Vec<Json>) -> Result<(), Memory>
    ensures ok { OnOk result (out.new.tokens
        ≡ out.old.tokens ++ tokens_of (list (items_view items.now.items))) }
    ensures before { out.new.before ≡ out.old.before }
{
    out.begin_array()?;
    for item in items {
        write(out, item)?;
    }
    out.end_array()?;
    Ok(())
}

// The members within their brackets.
#[cycle(write)]
fn write_members(out: &mut Writer, members: &Vec<(JsonText, Json)>) -> Result<(), Memory>
    ensures ok { OnOk result (out.new.tokens
        ≡ out.old.tokens ++ tokens_of (object (members_view members.now.items))) }
    ensures before { out.new.before ≡ out.old.before }
{
    out.begin_object()?;
    for member in members {
        out.key(member.0.as_str())?;
        write(out, &member.1)?;
    }
    out.end_object()?;
    Ok(())
}
