//! The tree of a text, and whether it has a reading.
ghost use Rattle.std.specs.Prelude.{◌≡◌, is_some, IfOk};
ghost use Rattle.std.specs.Option.{ok_or};
ghost use Rattle.gd_base.specs.Answers.{Gives};
ghost use Rattle.json.specs.Value.{value_view, items_view as values_view, members_view as map_view};
ghost use Rattle.serde_json.specs.Data.{no_members};
ghost use Rattle.serde_json.specs.Read.{of_json};
ghost use Rattle.gd_json.specs.Text.{tree_of, rises, rises_behind, items_read, members_read};
ghost use Rattle.gd_json.specs.Text.{members_data, entries_data};

use crate::from::JsonFault;
use crate::number::is_in_range;
use gd_base::memory::Memory;
use json::{Error, Reader, Scratch, Value};
use std::alloc::Global;
use std::collections::BTreeMap;

/// How deep lists and objects may nest in a text that has a reading.
const NESTING: usize = 127;

/// The tree of a text. `BadJson`: the text is no JSON.
pub(crate) fn tree_from<'a>(
    alloc: Global,
    text: &'a str,
    scratch: &'a mut Scratch,
) -> Result<Value<'a>, JsonFault>
    ensures { Gives value_view JsonFault.Memory (ok_or (tree_of text.now) JsonFault.BadJson)
        result }
{
    let mut reader = Reader::new(text, scratch)?;
    match Value::read(alloc, &mut reader, NESTING) {
        Ok(tree) => {
            if reader.next().is_some() {
                Err(JsonFault::BadJson)
            } else {
                Ok(tree)
            }
        }
        Err(Error::OutOfMemory) => Err(JsonFault::Memory),
        Err(_) => Err(JsonFault::BadJson),
    }
}

/// Whether a tree has a reading: none of its numbers is too large.
#[cycle(is_readable)]
pub(crate) fn is_readable(tree: &Value<'_>) -> bool
    ensures { result ≡ is_some (of_json (value_view tree.now)) }
{
    match tree {
        Value::Number(number) => is_in_range(number),
        Value::Array(items) => are_readable(items),
        Value::Object(members) => have_readings(members),
        _ => true,
    }
}

#[cycle(is_readable)]
fn are_readable(items: &Vec<Value<'_>>) -> bool
    ensures { result ≡ items_read (values_view items.now.items) }
{
    for item in items {
        if !is_readable(item) {
            return false;
        }
    }
    true
}

#[cycle(is_readable)]
fn have_readings(members: &Vec<(&str, Value<'_>)>) -> bool
    ensures { result ≡ members_read (map_view members.now.items) }
{
    for member in members {
        if !is_readable(&member.1) {
            return false;
        }
    }
    true
}

/// Whether the names rise in byte order, so that each stands once.
pub(crate) fn are_rising(members: &[(&str, Value<'_>)]) -> bool
    ensures { result ≡ rises (map_view members.now) }
{
    match members.split_first() {
        Some((first, others)) => rise_behind(first.0, others),
        None => true,
    }
}

fn rise_behind(name: &str, members: &[(&str, Value<'_>)]) -> bool
    ensures { result ≡ rises_behind name.now (map_view members.now) }
{
    let mut last = name;
    for member in members {
        if last >= member.0 {
            return false;
        }
        last = member.0;
    }
    true
}

/// The members of an object by their names, the last one of each name.
pub(crate) fn by_name<'v, 'a>(
    alloc: Global,
    members: &'v Vec<(&'a str, Value<'a>)>,
) -> Result<BTreeMap<&'v str, &'v Value<'a>>, Memory>
    ensures { IfOk result (λ found. entries_data found.entries
        ≡ members_data (map_view members.now.items) no_members) }
{
    let mut found = BTreeMap::new(alloc);
    for member in members {
        drop(found.insert(member.0, &member.1)?);
    }
    Ok(found)
}
