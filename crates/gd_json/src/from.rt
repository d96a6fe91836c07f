//! From bytes to a value.
ghost use Rattle.gd_base.specs.Answers.{Gives};
ghost use Rattle.std.specs.Prelude.{◌≡◌, ◌≤◌, IfOk};
ghost use Rattle.json.specs.Value.{value_view, items_view as values_view, members_view as map_view};
ghost use Rattle.serde_json.specs.Data.{no_members};
ghost use Rattle.serde_json.specs.Read.{of_json};
ghost use Rattle.gd_json.specs.View.{view};
ghost use Rattle.gd_json.specs.Text.{as_data, items_data, members_data, plain_members};
ghost use Rattle.gd_json.specs.Text.{entries_data, object_at, reading_of, text_reading};
ghost use Rattle.gd_json.specs.Reading.{value_at, items_at, members_at, list_of, object_of};
ghost use Rattle.gd_json.specs.Reading.{json_from as json_of};
ghost use Rattle.gd_json.specs.Bounded.{IsBounded};
ghost use Rattle.gd_json.specs.declared.from.JsonFault.TheVariants.{Memory as no_memory};

use crate::number::whole_from;
use crate::tree::{are_rising, by_name, is_readable, tree_from};
use crate::value::{Json, JsonText};
use gd_base::memory::Memory;
use json::{Scratch, Value};
use std::alloc::{AllocError, AllocFailed, Global};
use std::collections::BTreeMap;

/// The deepest level of a value, the whole value being at level 1.
pub const DEEPEST: u32 = 16;

/// The greatest number of items of a list, and of members of an object.
pub const WIDEST: usize = 64;

/// Why bytes are refused.
#[derive(Clone, Copy, Debug, PartialEq, Eq)]
pub enum JsonFault {
    /// They are no JSON.
    BadJson,
    /// A value is below level `DEEPEST`.
    TooDeep,
    /// A list or an object has more than `WIDEST` parts.
    TooWide,
    /// A number has a fraction or an exponent, is `-0`, or does not fit 64 bits with a sign.
    FloatValue,
    /// An allocation was refused.
    Memory,
}

impl From<AllocError> for JsonFault {
    ghost from_gives = { λ _ fault. fault ≡ no_memory };

    fn from(_refused: AllocError) -> JsonFault {
        JsonFault::Memory
    }
}

impl<T: Drop> From<AllocFailed<T>> for JsonFault {
    ghost from_gives = { λ _ fault. fault ≡ no_memory };

    fn from(_refused: AllocFailed<T>) -> JsonFault {
        JsonFault::Memory
    }
}

impl From<Memory> for JsonFault {
    ghost from_gives = { λ _ fault. fault ≡ no_memory };

    fn from(_refused: Memory) -> JsonFault {
        JsonFault::Memory
    }
}

/// The value that the bytes spell. `BadJson`: they have no reading by the rules of the crate
/// serde_json. Else the value is walked, each value before its parts and members in byte order of
/// their names, and the first fault decides; at one value `TooDeep` is tested before `TooWide` and
/// `FloatValue`. Of two members of one name the last counts, and the members of an object stand in
/// byte order of their names.
pub fn json_from(alloc: Global, bytes: &[u8]) -> Result<Json, JsonFault>
    ensures read { Gives view JsonFault.Memory (json_of bytes.now) result }
    ensures bounded { IfOk result (λ json. IsBounded (view json)) }
{
    match std::str::from_utf8(bytes) {
        Ok(text) => text_value(alloc, text),
        Err(_) => Err(JsonFault::BadJson),
    }
}

fn text_value(alloc: Global, text: &str) -> Result<Json, JsonFault>
    ensures { Gives view JsonFault.Memory (text_reading text.now) result }
{
    let mut scratch = Scratch::new(alloc);
    let tree = tree_from(alloc, text, &mut scratch)?;
    tree_value(alloc, &tree)
}

fn tree_value(alloc: Global, tree: &Value<'_>) -> Result<Json, JsonFault>
    ensures { Gives view JsonFault.Memory (reading_of (of_json (value_view tree.now))) result }
{
    if is_readable(tree) {
        convert(alloc, tree, 1)
    } else {
        Err(JsonFault::BadJson)
    }
}

// The value of a tree that stands at the level.
#[cycle(convert)]
fn convert(alloc: Global, tree: &Value<'_>, level: u32) -> Result<Json, JsonFault>
    ensures { Gives view JsonFault.Memory (value_at level (as_data (value_view tree.now))) result }
{
    if level > DEEPEST {
        return Err(JsonFault::TooDeep);
    }
    match tree {
        Value::Null => Ok(Json::Null),
        Value::Bool(b) => Ok(Json::Bool(*b)),
        Value::Number(number) => match whole_from(number) {
            Some(n) => Ok(Json::Int(n)),
            None => Err(JsonFault::FloatValue),
        },
        Value::String(text) => Ok(Json::Text(JsonText::from_str(alloc, text)?)),
        Value::Array(items) => {
            if items.len() > WIDEST {
                return Err(JsonFault::TooWide);
            }
            convert_list(alloc, items, level + 1)
        }
        Value::Object(members) => convert_object(alloc, members, level + 1),
    }
}

// The list of these items, which stand at the level.
#[cycle(convert)]
fn convert_list(alloc: Global, items: &Vec<Value<'_>>, level: u32) -> Result<Json, JsonFault>
    requires { level ≤ 17 }
    ensures { Gives view JsonFault.Memory
        (list_of (items_at level (items_data (values_view items.now.items)))) result }
{
    let mut list = Vec::with_capacity(alloc, items.len())?;
    for item in items {
        list.push(convert(alloc, item, level)?)?;
    }
    Ok(Json::List(list))
}

// The object of these members in any order, whose values stand at the level.
#[cycle(convert)]
fn convert_object<'a>(
    alloc: Global,
    members: &Vec<(&'a str, Value<'a>)>,
    level: u32,
) -> Result<Json, JsonFault>
    requires { level ≤ 17 }
    ensures { Gives view JsonFault.Memory
        (object_at level (members_data (map_view members.now.items) no_members)) result }
{
    if are_rising(members) {
        if members.len() > WIDEST {
            return Err(JsonFault::TooWide);
        }
        return convert_members(alloc, members, level);
    }
    let found = by_name(alloc, members)?;
    if found.len() > WIDEST {
        return Err(JsonFault::TooWide);
    }
    convert_found(alloc, &found, level)
}

// The object of these members, whose names rise and whose values stand at the level.
#[cycle(convert)]
fn convert_members<'a>(
    alloc: Global,
    members: &Vec<(&'a str, Value<'a>)>,
    level: u32,
) -> Result<Json, JsonFault>
    requires { level ≤ 17 }
    ensures { Gives view JsonFault.Memory
        (object_of (members_at level (plain_members (map_view members.now.items)))) result }
{
    let mut object = Vec::with_capacity(alloc, members.len())?;
    for member in members {
        let name = JsonText::from_str(alloc, member.0)?;
        object.push((name, convert(alloc, &member.1, level)?))?;
    }
    Ok(Json::Object(object))
}

// The object of the members that were found, whose values stand at the level.
#[cycle(convert)]
fn convert_found<'v, 'a>(
    alloc: Global,
    found: &BTreeMap<&'v str, &'v Value<'a>>,
    level: u32,
) -> Result<Json, JsonFault>
    requires { level ≤ 17 }
    ensures { Gives view JsonFault.Memory
        (object_of (members_at level (entries_data found.now.entries))) result }
{
    let mut object = Vec::with_capacity(alloc, found.len())?;
    for (name, tree) in found {
        let name = JsonText::from_str(alloc, name)?;
        object.push((name, convert(alloc, tree, level)?))?;
    }
    Ok(Json::Object(object))
}
