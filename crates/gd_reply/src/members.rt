//! Objects and lists of JSON, built member by member.
ghost use Rattle.std.specs.Prelude.{◌≡◌, ◌<◌, ◌^◌, ◌++◌, ◌∷◌, [], OnOk, map};
ghost use Rattle.gd_tree.specs.Json.{text as text_of, list as list_of, object as object_of};
ghost use Rattle.gd_json.specs.View.{view, items_view, member_view, members_view};
ghost use Rattle.gd_defs.specs.Lines.{count_json};

use gd_base::memory::Memory;
use gd_json::value::{Json, JsonText};
use std::alloc::Global;

/// The members of an object, which are appended in byte order of their names.
pub type Members = Vec<(JsonText, Json)>;

/// Appends a member.
pub fn push_member(
    alloc: Global,
    members: &mut Members,
    name: &str,
    value: Json,
) -> Result<(), Memory>
    ensures { OnOk result (map member_view members.new.items
        ≡ map member_view members.old.items ++ (name.now, view value) ∷ []) }
{
    members.push(Json::named(alloc, name, value)?)?;
    Ok(())
}

/// Appends a member whose value is a text.
pub fn push_text(alloc: Global, members: &mut Members, name: &str, text: &str) -> Result<(), Memory>
    ensures { OnOk result (map member_view members.new.items
        ≡ map member_view members.old.items ++ (name.now, text_of text.now) ∷ []) }
{
    push_member(alloc, members, name, Json::text(alloc, text)?)?;
    Ok(())
}

/// A number as JSON.
fn count(n: u64) -> Json
    requires { n < 2 ^ 63 }
    ensures { view result ≡ count_json n }
{
    Json::Int(n as i64)
}

/// Appends a member whose value is a number.
pub fn push_count(alloc: Global, members: &mut Members, name: &str, n: u64) -> Result<(), Memory>
    requires { n < 2 ^ 63 }
    ensures { OnOk result (map member_view members.new.items
        ≡ map member_view members.old.items ++ (name.now, count_json n) ∷ []) }
{
    push_member(alloc, members, name, count(n))?;
    Ok(())
}

/// The object of these members.
pub fn object(members: Members) -> Json
    ensures { view result ≡ object_of (members_view members.items) }
{
    Json::Object(members)
}

/// The list of these items.
pub fn list(items: Vec<Json>) -> Json
    ensures { view result ≡ list_of (items_view items.items) }
{
    Json::List(items)
}
