//! A value again.
ghost use Rattle.std.specs.Prelude.{◌≡◌, IfOk};
ghost use Rattle.gd_json.specs.View.{view, items_view, members_view};

use crate::value::{Json, JsonText};
use gd_base::memory::Memory;

impl Json {
    /// The same value again.
    pub fn copy(&self) -> Result<Json, Memory>
        ensures { IfOk result (λ json. view json ≡ view self.now) }
    {
        copy(self)
    }
}

#[cycle(copy)]
fn copy(value: &Json) -> Result<Json, Memory>
    ensures { IfOk result (λ json. view json ≡ view value.now) }
{
    match value {
        Json::Null => Ok(Json::Null),
        Json::Bool(b) => Ok(Json::Bool(*b)),
        Json::Int(n) => Ok(Json::Int(*n)),
        Json::Text(text) => Ok(Json::Text(text.copy()?)),
        Json::List(items) => Ok(Json::List(copy_items(items)?)),
        Json::Object(members) => Ok(Json::Object(copy_members(members)?)),
    }
}

#[cycle(copy)]
fn copy_items(items: &Vec<Json>) -> Result<Vec<Json>, Memory>
    ensures { IfOk result (λ copies. items_view copies.items ≡ items_view items.now.items) }
{
    let mut copies = Vec::with_capacity(*items.allocator(), items.len())?;
    for item in items {
        copies.push(copy(item)?)?;
    }
    Ok(copies)
}

#[cycle(copy)]
fn copy_members(members: &Vec<(JsonText, Json)>) -> Result<Vec<(JsonText, Json)>, Memory>
    ensures { IfOk result (λ copies. members_view copies.items ≡ members_view members.now.items) }
{
    let mut copies = Vec::with_capacity(*members.allocator(), members.len())?;
    for member in members {
        copies.push((member.0.copy()?, copy(&member.1)?))?;
    }
    Ok(copies)
}
