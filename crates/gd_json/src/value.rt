//! A JSON value, and looking into it.
ghost use Rattle.std.specs.Prelude.{◌≡◌, IfOk, nat_eq, option_map, string_bytes};
ghost use Rattle.std.specs.Cmp.{partial_equiv_from_equiv};
ghost use Rattle.std.specs.Cmp.Lexicographic.{pointwise, nat_list_eq_equiv};
ghost use Rattle.gd_tree.specs.Json as tree;
ghost use Rattle.gd_tree.specs.Look as look;
ghost use Rattle.gd_json.specs.View.{view, items_view, members_view};

use gd_base::memory::Memory;
use std::alloc::Global;
use std::marker::Model;

/// UTF-8 of any length. Contracts see it as the list of its bytes.
#[derive(Debug, Drop)]
pub struct JsonText {
    string: String,
}

impl Model for JsonText {
    ghost use Rattle.std.specs.Prelude.{ℕ, List, string_bytes};

    ghost Value = { List ℕ };

    ghost view = { λ text. string_bytes text.string };
}

/// A JSON value whose numbers are whole. The members of an object that was read stand in byte order
/// of their names, each name once; who builds one keeps that order.
#[derive(Debug, PartialEq, Eq, Drop)]
pub enum Json {
    Null,
    Bool(bool),
    Int(i64),
    Text(JsonText),
    List(Vec<Json>),
    Object(Vec<(JsonText, Json)>),
}

impl PartialEq for JsonText {
    ghost eq = { λ a b. pointwise nat_eq a b };

    ghost laws = { partial_equiv_from_equiv nat_list_eq_equiv };

    fn eq(&self, other: &JsonText) -> bool {
        self.string == other.string
    }
}

impl Eq for JsonText {
    ghost laws = { nat_list_eq_equiv };
}

impl JsonText {
    /// The text of a string, which it takes over.
    pub fn new(string: String) -> JsonText
        ensures { result ≡ string_bytes string }
    {
        JsonText { string }
    }

    /// A text of its own with the same bytes.
    pub fn from_str(alloc: Global, text: &str) -> Result<JsonText, Memory>
        ensures { IfOk result (λ made. made ≡ text.now) }
    {
        Ok(JsonText {
            string: String::from_str(alloc, text)?,
        })
    }

    /// The text as a string.
    pub fn as_str(&self) -> &str
        ensures { result.now ≡ self.now }
    {
        self.string.as_str()
    }

    /// The same text again.
    pub fn copy(&self) -> Result<JsonText, Memory>
        ensures { IfOk result (λ text. text ≡ self.now) }
    {
        Ok(JsonText {
            string: self.string.clone()?,
        })
    }
}

impl Json {
    /// A text value of these bytes.
    pub fn text(alloc: Global, text: &str) -> Result<Json, Memory>
        ensures { IfOk result (λ json. view json ≡ tree.text text.now) }
    {
        Ok(Json::Text(JsonText::from_str(alloc, text)?))
    }

    /// A list of these items.
    pub fn list(items: Vec<Json>) -> Json
        ensures { view result ≡ tree.list (items_view items.items) }
    {
        Json::List(items)
    }

    /// An object of these members, which stand in byte order of their names, each name once.
    pub fn object(members: Vec<(JsonText, Json)>) -> Json
        ensures { view result ≡ tree.object (members_view members.items) }
    {
        Json::Object(members)
    }

    /// A member of an object, of this name and value.
    pub fn named(alloc: Global, name: &str, value: Json) -> Result<(JsonText, Json), Memory>
        ensures { IfOk result (λ member. member ≡ (name.now, value)) }
    {
        Ok((JsonText::from_str(alloc, name)?, value))
    }

    /// Whether the value is null.
    pub fn is_null(&self) -> bool
        ensures { result ≡ look.is_null (view self.now) }
    {
        matches!(self, Json::Null)
    }

    /// The truth value that this is.
    pub fn as_bool(&self) -> Option<bool>
        ensures { result ≡ look.bool_of (view self.now) }
    {
        match self {
            Json::Bool(b) => Some(*b),
            _ => None,
        }
    }

    /// The number that this is.
    pub fn as_int(&self) -> Option<i64>
        ensures { result ≡ look.int_of (view self.now) }
    {
        match self {
            Json::Int(n) => Some(*n),
            _ => None,
        }
    }

    /// The text that this is.
    pub fn as_text(&self) -> Option<&JsonText>
        ensures { option_map (λ text. text.now) result ≡ look.text_of (view self.now) }
    {
        match self {
            Json::Text(text) => Some(text),
            _ => None,
        }
    }

    /// The items of a list, in order.
    pub fn as_list(&self) -> Option<&[Json]>
        ensures { option_map (λ items. items_view items.now) result
            ≡ look.items_in (view self.now) }
    {
        match self {
            Json::List(items) => Some(items.as_slice()),
            _ => None,
        }
    }

    /// The members of an object, in byte order of their names.
    pub fn as_object(&self) -> Option<&[(JsonText, Json)]>
        ensures { option_map (λ members. members_view members.now) result
            ≡ look.members_in (view self.now) }
    {
        match self {
            Json::Object(members) => Some(members.as_slice()),
            _ => None,
        }
    }

    /// How many items a list has; 0 for any other value.
    #[tactic(auto, using(crate::proofs::Parts::list_count))]
    pub fn item_count(&self) -> usize
        ensures { result ≡ look.item_count (view self.now) }
    {
        match self {
            Json::List(items) => items.len(),
            _ => 0,
        }
    }

    /// How many members an object has; 0 for any other value.
    #[tactic(auto, using(crate::proofs::Parts::object_count))]
    pub fn member_count(&self) -> usize
        ensures { result ≡ look.member_count (view self.now) }
    {
        match self {
            Json::Object(members) => members.len(),
            _ => 0,
        }
    }

    /// The item at an index of a list, the first being at 0.
    pub fn item(&self, index: usize) -> Option<&Json>
        ensures { option_map (λ part. view part.now) result ≡ look.item_of index (view self.now) }
    {
        match self {
            Json::List(items) => items.get(index),
            _ => None,
        }
    }

    /// The member at an index of an object with its name, the first in byte order being at 0.
    pub fn nth_member(&self, index: usize) -> Option<(&JsonText, &Json)>
        ensures { option_map (λ part. (part.0.now, view part.1.now)) result
            ≡ look.nth_member_of index (view self.now) }
    {
        match self {
            Json::Object(members) => nth(members, index),
            _ => None,
        }
    }

    /// The value of an object's member of this name.
    pub fn member(&self, name: &str) -> Option<&Json>
        ensures { option_map (λ part. view part.now) result ≡ look.member_of name.now
            (view self.now) }
    {
        match self {
            Json::Object(members) => find(members, name),
            _ => None,
        }
    }
}

fn nth(members: &Vec<(JsonText, Json)>, index: usize) -> Option<(&JsonText, &Json)>
    ensures { option_map (λ part. (part.0.now, view part.1.now)) result
        ≡ look.member_at index (members_view members.now.items) }
{
    match members.get(index) {
        Some(member) => Some((&member.0, &member.1)),
        None => None,
    }
}

fn find<'a>(members: &'a Vec<(JsonText, Json)>, name: &str) -> Option<&'a Json>
    ensures { option_map (λ part. view part.now) result
        ≡ look.get name.now (members_view members.now.items) }
{
    for member in members {
        if name == member.0.as_str() {
            return Some(&member.1);
        }
    }
    None
}
