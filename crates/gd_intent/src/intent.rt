//! What a write does, with its words looked up.
use gd_base::id::Id;
use gd_growing::target::Target;
use gd_json::value::{Json, JsonText};
use gd_mql::change::Root;
use gd_mql::write_parts::{ConnectWord, CreateWord};
use gd_resolve::property::Property;

/// A value as the request spells it, which is printed again. Contracts see it by `spelled_view`.
#[derive(Clone, Copy)]
pub enum Spelled<'a> {
    /// Null.
    Null,
    /// A value.
    Value(&'a Json),
    /// An object of these members.
    Form(&'a [(JsonText, Json)]),
}

/// A connect form. Contracts see it by `item_view`.
#[derive(Drop)]
pub struct Connect<'a> {
    pub property: Property,
    pub word: ConnectWord,
    pub target: Target,
    /// The place of the link that gives way to the target, if one is named.
    pub previous: Option<u64>,
    /// The members that spell the form.
    pub members: &'a [(JsonText, Json)],
}

/// A member of a clause, by its name as it is spelled, with what it does; or `create` at its place
/// among the members.
#[derive(Drop)]
pub enum Entry<'a, I> {
    Member(&'a str, I),
    Created,
}

/// What a member of a write does. Contracts see it by `item_view`.
#[derive(Drop)]
pub enum Item<'a> {
    /// It prints as it was spelled.
    Spelled(Spelled<'a>),
    /// It prints the id of its object.
    Id,
    /// It prints the guid of its object.
    Guid,
    /// It states a fact, and prints as it was spelled.
    Fact {
        property: Property,
        target: Target,
        spelled: Spelled<'a>,
    },
    /// It inserts, deletes or updates links.
    Connect(Connect<'a>),
    /// It creates an object by these members, to which a link leads.
    Nested {
        property: Property,
        word: CreateWord,
        members: Vec<Entry<'a, Item<'a>>>,
    },
    /// Several of these, in order.
    Several(Vec<Item<'a>>),
}

/// A change of a write with its words looked up. Contracts see it by `resolved_view`.
#[derive(Drop)]
pub struct ResolvedChange<'a> {
    /// The path of its root: its number among several, nothing where it is the only one.
    pub path: Vec<&'a str>,
    /// What it is carried out on, as it was spelled.
    pub root: Root<'a>,
    /// The existing object on which it is carried out, if it does not create one.
    pub on: Option<Id>,
    /// What the members of its root clause do.
    pub members: Vec<Entry<'a, Item<'a>>>,
}

/// A write with its words looked up. Contracts see it by `intent_view`.
#[derive(Drop)]
pub struct Intent<'a> {
    /// The scope of all that it makes.
    pub scope: Option<Id>,
    /// Its changes, in order.
    pub changes: Vec<ResolvedChange<'a>>,
}
