//! What a part of a write prints, with what the state at the end still has to tell.
use gd_base::id::Id;
use gd_growing::links::Answer;
use gd_intent::intent::Spelled;
use gd_json::value::{Json, JsonText};

/// What a part of a write prints once the state at its end is known. Contracts see it by
/// `printed_view`, at any such state.
#[derive(Drop)]
pub(crate) enum Printed<'a> {
    /// A value as the request spells it.
    Spelled(Spelled<'a>),
    /// The id of the object at a place.
    Id(Id),
    /// The guid of the object at a place.
    Guid(Id),
    /// The answer of a create: whether the object was there.
    Created(bool),
    /// A connect form with its answer in place of its word.
    Connected(Answer, &'a [(JsonText, Json)]),
    /// An object of these members.
    Form(Vec<(&'a str, Printed<'a>)>),
    /// A list of these.
    Several(Vec<Printed<'a>>),
}

/// A member of a printed object, by its name.
pub(crate) type Field<'a> = (&'a str, Printed<'a>);
