//! What a query asks, with its words looked up.
use crate::test::Test;
use gd_json::value::{Json, JsonText};
use gd_resolve::property::Property;
use gd_template::template::Mode;

/// What a computed member tells: of its object the id, the guid or the timestamp; of the link that
/// led there the guid, the value, the namespace or the language.
#[derive(Clone, Copy, PartialEq, Eq)]
pub enum Own {
    Id,
    Guid,
    Timestamp,
    Link,
    Value,
    Namespace,
    Lang,
}

/// What rows are sorted by, and the direction: the guid, the timestamp, or the first value of a
/// property.
#[derive(Drop)]
pub enum SortKey {
    Guid {
        descending: bool,
    },
    Timestamp {
        descending: bool,
    },
    Value {
        property: Property,
        descending: bool,
    },
}

/// How an answer prints.
#[derive(Drop)]
pub enum Style {
    /// As the operand that it met.
    Operand(Json),
    /// As its value.
    Value,
    /// As its name.
    Name,
    /// As its id.
    Id,
    /// As the members of its clause.
    Clause,
}

/// What a member asks of a property. Contracts see it by `asking_view`.
#[derive(Drop)]
pub struct Asking {
    pub property: Property,
    pub test: Test,
    pub mode: Mode,
    /// It is a literal, which candidates have to meet.
    pub given: bool,
    /// Its answers weigh one each; else the weight of their clause is added.
    pub counted: bool,
    pub style: Style,
    /// It prints a list; else the one answer.
    pub listed: bool,
    /// Two answers are one too many.
    pub single: bool,
    pub sort: Vec<SortKey>,
    pub limit: u32,
}

/// A member of a clause, by its name as it is spelled. Contracts see it as what it puts in front of
/// the members behind it, `put`, and members one after another by `members_view`.
#[derive(Drop)]
pub enum Member {
    /// A computed word with its test, and the operand that it prints, if it has one.
    Own {
        name: JsonText,
        own: Own,
        test: Test,
        operand: Option<Json>,
    },
    /// A property, and what the clause of its answers asks of them.
    Asks {
        name: JsonText,
        asking: Asking,
        clause: Vec<Member>,
    },
}

/// A whole query with its words looked up. Contracts see it by `asked_view`.
#[derive(Drop)]
pub struct Asked {
    /// It prints a list; else the one object.
    pub listed: bool,
    /// Two objects are one too many.
    pub single: bool,
    /// It asks how many there are.
    pub count: bool,
    pub limit: u32,
    pub members: Vec<Member>,
    pub sort: Vec<SortKey>,
}
