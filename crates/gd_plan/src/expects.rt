//! What the answers of a property are.
ghost use Rattle.std.specs.Prelude.{◌≡◌, Some};
ghost use Rattle.gd_defs.specs.Asked as asked;
ghost use Rattle.gd_defs.specs.Property as property;
ghost use Rattle.gd_plan.specs.Seen.{expects_view};

use gd_base::id::Id;
use gd_datum::value::Kind;

/// The first place behind the built-in list.
const BUILTIN_END: u32 = 70;

/// What the answers of a property are.
#[derive(Clone, Copy, PartialEq, Eq)]
pub enum Expects {
    /// Values of a kind.
    Value(Kind),
    /// Keys, each in a namespace.
    Key,
    /// Objects of a type of the built-in list.
    SystemObject,
    /// Other objects.
    PlainObject,
}

/// What the answers of objects of this type are.
fn expects_of_type(of: Id) -> Expects
    ensures { expects_view result ≡ property.expects_of (Some of) }
{
    match of.0 {
        7 => Expects::Value(Kind::Text),
        8 => Expects::Value(Kind::Int),
        9 => Expects::Value(Kind::Boolean),
        10 => Expects::Value(Kind::Datetime),
        11 => Expects::Key,
        place => {
            if place < BUILTIN_END {
                Expects::SystemObject
            } else {
                Expects::PlainObject
            }
        }
    }
}

/// What the answers of a property are, by the type that it expects at their end, if it states one:
/// the types of the built-in list for texts, whole numbers, truth values and moments stand for
/// values, the one for keys for keys, and its other types for objects of the system. It takes no
/// memory.
pub fn expects_of(expected: Option<Id>) -> Expects
    ensures { expects_view result ≡ property.expects_of expected }
{
    match expected {
        Some(of) => expects_of_type(of),
        None => Expects::PlainObject,
    }
}

/// Whether the answers are values or keys. It takes no memory.
pub fn holds_values(expects: Expects) -> bool
    ensures { result ≡ property.holds_values (expects_view expects) }
{
    match expects {
        Expects::Value(_) | Expects::Key => true,
        Expects::SystemObject | Expects::PlainObject => false,
    }
}

/// Whether the answers have a language, as texts do. It takes no memory.
pub fn has_lang(expects: Expects) -> bool
    ensures { result ≡ asked.has_lang (expects_view expects) }
{
    matches!(expects, Expects::Value(Kind::Text))
}
