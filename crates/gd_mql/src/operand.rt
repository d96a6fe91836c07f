//! The form of a literal or an operand, by the word and the operator of its name.
ghost use Rattle.std.specs.Prelude.{◌≡◌, ◌&&◌, codes, is_some};
ghost use Rattle.std.specs.Int.{is_in_range};
ghost use Rattle.gd_tree.specs.Look.{items_len};
ghost use Rattle.gd_defs.specs.Moment.{moment_of};
ghost use Rattle.gd_defs.specs.Query.Names as names;
ghost use Rattle.gd_defs.specs.Query.Operands as defined;
ghost use Rattle.gd_json.specs.View.{view, items_view};
ghost use Rattle.gd_mql.specs.Names.{operator_view, name_view};

use crate::name::{Name, Operator};
use gd_datum::moment::moment_from;
use gd_datum::pattern::is_pattern;
use gd_fault::ids::is_id;
use gd_json::value::Json;

/// The greatest number of operands of `|=`.
const MAX_ALTERNATIVES: usize = 64;

/// Whether the word is one of those that this profile leaves out.
pub fn is_left_out(word: &str) -> bool
    ensures { result ≡ names.is_left_out word.now }
{
    match word {
        "*" => true,
        "estimate-count" => true,
        "count" => true,
        "index" => true,
        "unless_connected" => true,
        "replace" => true,
        _ => false,
    }
}

/// Whether the word is `id` or `guid`, by itself or as a path below `/type/object`.
pub fn is_identity(word: &str) -> bool
    ensures { result ≡ names.is_identity word.now }
{
    match word {
        "id" => true,
        "/type/object/id" => true,
        "guid" => true,
        "/type/object/guid" => true,
        _ => false,
    }
}

fn is_timestamp(word: &str) -> bool
    ensures { result ≡ names.is_word (codes "timestamp") word.now }
{
    word == "timestamp" || word == "/type/object/timestamp"
}

/// Whether the word is computed, and asks for no property: `id`, `guid` or `timestamp`.
pub fn is_computed(word: &str) -> bool
    ensures { result ≡ names.is_computed word.now }
{
    is_identity(word) || is_timestamp(word)
}

/// Whether the word asks for the link that led to its object.
pub fn is_link(word: &str) -> bool
    ensures { result ≡ names.is_link word.now }
{
    word == "link"
}

/// Whether the value is a literal: a text, a number or a truth value.
pub fn is_literal(value: &Json) -> bool
    ensures { result ≡ defined.is_literal (view value.now) }
{
    matches!(value, Json::Text(_) | Json::Int(_) | Json::Bool(_))
}

/// Whether the value is the text of an id.
pub fn is_id_text(value: &Json) -> bool
    ensures { result ≡ defined.is_id_text (view value.now) }
{
    match value {
        Json::Text(text) => is_id(text.as_str()),
        _ => false,
    }
}

fn spells_moment(text: &str) -> bool
    ensures { result ≡ is_some (moment_of text.now) }
{
    moment_from(text.as_bytes()).is_ok()
}

fn is_moment_text(value: &Json) -> bool
    ensures { result ≡ defined.is_moment_text (view value.now) }
{
    match value.as_text() {
        Some(text) => spells_moment(text.as_str()),
        None => false,
    }
}

fn is_pattern_text(value: &Json) -> bool
    ensures { result ≡ defined.is_pattern (view value.now) }
{
    match value {
        Json::Text(text) => is_pattern(text.as_str()),
        _ => false,
    }
}

fn is_text_or_number(value: &Json) -> bool
    ensures { result ≡ defined.is_text_or_number (view value.now) }
{
    matches!(value, Json::Text(_) | Json::Int(_))
}

/// Whether each item is a literal.
pub fn are_literals(items: &[Json]) -> bool
    ensures { result ≡ defined.all_items defined.is_literal (items_view items.now) }
{
    for item in items {
        if !is_literal(item) {
            return false;
        }
    }
    true
}

fn are_id_texts(items: &[Json]) -> bool
    ensures { result ≡ defined.all_items defined.is_id_text (items_view items.now) }
{
    for item in items {
        if !is_id_text(item) {
            return false;
        }
    }
    true
}

/// Whether there are one item or more, and at most so many.
pub fn counts_to(items: &[Json], most: usize) -> bool
    ensures { result ≡ is_in_range 1 most (items_len (items_view items.now)) }
{
    (1..=most).contains(&items.len())
}

fn is_choice_of_literals(items: &[Json]) -> bool
    ensures { result ≡ (is_in_range 1 64 (items_len (items_view items.now))
        && defined.all_items defined.is_literal (items_view items.now)) }
{
    counts_to(items, MAX_ALTERNATIVES) && are_literals(items)
}

fn is_choice_of_ids(items: &[Json]) -> bool
    ensures { result ≡ (is_in_range 1 64 (items_len (items_view items.now))
        && defined.all_items defined.is_id_text (items_view items.now)) }
{
    counts_to(items, MAX_ALTERNATIVES) && are_id_texts(items)
}

/// Whether the value is a list of 1 to 64 literals.
fn is_list_of_literals(value: &Json) -> bool
    ensures { result ≡ defined.list_of defined.is_literal (view value.now) }
{
    match value {
        Json::List(items) => { is_choice_of_literals(items.as_slice()) }
        _ => false,
    }
}

/// Whether the value is a list of 1 to 64 texts of ids.
fn is_list_of_ids(value: &Json) -> bool
    ensures { result ≡ defined.list_of defined.is_id_text (view value.now) }
{
    match value {
        Json::List(items) => { is_choice_of_ids(items.as_slice()) }
        _ => false,
    }
}

/// Whether the value has the form that an operator asks of its operand on a property; without an
/// operator that of a literal.
fn property_fits(operator: Operator, value: &Json) -> bool
    ensures { result ≡ defined.property_fits (operator_view operator) (view value.now) }
{
    match operator {
        Operator::Absent | Operator::Differs => is_literal(value),
        Operator::OneOf => is_list_of_literals(value),
        Operator::Words => is_pattern_text(value),
        Operator::Below | Operator::AtMost | Operator::Above | Operator::AtLeast => {
            is_text_or_number(value)
        }
    }
}

/// The same on `id` and `guid`, where texts are ids.
fn identity_fits(operator: Operator, value: &Json) -> bool
    ensures { result ≡ defined.identity_fits (operator_view operator) (view value.now) }
{
    match operator {
        Operator::Absent | Operator::Differs => is_id_text(value),
        Operator::OneOf => is_list_of_ids(value),
        Operator::Words => is_pattern_text(value),
        Operator::Below | Operator::AtMost | Operator::Above | Operator::AtLeast => {
            is_text_or_number(value)
        }
    }
}

/// The same on `timestamp`, which is compared with moments; without an operator none fits.
fn timestamp_fits(operator: Operator, value: &Json) -> bool
    ensures { result ≡ defined.timestamp_fits (operator_view operator) (view value.now) }
{
    match operator {
        Operator::Absent => false,
        Operator::OneOf => is_list_of_literals(value),
        Operator::Differs => is_literal(value),
        Operator::Words => is_pattern_text(value),
        Operator::Below | Operator::AtMost | Operator::Above | Operator::AtLeast => {
            is_moment_text(value)
        }
    }
}

/// The same on `link`; without an operator none fits.
fn link_fits(operator: Operator, value: &Json) -> bool
    ensures { result ≡ defined.link_fits (operator_view operator) (view value.now) }
{
    match operator {
        Operator::Absent => false,
        _ => property_fits(operator, value),
    }
}

/// Whether the operand has the form that the word and the operator of its name ask. It takes no
/// memory.
pub fn operand_fits(name: &Name<'_>, value: &Json) -> bool
    ensures { result ≡ defined.operand_fits (name_view name.now) (view value.now) }
{
    if is_identity(name.word) {
        identity_fits(name.operator, value)
    } else if is_timestamp(name.word) {
        timestamp_fits(name.operator, value)
    } else if is_link(name.word) {
        link_fits(name.operator, value)
    } else {
        property_fits(name.operator, value)
    }
}
