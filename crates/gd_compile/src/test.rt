//! Tests of data, as operators make them with their operands.
ghost use Rattle.std.specs.Prelude.{◌≡◌, ◌≤◌, ◌+◌, ◌*◌, length, map, nat_le, Ok, IfOk};
ghost use Rattle.std.specs.Prelude.{if◌then◌else◌};
ghost use Rattle.gd_prim.specs.History.{prims_of};
ghost use Rattle.gd_defs.specs.Asked.Tests as defs;
ghost use Rattle.gd_defs.specs.Query as query;
ghost use Rattle.gd_tree.specs.Json.{text as text_json};
ghost use Rattle.gd_tree.specs.Look.{item_count};
ghost use Rattle.gd_json.specs.View.{view as json_of};
ghost use Rattle.gd_mql.specs.Names.{operator_view};
ghost use Rattle.gd_compile.specs.Fault.{Finds};
ghost use Rattle.gd_compile.specs.Looks.{item_steps, operand_steps, test_steps};
ghost use Rattle.gd_plan.specs.Seen.{expects_view, test_view};
ghost use Rattle.gd_compile.specs.Seen.{compared, compared_with, words_with, is_choice, is_words};

use crate::fault::{Code, Unknown, bad};
use crate::operand::{operand_data, operand_datum};
use gd_base::datum::Datum;
use gd_base::memory::Memory;
use gd_base::steps::Steps;
use gd_base::text::{TEXT_LIMIT, Text};
use gd_datum::pattern::{Pattern, PatternFault};
use gd_datum::value::Kind;
use gd_json::value::Json;
use gd_mql::name::Operator;
use gd_plan::View;
use gd_plan::expects::Expects;
use gd_plan::test::Test;
use std::alloc::Global;

/// Whether an operator stands on answers of this sort: none, `|=` and `!=` on all, the comparisons
/// on values that have an order, which are texts, whole numbers and moments, and on keys, `~=` on
/// texts and keys. It takes no memory.
pub fn allows(expects: Expects, operator: Operator) -> bool
    ensures { result ≡ defs.allows (expects_view expects) (operator_view operator) }
{
    match operator {
        Operator::Absent | Operator::OneOf | Operator::Differs => true,
        Operator::Words => matches!(expects, Expects::Value(Kind::Text) | Expects::Key),
        Operator::Below | Operator::AtMost | Operator::Above | Operator::AtLeast => {
            has_order(expects)
        }
    }
}

/// Whether answers of this sort have an order by which they are compared.
fn has_order(expects: Expects) -> bool
    ensures { result ≡ defs.allows (expects_view expects) query.below }
{
    matches!(
        expects,
        Expects::Value(Kind::Text | Kind::Int | Kind::Datetime) | Expects::Key
    )
}

/// The test of an operator that takes one datum, with that; without an operator the datum is asked
/// for.
fn compared(operator: Operator, value: Datum) -> Test
    ensures { test_view result ≡ compared (operator_view operator) value }
{
    match operator {
        Operator::Differs => Test::Differs(value),
        Operator::Below => Test::Below {
            value,
            or_equal: false,
        },
        Operator::AtMost => Test::Below {
            value,
            or_equal: true,
        },
        Operator::Above => Test::Above {
            value,
            or_equal: false,
        },
        Operator::AtLeast => Test::Above {
            value,
            or_equal: true,
        },
        Operator::Absent | Operator::OneOf | Operator::Words => Test::Equals(value),
    }
}

/// The test that the pattern of a text makes; a text that is none asks for nothing.
fn pattern_test(text: &Text) -> Result<Test, Memory>
    ensures { IfOk result (λ test. test_view test ≡ defs.pattern_test (text_json text.now)) }
{
    match Pattern::new(text) {
        Ok(pattern) => Ok(Test::Matches(pattern)),
        Err(PatternFault::BadPattern) => Ok(Test::Anything),
        Err(PatternFault::Memory) => Err(Memory),
    }
}

/// The test that the words of a text make, which is no longer than texts are.
fn words_of_text(alloc: Global, path: &[&str], words: &str) -> Result<Test, Unknown>
    ensures { Finds test_view (if nat_le (length words.now) 4096 then Ok
        (defs.pattern_test (text_json words.now)) else defs.bad query.bad_value
        (map (λ name. name.now) path.now)) result }
{
    if words.len() > TEXT_LIMIT {
        return Err(bad(alloc, Code::BadValue, path));
    }
    let words = Text::of(alloc, words)?;
    Ok(pattern_test(&words)?)
}

/// The test that `~=` makes with its operand.
fn words_test(alloc: Global, path: &[&str], json: &Json) -> Result<Test, Unknown>
    ensures { Finds test_view (words_with (map (λ name. name.now) path.now) (json_of json.now))
        result }
{
    match json {
        Json::Text(words) => words_of_text(alloc, path, words.as_str()),
        _ => Err(bad(alloc, Code::BadValue, path)),
    }
}

/// The test that `|=` makes with its operand.
#[tactic(auto, using(gd_json::proofs::Parts::list_count, crate::proofs::Looked::list_steps))]
fn choice_test<L>(
    alloc: Global,
    view: &View<'_>,
    expects: Expects,
    path: &[&str],
    json: &Json,
    steps: &mut Steps<L>,
) -> Result<Test, Unknown>
    ensures test { Finds test_view (defs.test_of (prims_of view.now) (expects_view expects)
        (map (λ name. name.now) path.now) query.one_of (json_of json.now)) result }
    ensures ids { steps.new ≤ steps.old + operand_steps (expects_view expects) (json_of json.now) }
    ensures work { steps.new ≤ steps.old + 500 * item_count (json_of json.now) }
    ensures later { steps.old ≤ steps.new }
{
    match json {
        Json::List(operands) => {
            let data = operand_data(alloc, view, expects, path, operands.as_slice(), steps)?;
            Ok(Test::OneOf(data))
        }
        _ => Err(bad(alloc, Code::BadValue, path)),
    }
}

/// The test that an operator of one datum makes with its operand.
fn datum_test<L>(
    alloc: Global,
    view: &View<'_>,
    expects: Expects,
    path: &[&str],
    operator: Operator,
    json: &Json,
    steps: &mut Steps<L>,
) -> Result<Test, Unknown>
    ensures test { Finds test_view (compared_with (prims_of view.now) (expects_view expects)
        (map (λ name. name.now) path.now) (operator_view operator) (json_of json.now)) result }
    ensures ids { steps.new ≤ steps.old + item_steps (expects_view expects) (json_of json.now) }
    ensures work { steps.new ≤ steps.old + 500 }
    ensures later { steps.old ≤ steps.new }
{
    let value = operand_datum(alloc, view, expects, path, json, steps)?;
    Ok(compared(operator, value))
}

/// Whether the operator takes a list.
fn is_choice(operator: Operator) -> bool
    ensures { result ≡ is_choice (operator_view operator) }
{
    matches!(operator, Operator::OneOf)
}

/// Whether the operator takes a pattern.
fn is_words(operator: Operator) -> bool
    ensures { result ≡ is_words (operator_view operator) }
{
    matches!(operator, Operator::Words)
}

/// The test that an operator makes with its operand on answers of this sort, whether it stands on
/// them or not: `checked_test` asks that first. The operand is read as `operand_datum` says, of
/// `|=` each item of a list, and of `~=` as a text. `NoSuchId`: an object is wanted, and the text
/// is no id or names none. `BadQuery` with `BadValue` and the path: the operand has another form,
/// or is no value or key. `Memory`: an allocation was refused. It looks at no more than 500 things
/// for each operand.
#[tactic(auto, using(crate::proofs::Tests::choice_found, crate::proofs::Tests::words_found, crate::proofs::Tests::datum_found, crate::proofs::Looked::choice_steps, crate::proofs::Looked::datum_steps))]
pub fn test_of<L>(
    alloc: Global,
    view: &View<'_>,
    expects: Expects,
    path: &[&str],
    operator: Operator,
    json: &Json,
    steps: &mut Steps<L>,
) -> Result<Test, Unknown>
    ensures test { Finds test_view (defs.test_of (prims_of view.now) (expects_view expects)
        (map (λ name. name.now) path.now) (operator_view operator) (json_of json.now)) result }
    ensures ids { steps.new ≤ steps.old + test_steps (expects_view expects) (operator_view operator)
        (json_of json.now) }
    ensures work { steps.new ≤ steps.old + 500 + 500 * item_count (json_of json.now) }
    ensures later { steps.old ≤ steps.new }
{
    if is_choice(operator) {
        choice_test(alloc, view, expects, path, json, steps)
    } else if is_words(operator) {
        words_test(alloc, path, json)
    } else {
        datum_test(alloc, view, expects, path, operator, json, steps)
    }
}

/// What is tested of answers of this sort: of a plain object its name, which is a text.
fn tested_as(expects: Expects) -> Expects
    ensures { expects_view result ≡ defs.tested_as (expects_view expects) }
{
    match expects {
        Expects::PlainObject => Expects::Value(Kind::Text),
        Expects::Value(_) | Expects::Key | Expects::SystemObject => expects,
    }
}

/// The test that an operator makes with its operand on answers of this sort; of plain objects the
/// name is tested, which is a text. `BadQuery` with `BadOperator` and the path: the operator does
/// not stand on such answers; else what `test_of` says. `Memory`: an allocation was refused. It
/// looks at no more than 500 things for each operand.
#[tactic(auto, using(crate::proofs::Looked::ids_looked))]
pub fn checked_test<L>(
    alloc: Global,
    view: &View<'_>,
    expects: Expects,
    path: &[&str],
    operator: Operator,
    json: &Json,
    steps: &mut Steps<L>,
) -> Result<Test, Unknown>
    ensures test { Finds test_view (defs.checked_test (prims_of view.now) (expects_view expects)
        (map (λ name. name.now) path.now) (operator_view operator) (json_of json.now)) result }
    ensures ids { steps.new ≤ steps.old + operand_steps (defs.tested_as (expects_view expects))
        (json_of json.now) }
    ensures work { steps.new ≤ steps.old + 500 + 500 * item_count (json_of json.now) }
    ensures later { steps.old ≤ steps.new }
{
    if allows(expects, operator) {
        test_of(alloc, view, tested_as(expects), path, operator, json, steps)
    } else {
        Err(bad(alloc, Code::BadOperator, path))
    }
}
