//! What a property's answers are, and operands as data of that.
ghost use Rattle.std.specs.Prelude.{◌≡◌, ◌≤◌, ◌+◌, ◌*◌, length, map, option_map, OnOk, Some, ◌++◌};
ghost use Rattle.std.specs.Prelude.{◌∷◌, [], ◌<◌, ◌≢◌, Err, IfSome};
ghost use Rattle.std.specs.Option.{ok_or};
ghost use Rattle.gd_prim.specs.History.{prims_of};
ghost use Rattle.gd_base.specs.declared.datum.Datum.TheVariants as datum;
ghost use Rattle.gd_defs.specs.Asked.Tests as defs;
ghost use Rattle.gd_defs.specs.Asked.{bad_query};
ghost use Rattle.gd_defs.specs.Query.{bad_value};
ghost use Rattle.gd_defs.specs.Data as kinds;
ghost use Rattle.gd_base.specs.Counts.{Rose};
ghost use Rattle.gd_defs.specs.Cost.{id_cost};
ghost use Rattle.gd_defs.specs.Ids.{guid_place, id_keys};
ghost use Rattle.gd_compile.specs.declared.fault.Unknown.TheVariants as fault;
ghost use Rattle.gd_defs.specs.Property as property;
ghost use Rattle.gd_json.specs.View.{view as json_of, items_view};
ghost use Rattle.gd_tree.specs.Json.{text, list};
ghost use Rattle.gd_datum.specs.Values.{kind_of};
ghost use Rattle.gd_compile.specs.Fault.{Finds};
ghost use Rattle.gd_compile.specs.Looks.{item_steps, operand_steps};
ghost use Rattle.gd_plan.specs.Seen.{expects_view};

use crate::fault::{Code, Unknown, bad, no_id};
use gd_base::datum::Datum;
use gd_base::id::Id;
use gd_base::memory::Memory;
use gd_base::steps::Steps;
use gd_base::text::Text;
use gd_datum::value::{DatumFault, Kind, datum_from};
use gd_json::value::Json;
use gd_mql::ids::is_key;
use gd_plan::expects::Expects;
use gd_plan::{View, named_object};
use std::alloc::Global;

/// The object that the text of an id names below the dateline. `NoSuchId`: the text is no id or
/// names no object; with the text. `Memory`: an allocation was refused. It looks at no more than
/// 500 things.
pub fn place_named<L>(
    alloc: Global,
    view: &View<'_>,
    id: &str,
    steps: &mut Steps<L>,
) -> Result<Id, Unknown>
    ensures place { Finds (λ object. object) (defs.place_named (prims_of view.now) id.now) result }
    ensures ids { steps.new ≤ steps.old + 30 * id_cost id.now }
    ensures work { steps.new ≤ steps.old + 500 }
    ensures later { steps.old ≤ steps.new }

    // A guid of a place below the dateline and a path with a key are looked up.
    ensures guid_counted { IfSome (guid_place id.now)
        (λ place. place < length (prims_of view.now) → Rose steps.old steps.new) }
    ensures path_counted { result ≢ Err fault.Memory
        → IfSome (id_keys id.now) (λ keys. 0 < length keys → Rose steps.old steps.new) }
{
    match named_object(alloc, view, id, steps)? {
        Some(object) => Ok(object),
        None => Err(no_id(alloc, id)),
    }
}

/// The datum of a kind that a JSON value spells.
fn value_datum(alloc: Global, kind: Kind, path: &[&str], json: &Json) -> Result<Datum, Unknown>
    ensures { Finds (λ datum. datum)
        (ok_or (kinds.datum_from (kind_of kind) (json_of json.now))
        (bad_query bad_value (map (λ name. name.now) path.now))) result }
{
    match datum_from(alloc, kind, json) {
        Ok(datum) => Ok(datum),
        Err(DatumFault::Memory) => Err(Unknown::Memory),
        Err(_) => Err(bad(alloc, Code::BadValue, path)),
    }
}

/// The datum of a text that is a key.
fn key_of_text(alloc: Global, path: &[&str], key: &str) -> Result<Datum, Unknown>
    ensures { Finds (λ datum. datum)
        (ok_or (option_map datum.Text (kinds.key_from (text key.now)))
        (bad_query bad_value (map (λ name. name.now) path.now))) result }
{
    if is_key(key) {
        Ok(Datum::Text(Text::of(alloc, key)?))
    } else {
        Err(bad(alloc, Code::BadValue, path))
    }
}

/// The datum of the key that a JSON value spells.
fn key_datum(alloc: Global, path: &[&str], json: &Json) -> Result<Datum, Unknown>
    ensures { Finds (λ datum. datum)
        (ok_or (option_map datum.Text (kinds.key_from (json_of json.now)))
        (bad_query bad_value (map (λ name. name.now) path.now))) result }
{
    match json {
        Json::Text(key) => key_of_text(alloc, path, key.as_str()),
        _ => Err(bad(alloc, Code::BadValue, path)),
    }
}

/// The datum of the object whose id a JSON value spells.
#[tactic(auto, using(crate::proofs::Looked::text_steps))]
fn object_datum<L>(
    alloc: Global,
    view: &View<'_>,
    path: &[&str],
    json: &Json,
    steps: &mut Steps<L>,
) -> Result<Datum, Unknown>
    ensures datum { Finds (λ datum. datum)
        (defs.operand_datum (prims_of view.now) property.a_plain_object
        (map (λ name. name.now) path.now) (json_of json.now)) result }
    ensures ids { steps.new ≤ steps.old + item_steps property.a_plain_object (json_of json.now) }
    ensures work { steps.new ≤ steps.old + 500 }
    ensures later { steps.old ≤ steps.new }
{
    match json {
        Json::Text(id) => Ok(Datum::Object(place_named(alloc, view, id.as_str(), steps)?)),
        _ => Err(bad(alloc, Code::BadValue, path)),
    }
}

/// The datum that an operand is where answers are of this sort: a value of the kind, a key, or the
/// object that an id names below the dateline. `path` has the names that lead to the operand from
/// the root down. `NoSuchId`: an object is wanted, and the text is no id or names none. `BadQuery`
/// with `BadValue` and the path: the operand has another form, or is no value or key. `Memory`: an
/// allocation was refused. It looks at no more than 500 things.
pub fn operand_datum<L>(
    alloc: Global,
    view: &View<'_>,
    expects: Expects,
    path: &[&str],
    json: &Json,
    steps: &mut Steps<L>,
) -> Result<Datum, Unknown>
    ensures datum { Finds (λ datum. datum)
        (defs.operand_datum (prims_of view.now) (expects_view expects)
        (map (λ name. name.now) path.now) (json_of json.now)) result }
    ensures ids { steps.new ≤ steps.old + item_steps (expects_view expects) (json_of json.now) }
    ensures work { steps.new ≤ steps.old + 500 }
    ensures later { steps.old ≤ steps.new }
{
    match expects {
        Expects::Value(kind) => value_datum(alloc, kind, path, json),
        Expects::Key => key_datum(alloc, path, json),
        Expects::SystemObject | Expects::PlainObject => {
            object_datum(alloc, view, path, json, steps)
        }
    }
}

fn push_datum(read: &mut Vec<Datum>, datum: Datum) -> Result<(), Memory>
    ensures { OnOk result (read.new.items ≡ read.old.items ++ datum ∷ []) }
{
    read.push(datum)?;
    Ok(())
}

/// The data that operands are where answers are of this sort, in order; the first that is none is
/// refused as `operand_datum` says. It looks at no more than 500 things for each.
pub fn operand_data<L>(
    alloc: Global,
    view: &View<'_>,
    expects: Expects,
    path: &[&str],
    operands: &[Json],
    steps: &mut Steps<L>,
) -> Result<Vec<Datum>, Unknown>
    ensures data { Finds (λ read. read.items)
        (defs.operand_data (prims_of view.now) (expects_view expects)
        (map (λ name. name.now) path.now) (items_view operands.now)) result }
    ensures ids { steps.new ≤ steps.old + operand_steps (expects_view expects)
        (list (items_view operands.now)) }
    ensures work { steps.new ≤ steps.old + 500 * length operands.now }
    ensures later { steps.old ≤ steps.new }
{
    let mut read = Vec::new(alloc);
    for json in operands {
        let datum = operand_datum(alloc, view, expects, path, json, steps)?;
        push_datum(&mut read, datum)?;
    }
    Ok(read)
}
