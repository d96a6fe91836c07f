//! Data as they print.
ghost use Rattle.std.specs.Prelude.{◌≡◌, ℕ, List, [], ◌∷◌, None, IfErr, IsTrue, OnOk};
ghost use Rattle.gd_base.specs.declared.datum.Datum.TheVariants as datum;
ghost use Rattle.gd_tree.specs.Json.{text};
ghost use Rattle.gd_prim.specs.Live.{value_at, end_at, object_datum, language_at};
ghost use Rattle.gd_prim.specs.WellFormed.{is_moment, may_hold};
ghost use Rattle.gd_bytes.specs.Frozen as defined;
ghost use Rattle.gd_defs.specs.Data.{datum_json};
ghost use Rattle.gd_defs.specs.Moment as defs;
ghost use Rattle.gd_defs.specs.Ids.{id_text, guid};
ghost use Rattle.gd_defs.specs.Property as props;
ghost use Rattle.gd_defs.specs.Rows as rows;
ghost use Rattle.gd_frozen.specs.Meaning.{walk_of};
ghost use Rattle.gd_match_laws.specs.Walks.{id_of, own_listed};
ghost use Rattle.gd_plan.specs.Seen.{own_view};
ghost use Rattle.gd_runs.specs.Shape.{id_json, own_shape, walk_text};
ghost use Rattle.gd_shape.specs.Knowing.{IsKnownOf};
ghost use Rattle.gd_shape.specs.Outcome.{Adds, Lacks, LacksOf};

use crate::guid::guid_bytes;
use crate::known::Known;
use crate::sight::{Lack, Sight};
use crate::spelt::spelt;
use crate::told::Told;
use gd_base::datum::{Datum, Precision};
use gd_base::id::Id;
use gd_base::memory::Memory;
use gd_datum::moment::moment_text;
use gd_frozen::frozen::Walk;
use gd_plan::Property;
use gd_plan::asked::Own;
use gd_plan::constraint::answers_of;
use gd_plan::expects::holds_values;
use json::Writer;
use std::alloc::Global;

/// Writes the text of a moment.
fn write_moment(
    alloc: Global,
    out: &mut Writer,
    ms: i64,
    precision: Precision,
) -> Result<(), Memory>
    requires { IsTrue (is_moment ms) }
    ensures printed { OnOk result (Adds out.old.tokens out.new.tokens
        (text (defs.moment_text ms precision))) }
    ensures before { out.new.before ≡ out.old.before }
{
    let text = moment_text(alloc, ms, precision)?;
    out.string(text.as_str())?;
    Ok(())
}

/// Writes a value that a primitive may hold.
fn write_value(alloc: Global, out: &mut Writer, datum: &Datum) -> Result<(), Memory>
    requires { IsTrue (may_hold datum.now) }
    ensures printed { OnOk result (Adds out.old.tokens out.new.tokens (datum_json datum.now)) }
    ensures before { out.new.before ≡ out.old.before }
{
    match datum {
        Datum::Bool(b) => out.boolean(*b)?,
        Datum::Int(n) => out.i64(*n)?,
        Datum::Moment { ms, precision } => write_moment(alloc, out, *ms, *precision)?,
        Datum::Text(text) => out.string(text.as_str())?,
        Datum::Object(_) => unreachable!(),
        Datum::Empty => out.null()?,
    }
    Ok(())
}

/// Writes the value at a place.
pub(crate) fn write_value_at(
    alloc: Global,
    out: &mut Writer,
    sight: &Sight<'_>,
    place: Id,
) -> Result<(), Memory>
    ensures printed { OnOk result (Adds out.old.tokens out.new.tokens
        (datum_json (value_at sight.now place))) }
    ensures before { out.new.before ≡ out.old.before }
{
    match sight.prim(place) {
        Some(prim) => write_value(alloc, out, &prim.value)?,
        None => out.null()?,
    }
    Ok(())
}

/// When the primitive at a place was written.
#[tactic(auto, using(crate::proofs::Data::moment_held))]
pub(crate) fn timestamp(sight: &Sight<'_>, place: Id) -> Datum
    ensures timestamp { result ≡ rows.timestamp sight.now place }
    ensures held { IsTrue (may_hold result) }
{
    match sight.prim(place) {
        Some(prim) => Datum::Moment {
            ms: prim.moment as i64,
            precision: Precision::Time,
        },
        None => Datum::Empty,
    }
}

/// Writes when the primitive at a place was written.
fn write_timestamp(
    alloc: Global,
    out: &mut Writer,
    sight: &Sight<'_>,
    place: Id,
) -> Result<(), Memory>
    ensures printed { OnOk result (Adds out.old.tokens out.new.tokens
        (datum_json (rows.timestamp sight.now place))) }
    ensures before { out.new.before ≡ out.old.before }
{
    let datum = timestamp(sight, place);
    write_value(alloc, out, &datum)
}

/// Writes the guid of a place.
fn write_guid(out: &mut Writer, place: Id) -> Result<(), Memory>
    ensures printed { OnOk result (Adds out.old.tokens out.new.tokens (text (guid place))) }
    ensures before { out.new.before ≡ out.old.before }
{
    let bytes = guid_bytes(place.place());
    match std::str::from_utf8(&bytes) {
        Ok(text) => out.string(text)?,
        Err(_) => unreachable!(),
    }
    Ok(())
}

/// Writes the id of an object that is known.
fn write_known(
    alloc: Global,
    out: &mut Writer,
    sight: &Sight<'_>,
    ids: &Known,
    object: Id,
) -> Result<(), Lack>
    requires { IsKnownOf sight.now ids.now }
    ensures printed { OnOk result (Adds out.old.tokens out.new.tokens
        (text (id_text sight.now object))) }
    ensures before { out.new.before ≡ out.old.before }
    ensures lacks { IfErr result (λ lack. Lacks ids.now lack) }
    ensures listed { IfErr result (λ lack. LacksOf
        (object ∷ []) lack) }
{
    match sight.walk(ids, object) {
        Ok(walk) => {
            write_walk(alloc, out, sight, object, walk)?;
            Ok(())
        }
        Err(lack) => Err(lack),
    }
}

/// Writes the id of an object as a walk spells it.
fn write_walk(
    alloc: Global,
    out: &mut Writer,
    sight: &Sight<'_>,
    object: Id,
    walk: &Walk,
) -> Result<(), Memory>
    ensures printed { OnOk result (Adds out.old.tokens out.new.tokens
        (text (walk_text sight.now object (walk_of walk.now)))) }
    ensures before { out.new.before ≡ out.old.before }
{
    let text = spelt(alloc, sight, object, walk)?;
    out.string(text.as_str())?;
    Ok(())
}

/// Writes the id of an object: as the next walk spells it, if one is left, else as it is known.
#[tactic(auto, using(crate::proofs::Walked::by_walk, crate::proofs::Walked::walk_left, crate::proofs::Walked::by_id, crate::proofs::Walked::none_left))]
fn write_id(
    alloc: Global,
    out: &mut Writer,
    sight: &Sight<'_>,
    ids: &Known,
    told: &mut Told<'_>,
    object: Id,
) -> Result<(), Lack>
    requires { IsKnownOf sight.now ids.now }
    ensures printed { OnOk result (Adds out.old.tokens out.new.tokens
        (id_json sight.now (datum.Object object) told.old).0) }
    ensures left { OnOk result (told.new ≡ (id_json sight.now (datum.Object object) told.old).1) }
    ensures before { out.new.before ≡ out.old.before }
    ensures lacks { IfErr result (λ lack. Lacks ids.now lack) }
    ensures listed { IfErr result (λ lack. LacksOf
        (object ∷ []) lack) }
{
    match told.next() {
        Some(walk) => write_walk(alloc, out, sight, object, walk)?,
        None => write_known(alloc, out, sight, ids, object)?,
    }
    Ok(())
}

/// Writes the id of an object, if there is one, else null.
fn write_some_id(
    alloc: Global,
    out: &mut Writer,
    sight: &Sight<'_>,
    ids: &Known,
    told: &mut Told<'_>,
    object: Option<Id>,
) -> Result<(), Lack>
    requires { IsKnownOf sight.now ids.now }
    ensures printed { OnOk result (Adds out.old.tokens out.new.tokens
        (id_json sight.now (object_datum object) told.old).0) }
    ensures left { OnOk result (told.new ≡ (id_json sight.now (object_datum object) told.old).1) }
    ensures before { out.new.before ≡ out.old.before }
    ensures lacks { IfErr result (λ lack. Lacks ids.now lack) }
    ensures listed { IfErr result (λ lack. LacksOf
        (id_of (object_datum object)) lack) }
{
    match object {
        Some(object) => write_id(alloc, out, sight, ids, told, object)?,
        None => out.null()?,
    }
    Ok(())
}

/// Writes the guid of an object, if there is one, else null.
fn write_some_guid(out: &mut Writer, object: Option<Id>) -> Result<(), Memory>
    ensures printed { OnOk result (Adds out.old.tokens out.new.tokens
        (datum_json (object_datum object))) }
    ensures before { out.new.before ≡ out.old.before }
{
    match object {
        Some(object) => write_guid(out, object)?,
        None => out.null()?,
    }
    Ok(())
}

/// The right end of a link.
pub(crate) fn right_of(sight: &Sight<'_>, link: Id) -> Option<Id>
    ensures { result ≡ end_at (λ p. p.right) sight.now link }
{
    match sight.prim(link) {
        Some(prim) => prim.right,
        None => None,
    }
}

/// The language of the text of a link.
pub(crate) fn language_of(sight: &Sight<'_>, link: Id) -> Option<Id>
    ensures { result ≡ language_at sight.now link }
{
    match sight.prim(link) {
        Some(prim) => prim.language(),
        None => None,
    }
}

/// The end of a link at which the answer of a property stands.
fn far_end(sight: &Sight<'_>, property: &Property, link: Id) -> Option<Id>
    ensures { result ≡ props.far_end sight.now property.now link }
{
    match sight.prim(link) {
        Some(prim) => {
            if property.reversed {
                prim.left
            } else {
                prim.right
            }
        }
        None => None,
    }
}

/// The object at a place, if the value there is one.
fn object_at(sight: &Sight<'_>, place: Id) -> Option<Id>
    ensures { id_of (object_datum result) ≡ id_of (value_at sight.now place) }
{
    match sight.prim(place) {
        Some(prim) => object_of(&prim.value),
        None => None,
    }
}

/// The object that a datum is, if it is one.
fn object_of(datum: &Datum) -> Option<Id>
    ensures { id_of (object_datum result) ≡ id_of datum.now }
{
    match datum {
        Datum::Object(object) => Some(*object),
        _ => None,
    }
}

/// The object whose id an answer of a property prints, if it prints one.
#[tactic(auto, using(crate::proofs::Data::values_here, crate::proofs::Data::objects_here))]
pub(crate) fn answer_object(sight: &Sight<'_>, property: &Property, link: Id) -> Option<Id>
    ensures { id_of (object_datum result)
        ≡ id_of (props.answer_datum sight.now property.now link) }
{
    if holds_values(answers_of(property)) {
        return object_at(sight, link);
    }
    far_end(sight, property, link)
}

/// Writes what a computed member tells of an object and the link that led to it.
pub(crate) fn write_own(
    alloc: Global,
    out: &mut Writer,
    sight: &Sight<'_>,
    ids: &Known,
    told: &mut Told<'_>,
    own: Own,
    link: Id,
    object: Id,
) -> Result<(), Lack>
    requires { IsKnownOf sight.now ids.now }
    ensures printed { OnOk result (Adds out.old.tokens out.new.tokens
        (own_shape sight.now (own_view own) None link object told.old).0) }
    ensures left { OnOk result (told.new
        ≡ (own_shape sight.now (own_view own) None link object told.old).1) }
    ensures before { out.new.before ≡ out.old.before }
    ensures lacks { IfErr result (λ lack. Lacks ids.now lack) }
    ensures listed { IfErr result (λ lack. LacksOf
        (own_listed sight.now (own_view own) None link object) lack) }
{
    match own {
        Own::Id => write_id(alloc, out, sight, ids, told, object)?,
        Own::Guid => write_guid(out, object)?,
        Own::Timestamp => write_timestamp(alloc, out, sight, object)?,
        Own::Link => write_guid(out, link)?,
        Own::Value => write_value_at(alloc, out, sight, link)?,
        Own::Namespace => {
            let namespace = right_of(sight, link);
            write_some_id(alloc, out, sight, ids, told, namespace)?;
        }
        Own::Lang => {
            let language = language_of(sight, link);
            write_some_id(alloc, out, sight, ids, told, language)?;
        }
    }
    Ok(())
}

/// Writes an answer of a property as its value: an object as its guid.
#[tactic(auto, using(crate::proofs::Data::values_here, crate::proofs::Data::objects_here))]
pub(crate) fn write_answer_value(
    alloc: Global,
    out: &mut Writer,
    sight: &Sight<'_>,
    property: &Property,
    link: Id,
) -> Result<(), Memory>
    ensures printed { OnOk result (Adds out.old.tokens out.new.tokens
        (datum_json (props.answer_datum sight.now property.now link))) }
    ensures before { out.new.before ≡ out.old.before }
{
    if holds_values(answers_of(property)) {
        return write_value_at(alloc, out, sight, link);
    }
    let end = far_end(sight, property, link);
    write_some_guid(out, end)
}

/// Writes an answer of a property as its id: a value as it is.
#[tactic(auto, using(crate::proofs::Data::values_here, crate::proofs::Data::objects_here))]
pub(crate) fn write_answer_id(
    alloc: Global,
    out: &mut Writer,
    sight: &Sight<'_>,
    ids: &Known,
    told: &mut Told<'_>,
    property: &Property,
    link: Id,
) -> Result<(), Lack>
    requires { IsKnownOf sight.now ids.now }
    ensures printed { OnOk result (Adds out.old.tokens out.new.tokens
        (id_json sight.now (props.answer_datum sight.now property.now link) told.old).0) }
    ensures left { OnOk result (told.new
        ≡ (id_json sight.now (props.answer_datum sight.now property.now link) told.old).1) }
    ensures before { out.new.before ≡ out.old.before }
    ensures lacks { IfErr result (λ lack. Lacks ids.now lack) }
    ensures listed { IfErr result (λ lack. LacksOf
        (id_of (props.answer_datum sight.now property.now link)) lack) }
{
    if holds_values(answers_of(property)) {
        write_value_id(alloc, out, sight, link)?;
        return Ok(());
    }
    let end = far_end(sight, property, link);
    write_some_id(alloc, out, sight, ids, told, end)
}

/// Writes the value at a place, which is no object, as its id.
#[tactic(auto, using(crate::proofs::Data::no_id, crate::proofs::Data::no_walk))]
fn write_value_id(
    alloc: Global,
    out: &mut Writer,
    sight: &Sight<'_>,
    place: Id,
) -> Result<(), Memory>
    ensures printed { OnOk result ((told : List defined.Walk)
        → Adds out.old.tokens out.new.tokens (id_json sight.now
        (value_at sight.now place) told).0) }
    ensures left { OnOk result ((told : List defined.Walk)
        → told ≡ (id_json sight.now (value_at sight.now place) told).1) }
    ensures before { out.new.before ≡ out.old.before }
{
    match sight.prim(place) {
        Some(prim) => write_value(alloc, out, &prim.value)?,
        None => out.null()?,
    }
    Ok(())
}
