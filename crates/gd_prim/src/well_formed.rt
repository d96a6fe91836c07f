//! Which batches may follow a list of primitives.
ghost use Rattle.std.specs.Prelude.{◌≡◌, ◌<◌, ◌≤◌, ◌++◌, IsTrue, List, None, Some, length};
ghost use Rattle.std.specs.Prelude.{MatchResult, is_some};
ghost use Rattle.gd_prim.specs.Live as graph;
ghost use Rattle.gd_prim.specs.Live.{text_of};
ghost use Rattle.gd_prim.specs.WellFormed as defined;

use crate::limits::{MAX_BATCH, MAX_PRIMS};
use crate::live::has_successor;
use crate::{Batch, ENGLISH, Primitive};
use gd_base::datum::Datum;
use gd_base::id::Id;
use thiserror::Error;

/// The last millisecond of the year 9999, counted from 1970-01-01 in UTC.
pub const MAX_MOMENT: u64 = 253_402_300_799_999;

/// The first millisecond of the year 0000, counted from 1970-01-01 in UTC.
pub const MIN_MOMENT: i64 = -62_167_219_200_000;

/// The first place of a batch whose primitive breaks a rule.
#[derive(Clone, Copy, Debug, PartialEq, Eq, Error)]
#[error("the primitive at place {} breaks a rule", .place.place())]
pub struct BadBatch {
    pub place: Id,
}

/// Whether the reference, if there is one, is below this place.
fn refers_below(place: usize, reference: Option<Id>) -> bool
    ensures { result ≡ defined.refers_below place reference }
{
    match reference {
        Some(named) => (named.place() as usize) < place,
        None => true,
    }
}

/// Whether each reference of the primitive is below this place.
fn refers_back(place: usize, prim: &Primitive) -> bool
    ensures { result ≡ defined.refers_back place prim.now }
{
    refers_below(place, prim.left)
        && refers_below(place, prim.right)
        && refers_below(place, prim.typ)
        && refers_below(place, prim.scope)
        && refers_below(place, prim.previous)
        && refers_below(place, prim.lang)
}

/// A list of primitives that a batch is to follow.
pub trait Prior {
    ghost use Rattle.std.specs.Prelude.{List};
    ghost use Rattle.gd_prim.specs.declared.Primitive.{Primitive};

    ghost prims: { Self → List Primitive };

    /// How many primitives there are.
    fn count(&self) -> usize
        ensures { result ≡ length (prims self.now) };

    /// Whether some primitive of the list has this place as `previous`.
    fn is_succeeded(&self, place: Id) -> bool
        ensures { result ≡ graph.has_successor (prims self.now) place };
}

/// A plain list, all of which is looked at for a successor.
impl Prior for &[Primitive] {
    ghost prims = { λ list. list.now };

    fn count(&self) -> usize {
        self.len()
    }

    fn is_succeeded(&self, place: Id) -> bool {
        has_successor(self, place)
    }
}

/// Whether the previous primitive, if there is one, is current in the two lists one behind the
/// other.
fn succeeds_current<P: Prior>(prior: &P, earlier: &[Primitive], previous: Option<Id>) -> bool
    ensures { result ≡ defined.succeeds_current (P.prims prior.now ++ earlier.now) previous }
{
    match previous {
        Some(place) => !prior.is_succeeded(place) && !has_successor(earlier, place),
        None => true,
    }
}

/// Whether the whole number has 64 bits, as each number of the type has.
fn has_64_bits(number: i64) -> bool
    ensures { result ≡ defined.is_number number }
{
    let _ = number;
    true
}

/// Whether the value is a text.
fn is_text(value: &Datum) -> bool
    ensures { result ≡ is_some (text_of value.now) }
{
    match value {
        Datum::Text(_) => true,
        _ => false,
    }
}

/// Whether a primitive may hold the value.
fn may_hold(value: &Datum) -> bool
    ensures { result ≡ defined.may_hold value.now }
{
    match value {
        Datum::Object(_) => false,
        Datum::Int(number) => has_64_bits(*number),
        Datum::Moment { ms, .. } => *ms >= MIN_MOMENT && *ms <= MAX_MOMENT as i64,
        _ => true,
    }
}

/// Whether the language that the primitive names, if it names one, is not English and that of a
/// text.
fn may_name_language(prim: &Primitive) -> bool
    ensures { result ≡ defined.may_name_language prim.now }
{
    match prim.lang {
        Some(lang) => lang != ENGLISH && is_text(&prim.value),
        None => true,
    }
}

/// Whether the primitive keeps the rules behind the two lists, of which the second is what its
/// batch has before it.
fn is_well_placed<P: Prior>(prior: &P, earlier: &[Primitive], moment: u64, prim: &Primitive) -> bool
    requires prior { length (P.prims prior.now) ≤ 2_097_151 }
    requires earlier { length earlier.now ≤ 4_096 }
    ensures keeps { result ≡ defined.is_well_placed (P.prims prior.now ++ earlier.now) moment
        (length earlier.now) prim.now }
    ensures room { IsTrue result → length earlier.now < 4_096 }
{
    let place = prior.count() + earlier.len();
    refers_back(place, prim)
        && (prim.live || prim.previous.is_some())
        && may_hold(&prim.value)
        && may_name_language(prim)
        && prim.moment == moment
        && moment <= MAX_MOMENT
        && place < MAX_PRIMS
        && earlier.len() < MAX_BATCH
        && succeeds_current(prior, earlier, prim.previous)
}

/// The same as `is_well_formed` of any list that says which of its primitives have a successor. For
/// each primitive that has a `previous` it asks the list once, and looks at what the batch has
/// before it. It takes no memory.
pub fn is_well_formed_behind<P: Prior>(prior: &P, batch: &Batch) -> Result<(), BadBatch>
    requires { length (P.prims prior.now) ≤ 2_097_151 }
    ensures { MatchResult result (λ _. defined.bad_place (P.prims prior.now) batch.now ≡ None)
        (λ bad. defined.bad_place (P.prims prior.now) batch.now ≡ Some bad.place) }
{
    let prims = batch.prims.as_slice();
    for (i, prim) in prims.iter().enumerate() {
        if !is_well_placed(prior, &prims[..i], batch.moment, prim) {
            let place = (prior.count() + i) as u32;
            return Err(BadBatch { place: Id(place) });
        }
    }
    Ok(())
}

/// Whether the batch may follow these primitives. `BadBatch`: some primitive of it breaks a rule,
/// with the place of the first that does. The rules: each reference is below the primitive's own
/// place; `previous` names a place that is current among the primitives before; a primitive that is
/// not live has a `previous`; the value is no `Object`, and a `Moment` lies in the years 0000 to
/// 9999; a `lang` is not English, and is that of a text; the primitive's moment is the batch's, and
/// at most `MAX_MOMENT`; the place is below `MAX_PRIMS`; the primitive is among the first
/// `MAX_BATCH` of its batch. It takes no memory.
pub fn is_well_formed(prior: &[Primitive], batch: &Batch) -> Result<(), BadBatch>
    requires { length prior.now ≤ 2_097_151 }
    ensures { MatchResult result (λ _. defined.bad_place prior.now batch.now ≡ None)
        (λ bad. defined.bad_place prior.now batch.now ≡ Some bad.place) }
{
    is_well_formed_behind(&prior, batch)
}
