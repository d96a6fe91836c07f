//! A write carried out whole, from its words to its batch and its result.
ghost use Rattle.std.specs.Prelude.{◌≡◌, [], IfOk, drop, length, map, unwrap_or};
ghost use Rattle.gd_prim.specs.History.{prims_of};
ghost use Rattle.gd_json.specs.View.{view as json_view};
ghost use Rattle.gd_defs.specs.Reply.{first_item};
ghost use Rattle.gd_defs.specs.Write as write;
ghost use Rattle.gd_mql.specs.Requests.{write_set_view, write_view};
ghost use Rattle.gd_growing.specs.State.{so_far};
ghost use Rattle.gd_intent.specs.Seen.{intent_view, resolved_view};
ghost use Rattle.gd_carry.specs.Printed.{fields_view, many_view};
ghost use Rattle.gd_carry.specs.Outcome.{GivesChange, GivesSubject, Makes};
ghost use Rattle.gd_carry.specs.Exec.{carried_out, written};

use crate::carry::{carried, push_printed};
use crate::fault::ChangeFault;
use crate::fill::{fill, fill_items};
use crate::print::{Field, Printed};
use crate::subject::{Subject, subject_of};
use gd_base::id::Id;
use gd_base::memory::Memory;
use gd_base::steps::Steps;
use gd_growing::growing::Growing;
use gd_growing::stamp::Stamp;
use gd_intent::intent::{Intent, ResolvedChange};
use gd_intent::resolve::resolved_write;
use gd_json::value::Json;
use gd_mql::change::Root;
use gd_mql::request::{WriteRequest, WriteSet};
use gd_prim::{Batch, Prims};
use gd_store::view::View;
use std::alloc::Global;

/// The write whose steps are counted.
struct Write;

/// The state before a write.
fn before<'a>(alloc: Global, view: &View<'a>) -> Growing<'a>
    ensures { result ≡ record { batches = view.now; made = [] } }
{
    Growing::new(alloc, view.earlier(view.dateline()))
}

/// The place of an existing object. A root that names none creates its object.
fn existing(on: &Option<Id>) -> Id
    ensures { result ≡ unwrap_or on.now 0 }
{
    match on {
        Some(place) => *place,
        None => Id(0),
    }
}

/// The object on which the root of a change is carried out: the existing one, or that of its
/// create.
fn root_subject(
    alloc: Global,
    growing: &mut Growing<'_>,
    stamp: &Stamp,
    change: &ResolvedChange<'_>,
) -> Result<Subject, ChangeFault>
    ensures subject { GivesSubject (write.root_subject stamp.now
        (resolved_view change.entry.now).path (so_far growing.old)
        (resolved_view change.entry.now).root (resolved_view change.entry.now).on
        (resolved_view change.entry.now).members) (so_far growing.new) result }
    ensures below { growing.new.batches ≡ growing.old.batches }
{
    match change.root {
        Root::Create(word) => {
            subject_of(alloc, growing, stamp, &change.path, word, &change.members)
        }
        Root::Existing(_) => Ok(Subject {
            object: existing(&change.on),
            existed: true,
        }),
    }
}

/// Carries out the root of a change.
fn carried_root<'a>(
    alloc: Global,
    growing: &mut Growing<'_>,
    stamp: &Stamp,
    change: &ResolvedChange<'a>,
) -> Result<Vec<Field<'a>>, ChangeFault>
    ensures root { Makes (λ final fields. fields_view final fields.items)
        (write.carried_root stamp.now (so_far growing.old) (resolved_view change.entry.now))
        (so_far growing.new) result }
    ensures below { growing.new.batches ≡ growing.old.batches }
{
    let subject = root_subject(alloc, growing, stamp, change)?;
    carried(
        alloc,
        growing,
        stamp,
        &change.path,
        &subject,
        &change.members,
    )
}

/// Carries out changes, one after another, each over the state with what those before it made.
fn carried_all<'a>(
    alloc: Global,
    growing: &mut Growing<'_>,
    stamp: &Stamp,
    changes: &[ResolvedChange<'a>],
) -> Result<Vec<Printed<'a>>, ChangeFault>
    ensures all { Makes (λ final parts. many_view final parts.items)
        (write.carried_all stamp.now (so_far growing.old) (map resolved_view changes.entry.now))
        (so_far growing.new) result }
    ensures below { growing.new.batches ≡ growing.old.batches }
{
    let mut parts = Vec::new(alloc);
    for change in changes {
        let fields = carried_root(alloc, growing, stamp, change)?;
        push_printed(&mut parts, Printed::Form(fields))?;
    }
    Ok(parts)
}

/// What the first of these parts prints, at the state at the end, null where there is none.
fn printed_first(
    alloc: Global,
    growing: &Growing<'_>,
    parts: &[Printed<'_>],
) -> Result<Json, Memory>
    ensures { IfOk result (λ json. json_view json
        ≡ first_item (many_view (so_far growing.now) parts.entry.now)) }
{
    match parts.first() {
        Some(part) => fill(alloc, growing, part),
        None => Ok(Json::Null),
    }
}

/// What a write prints, of what its changes print at the state at the end: of one alone that, else
/// the list.
fn printed(
    alloc: Global,
    growing: &Growing<'_>,
    asks: &WriteSet,
    parts: &[Printed<'_>],
) -> Result<Json, Memory>
    ensures { IfOk result (λ json. json_view json ≡ write.result_of (write_set_view asks.now)
        (many_view (so_far growing.now) parts.entry.now)) }
{
    match asks {
        WriteSet::One(_) => printed_first(alloc, growing, parts),
        WriteSet::Several(_) => Ok(Json::List(fill_items(alloc, growing, parts)?)),
    }
}

/// The batch of what was made.
fn batch_of(moment: u64, growing: Growing<'_>) -> Batch
    ensures { result ≡ record {
      moment = moment;
      prims = drop (length (prims_of growing.entry.batches)) (so_far growing.entry);
    } }
{
    Batch {
        moment,
        prims: Prims::from(growing.into_made()),
    }
}

/// The batch and the result of a write whose words are looked up.
fn carry_out(
    alloc: Global,
    view: &View<'_>,
    asks: &WriteSet,
    intent: &Intent<'_>,
    moment: u64,
) -> Result<(Batch, Json), ChangeFault>
    ensures { GivesChange (carried_out (prims_of view.now) (write_set_view asks.now)
        (intent_view intent.entry.now) moment) result }
{
    let stamp = Stamp {
        scope: intent.scope,
        moment,
    };
    let mut growing = before(alloc, view);
    let parts = carried_all(alloc, &mut growing, &stamp, &intent.changes)?;
    let outcome = printed(alloc, &growing, asks, &parts)?;
    Ok((batch_of(moment, growing), outcome))
}

/// The batch and the result of a write at a moment, in milliseconds since 1970-01-01 in UTC, after
/// what lies below the view's dateline. The words of all its changes are looked up at the state
/// before: the refusals are those of `resolved_write`. Then they are carried out, change by change,
/// clause by clause and member by member, over that state with what the write has made so far, and
/// the first refusal decides and refuses all. Where several changes are asked the number of the
/// change begins its path. `NotUnique`: two objects or more have the facts of a create that looks
/// for one, or a unique property has another answer. `KeyTaken`: the key leads to another object.
/// `StaleVersion`: the link that is to give way has a successor. `BadQuery` with `BadConnect` or
/// `BadPrevious`: the links of the property are not updated so, or `previous` names no link of it.
/// `Memory`: an allocation was refused, or no place is left for a primitive. Whether the batch
/// passes a limit of the store is not asked. What is made is one batch; what the changes print is
/// printed at the state at the end, and where several are asked it is the list of that.
pub fn written(
    alloc: Global,
    view: &View<'_>,
    request: &WriteRequest,
    moment: u64,
) -> Result<(Batch, Json), ChangeFault>
    ensures { GivesChange (written (prims_of view.now) (write_view request.now) moment) result }
{
    let mut steps: Steps<Write> = Steps::new();
    let intent = resolved_write(alloc, view, request, &mut steps)?;
    carry_out(alloc, view, &request.asks, &intent, moment)
}
