//! What a write does.
ghost use Rattle.std.specs.Prelude.{◌≡◌, ◌≤◌, None, IfOk, IfErr, IsTrue, length};
ghost use Rattle.gd_prim.specs.History.{is_history, prims_of};
ghost use Rattle.gd_prim.specs.WellFormed.{bad_place};
ghost use Rattle.gd_prim.specs.Limits.{limits, first_full};
ghost use Rattle.gd_carry.specs.PassedOn.{write_view};
ghost use Rattle.gd_runs.specs.Request.{exec_after};
ghost use Rattle.gd_carry.specs.Exec.{written};
ghost use Rattle.gd_change.specs.Fault.{GivesChange, IsSmall};

use crate::fault::ChangeFault;
use gd_carry::WriteRequest;
use gd_carry::exec::written;
use gd_json::value::Json;
use gd_prim::Batch;
use gd_store::store::Store;
use std::alloc::Global;

/// What a write does after the batches of the store, whichever limits it passes.
fn made(
    alloc: Global,
    store: &Store,
    request: &WriteRequest,
    moment: u64,
) -> Result<(Batch, Json), ChangeFault>
    ensures made { GivesChange (written (prims_of store.now) (write_view request.now) moment)
        result }
    ensures history { IsTrue (is_history store.now) }
{
    let view = store.view(store.requests());
    written(alloc, &view, request, moment)
}

/// What a write does at a moment, in milliseconds since 1970-01-01 in UTC, after the batches of the
/// store: the batch that it makes, and the request printed back with its answers, where several
/// changes are asked the list of that. The refusals come in the order of the work. First its words
/// are looked up in the store as it is, the scope, and then change by change the root and clause by
/// clause and member by member: `NoSuchId`, `NoSuchProperty`, and `BadQuery` with a code of
/// meaning. Then the changes are carried out in the same order, each on what those before it made:
/// `NotUnique`, `KeyTaken`, `StaleVersion`, and `BadQuery` with `BadConnect` or `BadPrevious`.
/// Where several changes are asked the number of the change begins the path. `Full` comes last: a
/// limit of the store would be passed, the first in the order primitives of the batch, all
/// primitives, bytes of texts, requests. `Memory`: an allocation was refused. The store stays as it
/// is.
pub fn evaluate(
    alloc: Global,
    store: &Store,
    request: &WriteRequest,
    moment: u64,
) -> Result<(Batch, Json), ChangeFault>
    requires moment { moment ≤ 253_402_300_799_999 }
    ensures exec { GivesChange (exec_after store.now (write_view request.now) moment) result }
    ensures small { IfErr result (IsSmall) }

    // The store may absorb the batch.
    ensures well_formed { IfOk result (λ done. bad_place (prims_of store.now) done.0 ≡ None) }
    ensures fits { IfOk result (λ done. first_full
        (limits (prims_of store.now) (length store.now) done.0.prims) ≡ None) }
{
    let done = made(alloc, store, request, moment)?;
    store.fits(&done.0)?;
    Ok(done)
}
