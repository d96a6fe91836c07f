//! Readings that go on, as they are put away.
ghost use Rattle.std.specs.Prelude.{◌≡◌, ◌≤◌, map, Some, IfOk};
ghost use Rattle.gd_defs.specs.Reply.{Answer as TheAnswer, row_mark};
ghost use Rattle.gd_bytes.specs.Frozen.{scanning};
ghost use Rattle.gd_frozen.specs.Meaning.{reading_of, row_of, scan_of};
ghost use Rattle.gd_roots.specs.PassedOn.{CanBeTold, stands};
ghost use Rattle.gd_suspended_laws.specs.Standing.{marks_of};
ghost use Rattle.gd_window.specs.Laws.{defined};
ghost use Rattle.gd_window.specs.declared.row.Row.{Row as WindowRow};
ghost use Rattle.gd_thawed.specs.Freezing.{Freezes, frozen_as, scan_told, build_told, print_told, standing};
ghost use Rattle.gd_thawed.specs.Query.{IsGoing};
ghost use Rattle.gd_thawed.specs.Subject.{marks_in};

use crate::again::{after_again, rows_again, scan_again, trees_again};
use crate::building::Building;
use crate::cursors::places_of;
use crate::printing::Printing;
use crate::query::ThawedQuery;
use crate::scanning::Scanning;
use crate::stage::Stage;
use crate::subject::Subject;
use gd_base::memory::Memory;
use gd_frozen::frozen::{FrozenBody, FrozenReading, FrozenScan, RowAt};
use gd_roots::frozen_list;
use gd_store::view::View;
use gd_window::row::Row;
use gd_window::window::Window;
use std::alloc::Global;

/// A row that a window keeps, by its places.
fn row_at(row: &Row) -> RowAt
    ensures { row_of result ≡ row_mark (defined row.now) }
{
    RowAt {
        object: row.id,
        keys: places_of(row.keys.as_slice()),
    }
}

/// The rows that a window keeps. `Memory`: an allocation was refused.
fn rows_at(alloc: Global, rows: &[Row]) -> Result<Vec<RowAt>, Memory>
    ensures { IfOk result (λ marks. marks_in marks.items
        ≡ map (λ (r : WindowRow). row_mark (defined r)) rows.now) }
{
    let mut marks = Vec::with_capacity(alloc, rows.len())?;
    for row in rows {
        marks.push(row_at(row))?;
    }
    Ok(marks)
}

/// The rows of the window of a reading. `Memory`: an allocation was refused.
pub(crate) fn window_rows(alloc: Global, window: &Window) -> Result<Vec<RowAt>, Memory>
    ensures { IfOk result (λ marks. marks_in marks.items ≡ marks_of window.now) }
{
    rows_at(alloc, window.rows())
}

/// The scan of a reading that scans: where its matcher stands, or, while a row waits for its keys,
/// where it stood before the candidate. `Memory`: an allocation was refused.
fn scan_at(alloc: Global, reading: &Scanning) -> Result<FrozenScan, Memory>
    requires { CanBeTold (stands reading.now.matcher) }
    ensures { IfOk result (λ scan. scan_of scan ≡ scan_told reading.now) }
{
    match &reading.found {
        None => reading.matcher.freeze(alloc, reading.plan.template()),
        Some(_) => scan_again(alloc, &reading.before),
    }
}

/// A reading that scans, as it is put away: the rows that it keeps, and its scan. `Memory`: an
/// allocation was refused.
fn freeze_scan(
    alloc: Global,
    subject: &Subject,
    window: &Window,
    reading: &Scanning,
) -> Result<FrozenReading, Memory>
    requires { CanBeTold (stands reading.now.matcher) }
    ensures { IfOk result (λ frozen. reading_of frozen
        ≡ frozen_as subject.now (marks_of window.now) (scanning (scan_told reading.now))) }
{
    let scan = scan_at(alloc, reading)?;
    let rows = window_rows(alloc, window)?;
    Ok(FrozenReading {
        dateline: subject.dateline,
        after: after_again(&subject.after),
        rows,
        body: FrozenBody::Scan(scan),
    })
}

/// A reading that builds, as it is put away: the rows with which it began, the weights and the trees
/// so far, and the scan of its matcher over the rows. `Memory`: an allocation was refused.
fn freeze_build(
    alloc: Global,
    subject: &Subject,
    reading: &Building,
) -> Result<FrozenReading, Memory>
    requires told { CanBeTold (stands reading.now.matcher) }
    requires few { reading.now.weight ≤ 4_294_967_295 }
    ensures { IfOk result (λ frozen. reading_of frozen
        ≡ frozen_as subject.now (marks_in reading.now.rows.items) (build_told reading.now)) }
{
    let trees = frozen_list(alloc, reading.trees.as_slice())?;
    let scan = reading.matcher.freeze(alloc, reading.plan.template())?;
    let rows = rows_again(alloc, reading.rows.as_slice())?;
    Ok(FrozenReading {
        dateline: subject.dateline,
        after: after_again(&subject.after),
        rows,
        body: FrozenBody::Build {
            weight: reading.weight as u32,
            trees,
            scan,
        },
    })
}

/// A reading that prints, as it is put away: the rows and the trees with which its page began, the
/// walks of the ids that are known so far, and how many places of the trees were counted. `Memory`:
/// an allocation was refused.
fn freeze_print(
    alloc: Global,
    subject: &Subject,
    reading: &Printing,
) -> Result<FrozenReading, Memory>
    ensures { IfOk result (λ frozen. reading_of frozen
        ≡ frozen_as subject.now (marks_in reading.now.rows.items) (print_told reading.now)) }
{
    let trees = trees_again(alloc, &reading.trees)?;
    let walks = reading.shape.walks(alloc)?;
    let rows = rows_again(alloc, reading.rows.as_slice())?;
    Ok(FrozenReading {
        dateline: subject.dateline,
        after: after_again(&subject.after),
        rows,
        body: FrozenBody::Print {
            printed: reading.shape.printed().min(reading.places),
            trees,
            walks,
        },
    })
}

impl ThawedQuery {
    /// Where the reading stands, as a frozen text tells it, over a view of its dateline; it stays as
    /// it is. What is told can be read again, fits the query, and owes what the reading owes.
    /// `Memory`: an allocation was refused.
    pub fn freeze(&self, alloc: Global, view: &View<'_>) -> Result<FrozenReading, Memory>
        // The view stands for the batches below the dateline, over which it owes some answer.
        requires going { (owed : TheAnswer) × IsGoing view.now owed self.now }

        // It is told where it stands.
        ensures told { IfOk result (λ frozen. Some (reading_of frozen) ≡ standing self.now) }

        // What it is put away as owes the same.
        ensures freezes { (owed : TheAnswer) → IsGoing view.now owed self.now
            → IfOk result (λ frozen. Freezes view.now owed self.now.subject (reading_of frozen)) }
    {
        let _ = view;
        match &self.stage {
            Stage::Scanning(scanning) => {
                freeze_scan(alloc, &self.subject, &self.window, scanning)
            }
            Stage::Building(building) => freeze_build(alloc, &self.subject, building),
            Stage::Printing(printing) => freeze_print(alloc, &self.subject, printing),
            Stage::Spent => unreachable!(),
        }
    }
}
