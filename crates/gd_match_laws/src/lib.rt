//! A suspendable matcher: what it owes stays the same from move to move. Each law is the contract
//! of a function that does nothing: whoever calls it may use the law, and code above cites its
//! statement from `specs/Laws.antt`.
#![tactic(auto)]

ghost use Rattle.gd_match_laws.specs.Laws.{BuildingRefuses, CandidatesRun, CountsPrint, CurrentMoves};
ghost use Rattle.gd_match_laws.specs.Laws.{HeavyStays, LastMoves, ReadingsPrint, RunsEnd, RunsGive, RunsKeep};
ghost use Rattle.gd_match_laws.specs.Laws.{ScansRefuse, ScansStay, WalksTell};

/// A move of the last of frames is one of all of them.
pub fn last_moves()
    ensures { LastMoves }
{}

/// A move within the current clause of a frame is one of the frame.
pub fn current_moves()
    ensures { CurrentMoves }
{}

/// A run of moves leaves what a scan owes, with the candidates that it gives before it.
pub fn runs_keep()
    ensures { RunsKeep }
{}

/// A run to the end gives exactly what its scan owed, in order.
pub fn runs_give()
    ensures { RunsGive }
{}

/// From each position that fits its template there is a run to the end.
pub fn runs_end()
    ensures { RunsEnd }
{}

/// A candidate of which all is known at once is passed over by a run that gives it as it is.
pub fn candidates_run()
    ensures { CandidatesRun }
{}

/// A weight that is too much before its candidate ends stays so.
pub fn heavy_stays()
    ensures { HeavyStays }
{}

/// Wherever the scan of a reading stands, the reading owes what it did at its start, if it keeps
/// the best rows.
pub fn scans_stay()
    ensures { ScansStay }
{}

/// Where a candidate weighs too much, the reading owes the refusal that says so.
pub fn scans_refuse()
    ensures { ScansRefuse }
{}

/// A reading that scans to its end, builds its trees and prints them prints what it owed at its
/// start.
pub fn readings_print()
    ensures { ReadingsPrint }
{}

/// Of a count no tree is built.
pub fn counts_print()
    ensures { CountsPrint }
{}

/// Where a row of the page weighs too much, the reading owes the refusal that says so.
pub fn building_refuses()
    ensures { BuildingRefuses }
{}

/// Walks that tell the first of the ids that a page prints leave the answer of a reading that
/// prints.
pub fn walks_tell()
    ensures { WalksTell }
{}
