//! What a run of events prints. Each law is the contract of a function that does nothing: whoever
//! calls it may use the law, and code above cites its statement from `specs/Laws.antt`.
#![tactic(auto)]

ghost use Rattle.gd_replay_laws.specs.Laws.{LinesStayBelow, RunsFollow, RunsAreReplays};
ghost use Rattle.gd_replay_laws.specs.Laws.{PacedRunsFollow, PacedRunsAreReplays};
ghost use Rattle.gd_replay_laws.specs.Laws.{EventsAreBounded, OnlyWritesTellFaults, FaultsAddUp};

/// A run of lines and a run of the lines behind them are a run.
pub fn runs_follow()
    ensures { RunsFollow }
{}

/// No line of a run has the number of an entry, or of a group in doubt, that stood before it.
pub fn lines_stay_below()
    ensures { LinesStayBelow }
{}

/// Where the file is told, or no line opens the store again, a run prints what the definitions say.
pub fn runs_are_replays()
    ensures { RunsAreReplays }
{}

/// A paced run of lines and one of the lines behind them are a paced run.
pub fn paced_runs_follow()
    ensures { PacedRunsFollow }
{}

/// Where the file is told, or no line opens the store again, a paced run is one of the definitions:
/// no reading is unfinished too often.
pub fn paced_runs_are_replays()
    ensures { PacedRunsAreReplays }
{}

/// The session of an event is one of 64, and the budget of a slice one that there may be.
pub fn events_are_bounded()
    ensures { EventsAreBounded }
{}

/// The reply to a line tells a failure of the disk only where the line is a write.
pub fn only_writes_tell_faults()
    ensures { OnlyWritesTellFaults }
{}

/// As many lines of two outputs, one behind the other, tell a failure of the disk as of both.
pub fn faults_add_up()
    ensures { FaultsAddUp }
{}
