//! What the core prints, on one thread and in rounds on threads, one legal history explains. Each
//! law is the contract of a function that does nothing: whoever calls it may use the law, and code
//! above cites its statement from `specs/Laws.antt`.
#![tactic(auto)]

ghost use Rattle.gd_core_laws.specs.Laws.{CallersKeep, FilesHold, FrontsAreExplained};
ghost use Rattle.gd_core_laws.specs.Laws.{KeptWritesAreSteps, LinesAreExplained, LockedWritesKeep};
ghost use Rattle.gd_core_laws.specs.Laws.{LocksKeep, ReadsAgainFit, ReadsWithoutMemoryEnter};
ghost use Rattle.gd_core_laws.specs.Laws.{RoundFrontsAreExplained, RoundsAreExplained};
ghost use Rattle.gd_core_laws.specs.Laws.{RoundsFollow, SomeLinesAreExplained};
ghost use Rattle.gd_core_laws.specs.Laws.{SomeRoundsAreExplained, WorkedReadsFit};
ghost use Rattle.gd_core_laws.specs.Laws.{WritesKeepHistory};

/// Lines that are served one after another through the core print what its history explains.
pub fn lines_are_explained()
    ensures { LinesAreExplained }
{}

/// So do those of the first rounds of an input.
pub fn some_lines_are_explained()
    ensures { SomeLinesAreExplained }
{}

/// What was printed of the first lines is the front of an output that is explained.
pub fn fronts_are_explained()
    ensures { FrontsAreExplained }
{}

/// A read for which no memory was found changes nothing but sessions.
pub fn reads_without_memory_enter()
    ensures { ReadsWithoutMemoryEnter }
{}

/// A write keeps what the side keeps of its history.
pub fn writes_keep_history()
    ensures { WritesKeepHistory }
{}

/// What a write keeps is a step of the core.
pub fn kept_writes_are_steps()
    ensures { KeptWritesAreSteps }
{}

/// What is in doubt was left so by a line, and files that may have it stand for the history, with
/// or without it.
pub fn files_hold()
    ensures { FilesHold }
{}

/// A write under the lock of a round keeps what the lock keeps.
pub fn locked_writes_keep()
    ensures { LockedWritesKeep }
{}

/// The side that is taken out of the lock of a round keeps what the lock kept.
pub fn locks_keep()
    ensures { LocksKeep }
{}

/// The writes that are left to the caller keep what is left of it.
pub fn callers_keep()
    ensures { CallersKeep }
{}

/// A read that a worker answered at a number that fits came to what is asked of it.
pub fn worked_reads_fit()
    ensures { WorkedReadsFit }
{}

/// So did one that the caller answers at the least number.
pub fn reads_again_fit()
    ensures { ReadsAgainFit }
{}

/// A round of which the facts hold follows, and what stood before it stands after it.
pub fn rounds_follow()
    ensures { RoundsFollow }
{}

/// The rounds of an input print what the history of the side explains.
pub fn rounds_are_explained()
    ensures { RoundsAreExplained }
{}

/// So do the first ones.
pub fn some_rounds_are_explained()
    ensures { SomeRoundsAreExplained }
{}

/// What was printed of the first rounds is the front of an output that is explained.
pub fn round_fronts_are_explained()
    ensures { RoundFrontsAreExplained }
{}
