//! What stands between two rounds, from the first one to the end of an input. Each law is the
//! contract of a function that does nothing: whoever calls it may use the law, and code above cites
//! its statement from `specs/Laws.antt`.
#![tactic(auto)]

ghost use Rattle.gd_round_laws.specs.Laws.{FirstRoundsAreWithin, RestIsPassed, RoundsAreAccounted};
ghost use Rattle.gd_round_laws.specs.Laws.{RoundsBegin, RoundsGoOn};

/// Before the first round stands what stands between rounds.
pub fn rounds_begin()
    ensures { RoundsBegin }
{}

/// A round more: what stood before it stands after it.
pub fn rounds_go_on()
    ensures { RoundsGoOn }
{}

/// What was printed so far is accounted for.
pub fn rounds_are_accounted()
    ensures { RoundsAreAccounted }
{}

/// Where the lines behind the rounds are not run, what is printed for them as for want of memory is
/// accounted for too.
pub fn rest_is_passed()
    ensures { RestIsPassed }
{}

/// The lines so far are those of the first rounds of an input.
pub fn first_rounds_are_within()
    ensures { FirstRoundsAreWithin }
{}
