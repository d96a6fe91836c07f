//! How much work a read takes. Each law is the contract of a function that does nothing: whoever
//! calls it may use the law, and code above cites its statement from `specs/Laws.antt`.
#![tactic(auto)]

ghost use Rattle.gd_work_laws.specs.Laws.{CandidatesArePaid, CandidatesAreThere, ChosenAreSmallest};
ghost use Rattle.gd_work_laws.specs.Laws.{ClausesArePaid, FewerWalkTheSame, IdsArePaid};
ghost use Rattle.gd_work_laws.specs.Laws.{PagesArePaid, PassedArePaid, PlacesArePaid};
ghost use Rattle.gd_work_laws.specs.Laws.{PlacesBelowArePaid, PlacesHold, ReadingsArePaid};
ghost use Rattle.gd_work_laws.specs.Laws.{RowsArePaid, ScansArePaid, SourcesAreSets};
ghost use Rattle.gd_work_laws.specs.Laws.{TreesAreBelow, VisitsArePaid};

/// The work of an object pays for building its tree, and for two tests of it.
pub fn clauses_are_paid()
    ensures { ClausesArePaid }
{}

/// The work of an object pays for its test, and where it passes for building its tree.
pub fn passed_are_paid()
    ensures { PassedArePaid }
{}

/// The first of the smallest sets is one of the smallest.
pub fn chosen_are_smallest()
    ensures { ChosenAreSmallest }
{}

/// The work of a query pays for the scan of each of its smallest sets.
pub fn scans_are_paid()
    ensures { ScansArePaid }
{}

/// The work of a set pays for places of its members, each once.
pub fn places_are_paid()
    ensures { PlacesArePaid }
{}

/// Each candidate is that of a member of the first of the smallest sets.
pub fn candidates_are_there()
    ensures { CandidatesAreThere }
{}

/// The work of a query pays for each of its candidates, each once.
pub fn candidates_are_paid()
    ensures { CandidatesArePaid }
{}

/// The work of a query pays for each row of a page, with a test and its tree.
pub fn rows_are_paid()
    ensures { RowsArePaid }
{}

/// The work of an object pays for a look at the places below it.
pub fn places_below_are_paid()
    ensures { PlacesBelowArePaid }
{}

/// The tree of a place has no more places than are looked at below it, and its own.
pub fn trees_are_below()
    ensures { TreesAreBelow }
{}

/// A page prints no more ids than it prints answers and ids.
pub fn ids_are_paid()
    ensures { IdsArePaid }
{}

/// The steps of a place hold those of judging and of trying it.
pub fn places_hold()
    ensures { PlacesHold }
{}

/// The work of a query pays for visiting the candidates of each of its smallest sets.
pub fn visits_are_paid()
    ensures { VisitsArePaid }
{}

/// It pays for gathering and printing the rows of a page.
pub fn pages_are_paid()
    ensures { PagesArePaid }
{}

/// A reading that visits the candidates of a smallest set, and gathers and prints its page, takes
/// no more steps than the bound on its work.
pub fn readings_are_paid()
    ensures { ReadingsArePaid }
{}

/// The sets of a query are those that its template names.
pub fn sources_are_sets()
    ensures { SourcesAreSets }
{}

/// Of the links of a typ with a place at an end as many meet a template as of all links with it
/// there.
pub fn fewer_walk_the_same()
    ensures { FewerWalkTheSame }
{}
