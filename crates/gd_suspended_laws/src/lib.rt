//! Readings that are suspended: from scanning to building to printing they owe the same answer.
//! Each law is the contract of a function that does nothing: whoever calls it may use the law, and
//! code above cites its statement from `specs/Laws.antt`.
#![tactic(auto)]

ghost use Rattle.gd_suspended_laws.specs.Laws.{BuildsGo, EverythingIs, FewerAre, FullAre};
ghost use Rattle.gd_suspended_laws.specs.Laws.{HeavyBuildsRefuse, HeavyPagesRefuse};
ghost use Rattle.gd_suspended_laws.specs.Laws.{HeavyScansRefuse, HeavyVisitsRefuse};
ghost use Rattle.gd_suspended_laws.specs.Laws.{LinksAreDefined, ManyRefuse};
ghost use Rattle.gd_suspended_laws.specs.Laws.{OrdersAre, PagesPrint, PagesRefuse};
ghost use Rattle.gd_suspended_laws.specs.Laws.{PrintsOwe, RowsAreLight};
ghost use Rattle.gd_suspended_laws.specs.Laws.{ScansKeep, ScansOwe};
ghost use Rattle.gd_suspended_laws.specs.Laws.{StartsOwe};
ghost use Rattle.gd_suspended_laws.specs.Laws.{ThenBuilds, ThenCounts, ThenPrints, TreesTellKeys};
ghost use Rattle.gd_suspended_laws.specs.Laws.{VisitsEnd, VisitsEndEarly};

/// The sort keys of an object stand where its tree tells.
pub fn trees_tell_keys()
    ensures { TreesTellKeys }
{}

/// The order of a query's scan has each candidate once.
pub fn orders_are()
    ensures { OrdersAre }
{}

/// The order of all places has each candidate once.
pub fn everything_is()
    ensures { EverythingIs }
{}

/// So has an order that has no place twice, and each place that passes.
pub fn full_are()
    ensures { FullAre }
{}

/// The order of links by the template of a member's links is the one in which the definitions scan
/// them, as far as objects go.
pub fn links_are_defined()
    ensures { LinksAreDefined }
{}

/// The order of a scan for some members of a query has each of its candidates once.
pub fn fewer_are()
    ensures { FewerAre }
{}

/// A reading that has given nothing owes the answer to its query, in whichever order it scans.
pub fn starts_owe()
    ensures { StartsOwe }
{}

/// Wherever a scan stands that came from its start, the reading owes what it did there.
pub fn scans_owe()
    ensures { ScansOwe }
{}

/// Where a candidate that is owed weighs too much, the reading owes the refusal that says so.
pub fn heavy_scans_refuse()
    ensures { HeavyScansRefuse }
{}

/// Where places were visited among which each that passes is, the scan of these may go to its end
/// with the window that it has.
pub fn visits_end()
    ensures { VisitsEnd }
{}

/// Where the places that are left would change nothing, all were visited.
pub fn visits_end_early()
    ensures { VisitsEndEarly }
{}

/// Where a place passes and weighs too much, the answer is the refusal that says so.
pub fn heavy_visits_refuse()
    ensures { HeavyVisitsRefuse }
{}

/// The rows that a scan keeps are read again from their marks.
pub fn scans_keep()
    ensures { ScansKeep }
{}

/// Where no candidate is left, the trees of the rows that are kept are built.
pub fn then_builds()
    ensures { ThenBuilds }
{}

/// A reading that builds trees goes on by a run over its rows.
pub fn builds_go()
    ensures { BuildsGo }
{}

/// The trees of the rows of a page may be printed at once, where these do not weigh too much
/// together.
pub fn pages_print()
    ensures { PagesPrint }
{}

/// Where those of the first rows of a page that answer weigh too much together, the reading owes
/// the refusal that says so.
pub fn pages_refuse()
    ensures { PagesRefuse }
{}

/// No row of a page weighs too much by itself, if it passes.
pub fn rows_are_light()
    ensures { RowsAreLight }
{}

/// Where a row that is still to be built weighs too much, the reading owes the refusal that says
/// so.
pub fn heavy_builds_refuse()
    ensures { HeavyBuildsRefuse }
{}

/// Where the rows that were built weigh too much together, the reading owes the refusal that says
/// so.
pub fn heavy_pages_refuse()
    ensures { HeavyPagesRefuse }
{}

/// Where no row is left and the page does not weigh too much, its trees are printed.
pub fn then_prints()
    ensures { ThenPrints }
{}

/// Of a count no tree is built.
pub fn then_counts()
    ensures { ThenCounts }
{}

/// A reading that prints two rows where one is asked owes the refusal that says so.
pub fn many_refuse()
    ensures { ManyRefuse }
{}

/// Else a reading that prints owes the answer of its page.
pub fn prints_owe()
    ensures { PrintsOwe }
{}
