//! Pages of a query that were read one after another. Each law is the contract of a function that
//! does nothing: whoever calls it may use the law, and code above cites its statement from
//! `specs/Laws.antt`.
#![tactic(auto)]

ghost use Rattle.gd_paging_laws.specs.Laws.{PagesAreWhole, ShownPagesAreWhole};

/// Pages joined, from the cursor `true` up to the cursor `false`, are all rows of the query, each
/// once.
pub fn pages_are_whole()
    ensures { PagesAreWhole }
{}

/// So are those that an output shows which a history explains, at the dateline that the first of
/// them prints.
pub fn shown_pages_are_whole()
    ensures { ShownPagesAreWhole }
{}
