//! What is left of a reading. Each law is the contract of a function that does nothing: whoever
//! calls it may use the law, and code above cites its statement from `specs/Laws.antt`.
#![tactic(auto)]

ghost use Rattle.gd_left_laws.specs.Laws.{IdsLower, LinkOrdersPay, OrdersPay, PagesAreBuilt};
ghost use Rattle.gd_left_laws.specs.Laws.{PagesAreLight, RowOrdersPay, RunsLower, ScansGivePages};
ghost use Rattle.gd_left_laws.specs.Laws.{StartsArePaid};

/// Where a scan has ended, the window keeps the page of the query, and no candidate weighs too
/// much.
pub fn scans_give_pages()
    ensures { ScansGivePages }
{}

/// Where the rows of the page do not weigh too much together, the page is not too wide, and its
/// trees are those of its rows.
pub fn pages_are_light()
    ensures { PagesAreLight }
{}

/// A run over the rows of a page gives the trees and the weight that are gathered of them.
pub fn pages_are_built()
    ensures { PagesAreBuilt }
{}

/// Each move of a run lowers what is left of its scan.
pub fn runs_lower()
    ensures { RunsLower }
{}

/// The order of a query's scan is paid by the members of its first smallest set.
pub fn orders_pay()
    ensures { OrdersPay }
{}

/// What is left of a scan at its start is ten turns for each of the query's work, at most.
pub fn starts_are_paid()
    ensures { StartsArePaid }
{}

/// The order of links is paid by the turns of the links.
pub fn link_orders_pay()
    ensures { LinkOrdersPay }
{}

/// The order of rows is paid by what they have.
pub fn row_orders_pay()
    ensures { RowOrdersPay }
{}

/// Where an id becomes known that was not, fewer are left.
pub fn ids_lower()
    ensures { IdsLower }
{}
