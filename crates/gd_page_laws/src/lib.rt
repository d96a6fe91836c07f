//! What a page prints from trees alone. Each law is the contract of a function that does nothing:
//! whoever calls it may use the law, and code above cites its statement from `specs/Laws.antt`.
#![tactic(auto)]

ghost use Rattle.gd_page_laws.specs.Laws.{ObjectsPrint, PagesPrint};

/// What is printed of an object from the lists of its tree is what the reply prints of it.
pub fn objects_print()
    ensures { ObjectsPrint }
{}

/// What a page prints from the trees of its rows is what the reply prints of the rows.
pub fn pages_print()
    ensures { PagesPrint }
{}
