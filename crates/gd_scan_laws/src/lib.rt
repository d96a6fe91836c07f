//! What a scan of candidates owes. Each law is the contract of a function that does nothing:
//! whoever calls it may use the law, and code above cites its statement from `specs/Laws.antt`.
#![tactic(auto)]

ghost use Rattle.gd_scan_laws.specs.Laws.{AnyOrder, OrdersHaveAll, ReadingsOwe, ScansGoOn};

/// A reading that has settled nothing owes the answer to its query.
pub fn readings_owe()
    ensures { ReadingsOwe }
{}

/// What is owed at the start does not depend on the order of the scan.
pub fn orders_do_not_matter()
    ensures { AnyOrder }
{}

/// The order of a query's scan walks rising places and has each of its candidates, once.
pub fn orders_have_all()
    ensures { OrdersHaveAll }
{}

/// A scan that keeps the best rows of what it has settled owes what it did at its start.
pub fn scans_go_on()
    ensures { ScansGoOn }
{}
