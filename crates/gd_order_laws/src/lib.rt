//! Orders, windows and pages. Each law is the contract of a function that does nothing: whoever
//! calls it may use the law, and code above cites its statement from `specs/Laws.antt`.
#![tactic(auto)]

ghost use Rattle.gd_order_laws.specs.Laws.{DataAreOrdered, KeysAreOrdered, MarksGiveRows};
ghost use Rattle.gd_order_laws.specs.Laws.{OfferedInAnyOrder, PagesJoin, RowsAreOrdered};
ghost use Rattle.gd_order_laws.specs.Laws.{RowsFollowMarks, RowsStandOnce, WindowKeeps};

/// The order of data is total, and only equal data tie.
pub fn data_are_ordered()
    ensures { DataAreOrdered }
{}

/// The order of key lists is total, whatever their lengths are.
pub fn keys_are_ordered()
    ensures { KeysAreOrdered }
{}

/// The order of rows is total, and rows that tie are of one object.
pub fn rows_are_ordered()
    ensures { RowsAreOrdered }
{}

/// The rows of a query rise, one for each object that meets it.
pub fn rows_stand_once()
    ensures { RowsStandOnce }
{}

/// The order in which rows are offered does not matter.
pub fn offered_in_any_order()
    ensures { OfferedInAnyOrder }
{}

/// The first rows of all can be kept row by row.
pub fn window_keeps()
    ensures { WindowKeeps }
{}

/// The mark of a row, read again by its places, is that row.
pub fn marks_give_rows()
    ensures { MarksGiveRows }
{}

/// Behind the mark of a row come the rows behind it.
pub fn rows_follow_marks()
    ensures { RowsFollowMarks }
{}

/// Pages joined are all rows.
pub fn pages_join()
    ensures { PagesJoin }
{}
