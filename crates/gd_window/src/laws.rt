//! Laws: each is the contract of a function that does nothing.
ghost use Rattle.gd_window.specs.Laws.{MarksAreTold, ObjectsAreTold, ObjectsGivePages};
ghost use Rattle.gd_window.specs.Laws.{RowsAreAsDefined, RowsBehindAreAsDefined};
ghost use Rattle.gd_window.specs.Laws.{RowsToldAreAsDefined, WindowsGivePages};

/// Rows that carry the values at the places of their keys are ordered as the definitions order
/// rows.
pub fn rows_are_as_defined()
    ensures { RowsAreAsDefined }
{}

/// A window to which the rows of a query are offered, each once and in any order, gives the page of
/// the definitions.
pub fn windows_give_pages()
    ensures { WindowsGivePages }
{}

/// A window to which the row of each object that meets a query is offered, with its values, gives
/// the page.
pub fn objects_give_pages()
    ensures { ObjectsGivePages }
{}

/// The rows of objects that come behind the row of a mark, with their values, are those that the
/// definitions put in order.
pub fn rows_behind_are_as_defined()
    ensures { RowsBehindAreAsDefined }
{}

/// The rows of objects and of marks are told by their keys, and any such rows that come behind the
/// row of a mark are those that the definitions put in order.
pub fn rows_told_are_as_defined()
    ensures objects { ObjectsAreTold }
    ensures marks { MarksAreTold }
    ensures behind { RowsToldAreAsDefined }
{}
