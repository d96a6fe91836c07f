//! What writes make, and what histories keep. Each law is the contract of a function that does
//! nothing: whoever calls it may use the law, and code above cites its statement from
//! `specs/Laws.antt`.
#![tactic(auto)]

ghost use Rattle.gd_write_laws.specs.Laws.{AnswersStandAbove, BatchesAreTyped, HistoriesAreSound};
ghost use Rattle.gd_write_laws.specs.Laws.{HistoriesGrow, HistoriesHaveFronts, LinksStandAbove};
ghost use Rattle.gd_write_laws.specs.Laws.{ListsStayTyped, NewAnswersAreNew, ObjectsStay};
ghost use Rattle.gd_write_laws.specs.Laws.{PlainIsTyped, ResultsAreFlat, WritesFollow};

/// The batch of a write may follow the list that it was made on: no rule is broken and no limit is
/// passed, for every request at a moment of a clock.
pub fn writes_follow()
    ensures { WritesFollow }
{}

/// The primitives of a history refer back, and may hold their values.
pub fn histories_are_sound()
    ensures { HistoriesAreSound }
{}

/// The first so many batches of a history are one.
pub fn histories_have_fronts()
    ensures { HistoriesHaveFronts }
{}

/// A history and the batch of a write on it are a history.
pub fn histories_grow()
    ensures { HistoriesGrow }
{}

/// The types of the code hold a list with the batch of a write, where they hold the list and what
/// the write spells.
pub fn lists_stay_typed()
    ensures { ListsStayTyped }
{}

/// They hold what a JSON value spells whose texts pass the test.
pub fn plain_is_typed()
    ensures { PlainIsTyped }
{}

/// They hold the values of a batch, whose primitives have no names.
pub fn batches_are_typed()
    ensures { BatchesAreTyped }
{}

/// A write ends no object.
pub fn objects_stay()
    ensures { ObjectsStay }
{}

/// The result of a write is no deeper than the JSON value that spells it.
pub fn results_are_flat()
    ensures { ResultsAreFlat }
{}

/// Each primitive that has an object as an end stands above the object.
pub fn links_stand_above()
    ensures { LinksStandAbove }
{}

/// Each answer of a property on an object is a link of it that stands above the object.
pub fn answers_stand_above()
    ensures { AnswersStandAbove }
{}

/// The answers on a new object lie in its batch alone.
pub fn new_answers_are_new()
    ensures { NewAnswersAreNew }
{}
