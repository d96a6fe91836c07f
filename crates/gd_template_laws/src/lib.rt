//! The template of a query means the query. Each law is the contract of a function that does
//! nothing: whoever calls it may use the law, and code above cites its statement from
//! `specs/Laws.antt`.
#![tactic(auto)]

ghost use Rattle.gd_template_laws.specs.Laws.{AnswersPass, QueriesAnswer, TemplatesAreFlat};
ghost use Rattle.gd_template_laws.specs.Laws.{TemplatesMean};

/// The template of a query that has a meaning means the query: what answers it, what passes it,
/// what it weighs, and what each member finds, over a list whose primitives may hold their values.
pub fn templates_mean()
    ensures { TemplatesMean }
{}

/// The rows of a query are the places that answer its template, in its order, and its candidates
/// those that pass it.
pub fn queries_answer()
    ensures { QueriesAnswer }
{}

/// What answers a template passes it.
pub fn answers_pass()
    ensures { AnswersPass }
{}

/// The template of a query of at most 14 levels has at most 31 templates one within the other, so
/// making it is never too deep.
pub fn templates_are_flat()
    ensures { TemplatesAreFlat }
{}
