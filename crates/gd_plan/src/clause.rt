//! Clauses of a template.
ghost use Rattle.std.specs.Prelude.{◌≡◌, ◌++◌, ◌∷◌, [], Bool, List, map, option_map, IfOk, OnOk};
ghost use Rattle.std.specs.Option.{option_to_list};
ghost use Rattle.gd_defs.specs.Asked as defs;
ghost use Rattle.gd_defs.specs.Plan as plan;
ghost use Rattle.gd_defs.specs.Query.{optional};
ghost use Rattle.gd_defs.specs.Template as template;
ghost use Rattle.gd_datum.specs.Values.{kind_of};
ghost use Rattle.gd_template.specs.Built.{view as template_of};
ghost use Rattle.gd_template.specs.Seen.{constraint_of};
ghost use Rattle.gd_template.specs.View.{parts, clauses_view};
ghost use Rattle.gd_plan.specs.Seen.{sort_key_view};
ghost use Rattle.gd_plan.specs.Planned.{with_clause};
ghost use Rattle.gd_plan.specs.Making.{in_front};

use crate::asked::SortKey;
use crate::constraint::{asked_end, links_of, of_kind};
use crate::expects::{Expects, expects_of};
use gd_base::memory::Memory;
use gd_datum::value::Kind;
use gd_resolve::property::Property;
use gd_template::constraint::Constraint;
use gd_template::template::{Clause, Hop, Mode, Template};
use std::alloc::Global;

/// The template of these constraints that asks nothing of the places around.
pub(crate) fn bare_template(alloc: Global, constraints: Vec<Constraint>) -> Template
    ensures { template_of result ≡ template.template (map constraint_of constraints.items)
        template.no_clauses }
{
    match Template::new(constraints, Vec::new(alloc)) {
        Ok(template) => template,
        Err(_) => unreachable!(),
    }
}

/// The constraints of the links of a property that hold values of a kind.
fn link_constraints(
    alloc: Global,
    property: &Property,
    kind: Kind,
) -> Result<Vec<Constraint>, Memory>
    ensures { IfOk result (λ cs. map constraint_of cs.items
        ≡ plan.property_tests property.now ++ plan.of_kind (kind_of kind) ∷ []) }
{
    let mut constraints = links_of(alloc, property)?;
    constraints.push(of_kind(alloc, kind)?)?;
    Ok(constraints)
}

/// The clause on the values of a property by which rows are sorted.
fn value_clause(alloc: Global, property: &Property, kind: Kind) -> Result<Clause, Memory>
    ensures { IfOk result (λ c. parts c ≡ (
      optional,
      template.links_by (plan.asked_end property.now),
      template.template (plan.property_tests property.now ++ plan.of_kind (kind_of kind) ∷ [])
          template.no_clauses,
    )) }
{
    let constraints = link_constraints(alloc, property, kind)?;
    let template = bare_template(alloc, constraints);
    let hop = Hop::LinksBy(asked_end(property));
    Ok(Clause::new(Mode::Optional, hop, template))
}

/// The clause of a template that a sort key makes: for a property an optional one on its values,
/// which stands in front of those of the sort keys behind it; else none. `Memory`: an allocation
/// was refused.
pub fn sort_clause(alloc: Global, key: &SortKey) -> Result<Option<Clause>, Memory>
    ensures { (more : List defs.SortKey)
        → IfOk result (λ c. plan.sort_clauses (sort_key_view key.now ∷ more)
        ≡ with_clause (option_map parts c) (plan.sort_clauses more)) }
{
    match key {
        SortKey::Value { property, .. } => value_sort_clause(alloc, property),
        _ => Ok(None),
    }
}

/// The clause on the values of a property by which rows are sorted, if it holds values of a kind.
fn value_sort_clause(alloc: Global, property: &Property) -> Result<Option<Clause>, Memory>
    ensures { (more : List defs.SortKey) → (descending : Bool)
        → IfOk result (λ c. plan.sort_clauses
        (record { key = defs.by_property property.now; descending = descending } ∷ more)
        ≡ with_clause (option_map parts c) (plan.sort_clauses more)) }
{
    match expects_of(property.expected) {
        Expects::Value(kind) => Ok(Some(value_clause(alloc, property, kind)?)),
        _ => Ok(None),
    }
}

/// Puts a clause behind others, if there is one.
pub(crate) fn push_clause(clauses: &mut Vec<Clause>, more: Option<Clause>) -> Result<(), Memory>
    ensures { OnOk result (map parts clauses.new.items
        ≡ map parts clauses.old.items ++ option_to_list (option_map parts more)) }
{
    if let Some(clause) = more {
        clauses.push(clause)?;
    }
    Ok(())
}

/// Puts the clauses of sort keys behind others, in order.
pub(crate) fn push_sort_clauses(
    alloc: Global,
    clauses: &mut Vec<Clause>,
    sort: &[SortKey],
) -> Result<(), Memory>
    ensures { OnOk result (clauses_view clauses.new.items ≡ in_front (map parts clauses.old.items)
        (plan.sort_clauses (map sort_key_view sort.now))) }
{
    for key in sort {
        let clause = sort_clause(alloc, key)?;
        push_clause(clauses, clause)?;
    }
    Ok(())
}
