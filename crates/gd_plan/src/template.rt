//! The template for which a query stands.
ghost use Rattle.std.specs.Prelude.{◌≡◌, ◌≢◌, ◌≤◌, ◌<◌, ◌++◌, ◌∷◌, [], false, map, option_map};
ghost use Rattle.std.specs.Prelude.{IfOk, MatchResult};
ghost use Rattle.std.specs.Option.{option_to_list};
ghost use Rattle.gd_defs.specs.Asked.{no_members};
ghost use Rattle.gd_defs.specs.Plan as plan;
ghost use Rattle.gd_defs.specs.Query.{required};
ghost use Rattle.gd_defs.specs.Template as template;
ghost use Rattle.gd_datum.specs.Values.{kind_of};
ghost use Rattle.gd_template.specs.Built.{view};
ghost use Rattle.gd_template.specs.Seen.{constraint_of};
ghost use Rattle.gd_template.specs.View.{parts, clauses_view};
ghost use Rattle.gd_plan.specs.Asked.{asked_view, asking_view, put, members_view};
ghost use Rattle.gd_plan.specs.Linked.{value_links, key_clauses, key_links, object_part};
ghost use Rattle.gd_plan.specs.Linked.{object_links, links_of_member};
ghost use Rattle.gd_plan.specs.Making.{Makes, part_depth, parts_depth, in_front, unless_parts};
ghost use Rattle.gd_plan.specs.Making.{member_part, member_parts};
ghost use Rattle.gd_plan.specs.Seen.{sort_key_view, test_view};
ghost use Rattle.gd_plan.specs.Subjects.{tests_on};

use crate::asked::{Asked, Asking, Member, SortKey};
use crate::clause::{bare_template, push_clause, push_sort_clauses};
use crate::constraint::{answer_end, answers_of, asked_end, links_of, push_value_test};
use crate::expects::Expects;
use crate::fault::PlanFault;
use crate::subject::{Subject, push_object_test, push_tests};
use gd_base::memory::Memory;
use gd_datum::value::Kind;
use gd_prim::End;
use gd_resolve::property::Property;
use gd_template::constraint::Constraint;
use gd_template::template::{Clause, Hop, Mode, Template};
use std::alloc::Global;

/// The constraint that a place is an object.
fn objects(alloc: Global) -> Result<Vec<Constraint>, Memory>
    ensures { IfOk result (λ cs. map constraint_of cs.items ≡ template.is_object ∷ []) }
{
    let constraints = vec![in alloc; Constraint::IsObject]?;
    Ok(constraints)
}

/// What a member asks of the links of its property where they hold values of a kind.
fn value_constraints(
    alloc: Global,
    asking: &Asking,
    kind: Kind,
    clause: &[Member],
) -> Result<Vec<Constraint>, Memory>
    ensures { IfOk result (λ cs. map constraint_of cs.items
        ≡ plan.property_tests asking.now.property ++ (plan.value_test (kind_of kind)
        (test_view asking.now.test) ++ plan.link_tests (kind_of kind) (members_view clause.now))) }
{
    let mut constraints = links_of(alloc, &asking.property)?;
    push_value_test(alloc, &mut constraints, kind, &asking.test)?;
    push_tests(alloc, &mut constraints, Subject::Value(kind), clause)?;
    Ok(constraints)
}

/// What a member asks of the objects at the other ends of the links of its property.
fn object_constraints(
    alloc: Global,
    asking: &Asking,
    clause: &[Member],
) -> Result<Vec<Constraint>, Memory>
    ensures { IfOk result (λ cs. map constraint_of cs.items ≡ template.is_object
        ∷ (plan.object_test (test_view asking.now.test) ++ plan.object_tests
        (members_view clause.now))) }
{
    let mut constraints = objects(alloc)?;
    push_object_test(alloc, &mut constraints, &asking.test)?;
    push_tests(alloc, &mut constraints, Subject::Object, clause)?;
    Ok(constraints)
}

/// What a member asks of an object that the members alone constrain: the namespace of a key, or the
/// root's object.
fn member_constraints(
    alloc: Global,
    subject: Subject,
    clause: &[Member],
) -> Result<Vec<Constraint>, Memory>
    ensures { IfOk result (λ cs. map constraint_of cs.items ≡ template.is_object
        ∷ tests_on subject (members_view clause.now)) }
{
    let mut constraints = objects(alloc)?;
    push_tests(alloc, &mut constraints, subject, clause)?;
    Ok(constraints)
}

/// One clause.
fn alone(alloc: Global, clause: Clause) -> Result<Vec<Clause>, Memory>
    ensures { IfOk result (λ cs. map parts cs.items ≡ parts clause ∷ []) }
{
    let clauses = vec![in alloc; clause]?;
    Ok(clauses)
}

/// What stands in front of clauses that come of no literal: an optional one that has no answer
/// anywhere.
fn unless_literal(alloc: Global, given: bool) -> Result<Vec<Clause>, Memory>
    ensures { IfOk result (λ cs. map parts cs.items ≡ unless_parts given) }
{
    if given {
        Ok(Vec::new(alloc))
    } else {
        no_answer(alloc)
    }
}

/// The optional clause that has no answer anywhere.
fn no_answer(alloc: Global) -> Result<Vec<Clause>, Memory>
    ensures { IfOk result (λ cs. map parts cs.items ≡ unless_parts false) }
{
    let constraints = vec![in alloc; Constraint::PlaceIn(Vec::new(alloc))]?;
    let nowhere = bare_template(alloc, constraints);
    alone(
        alloc,
        Clause::new(Mode::Optional, Hop::EndOf(End::Typ), nowhere),
    )
}

/// The clause on the objects at the other ends of the links of a property.
fn far_clause(
    property: &Property,
    constraints: Vec<Constraint>,
    clauses: Vec<Clause>,
) -> Result<Clause, PlanFault>
    ensures { Makes parts part_depth (
      required,
      template.end_here (plan.answer_end property.now),
      template.template (map constraint_of constraints.items) (clauses_view clauses.items),
    ) result }
{
    let template = Template::new(constraints, clauses)?;
    let hop = Hop::EndOf(answer_end(property));
    Ok(Clause::new(Mode::Required, hop, template))
}

/// The template of the links of a member whose answers are values of a kind.
fn value_template(
    alloc: Global,
    asking: &Asking,
    kind: Kind,
    clause: &[Member],
) -> Result<Template, PlanFault>
    ensures { Makes view template.depth
        (value_links (asking_view asking.now) (kind_of kind) (members_view clause.now)) result }
{
    let constraints = value_constraints(alloc, asking, kind, clause)?;
    let clauses = unless_literal(alloc, asking.given)?;
    Ok(Template::new(constraints, clauses)?)
}

/// The clauses of a member whose answers are keys: on their namespaces.
fn key_clauses(alloc: Global, asking: &Asking, clause: &[Member]) -> Result<Vec<Clause>, PlanFault>
    ensures { Makes (λ cs. clauses_view cs.items) template.clauses_depth
        (key_clauses (asking_view asking.now) (members_view clause.now)) result }
{
    let constraints = member_constraints(alloc, Subject::Namespace, clause)?;
    let far = far_clause(&asking.property, constraints, Vec::new(alloc))?;
    let mut clauses = unless_literal(alloc, asking.given)?;
    push_clause(&mut clauses, Some(far))?;
    Ok(clauses)
}

/// The template of the links of a member whose answers are keys.
fn key_template(alloc: Global, asking: &Asking, clause: &[Member]) -> Result<Template, PlanFault>
    ensures { Makes view template.depth
        (key_links (asking_view asking.now) (members_view clause.now)) result }
{
    let constraints = value_constraints(alloc, asking, Kind::Text, clause)?;
    let clauses = key_clauses(alloc, asking, clause)?;
    Ok(Template::new(constraints, clauses)?)
}

/// The clause on the objects that answer a member.
#[cycle(template)]
fn object_clause(alloc: Global, asking: &Asking, clause: &[Member]) -> Result<Clause, PlanFault>
    ensures { Makes parts part_depth
        (object_part (asking_view asking.now) (members_view clause.now)) result }
{
    let constraints = object_constraints(alloc, asking, clause)?;
    let front = unless_literal(alloc, asking.given)?;
    let nested = clauses_of(alloc, clause, &asking.sort, front)?;
    far_clause(&asking.property, constraints, nested)
}

/// The template of the links of a property with one clause, on their other ends.
fn object_links(alloc: Global, property: &Property, far: Clause) -> Result<Template, PlanFault>
    ensures { Makes view template.depth (object_links property.now (parts far)) result }
{
    let constraints = links_of(alloc, property)?;
    let clauses = alone(alloc, far)?;
    Ok(Template::new(constraints, clauses)?)
}

/// The template of the links of a member whose answers are objects.
#[cycle(template)]
fn object_template(alloc: Global, asking: &Asking, clause: &[Member]) -> Result<Template, PlanFault>
    ensures { Makes view template.depth
        (object_links asking.now.property
        (object_part (asking_view asking.now) (members_view clause.now))) result }
{
    let far = object_clause(alloc, asking, clause)?;
    object_links(alloc, &asking.property, far)
}

/// The template of the links of a member, with the clauses on what stands at their other ends.
#[cycle(template)]
fn link_template(alloc: Global, asking: &Asking, clause: &[Member]) -> Result<Template, PlanFault>
    ensures { Makes view template.depth
        (links_of_member (asking_view asking.now) (members_view clause.now)) result }
{
    match answers_of(&asking.property) {
        Expects::Value(kind) => value_template(alloc, asking, kind, clause),
        Expects::Key => key_template(alloc, asking, clause),
        Expects::SystemObject | Expects::PlainObject => object_template(alloc, asking, clause),
    }
}

/// The clause that a member which asks a property makes.
#[cycle(template)]
fn asked_clause(alloc: Global, asking: &Asking, clause: &[Member]) -> Result<Clause, PlanFault>
    ensures { Makes parts part_depth
        (member_part (asking_view asking.now) (members_view clause.now)) result }
{
    let template = link_template(alloc, asking, clause)?;
    let hop = Hop::LinksBy(asked_end(&asking.property));
    Ok(Clause::new(asking.mode, hop, template))
}

/// The clause that a member makes, if it asks a property.
#[cycle(template)]
fn member_clause(alloc: Global, member: &Member) -> Result<Option<Clause>, PlanFault>
    ensures { Makes (λ c. option_to_list (option_map parts c)) parts_depth
        (member_parts (put member.now no_members)) result }
{
    match member {
        Member::Own { .. } => Ok(None),
        Member::Asks { asking, clause, .. } => Ok(Some(asked_clause(alloc, asking, clause)?)),
    }
}

/// The clauses of a clause, behind those that stand in front: one for each member that asks a
/// property, in order, and then those of the sort keys.
#[cycle(template)]
fn clauses_of(
    alloc: Global,
    members: &[Member],
    sort: &[SortKey],
    front: Vec<Clause>,
) -> Result<Vec<Clause>, PlanFault>
    ensures { Makes (λ cs. clauses_view cs.items) template.clauses_depth
        (in_front (map parts front.items)
        (plan.clauses_of (map sort_key_view sort.now) (members_view members.now))) result }
{
    let mut clauses = front;
    for member in members {
        let clause = member_clause(alloc, member)?;
        push_clause(&mut clauses, clause)?;
    }
    push_sort_clauses(alloc, &mut clauses, sort)?;
    Ok(clauses)
}

/// The template of a query: its answers are the rows, and its weights are theirs. `TooDeep`: more
/// than 32 templates would lie one within another. `Memory`: an allocation was refused.
pub fn template_of(alloc: Global, asked: &Asked) -> Result<Template, PlanFault>
    ensures made { IfOk result (λ template. view template
        ≡ plan.template_of (asked_view asked.now)) }
    ensures depth { let made = plan.template_of (asked_view asked.now) in
        MatchResult result (λ _. template.depth made ≤ template.max_depth)
        (λ fault. fault ≢ PlanFault.Memory → template.max_depth < template.depth made) }
{
    let constraints = member_constraints(alloc, Subject::Object, &asked.members)?;
    let clauses = clauses_of(alloc, &asked.members, &asked.sort, Vec::new(alloc))?;
    Ok(Template::new(constraints, clauses)?)
}
