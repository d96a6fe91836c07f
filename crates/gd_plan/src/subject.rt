//! What the computed members of a clause ask, as constraints.
ghost use Rattle.std.specs.Prelude.{◌≡◌, ◌++◌, map, OnOk};
ghost use Rattle.std.specs.Option.{option_to_list};
ghost use Rattle.gd_defs.specs.Asked.{no_members};
ghost use Rattle.gd_defs.specs.Plan as plan;
ghost use Rattle.gd_datum.specs.Values.{kind_of};
ghost use Rattle.gd_template.specs.Seen.{constraint_of};
ghost use Rattle.gd_plan.specs.Asked.{put, members_view};
ghost use Rattle.gd_plan.specs.Seen.{own_view, test_view};
ghost use Rattle.gd_plan.specs.Subjects.{tests_on, own_tests, asked_value_test};

use crate::asked::{Member, Own};
use crate::constraint::{object_constraint, push_lang_test, push_some, push_value_test};
use crate::test::Test;
use gd_base::memory::Memory;
use gd_datum::value::Kind;
use gd_template::constraint::Constraint;
use std::alloc::Global;

/// Of what the computed members of a clause are asked.
#[derive(Clone, Copy, PartialEq, Eq)]
pub(crate) enum Subject {
    /// Of the clause's object.
    Object,
    /// Of a link: of its value, which is of a kind, and of its language.
    Value(Kind),
    /// Of a key's namespace.
    Namespace,
}

/// Puts what a test asks of an object behind other constraints.
pub(crate) fn push_object_test(
    alloc: Global,
    constraints: &mut Vec<Constraint>,
    test: &Test,
) -> Result<(), Memory>
    ensures { OnOk result (map constraint_of constraints.new.items
        ≡ map constraint_of constraints.old.items ++ plan.object_test (test_view test.now)) }
{
    let more = object_constraint(alloc, test)?;
    push_some(constraints, more)
}

/// Puts what a test asks of a value, of which the kind is known, behind other constraints.
fn push_asked_value_test(
    alloc: Global,
    constraints: &mut Vec<Constraint>,
    kind: Kind,
    test: &Test,
) -> Result<(), Memory>
    ensures { OnOk result (map constraint_of constraints.new.items
        ≡ map constraint_of constraints.old.items ++ asked_value_test (kind_of kind)
        (test_view test.now)) }
{
    match test {
        Test::Anything => Ok(()),
        _ => push_value_test(alloc, constraints, kind, test),
    }
}

/// Puts what the test of a computed member asks of a subject behind other constraints: nothing
/// where its word tells of another one.
fn push_own_tests(
    alloc: Global,
    constraints: &mut Vec<Constraint>,
    subject: Subject,
    own: Own,
    test: &Test,
) -> Result<(), Memory>
    ensures { OnOk result (map constraint_of constraints.new.items
        ≡ map constraint_of constraints.old.items ++ own_tests subject (own_view own)
        (test_view test.now)) }
{
    match (subject, own) {
        (Subject::Object, Own::Id | Own::Guid | Own::Timestamp) => {
            push_object_test(alloc, constraints, test)
        }
        (Subject::Value(kind), Own::Value) => push_asked_value_test(alloc, constraints, kind, test),
        (Subject::Value(_), Own::Lang) => push_lang_test(constraints, test),
        (Subject::Namespace, Own::Namespace) => push_object_test(alloc, constraints, test),
        _ => Ok(()),
    }
}

/// Puts what a member asks of a subject behind other constraints.
fn push_member_tests(
    alloc: Global,
    constraints: &mut Vec<Constraint>,
    subject: Subject,
    member: &Member,
) -> Result<(), Memory>
    ensures { OnOk result (map constraint_of constraints.new.items
        ≡ map constraint_of constraints.old.items ++ tests_on subject (put member.now no_members)) }
{
    match member {
        Member::Own { own, test, .. } => push_own_tests(alloc, constraints, subject, *own, test),
        Member::Asks { .. } => Ok(()),
    }
}

/// Puts what the computed members of a clause ask of a subject behind other constraints, in order.
pub(crate) fn push_tests(
    alloc: Global,
    constraints: &mut Vec<Constraint>,
    subject: Subject,
    members: &[Member],
) -> Result<(), Memory>
    ensures { OnOk result (map constraint_of constraints.new.items
        ≡ map constraint_of constraints.old.items ++ tests_on subject (members_view members.now)) }
{
    for member in members {
        push_member_tests(alloc, constraints, subject, member)?;
    }
    Ok(())
}
