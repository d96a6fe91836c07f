//! A whole query with its words looked up, and its template.
ghost use Rattle.std.specs.Prelude.{◌≡◌, ◌≤◌, ◌+◌, ◌*◌, true, None, IfOk, MatchResult, OnOk};
ghost use Rattle.std.specs.Prelude.{length};
ghost use Rattle.gd_base.specs.Counts.{Rose};
ghost use Rattle.gd_prim.specs.History.{prims_of};
ghost use Rattle.gd_defs.specs.Asked as defs;
ghost use Rattle.gd_defs.specs.Cost.{resolving};
ghost use Rattle.gd_defs.specs.Plan.{template_of};
ghost use Rattle.gd_defs.specs.Template.{depth};
ghost use Rattle.gd_mql.specs.Requests.{query_view, read_view};
ghost use Rattle.gd_plan.specs.Asked.{asked_view};
ghost use Rattle.gd_runs.specs.RootSets.{sets_by_link};
ghost use Rattle.gd_template_laws.specs.Laws.{TemplateMeans};
ghost use Rattle.gd_compile.specs.declared.fault.Unknown.TheVariants as fault;
ghost use Rattle.gd_compile.specs.Fault.{Finds};
ghost use Rattle.gd_compile.specs.Looks.{clause_looks};
ghost use Rattle.gd_compile.specs.Walk.{asks_property};

use crate::asking::{asks_single, limit_from};
use crate::fault::Unknown;
use crate::walk::asked_clause;
use gd_base::steps::Steps;
use gd_mql::request::{Query, ReadRequest};
use gd_plan::View;
use gd_plan::asked::Asked;
use gd_plan::fault::PlanFault;
use gd_plan::plan::Plan;
use std::alloc::Global;

/// What a query asks at the view's dateline: its root clause with its words looked up, its limit,
/// 100 where none is set, and whether it lists or counts. It has no meaning where an id or a
/// property is not there, or a form does not go with what its words stand for: the first refusal
/// decides, clause by clause and member by member, each clause's context type before its members,
/// with the path of the member from the root down. `Memory`: an allocation was refused.
pub fn asked_query<L>(
    alloc: Global,
    view: &View<'_>,
    query: &Query<'_>,
    steps: &mut Steps<L>,
) -> Result<Asked, Unknown>
    ensures asked { Finds asked_view (defs.asked_query (prims_of view.now) (query_view query.now))
        result }

    // What its words and ids take, part by part.
    ensures looks { steps.new ≤ steps.old + clause_looks (prims_of view.now) None
        (query_view query.now).members }
    ensures later { steps.old ≤ steps.new }

    // Where a member of its root clause asks a property, something was looked at.
    ensures counted { OnOk result (asks_property (query_view query.now).members ≡ true
        → Rose steps.old steps.new) }
{
    let directives = query.root.directives();
    let clause = asked_clause(alloc, view, None, &[], &query.root, steps)?;
    Ok(Asked {
        listed: query.listed,
        single: asks_single(query.listed, &directives),
        count: directives.count,
        limit: limit_from(&directives),
        members: clause.members,
        sort: clause.sort,
    })
}

/// The plan of what is asked, whose template is not too deep.
fn plan_of(alloc: Global, asked: Asked) -> Result<Plan, Unknown>
    requires { depth (template_of (asked_view asked)) ≤ 31 }
    ensures { MatchResult result (λ plan. plan ≡ asked) (λ refused. refused ≡ fault.Memory) }
{
    match Plan::new(alloc, asked) {
        Ok(plan) => Ok(plan),
        Err(PlanFault::Memory) => Err(Unknown::Memory),
        Err(PlanFault::TooDeep) => unreachable!(),
    }
}

/// The plan of a read at the view's dateline: what its query asks, and the template for which that
/// stands, which means the query. The refusals are those of `asked_query`; the template is never
/// too deep, since the forms of a request do not lie so deep one within another. `Memory`: an
/// allocation was refused.
pub fn compile<L>(
    alloc: Global,
    view: &View<'_>,
    request: &ReadRequest,
    steps: &mut Steps<L>,
) -> Result<Plan, Unknown>
    ensures compiled { Finds asked_view
        (defs.asked_query (prims_of view.now) (read_view request.now).query) result }

    // The places that answer the template are the objects that meet the query, and each weighs what
    // it weighs in the query.
    ensures means { IfOk result (λ plan. TemplateMeans (prims_of view.now) (asked_view plan)) }

    // What its words and ids cost pays for looking them up; and where it has a meaning, for 24 steps
    // more for each set of links that its literals name.
    ensures work { steps.new ≤ steps.old + 64 * resolving (prims_of view.now)
        (read_view request.now).query }
    ensures room { IfOk result (λ plan. steps.new + 24 * length
        (sets_by_link (prims_of view.now) (asked_view plan).members)
        ≤ steps.old + 64 * resolving (prims_of view.now) (read_view request.now).query) }
    ensures later { steps.old ≤ steps.new }

    // Where a member of the root clause asks a property, something was looked at.
    ensures counted { OnOk result (asks_property (read_view request.now).query.members ≡ true
        → Rose steps.old steps.new) }
{
    // Each primitive of a view may hold its value, which a template that means its query rests on.
    let _end = view.end();
    let asked = asked_query(alloc, view, &request.query(), steps)?;
    plan_of(alloc, asked)
}
