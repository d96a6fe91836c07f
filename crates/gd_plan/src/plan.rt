//! A query with the template for which it stands.
ghost use Rattle.std.specs.Prelude.{◌≡◌, ◌≢◌, ◌≤◌, ◌<◌, IfOk, MatchResult};
ghost use Rattle.gd_defs.specs.Plan as defs;
ghost use Rattle.gd_defs.specs.Template.{depth, max_depth};
ghost use Rattle.gd_template.specs.Built.{view};
ghost use Rattle.gd_plan.specs.Asked.{asked_view};

use crate::asked::Asked;
use crate::fault::PlanFault;
use crate::template::template_of;
use gd_template::template::Template;
use std::alloc::Global;
use std::marker::Model;

/// A query with its words looked up, and the template for which it stands. Contracts see it as what
/// is asked.
#[derive(Drop)]
pub struct Plan {
    template: Template,
    asked: Asked,
}

impl Model for Plan {
    ghost use Rattle.gd_plan.specs.declared.asked.Asked.{Asked};
    ghost use Rattle.gd_plan.specs.contracts.asked.Asked as codes;

    ghost Value = { Asked };

    ghost coded = { codes.the_row.coded };

    ghost use Rattle.std.specs.Prelude.{◌≡◌};
    ghost use Rattle.gd_defs.specs.Plan as defs;
    ghost use Rattle.gd_template.specs.Built.{view as template_view};
    ghost use Rattle.gd_plan.specs.Asked.{asked_view};

    ghost view = { λ p. p.asked };

    ghost invariant = { λ p. template_view p.template ≡ defs.template_of (asked_view p.asked) };
}

impl Plan {
    /// The plan of what is asked, which it takes over. `TooDeep`: more than 32 templates would lie
    /// one within another in the template for which it stands. `Memory`: an allocation was refused.
    pub fn new(alloc: Global, asked: Asked) -> Result<Plan, PlanFault>
        ensures made { IfOk result (λ plan. plan ≡ asked) }
        ensures depth { let made = defs.template_of (asked_view asked) in
            MatchResult result (λ _. depth made ≤ max_depth)
            (λ fault. fault ≢ PlanFault.Memory → max_depth < depth made) }
    {
        let template = template_of(alloc, &asked)?;
        Ok(Plan { template, asked })
    }

    /// The template for which the query stands: its answers are the rows, and its weights are
    /// theirs. It takes no memory.
    pub fn template(&self) -> &Template
        ensures { view result.now ≡ defs.template_of (asked_view self.now) }
    {
        &self.template
    }

    /// What is asked. It takes no memory.
    pub fn asked(&self) -> &Asked
        ensures { result.now ≡ self.now }
    {
        &self.asked
    }

    /// What is asked, taken out of the plan. It takes no memory.
    pub fn into_asked(self) -> Asked
        ensures { result ≡ self }
    {
        self.asked
    }
}
