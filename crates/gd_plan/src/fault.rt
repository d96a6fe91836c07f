//! Why a query has no template.
use gd_base::memory::Memory;
use gd_template::template::TemplateFault;
use thiserror::Error;

/// Why a query has no template.
#[derive(Clone, Copy, Debug, PartialEq, Eq, Error)]
pub enum PlanFault {
    /// More than 32 templates would lie one within another.
    #[error("the template is too deep")]
    TooDeep,
    /// An allocation was refused.
    #[error("out of memory")]
    Memory,
}

impl From<Memory> for PlanFault {
    ghost use Rattle.std.specs.Prelude.{◌≡◌};
    ghost use Rattle.gd_plan.specs.declared.fault.PlanFault.TheVariants.{Memory as no_memory};

    ghost from_gives = { λ _ fault. fault ≡ no_memory };

    fn from(_refused: Memory) -> PlanFault {
        PlanFault::Memory
    }
}

impl From<TemplateFault> for PlanFault {
    ghost use Rattle.std.specs.Prelude.{◌≡◌};
    ghost use Rattle.gd_plan.specs.declared.fault.PlanFault.TheVariants.{TooDeep as too_deep};

    ghost from_gives = { λ _ fault. fault ≡ too_deep };

    fn from(_refused: TemplateFault) -> PlanFault {
        PlanFault::TooDeep
    }
}
