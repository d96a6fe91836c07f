//! Writes that are refused.
ghost use Rattle.std.specs.Prelude.{◌≡◌, ◌≢◌, ◌<◌, ◌^◌, IfOk};
ghost use Rattle.gd_defs.specs.Lines.{err_line as err_line_of};
ghost use Rattle.gd_runs.specs.Request.{change_refusal};
ghost use Rattle.gd_change.specs.Fault.{fault_of, IsSmall};
ghost use Rattle.gd_reply.specs.Refusals.{refusal_of, CountsFit};

use gd_base::memory::Memory;
use gd_change::fault::ChangeFault;
use gd_reply::lines::err_line;
use gd_reply::refusal::Refusal;
use std::alloc::Global;

/// Why a write is refused, as its reply tells it.
fn reason(fault: ChangeFault) -> Refusal
    requires small { IsSmall fault }
    requires memory { fault ≢ ChangeFault.Memory }
    ensures refusal { refusal_of result ≡ change_refusal (fault_of fault) }
    ensures counts { CountsFit result }
{
    match fault {
        ChangeFault::NoSuchId { id } => Refusal::NoSuchId { path: id },
        ChangeFault::NoSuchProperty { path } => Refusal::NoSuchProperty { path },
        ChangeFault::BadQuery { code, path } => Refusal::BadQuery { code, path },
        ChangeFault::NotUnique { path } => Refusal::NotUnique { path },
        ChangeFault::KeyTaken { key, holder } => Refusal::KeyTaken { key, holder },
        ChangeFault::StaleVersion {
            previous,
            successor,
        } => Refusal::StaleVersion {
            previous,
            successor,
        },
        ChangeFault::Full { what, count } => Refusal::Full { what, count },
        ChangeFault::Memory => unreachable!(),
    }
}

/// The reply line to a write that was refused over so many requests.
pub(crate) fn refused_line(
    alloc: Global,
    at: u32,
    line: u64,
    fault: ChangeFault,
) -> Result<Vec<u8>, Memory>
    requires line { line < 2 ^ 63 }
    requires small { IsSmall fault }
    requires memory { fault ≢ ChangeFault.Memory }
    ensures { IfOk result (λ reply. reply.items
        ≡ err_line_of at line (change_refusal (fault_of fault))) }
{
    err_line(alloc, at, line, &reason(fault))
}
