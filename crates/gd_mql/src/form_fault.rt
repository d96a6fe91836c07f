//! Why a value has not the form of a query or of a write.
ghost use Rattle.std.specs.Prelude.{◌≡◌, ◌∷◌, ◌++◌, [], Some, Option, option_map, IfOk, OnOk};
ghost use Rattle.gd_defs.specs.Query.{Fault};
ghost use Rattle.gd_fault.specs.Fault.{code_view};
ghost use Rattle.gd_form_laws.specs.Faults.{below as seen_below};
ghost use Rattle.gd_mql.specs.FormFault.{Refuses};

use gd_base::memory::Memory;
use gd_fault::fault::{Code, LineFault, Path};
use gd_json::value::JsonText;
use std::alloc::{AllocError, AllocFailed, Global};

/// A code at the member to which names lead, the innermost first; or want of memory.
#[derive(Drop)]
pub enum FormFault {
    Bad { code: Code, names: Vec<JsonText> },
    Memory,
}

impl From<FormFault> for LineFault {
    ghost use Rattle.gd_mql.specs.FormFault.{line_fault};

    ghost from_gives = { λ given fault. fault ≡ line_fault given };

    fn from(fault: FormFault) -> LineFault {
        match fault {
            FormFault::Bad { code, mut names } => {
                names.as_mut_slice().reverse();
                LineFault::BadQuery {
                    code,
                    path: Path::from(names),
                }
            }
            FormFault::Memory => LineFault::Memory,
        }
    }
}

impl From<Memory> for FormFault {
    ghost use Rattle.gd_mql.specs.declared.form_fault.FormFault.TheVariants.{Memory as no_memory};

    ghost from_gives = { λ _ fault. fault ≡ no_memory };

    fn from(_refused: Memory) -> FormFault {
        FormFault::Memory
    }
}

impl From<AllocError> for FormFault {
    ghost use Rattle.gd_mql.specs.declared.form_fault.FormFault.TheVariants.{Memory as no_memory};

    ghost from_gives = { λ _ fault. fault ≡ no_memory };

    fn from(_refused: AllocError) -> FormFault {
        FormFault::Memory
    }
}

impl<T: Drop> From<AllocFailed<T>> for FormFault {
    ghost use Rattle.gd_mql.specs.declared.form_fault.FormFault.TheVariants.{Memory as no_memory};

    ghost from_gives = { λ _ fault. fault ≡ no_memory };

    fn from(_refused: AllocFailed<T>) -> FormFault {
        FormFault::Memory
    }
}

fn push_name(alloc: Global, names: &mut Vec<JsonText>, name: &str) -> Result<(), Memory>
    ensures { OnOk result (names.new.items ≡ names.old.items ++ name.now ∷ []) }
{
    names.push(JsonText::from_str(alloc, name)?)?;
    Ok(())
}

/// The fault of this code at the member of this name.
pub fn fault_at(alloc: Global, code: Code, name: &str) -> FormFault
    ensures { Refuses (Some (record { code = code_view code; path = name.now ∷ [] })) result }
{
    let mut names = Vec::new(alloc);
    match push_name(alloc, &mut names, name) {
        Ok(()) => FormFault::Bad { code, names },
        Err(_) => FormFault::Memory,
    }
}

/// The fault of this code at the root.
pub fn root_fault(alloc: Global, code: Code) -> FormFault
    ensures { Refuses (Some (record { code = code_view code; path = [] })) result }
{
    FormFault::Bad {
        code,
        names: Vec::new(alloc),
    }
}

/// The fault, which was found below the member of this name, as it is seen from above that.
pub fn below(alloc: Global, name: &str, fault: FormFault) -> FormFault
    ensures { (expected : Option Fault) → Refuses expected fault
        → Refuses (option_map (seen_below name.now) expected) result }
{
    match fault {
        FormFault::Memory => FormFault::Memory,
        FormFault::Bad { code, mut names } => match push_name(alloc, &mut names, name) {
            Ok(()) => FormFault::Bad { code, names },
            Err(_) => FormFault::Memory,
        },
    }
}
