//! Why a write is refused.
ghost use Rattle.std.specs.Prelude.{◌≡◌, ◌≢◌, ◌++◌, ◌∷◌, [], IfOk, map};
ghost use Rattle.gd_defs.specs.Asked.{bad_query};
ghost use Rattle.gd_defs.specs.Write.Links.{not_unique, unknown};
ghost use Rattle.gd_compile.specs.Fault.{code_view};
ghost use Rattle.gd_growing.specs.Carried.{fault_at};
ghost use Rattle.gd_growing.specs.declared.fault.LinkFault.TheVariants as link;
ghost use Rattle.gd_carry.specs.declared.fault.ChangeFault.TheVariants as fault;
ghost use Rattle.gd_carry.specs.Outcome.{fault_of};

use gd_base::id::Id;
use gd_base::memory::Memory;
use gd_base::text::Text;
use gd_compile::fault::{Code, Unknown, bad};
use gd_compile::path::longer;
use gd_growing::fault::LinkFault;
use gd_json::value::JsonText;
use gd_mql::fault::Path;
use gd_prim::What;
use gd_store::store::Full;
use std::alloc::Global;
use thiserror::Error;

/// Why a write is refused. Contracts see it as the fault of the definitions, `fault_of`.
#[derive(Debug, PartialEq, Eq, Drop, Error)]
pub enum ChangeFault {
    /// No object has this id.
    #[error("no object has the id {:?}", .id.as_str())]
    NoSuchId { id: JsonText },
    /// No property is meant by the word of the name at the end of this path.
    #[error("no property is meant at {path:?}")]
    NoSuchProperty { path: Path },
    /// What stands at the end of this path does not go with what its words stand for.
    #[error("the write is refused at {path:?}: {code}")]
    BadQuery { code: Code, path: Path },
    /// At the end of this path more is there than may be: two objects where a create looks for one,
    /// or another answer of a unique property.
    #[error("more than one is there at {path:?}")]
    NotUnique { path: Path },
    /// The key leads to another object.
    #[error("the key leads to the object at place {}", .holder.place())]
    KeyTaken { key: Text, holder: Id },
    /// The link that is to give way has a successor already.
    #[error("the link has the successor at place {}", .successor.place())]
    StaleVersion { previous: Id, successor: Id },
    /// A limit would be passed; `count` is the number that would be reached.
    #[error("the limit of {what:?} does not allow {count}")]
    Full { what: What, count: u64 },
    /// An allocation was refused.
    #[error("out of memory")]
    Memory,
}

impl From<Memory> for ChangeFault {
    ghost use Rattle.gd_carry.specs.declared.fault.ChangeFault.TheVariants.{Memory as no_memory};

    ghost from_gives = { λ _ fault. fault ≡ no_memory };

    fn from(_refused: Memory) -> ChangeFault {
        ChangeFault::Memory
    }
}

impl From<Full> for ChangeFault {
    ghost use Rattle.gd_carry.specs.declared.fault.ChangeFault.TheVariants.{Full as full};

    ghost from_gives = { λ passed fault. fault ≡ full passed.what passed.count };

    fn from(passed: Full) -> ChangeFault {
        ChangeFault::Full {
            what: passed.what,
            count: passed.count,
        }
    }
}

impl From<Unknown> for ChangeFault {
    ghost use Rattle.gd_carry.specs.Outcome.{from_unknown};

    ghost from_gives = { λ unknown fault. fault ≡ from_unknown unknown };

    fn from(unknown: Unknown) -> ChangeFault {
        match unknown {
            Unknown::NoSuchId { path } => ChangeFault::NoSuchId { id: path },
            Unknown::NoSuchProperty { path } => ChangeFault::NoSuchProperty { path },
            Unknown::BadQuery { code, path } => ChangeFault::BadQuery { code, path },
            Unknown::Memory => ChangeFault::Memory,
        }
    }
}

/// The path of these names from the root down.
fn path_of(alloc: Global, names: &[&str]) -> Result<Path, Memory>
    ensures { IfOk result (λ path. path ≡ map (λ name. name.now) names.now) }
{
    let mut copies = Vec::new(alloc);
    for name in names {
        copies.push(JsonText::from_str(alloc, name)?)?;
    }
    Ok(Path::from(copies))
}

/// The refusal at the end of a path, where more is there than may be.
pub(crate) fn too_many(alloc: Global, path: &[&str]) -> ChangeFault
    ensures { result ≢ fault.Memory → fault_of result
        ≡ not_unique (map (λ name. name.now) path.now) }
{
    match path_of(alloc, path) {
        Ok(path) => ChangeFault::NotUnique { path },
        Err(_) => ChangeFault::Memory,
    }
}

/// The refusal of a code at a member of the form at the end of a path.
fn bad_member<'a>(alloc: Global, code: Code, path: &[&'a str], member: &'a str) -> ChangeFault
    ensures { result ≢ fault.Memory → fault_of result
        ≡ unknown (bad_query (code_view code)
        (map (λ name. name.now) path.entry.now ++ member.now ∷ [])) }
{
    match longer(alloc, path, member) {
        Ok(below) => ChangeFault::from(bad(alloc, code, &below)),
        Err(_) => ChangeFault::Memory,
    }
}

/// The refusal of a link at a path.
pub(crate) fn at_path(alloc: Global, path: &[&str], refused: LinkFault) -> ChangeFault
    ensures { result ≢ fault.Memory → (refused ≢ link.Memory)
        × (fault_of result ≡ fault_at (map (λ name. name.now) path.now) refused) }
{
    match refused {
        LinkFault::NotUnique => too_many(alloc, path),
        LinkFault::KeyTaken { key, holder } => ChangeFault::KeyTaken { key, holder },
        LinkFault::StaleVersion {
            previous,
            successor,
        } => ChangeFault::StaleVersion {
            previous,
            successor,
        },
        LinkFault::BadConnect => bad_member(alloc, Code::BadConnect, path, "connect"),
        LinkFault::BadPrevious => bad_member(alloc, Code::BadPrevious, path, "previous"),
        LinkFault::Memory => ChangeFault::Memory,
    }
}
