//! Why a query has no meaning at a dateline.
ghost use Rattle.std.specs.Prelude.{◌≡◌, ◌≢◌, IfOk, map};
ghost use Rattle.gd_defs.specs.Asked.{bad_query, no_such_property, no_such_id};
ghost use Rattle.gd_compile.specs.declared.fault.Unknown.TheVariants as fault;
ghost use Rattle.gd_compile.specs.Fault.{code_view, unknown_of};

use gd_base::memory::Memory;
use gd_json::value::JsonText;
pub use gd_mql::fault::Code;
use gd_mql::fault::Path;
use std::alloc::Global;
use thiserror::Error;

/// Why a query of a right form has no meaning at a dateline.
#[derive(Debug, PartialEq, Eq, Drop, Error)]
pub enum Unknown {
    /// No object has this id.
    #[error("no object has the id {:?}", .path.as_str())]
    NoSuchId { path: JsonText },
    /// No property is meant by the word of the name at the end of this path.
    #[error("no property is meant at {path:?}")]
    NoSuchProperty { path: Path },
    /// What stands at the end of this path does not go with what its words stand for.
    #[error("the query is refused at {path:?}: {code}")]
    BadQuery { code: Code, path: Path },
    /// An allocation was refused.
    #[error("out of memory")]
    Memory,
}

impl From<Memory> for Unknown {
    ghost use Rattle.gd_compile.specs.declared.fault.Unknown.TheVariants.{Memory as no_memory};

    ghost from_gives = { λ _ fault. fault ≡ no_memory };

    fn from(_refused: Memory) -> Unknown {
        Unknown::Memory
    }
}

/// The path of these names from the root down.
fn path_of(alloc: Global, names: &[&str]) -> Result<Path, Memory>
    ensures { IfOk result (λ path. path ≡ map (λ name. name.now) names.now) }
{
    let mut copies = Vec::new(alloc);
    for name in names {
        copies.push(JsonText::from_str(alloc, name)?)?;
    }
    Ok(Path::from(copies))
}

/// The refusal of a code at the member to which names lead from the root down.
pub fn bad(alloc: Global, code: Code, path: &[&str]) -> Unknown
    ensures { result ≢ fault.Memory → unknown_of result ≡ bad_query (code_view code)
        (map (λ name. name.now) path.now) }
{
    match path_of(alloc, path) {
        Ok(path) => Unknown::BadQuery { code, path },
        Err(_) => Unknown::Memory,
    }
}

/// The refusal of the word of the member to which names lead from the root down: no property is
/// meant by it.
pub(crate) fn no_property(alloc: Global, path: &[&str]) -> Unknown
    ensures { result ≢ fault.Memory → unknown_of result
        ≡ no_such_property (map (λ name. name.now) path.now) }
{
    match path_of(alloc, path) {
        Ok(path) => Unknown::NoSuchProperty { path },
        Err(_) => Unknown::Memory,
    }
}

/// The refusal of an id that no object has.
pub(crate) fn no_id(alloc: Global, id: &str) -> Unknown
    ensures { result ≢ fault.Memory → unknown_of result ≡ no_such_id id.now }
{
    match JsonText::from_str(alloc, id) {
        Ok(path) => Unknown::NoSuchId { path },
        Err(_) => Unknown::Memory,
    }
}
