//! Paths of borrowed names, from the root down.
ghost use Rattle.std.specs.Prelude.{◌≡◌, ◌++◌, ◌∷◌, [], IfOk, map};

use gd_base::memory::Memory;
use std::alloc::Global;

/// The path to a member of this name below a path. `Memory`: an allocation was refused.
pub fn longer<'a>(alloc: Global, path: &[&'a str], name: &'a str) -> Result<Vec<&'a str>, Memory>
    ensures { IfOk result (λ longer. map (λ name. name.now) longer.items
        ≡ map (λ name. name.now) path.entry.now ++ name.now ∷ []) }
{
    let mut longer = Vec::with_capacity(alloc, path.len() + 1)?;
    longer.extend_from_slice(path)?;
    longer.push(name)?;
    Ok(longer)
}
