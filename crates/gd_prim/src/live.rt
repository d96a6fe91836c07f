//! Which primitives of a list are live.
ghost use Rattle.std.specs.Prelude.{◌≡◌};
ghost use Rattle.gd_prim.specs.Live as defined;

use crate::Primitive;
use gd_base::id::Id;

/// Whether the reference is there and names this place.
pub fn refers(reference: Option<Id>, place: Id) -> bool
    ensures { result ≡ defined.refers reference place }
{
    match reference {
        Some(named) => named == place,
        None => false,
    }
}

/// Whether some primitive of the list has this place as `previous`.
pub(crate) fn has_successor(prims: &[Primitive], place: Id) -> bool
    ensures { result ≡ defined.has_successor prims.now place }
{
    prims.iter().any(|prim| refers(prim.previous, place))
}

/// Whether the place is marked live and no primitive of the list has it as `previous`. A place past
/// the end is not live.
pub fn live_at(prims: &[Primitive], id: Id) -> bool
    ensures { result ≡ defined.is_live prims.now id }
{
    match prims.get(id.place() as usize) {
        Some(prim) => prim.live && !has_successor(prims, id),
        None => false,
    }
}
