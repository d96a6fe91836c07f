//! Looking at the places of a view.
ghost use Rattle.std.specs.Prelude.{◌≡◌, ◌+◌, ◌≤◌, ◌<◌, length, IsTrue, IsSome, option_map};
ghost use Rattle.std.specs.Prelude.{slice_get};
ghost use Rattle.gd_base.specs.Counts.{Rose};
ghost use Rattle.gd_prim.specs.History.{prims_of};
ghost use Rattle.gd_prim.specs.Live as live;

use gd_base::id::Id;
use gd_base::steps::Steps;
use gd_prim::Primitive;
use gd_store::view::View;

/// The primitive at a place, if there is one.
pub fn prim_at<'a, L>(view: &View<'a>, place: Id, steps: &mut Steps<L>) -> Option<&'a Primitive>
    ensures prim { option_map (λ prim. prim.now) result ≡ slice_get (prims_of view.now) place }
    ensures work { steps.new ≤ steps.old + 1 }
    ensures later { steps.old ≤ steps.new }
    ensures counted { place < length (prims_of view.now) → Rose steps.old steps.new }
    ensures found { IsSome result → Rose steps.old steps.new }
{
    if place.place() < view.end().place() {
        Some(view.primitive(place, steps))
    } else {
        None
    }
}

/// Whether an object stands at a place.
pub fn is_object<L>(view: &View<'_>, place: Id, steps: &mut Steps<L>) -> bool
    ensures object { result ≡ live.is_object (prims_of view.now) place }
    ensures work { steps.new ≤ steps.old + 3 }
    ensures later { steps.old ≤ steps.new }
    ensures counted { place < length (prims_of view.now) → Rose steps.old steps.new }
    ensures found { IsTrue result → Rose steps.old steps.new }
{
    match prim_at(view, place, steps) {
        Some(prim) => prim.typ.is_none() && view.is_live(place, steps),
        None => false,
    }
}

/// The left end of the primitive at a place, if it has one.
pub fn left_at<L>(view: &View<'_>, place: Id, steps: &mut Steps<L>) -> Option<Id>
    ensures left { result ≡ live.end_at (λ p. p.left) (prims_of view.now) place }
    ensures work { steps.new ≤ steps.old + 1 }
    ensures later { steps.old ≤ steps.new }
    ensures counted { place < length (prims_of view.now) → Rose steps.old steps.new }
{
    prim_at(view, place, steps)?.left
}

/// The right end of the primitive at a place, if it has one.
pub fn right_at<L>(view: &View<'_>, place: Id, steps: &mut Steps<L>) -> Option<Id>
    ensures right { result ≡ live.end_at (λ p. p.right) (prims_of view.now) place }
    ensures work { steps.new ≤ steps.old + 1 }
    ensures later { steps.old ≤ steps.new }
    ensures counted { place < length (prims_of view.now) → Rose steps.old steps.new }
{
    prim_at(view, place, steps)?.right
}
