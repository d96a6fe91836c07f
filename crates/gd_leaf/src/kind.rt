//! What leaves walk.
ghost use Rattle.std.specs.Prelude.{◌≡◌, ◌+◌, ◌<◌, ◌≤◌, length, IfSome};
ghost use Rattle.gd_prim.specs.History.{prims_of};
ghost use Rattle.gd_postings.specs.Postings.{first_from};
ghost use Rattle.gd_leaf.specs.Leaf.{all_places};

use crate::listed::Listed;
use gd_base::id::Id;
use gd_base::steps::Steps;
use gd_prim::End;
use gd_store::view::View;

/// What a leaf walks.
#[derive(Drop)]
pub(crate) enum Kind {
    All,
    /// Those with this node at this end.
    Linkage(End, Id),
    /// Those that have the value with this number.
    Value(u32),
    Fixed(Listed),
}

/// The first of all places that is `from` or greater.
pub(crate) fn first_of_all<L>(view: &View<'_>, from: Id, steps: &mut Steps<L>) -> Option<Id>
    ensures first { result ≡ first_from from (all_places view.now) }
    ensures below { IfSome result (λ id. id < length (prims_of view.now)) }
    ensures work { steps.new ≤ steps.old + 22 }
    ensures later { steps.old ≤ steps.new }
{
    if from.place() >= view.end().place() {
        return None;
    }
    steps.tick();
    Some(from)
}
