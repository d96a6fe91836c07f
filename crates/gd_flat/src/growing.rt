//! Trees that are made of their pieces, with a stack of the lists that are open.
ghost use Rattle.std.specs.Prelude.{◌≡◌, ◌++◌, ◌∷◌, [], IfOk, OnOk, Some, None, List, map};
ghost use Rattle.gd_tree.specs.Trees.{tree, tree_lists_of, trees_of as trees_in_order};
ghost use Rattle.gd_trees.specs.View.{view, trees_view};
ghost use Rattle.gd_frozen.specs.Pieces as pieces;
ghost use Rattle.gd_frozen.specs.declared.tree.Piece.TheVariants as piece;
ghost use Rattle.gd_flat.specs.Made.{last_of, growing_of};

use gd_base::id::Id;
use gd_base::memory::Memory;
use gd_frozen::tree::Piece;
use gd_trees::tree::{Tree, Trees};
use std::alloc::Global;

/// The last tree of a list, so far.
#[derive(Drop)]
pub(crate) struct Last {
    pub(crate) place: Id,
    pub(crate) lists: Vec<Trees>,
}

/// A list that is open: the trees before the one to which it belongs, and that one so far.
#[derive(Drop)]
pub(crate) struct Opened {
    pub(crate) done: Vec<Tree>,
    pub(crate) last: Last,
}

/// What pieces have made: the lists that are open around the current one, the innermost last, the
/// trees of the current one that are done, and its last one.
#[derive(Drop)]
pub(crate) struct Growing {
    pub(crate) outer: Vec<Opened>,
    pub(crate) done: Vec<Tree>,
    pub(crate) last: Option<Last>,
}

/// The tree of a place and these lists.
fn made(last: Last) -> Tree
    ensures { view result ≡ tree last.place (tree_lists_of (map trees_view last.lists.items)) }
{
    Tree {
        place: last.place,
        lists: last.lists,
    }
}

/// Trees in order.
pub(crate) fn in_order(items: Vec<Tree>) -> Trees
    ensures { trees_view result ≡ trees_in_order (map view items.items) }
{
    Trees { items }
}

/// The trees of a list, with the last one.
#[tactic(auto, using(crate::proofs::Made::one_more))]
pub(crate) fn settled(done: Vec<Tree>, last: Option<Last>) -> Result<Vec<Tree>, Memory>
    ensures { IfOk result (λ trees. map view trees.items ≡ pieces.settled (map view done.items)
        (last_of last)) }
{
    let mut done = done;
    match last {
        Some(last) => {
            done.push(made(last))?;
            Ok(done)
        }
        None => Ok(done),
    }
}

impl Growing {
    /// Nothing.
    pub(crate) fn new(alloc: Global) -> Growing
        ensures { growing_of result ≡ pieces.nothing_grown }
    {
        Growing {
            outer: Vec::new(alloc),
            done: Vec::new(alloc),
            last: None,
        }
    }

    /// A place comes.
    fn named(self, alloc: Global, place: Id) -> Result<Growing, Memory>
        ensures { IfOk result (λ growing. growing_of growing ≡ pieces.put (growing_of self)
            (piece.Place place)) }
    {
        let Growing { outer, done, last } = self;
        let done = settled(done, last)?;
        Ok(Growing {
            outer,
            done,
            last: Some(Last {
                place,
                lists: Vec::new(alloc),
            }),
        })
    }

    /// A list begins.
    #[tactic(auto, using(crate::proofs::Made::opens_more))]
    fn opened(self, alloc: Global) -> Result<Growing, Memory>
        ensures { IfOk result (λ growing. growing_of growing ≡ pieces.put (growing_of self)
            piece.Opens) }
    {
        let Growing { outer, done, last } = self;
        match last {
            Some(last) => {
                let mut outer = outer;
                outer.push(Opened { done, last })?;
                Ok(Growing {
                    outer,
                    done: Vec::new(alloc),
                    last: None,
                })
            }
            None => Ok(Growing {
                outer,
                done,
                last: None,
            }),
        }
    }

    /// The list ends.
    #[tactic(auto, using(crate::proofs::Made::opens_more))]
    fn closed(self) -> Result<Growing, Memory>
        ensures { IfOk result (λ growing. growing_of growing ≡ pieces.put (growing_of self)
            piece.Closes) }
    {
        let Growing { outer, done, last } = self;
        let done = settled(done, last)?;
        let mut outer = outer;
        match outer.pop() {
            Some(open) => {
                let Opened { done: before, last } = open;
                let Last { place, lists } = last;
                let mut lists = lists;
                lists.push(in_order(done))?;
                Ok(Growing {
                    outer,
                    done: before,
                    last: Some(Last { place, lists }),
                })
            }
            None => Ok(Growing {
                outer,
                done,
                last: None,
            }),
        }
    }

    /// One piece more.
    pub(crate) fn put(self, alloc: Global, piece: Piece) -> Result<Growing, Memory>
        ensures { IfOk result (λ growing. growing_of growing ≡ pieces.put (growing_of self) piece) }
    {
        match piece {
            Piece::Place(place) => self.named(alloc, place),
            Piece::Opens => self.opened(alloc),
            Piece::Closes => self.closed(),
        }
    }
}
