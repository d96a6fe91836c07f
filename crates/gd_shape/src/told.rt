//! Walks that are told of the ids that a page prints.
ghost use Rattle.std.specs.Prelude.{◌≡◌, ◌∷◌, [], map, IfNone, IfSome};
ghost use Rattle.gd_frozen.specs.Meaning.{walk_of};

use gd_frozen::frozen::Walk;
use std::marker::Model;

/// The walks that are left while a page is printed: the next one spells the next id. Contracts see
/// them as a list.
#[derive(Drop)]
pub struct Told<'a> {
    walks: &'a [Walk],
}

impl<'a> Model for Told<'a> {
    ghost use Rattle.std.specs.Prelude.{List, map};
    ghost use Rattle.gd_bytes.specs.Frozen as defined;
    ghost use Rattle.gd_frozen.specs.Meaning.{walk_of};

    ghost Value = { List defined.Walk };

    ghost view = { λ told. map walk_of told.walks.now };
}

impl<'a> Told<'a> {
    /// These walks, in the order of the ids. It takes no memory.
    pub fn new(walks: &'a [Walk]) -> Told<'a>
        ensures { result ≡ map walk_of walks.now }
    {
        Told { walks }
    }

    /// Takes the next walk, if one is left.
    pub(crate) fn next(&mut self) -> Option<&'a Walk>
        ensures some { IfSome result (λ walk. self.old ≡ walk_of walk.now ∷ self.new) }
        ensures none { IfNone result (self.old ≡ []) }
        ensures left { IfNone result (self.new ≡ []) }
    {
        let (walk, rest) = self.walks.split_first()?;
        self.walks = rest;
        Some(walk)
    }
}
