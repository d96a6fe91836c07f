//! The history of batches that all threads know, and fronts of it.
//!
//! The history only grows, and exists in proofs alone. It stands in groups, one for each
//! publishing; at run time one word counts the groups. A front is a token that the history has
//! begun with some list.
ghost use Rattle.std.specs.Prelude.{◌≡◌, ◌+◌, ◌<◌, ◌^◌, ◌++◌, [], length, None, MatchBool, OnOk};
ghost use Rattle.std.specs.Prelude.{OnErr};
ghost use mathlib.Core.List.{IsPrefix};
ghost use Rattle.gd_shared.specs.History.{counter_of};

use gd_base::memory::Memory;
use gd_prim::Batch;
use gd_store::store::Store;
use logbook::{Gain, Offer, Plain, Play, Rule, Seen, Start, Word};
use std::marker::Model;

/// The batches that one publishing adds. Contracts read an array as a list of any length.
pub(crate) type Group = [Batch; 0];

/// The word that counts the groups.
pub(crate) type Counter = Word<Group, u64, Counted>;

/// The rule of the history: its first word counts the groups, and its second stays unused.
pub struct Counted;

impl Rule<Group, u64> for Counted {
    ghost use Rattle.std.specs.Prelude.{[]};
    ghost use base.Fml.{ftrue};
    ghost use Rattle.gd_shared.specs.History.{CountsGroups};

    ghost holds = { λ cells groups. CountsGroups cells groups };

    ghost first = { [] };

    ghost hinted = { λ n groups. Unit {0} };

    ghost shows = { λ groups. [] };

    ghost keeps = { λ names groups. ftrue };

    ghost moves = { λ ask before after answer. Unit {0} };
}

/// Who adds a group gets nothing for it but that it was added.
pub struct NoGain;

impl Gain<Group, u64> for NoGain {
    ghost use base.Fml.{ftrue};

    ghost after = { λ names about answer. ftrue };
}

/// The step that adds a group.
pub struct AddsGroup;

impl Play<Group, u64> for AddsGroup {
    ghost use Rattle.gd_shared.specs.History.{Adds};

    ghost then = { Adds };
}

/// The first group is the list of a store.
pub struct WholeStore;

impl Plain<Store, Group, u64> for WholeStore {
    ghost use Rattle.std.specs.Prelude.{None};

    ghost ask = { λ store. store };

    ghost state = { λ store. None };
}

/// A front of the history: the history begins with its list. Contracts see which history it is of,
/// and the list.
#[derive(Drop)]
pub struct Front {
    batches: u32,
    groups: u64,
    seen: Seen<Group, u64, Counted>,
}

impl Model for Front {
    ghost use Rattle.std.specs.Prelude.{◌≡◌, length};
    ghost use Rattle.gd_shared.specs.History.{FrontValue, batches_of};

    ghost Value = { FrontValue };

    ghost view = { λ front. record { history = front.seen.book; list = batches_of front.seen.log } };

    ghost invariant = { λ front. (front.batches ≡ length (batches_of front.seen.log))
        × (front.groups ≡ length front.seen.log) };
}

impl Front {
    /// A new history without a batch, and the word that counts its groups.
    pub(crate) fn of_new_history() -> (Counter, Front)
        ensures none { result.1.list ≡ [] }
        ensures counter { result.0 ≡ counter_of result.1.history }
    {
        let (seen, mut right, _other) = Seen::open(Start::alone(), 0, 0);
        let front = Front {
            batches: 0,
            groups: 0,
            seen,
        };
        (Word::tracked(0, &mut right), front)
    }

    /// How many batches its list has.
    pub fn requests(&self) -> u32
        ensures { result ≡ length self.now.list }
    {
        self.batches
    }

    /// The same front again.
    pub(crate) fn copy(&self) -> Front
        ensures { result ≡ self.now }
    {
        Front {
            batches: self.batches,
            groups: self.groups,
            seen: self.seen.again(),
        }
    }

    /// Adds to the history, behind this front, the group that `P` asks of a value, which has so
    /// many batches. `Memory`: the history has no place for a further group, or goes on behind this
    /// front already, and the front stays as it was.
    pub(crate) fn extend<X, P: Plain<X, Group, u64>>(
        &mut self,
        counter: &Counter,
        about: &X,
        more: u32,
    ) -> Result<(), Memory>
        requires counter { counter.now ≡ counter_of self.old.history }
        requires state { P.state about.now ≡ None }
        requires more { more ≡ length (P.ask about.now) }
        requires few { length self.old.list + more < 2 ^ 32 }
        ensures history { self.new.history ≡ self.old.history }
        ensures added { OnOk result (self.new.list ≡ self.old.list ++ P.ask about.now) }
        ensures stays { OnErr result (self.new.list ≡ self.old.list) }
    {
        let groups = self.groups;
        if groups == u64::MAX {
            return Err(Memory);
        }
        let mut seen = self.seen.again();
        let mut offer: Offer<Group, u64, Counted, NoGain> = seen.plain::<NoGain, X, P>(about);
        let mut pen = seen.no_pen();
        let found = counter.compare_exchange::<AddsGroup, NoGain>(
            groups,
            groups + 1,
            &mut seen,
            &mut offer,
            &mut pen,
        );
        if found != groups {
            return Err(Memory);
        }
        self.seen = seen;
        self.groups = groups + 1;
        self.batches += more;
        Ok(())
    }

    /// Whether another front of the history, which is as long or longer, begins with this one. If
    /// not, this one is longer and begins with the other.
    pub fn begins(&self, other: &Front) -> bool
        requires { other.now.history ≡ self.now.history }
        ensures { MatchBool result (IsPrefix self.now.list other.now.list)
            (IsPrefix other.now.list self.now.list
            × (length other.now.list < length self.now.list)) }
    {
        let mut both = self.seen.again();
        both.learn(&other.seen);
        self.batches <= other.batches
    }
}
