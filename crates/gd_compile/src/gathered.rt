//! What a clause asks, gathered part by part.
ghost use Rattle.std.specs.Prelude.{◌≡◌, [], OnOk, map};
ghost use Rattle.gd_defs.specs.Asked as defs;
ghost use Rattle.gd_plan.specs.Seen.{sort_key_view};
ghost use Rattle.gd_plan.specs.Asked.{put};
ghost use Rattle.gd_compile.specs.Walk.{clause_view, in_front};

use gd_base::memory::Memory;
use gd_plan::asked::{Member, SortKey};
use std::alloc::Global;

/// What a clause asks: its members, and what its rows are sorted by. Contracts see it by
/// `clause_view`.
#[derive(Drop)]
pub(crate) struct AskedClause {
    pub members: Vec<Member>,
    pub sort: Vec<SortKey>,
}

/// The front of a clause while it is walked; of sort keys the first ones stay. Contracts see it by
/// `in_front`.
#[derive(Drop)]
pub(crate) struct Gathered {
    pub members: Vec<Member>,
    pub sort: Option<Vec<SortKey>>,
}

impl Gathered {
    /// Nothing yet.
    pub fn new(alloc: Global) -> Gathered
        ensures { (c : defs.Clause) → in_front result c ≡ c }
    {
        Gathered {
            members: Vec::new(alloc),
            sort: None,
        }
    }

    /// Puts a member behind the others.
    pub fn push(&mut self, member: Member) -> Result<(), Memory>
        ensures { OnOk result ((c : defs.Clause)
            → in_front self.new c ≡ in_front self.old (put member c.0, c.1)) }
    {
        self.members.push(member)?;
        Ok(())
    }

    /// Keeps the sort keys, unless others stand already.
    pub fn sort_by(&mut self, keys: Vec<SortKey>)
        ensures { (c : defs.Clause) → in_front self.new c
            ≡ in_front self.old (c.0, map sort_key_view keys.items) }
    {
        if self.sort.is_none() {
            self.sort = Some(keys);
        }
    }

    /// What was gathered, where nothing is left of the clause.
    pub fn clause(self, alloc: Global) -> AskedClause
        ensures { clause_view result ≡ in_front self (defs.no_members, []) }
    {
        AskedClause {
            members: self.members,
            sort: self.sort.unwrap_or(Vec::new(alloc)),
        }
    }
}
