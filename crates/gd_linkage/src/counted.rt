//! Lists under nodes, and how long they are at most.
ghost use Rattle.std.specs.Prelude.{◌≡◌, ℕ, ◌+◌, ◌<◌, ◌≤◌, [], Some, unwrap_or, length, OnOk, IfOk};
ghost use Rattle.std.specs.Option.{ForSome, option_copied};
ghost use Rattle.gd_postings.specs.Postings.{IsAbove};
ghost use Rattle.gd_lists.specs.Lists.{id_list, nothing};
ghost use Rattle.gd_lists.specs.Entries.{is_of, with_entry, without_entry, spare_less};

use gd_base::id::Id;
use gd_base::memory::Memory;
use gd_lists::nodes::NodeLists;
use gd_postings::postings::Postings;
use std::alloc::Global;
use std::marker::Model;

/// A list for each node, and a number that no list is longer than. Contracts see the lists, in the
/// order of the nodes.
#[derive(Drop)]
pub struct CountedLists {
    lists: NodeLists,
    most: u32,
}

impl Model for CountedLists {
    ghost use Rattle.std.specs.Prelude.{List, ℕ, ◌≤◌, length};
    ghost use Rattle.gd_postings.specs.Postings.{Places};
    ghost use Rattle.gd_lists.specs.Lists.{id_list};

    ghost Value = { List Places };

    ghost view = { λ counted. counted.lists };

    ghost invariant = { λ counted. (n : ℕ) → length (id_list counted.lists n).ids ≤ counted.most };
}

/// How long the list of a node is.
fn len_of(lists: &NodeLists, node: Id) -> u32
    ensures { result ≡ length (id_list lists.now node).ids }
{
    match lists.list(node) {
        Some(list) => list.len(),
        None => 0,
    }
}

impl CountedLists {
    /// No lists.
    pub fn new(alloc: Global) -> CountedLists
        ensures { result ≡ [] }
    {
        CountedLists {
            lists: NodeLists::new(alloc),
            most: 0,
        }
    }

    /// The same lists again, and the same number that no list is longer than.
    pub fn copy(&self) -> Result<CountedLists, Memory>
        ensures { IfOk result (λ copy. copy ≡ self.now) }
    {
        Ok(CountedLists {
            lists: self.lists.copy()?,
            most: self.most,
        })
    }

    /// A number that no list is longer than. It does not fall where identities are taken away.
    pub fn most(&self) -> u32
        ensures { (n : ℕ) → length (id_list self.now n).ids ≤ result }
    {
        self.most
    }

    /// The list of a node, if one was made.
    pub fn list(&self, node: Id) -> Option<&Postings>
        ensures { unwrap_or (option_copied result) nothing ≡ id_list self.now node }
    {
        self.lists.list(node)
    }

    /// Makes room in the list of a node, where it is there. It lowers the room of no list.
    pub fn make_room(&mut self, node: Option<Id>) -> Result<(), Memory>
        ensures room { OnOk result (ForSome node (λ n. 0 < (id_list self.new n).spare)) }
        ensures same { (n : ℕ) → (id_list self.new n).ids ≡ (id_list self.old n).ids }
        ensures kept { (n : ℕ) → (id_list self.old n).spare ≤ (id_list self.new n).spare }
    {
        self.lists.make_room(node)
    }

    /// Adds an identity at the end of the list of a node, where room was made. It takes no memory.
    fn push(&mut self, node: Id, id: Id)
        requires room { 0 < (id_list self.old node).spare }
        requires small { id < 2_097_151 }
        requires above { IsAbove (id_list self.old node).ids id }
        ensures ids { (n : ℕ) → (id_list self.new n).ids ≡ with_entry (is_of (Some node) n) id
            (id_list self.old n).ids }
        ensures spare { (n : ℕ) → (id_list self.new n).spare ≡ spare_less (is_of (Some node) n)
            (id_list self.old n).spare }
    {
        self.lists.push(node, id);
        self.most = self.most.max(len_of(&self.lists, node));
    }

    /// Adds an identity at the end of the list of a node, if there is a node, where room was made.
    /// It takes no memory.
    pub fn enter(&mut self, node: Option<Id>, id: Id)
        requires room { ForSome node (λ n. 0 < (id_list self.old n).spare) }
        requires small { id < 2_097_151 }
        requires above { ForSome node (λ n. IsAbove (id_list self.old n).ids id) }
        ensures ids { (n : ℕ) → (id_list self.new n).ids ≡ with_entry (is_of node n) id
            (id_list self.old n).ids }
        ensures spare { (n : ℕ) → (id_list self.new n).spare ≡ spare_less (is_of node n)
            (id_list self.old n).spare }
    {
        if let Some(node) = node {
            self.push(node, id);
        }
    }

    /// Takes the last identity of the list of a node away, where it is there.
    pub fn take_back(&mut self, node: Option<Id>)
        requires { ForSome node (λ n. 0 < length (id_list self.old n).ids) }
        ensures { (n : ℕ) → (id_list self.new n).ids ≡ without_entry (is_of node n)
            (id_list self.old n).ids }
    {
        self.lists.take_back(node);
    }
}
