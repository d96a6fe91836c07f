//! Lists under nodes.
ghost use Rattle.std.specs.Prelude.{◌≡◌, ℕ, ◌+◌, ◌<◌, ◌≤◌, ◌==◌, [], ◌∷◌, ◌++◌, unwrap_or, length};
ghost use Rattle.std.specs.Prelude.{OnOk, OnErr, IfOk};
ghost use Rattle.std.specs.Option.{ForSome, option_copied};
ghost use Rattle.gd_postings.specs.Postings.{IsAbove};
ghost use Rattle.gd_lists.specs.Lists.{id_list, nothing};
ghost use Rattle.gd_lists.specs.Table.{by_node, number_at, IsTable};
ghost use Rattle.gd_lists.specs.Entries.{is_of, with_entry, without_entry, spare_less};

use gd_base::id::Id;
use gd_base::memory::Memory;
use gd_postings::postings::Postings;
use std::alloc::Global;
use std::marker::Model;

/// A list for each node up to one: a table by node of the numbers of the lists, and the lists, so
/// that a look-up is two steps, and a node without a list takes four bytes. Contracts see the
/// lists, in the order of the nodes.
#[derive(Drop)]
pub struct NodeLists {
    numbers: Vec<u32>,
    lists: Vec<Postings>,
    alloc: Global,
}

impl Model for NodeLists {
    ghost use Rattle.std.specs.Prelude.{List, length};
    ghost use Rattle.gd_postings.specs.Postings.{Places};
    ghost use Rattle.gd_lists.specs.Table.{by_node, IsTable};

    ghost Value = { List Places };

    ghost view = { λ nodes. by_node nodes.lists.items nodes.numbers.items };

    ghost invariant = { λ nodes. IsTable nodes.numbers.items (length nodes.lists.items) };
}

/// Adds nodes without a list, until there are so many.
fn lengthen(numbers: &mut Vec<u32>, len: usize) -> Result<(), Memory>
    ensures there { OnOk result (len ≤ length numbers.new.items) }
    ensures same { (n : ℕ) → number_at numbers.new.items n ≡ number_at numbers.old.items n }
{
    for _node in numbers.len()..len {
        numbers.push(0)?;
    }
    Ok(())
}

/// The number that the next list gets, or `Memory` where all numbers were given.
fn next_number(lists: &[Postings]) -> Result<u32, Memory>
    ensures { IfOk result (λ number. number ≡ length lists.now + 1) }
{
    let count = lists.len();
    if count >= u32::MAX as usize {
        return Err(Memory);
    }
    Ok(count as u32 + 1)
}

/// Gives a node of the table a list, if it has none.
fn give_list(
    numbers: &mut Vec<u32>,
    lists: &mut Vec<Postings>,
    node: usize,
    alloc: Global,
) -> Result<(), Memory>
    requires there { node < length numbers.old.items }
    requires table { IsTable numbers.old.items (length lists.old.items) }
    ensures given { OnOk result (0 < number_at numbers.new.items node) }
    ensures table { IsTable numbers.new.items (length lists.new.items) }
    ensures same { (n : ℕ) → (id_list (by_node lists.new.items numbers.new.items) n).ids
        ≡ (id_list (by_node lists.old.items numbers.old.items) n).ids }
    ensures kept { (n : ℕ) → (id_list (by_node lists.old.items numbers.old.items) n).spare
        ≤ (id_list (by_node lists.new.items numbers.new.items) n).spare }
{
    if numbers[node] > 0 {
        return Ok(());
    }
    let number = next_number(lists.as_slice())?;
    lists.push(Postings::new(alloc))?;
    numbers[node] = number;
    Ok(())
}

/// Where the list of a node stands.
fn index_of(numbers: &[u32], node: usize) -> usize
    requires { 0 < number_at numbers.now node }
    ensures { number_at numbers.now node ≡ result + 1 }
{
    numbers[node] as usize - 1
}

/// The same lists again.
fn copies(alloc: Global, lists: &[Postings]) -> Result<Vec<Postings>, Memory>
    ensures { IfOk result (λ made. made.items ≡ lists.now) }
{
    let mut made = Vec::with_capacity(alloc, lists.len())?;
    for list in lists {
        made.push(list.copy()?)?;
    }
    Ok(made)
}

impl NodeLists {
    /// No lists.
    pub fn new(alloc: Global) -> NodeLists
        ensures { result ≡ [] }
    {
        NodeLists {
            numbers: Vec::new(alloc),
            lists: Vec::new(alloc),
            alloc,
        }
    }

    /// The same lists again. No node is looked up.
    pub fn copy(&self) -> Result<NodeLists, Memory>
        ensures { IfOk result (λ copy. copy ≡ self.now) }
    {
        Ok(NodeLists {
            numbers: self.numbers.to_vec(self.alloc)?,
            lists: copies(self.alloc, self.lists.as_slice())?,
            alloc: self.alloc,
        })
    }

    /// The list of a node, if one was made.
    pub fn list(&self, node: Id) -> Option<&Postings>
        ensures { unwrap_or (option_copied result) nothing ≡ id_list self.now node }
    {
        match self.numbers.get(node.place() as usize) {
            Some(number) if *number > 0 => self.lists.get(*number as usize - 1),
            _ => None,
        }
    }

    /// Makes room for one identity more in the list of a node. It lowers the room of no list.
    pub fn reserve(&mut self, node: Id) -> Result<(), Memory>
        ensures room { OnOk result (0 < (id_list self.new node).spare) }
        ensures same { (n : ℕ) → (id_list self.new n).ids ≡ (id_list self.old n).ids }
        ensures kept { (n : ℕ) → (id_list self.old n).spare ≤ (id_list self.new n).spare }
    {
        let place = node.place() as usize;
        lengthen(&mut self.numbers, place + 1)?;
        give_list(&mut self.numbers, &mut self.lists, place, self.alloc)?;
        let index = index_of(self.numbers.as_slice(), place);
        self.lists[index].make_room()
    }

    /// Adds an identity at the end of the list of a node, where room was made. It takes no memory.
    pub fn push(&mut self, node: Id, id: Id)
        requires room { 0 < (id_list self.old node).spare }
        requires small { id < 2_097_151 }
        requires above { IsAbove (id_list self.old node).ids id }
        ensures ids { (n : ℕ) → (id_list self.new n).ids ≡ with_entry (node == n) id
            (id_list self.old n).ids }
        ensures spare { (n : ℕ) → (id_list self.new n).spare
            ≡ spare_less (node == n) (id_list self.old n).spare }
    {
        let index = index_of(self.numbers.as_slice(), node.place() as usize);
        self.lists[index].push(id);
    }

    /// Takes the last identity of the list of a node away. It takes no memory.
    pub fn pop(&mut self, node: Id)
        requires { 0 < length (id_list self.old node).ids }
        ensures { (n : ℕ) → (id_list self.new n).ids ≡ without_entry (node == n)
            (id_list self.old n).ids }
    {
        let index = index_of(self.numbers.as_slice(), node.place() as usize);
        let _last = self.lists[index].pop_last();
    }

    /// Makes room in the list of a node, where it is there. It lowers the room of no list.
    pub fn make_room(&mut self, node: Option<Id>) -> Result<(), Memory>
        ensures room { OnOk result (ForSome node (λ n. 0 < (id_list self.new n).spare)) }
        ensures same { (n : ℕ) → (id_list self.new n).ids ≡ (id_list self.old n).ids }
        ensures kept { (n : ℕ) → (id_list self.old n).spare ≤ (id_list self.new n).spare }
    {
        match node {
            Some(node) => self.reserve(node),
            None => Ok(()),
        }
    }

    /// Adds an identity at the end of the list of a node, where it is there.
    pub fn enter(&mut self, node: Option<Id>, id: Id)
        requires room { ForSome node (λ n. 0 < (id_list self.old n).spare) }
        requires small { id < 2_097_151 }
        requires above { ForSome node (λ n. IsAbove (id_list self.old n).ids id) }
        ensures ids { (n : ℕ) → (id_list self.new n).ids ≡ with_entry (is_of node n) id
            (id_list self.old n).ids }
        ensures spare { (n : ℕ) → (id_list self.new n).spare ≡ spare_less (is_of node n)
            (id_list self.old n).spare }
    {
        if let Some(node) = node {
            self.push(node, id);
        }
    }

    /// Takes the last identity of the list of a node away, where it is there.
    pub fn take_back(&mut self, node: Option<Id>)
        requires { ForSome node (λ n. 0 < length (id_list self.old n).ids) }
        ensures { (n : ℕ) → (id_list self.new n).ids ≡ without_entry (is_of node n)
            (id_list self.old n).ids }
    {
        if let Some(node) = node {
            self.pop(node);
        }
    }
}
