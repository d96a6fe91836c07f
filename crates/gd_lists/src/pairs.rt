//! Lists under a namespace and a key.
ghost use Rattle.std.specs.Prelude.{◌≡◌, ℕ, ◌<◌, ◌==◌, ◌&&◌, List, [], ◌∷◌, ◌++◌, unwrap_or, Some};
ghost use Rattle.std.specs.Prelude.{length, OnOk, IfOk};
ghost use Rattle.std.specs.Option.{ForSome, option_copied};
ghost use Rattle.std.specs.Str.{bytes_eq};
ghost use Rattle.gd_postings.specs.Postings.{IsAbove};
ghost use Rattle.gd_lists.specs.Lists.{pair_list, nothing};
ghost use Rattle.gd_lists.specs.Entries.{is_under, with_entry, without_entry};

use crate::texts::TextLists;
use gd_base::id::Id;
use gd_base::memory::Memory;
use gd_base::text::Text;
use gd_postings::postings::Postings;
use std::alloc::Global;
use std::collections::BTreeMap;
use std::marker::Model;

/// The lists of each namespace. Contracts see the entries, in the order of the namespaces.
#[derive(Drop)]
pub struct PairLists {
    texts: BTreeMap<Id, TextLists>,
    alloc: Global,
}

impl Model for PairLists {
    ghost use Rattle.std.specs.Prelude.{ℕ, List};
    ghost use Rattle.gd_postings.specs.Postings.{Places};

    ghost Value = { List (ℕ × List (List ℕ × Places)) };

    ghost view = { λ names. names.texts.entries };
}

/// The same lists again, entered in their order.
fn copies(alloc: Global, texts: &BTreeMap<Id, TextLists>) -> Result<BTreeMap<Id, TextLists>, Memory>
    ensures { IfOk result (λ made. made.entries ≡ texts.now.entries) }
{
    let mut made = BTreeMap::new(alloc);
    for (namespace, lists) in texts.iter() {
        let same = lists.copy()?;
        drop(made.insert(*namespace, same)?);
    }
    Ok(made)
}

impl PairLists {
    /// No lists.
    pub fn new(alloc: Global) -> PairLists
        ensures { result ≡ [] }
    {
        PairLists {
            texts: BTreeMap::new(alloc),
            alloc,
        }
    }

    /// The same lists again.
    pub fn copy(&self) -> Result<PairLists, Memory>
        ensures { IfOk result (λ copy. copy ≡ self.now) }
    {
        Ok(PairLists {
            texts: copies(self.alloc, &self.texts)?,
            alloc: self.alloc,
        })
    }

    /// The list of a namespace and a key, if one was made.
    pub fn list(&self, namespace: Id, key: &Text) -> Option<&Postings>
        ensures { unwrap_or (option_copied result) nothing ≡ pair_list self.now namespace key.now }
    {
        match self.texts.get(&namespace) {
            Some(texts) => texts.list(key),
            None => None,
        }
    }

    /// Makes room for one identity more in the list of a namespace and a key.
    pub fn reserve(&mut self, namespace: Id, key: &Text) -> Result<(), Memory>
        ensures room { OnOk result (0 < (pair_list self.new namespace key.now).spare) }
        ensures same { (n : ℕ) (k : List ℕ) → (pair_list self.new n k).ids
            ≡ (pair_list self.old n k).ids }
    {
        match self.texts.get_mut(&namespace) {
            Some(texts) => texts.reserve(key),
            None => {
                let mut texts = TextLists::new(self.alloc);
                texts.reserve(key)?;
                self.texts.insert(namespace, texts)?;
                Ok(())
            }
        }
    }

    /// Adds an identity at the end of the list of a namespace and a key, where room was made. It
    /// takes no memory.
    pub fn push(&mut self, namespace: Id, key: &Text, id: Id)
        requires room { 0 < (pair_list self.old namespace key.now).spare }
        requires small { id < 2_097_151 }
        requires above { IsAbove (pair_list self.old namespace key.now).ids id }
        ensures { (n : ℕ) (k : List ℕ) → (pair_list self.new n k).ids
            ≡ with_entry (namespace == n && bytes_eq k key.now) id (pair_list self.old n k).ids }
    {
        match self.texts.get_mut(&namespace) {
            Some(texts) => texts.push(key, id),
            None => unreachable!(),
        }
    }

    /// Takes the last identity of the list of a namespace and a key away. It takes no memory.
    pub fn pop(&mut self, namespace: Id, key: &Text)
        requires { 0 < length (pair_list self.old namespace key.now).ids }
        ensures { (n : ℕ) (k : List ℕ) → (pair_list self.new n k).ids
            ≡ without_entry (namespace == n && bytes_eq k key.now) (pair_list self.old n k).ids }
    {
        match self.texts.get_mut(&namespace) {
            Some(texts) => texts.pop(key),
            None => unreachable!(),
        }
    }

    /// Makes room in the list of a namespace and a key, where there is a namespace.
    pub fn make_room(&mut self, namespace: Option<Id>, key: &Text) -> Result<(), Memory>
        ensures room { OnOk result (ForSome namespace
            (λ n. 0 < (pair_list self.new n key.now).spare)) }
        ensures same { (n : ℕ) (k : List ℕ) → (pair_list self.new n k).ids
            ≡ (pair_list self.old n k).ids }
    {
        match namespace {
            Some(namespace) => self.reserve(namespace, key),
            None => Ok(()),
        }
    }

    /// Adds an identity at the end of the list of a namespace and a key, where there is a
    /// namespace.
    pub fn enter(&mut self, namespace: Option<Id>, key: &Text, id: Id)
        requires room { ForSome namespace (λ n. 0 < (pair_list self.old n key.now).spare) }
        requires small { id < 2_097_151 }
        requires above { ForSome namespace (λ n. IsAbove (pair_list self.old n key.now).ids id) }
        ensures { (n : ℕ) (k : List ℕ) → (pair_list self.new n k).ids
            ≡ with_entry (is_under namespace (Some key.now) n k) id (pair_list self.old n k).ids }
    {
        if let Some(namespace) = namespace {
            self.push(namespace, key, id);
        }
    }

    /// Takes the last identity of the list of a namespace and a key away, where there is a
    /// namespace.
    pub fn take_back(&mut self, namespace: Option<Id>, key: &Text)
        requires { ForSome namespace (λ n. 0 < length (pair_list self.old n key.now).ids) }
        ensures { (n : ℕ) (k : List ℕ) → (pair_list self.new n k).ids
            ≡ without_entry (is_under namespace (Some key.now) n k) (pair_list self.old n k).ids }
    {
        if let Some(namespace) = namespace {
            self.pop(namespace, key);
        }
    }
}
