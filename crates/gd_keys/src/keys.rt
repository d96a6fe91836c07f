//! The places of key links.
ghost use Rattle.std.specs.Prelude.{◌≡◌, ℕ, ◌<◌, List, [], Some, length, OnOk, OnErr, IfOk};
ghost use Rattle.std.specs.Option.{ForSome, option_copied};
ghost use Rattle.gd_postings.specs.Postings.{IsAbove};
ghost use Rattle.gd_keys.specs.Keys.{key_list, object_list, is_under, is_of, with_entry};
ghost use Rattle.gd_keys.specs.Keys.{without_entry, last_of, SameIds};

use gd_base::id::Id;
use gd_base::memory::Memory;
use gd_base::text::Text;
use gd_lists::nodes::NodeLists;
use gd_lists::pairs::PairLists;
use gd_postings::postings::Postings;
use std::alloc::Global;
use std::marker::Model;

/// The places of key links: a rising list for each namespace and key, and one for each object.
/// Contracts see the lists through `key_list` and `object_list`. A list that was never made is as
/// an empty one.
#[derive(Drop)]
pub struct Keys {
    by_key: PairLists,
    by_object: NodeLists,
    empty: Postings,
}

impl Model for Keys {
    ghost use Rattle.std.specs.Prelude.{◌≡◌, []};
    ghost use Rattle.gd_keys.specs.Keys.{KeysValue};

    ghost Value = { KeysValue };

    ghost view = { λ keys. record { by_key = keys.by_key; by_object = keys.by_object } };

    ghost invariant = { λ keys. keys.empty.ids ≡ [] };
}

impl Keys {
    /// All lists are empty. It takes no memory.
    pub fn new(alloc: Global) -> Keys
        ensures by_key { (n : ℕ) (k : List ℕ) → (key_list result n k).ids ≡ [] }
        ensures by_object { (o : ℕ) → (object_list result o).ids ≡ [] }
    {
        Keys {
            by_key: PairLists::new(alloc),
            by_object: NodeLists::new(alloc),
            empty: Postings::new(alloc),
        }
    }

    /// The same places again. No list is looked up.
    pub fn copy(&self) -> Result<Keys, Memory>
        ensures { IfOk result (λ copy. copy ≡ self.now) }
    {
        Ok(Keys {
            by_key: self.by_key.copy()?,
            by_object: self.by_object.copy()?,
            empty: self.empty.copy()?,
        })
    }

    /// The list of a namespace and a key.
    pub fn by_key(&self, namespace: Id, key: &Text) -> &Postings
        ensures { result.now.ids ≡ (key_list self.now namespace key.now).ids }
    {
        match self.by_key.list(namespace, key) {
            Some(list) => list,
            None => &self.empty,
        }
    }

    /// The list of an object.
    pub fn by_object(&self, object: Id) -> &Postings
        ensures { result.now.ids ≡ (object_list self.now object).ids }
    {
        match self.by_object.list(object) {
            Some(list) => list,
            None => &self.empty,
        }
    }

    /// Enters a key link at the end of the list of its namespace and key, if it has both, and of
    /// the list of its object, if it has one. Every other list stays. `Memory` leaves the
    /// identities of every list as they were.
    pub fn add(
        &mut self,
        namespace: Option<Id>,
        key: Option<&Text>,
        object: Option<Id>,
        id: Id,
    ) -> Result<(), Memory>
        requires small { id < 2_097_151 }
        requires above_keys { ForSome namespace
            (λ n. ForSome (option_copied key) (λ k. IsAbove (key_list self.old n k).ids id)) }
        requires above_objects { ForSome object (λ o. IsAbove (object_list self.old o).ids id) }
        ensures by_key { OnOk result ((n : ℕ) (k : List ℕ) → (key_list self.new n k).ids
            ≡ with_entry (is_under namespace (option_copied key.entry) n k) id
            (key_list self.old n k).ids) }
        ensures by_object { OnOk result ((o : ℕ) → (object_list self.new o).ids
            ≡ with_entry (is_of object o) id (object_list self.old o).ids) }
        ensures err { OnErr result (SameIds self.old self.new) }
    {
        match key {
            Some(key) => self.add_with_key(namespace, key, object, id),
            None => self.add_to_object(object, id),
        }
    }

    /// Takes the key link that was entered last away again, from the list of its namespace and key,
    /// if it has both, and from the list of its object, if it has one. Every other list stays. It
    /// takes no memory.
    pub fn retract(&mut self, namespace: Option<Id>, key: Option<&Text>, object: Option<Id>)
        requires some_keys { ForSome namespace
            (λ n. ForSome (option_copied key) (λ k. 0 < length (key_list self.old n k).ids)) }
        requires some_objects { ForSome object (λ o. 0 < length (object_list self.old o).ids) }
        requires same_last { ForSome namespace
            (λ n. ForSome (option_copied key)
            (λ k. ForSome object (λ o. last_of (key_list self.old n k).ids
            ≡ last_of (object_list self.old o).ids))) }
        ensures by_key { (n : ℕ) (k : List ℕ) → (key_list self.new n k).ids
            ≡ without_entry (is_under namespace (option_copied key.entry) n k)
            (key_list self.old n k).ids }
        ensures by_object { (o : ℕ) → (object_list self.new o).ids ≡ without_entry (is_of object o)
            (object_list self.old o).ids }
    {
        self.by_object.take_back(object);
        if let Some(key) = key {
            self.by_key.take_back(namespace, key);
        }
    }

    /// Enters a key link that has no key.
    fn add_to_object(&mut self, object: Option<Id>, id: Id) -> Result<(), Memory>
        requires small { id < 2_097_151 }
        requires above { ForSome object (λ o. IsAbove (object_list self.old o).ids id) }
        ensures by_key { (n : ℕ) (k : List ℕ) → (key_list self.new n k).ids
            ≡ (key_list self.old n k).ids }
        ensures by_object { OnOk result ((o : ℕ) → (object_list self.new o).ids
            ≡ with_entry (is_of object o) id (object_list self.old o).ids) }
        ensures err { OnErr result ((o : ℕ) → (object_list self.new o).ids
            ≡ (object_list self.old o).ids) }
    {
        let entered = object;
        self.by_object.make_room(object)?;
        self.by_object.enter(entered, id);
        Ok(())
    }

    /// Enters a key link that has a key.
    fn add_with_key(
        &mut self,
        namespace: Option<Id>,
        key: &Text,
        object: Option<Id>,
        id: Id,
    ) -> Result<(), Memory>
        requires small { id < 2_097_151 }
        requires above_keys { ForSome namespace
            (λ n. IsAbove (key_list self.old n key.now).ids id) }
        requires above_objects { ForSome object (λ o. IsAbove (object_list self.old o).ids id) }
        ensures by_key { OnOk result ((n : ℕ) (k : List ℕ) → (key_list self.new n k).ids
            ≡ with_entry (is_under namespace (Some key.now) n k) id (key_list self.old n k).ids) }
        ensures by_object { OnOk result ((o : ℕ) → (object_list self.new o).ids
            ≡ with_entry (is_of object o) id (object_list self.old o).ids) }
        ensures err { OnErr result (SameIds self.old self.new) }
    {
        let (entered_namespace, entered_object) = (namespace, object);
        self.by_key.make_room(namespace, key)?;
        self.by_object.make_room(object)?;
        self.by_key.enter(entered_namespace, key, id);
        self.by_object.enter(entered_object, id);
        Ok(())
    }
}
