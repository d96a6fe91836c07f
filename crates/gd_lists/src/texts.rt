//! Lists under texts.
ghost use Rattle.std.specs.Prelude.{◌≡◌, ℕ, ◌<◌, List, [], ◌∷◌, ◌++◌, unwrap_or, length, OnOk, IfOk};
ghost use Rattle.std.specs.Option.{option_copied};
ghost use Rattle.std.specs.Str.{bytes_eq};
ghost use Rattle.gd_postings.specs.Postings.{IsAbove};
ghost use Rattle.gd_lists.specs.Lists.{text_list, nothing};
ghost use Rattle.gd_lists.specs.Entries.{with_entry, without_entry};

use gd_base::id::Id;
use gd_base::memory::Memory;
use gd_base::text::Text;
use gd_postings::postings::Postings;
use indexmap::IndexMap;
use std::alloc::Global;
use std::marker::Model;

/// A list for each text. Contracts see the entries, in the order in which the lists were made.
#[derive(Drop)]
pub struct TextLists {
    lists: IndexMap<Text, Postings>,
    alloc: Global,
}

impl Model for TextLists {
    ghost use Rattle.std.specs.Prelude.{ℕ, List};
    ghost use Rattle.gd_postings.specs.Postings.{Places};

    ghost Value = { List (List ℕ × Places) };

    ghost view = { λ texts. texts.lists.entries };
}

/// The same lists again, entered in their order. Each text is hashed once.
fn copies(
    alloc: Global,
    lists: &IndexMap<Text, Postings>,
) -> Result<IndexMap<Text, Postings>, Memory>
    ensures { IfOk result (λ made. made.entries ≡ lists.now.entries) }
{
    let mut made = IndexMap::with_capacity(alloc, lists.len())?;
    for (text, list) in lists.iter() {
        let name = text.copy()?;
        let same = list.copy()?;
        drop(made.insert(name, same)?);
    }
    Ok(made)
}

impl TextLists {
    /// No lists.
    pub fn new(alloc: Global) -> TextLists
        ensures { result ≡ [] }
    {
        TextLists {
            lists: IndexMap::new(alloc),
            alloc,
        }
    }

    /// The same lists again.
    pub fn copy(&self) -> Result<TextLists, Memory>
        ensures { IfOk result (λ copy. copy ≡ self.now) }
    {
        Ok(TextLists {
            lists: copies(self.alloc, &self.lists)?,
            alloc: self.alloc,
        })
    }

    /// The list under a text, if one was made.
    pub fn list(&self, text: &Text) -> Option<&Postings>
        ensures { unwrap_or (option_copied result) nothing ≡ text_list self.now text.now }
    {
        self.lists.get(text)
    }

    /// Makes room for one identity more in the list under a text, which is copied where it is new.
    pub fn reserve(&mut self, text: &Text) -> Result<(), Memory>
        ensures room { OnOk result (0 < (text_list self.new text.now).spare) }
        ensures same { (t : List ℕ) → (text_list self.new t).ids ≡ (text_list self.old t).ids }
    {
        match self.lists.get_mut(text) {
            Some(list) => list.make_room(),
            None => {
                let mut list = Postings::new(self.alloc);
                list.make_room()?;
                self.lists.insert(text.copy()?, list)?;
                Ok(())
            }
        }
    }

    /// Adds an identity at the end of the list under a text, where room was made. It takes no
    /// memory.
    pub fn push(&mut self, text: &Text, id: Id)
        requires room { 0 < (text_list self.old text.now).spare }
        requires small { id < 2_097_151 }
        requires above { IsAbove (text_list self.old text.now).ids id }
        ensures { (t : List ℕ) → (text_list self.new t).ids ≡ with_entry (bytes_eq t text.now) id
            (text_list self.old t).ids }
    {
        match self.lists.get_mut(text) {
            Some(list) => list.push(id),
            None => unreachable!(),
        }
    }

    /// Takes the last identity of the list under a text away. It takes no memory.
    pub fn pop(&mut self, text: &Text)
        requires { 0 < length (text_list self.old text.now).ids }
        ensures { (t : List ℕ) → (text_list self.new t).ids ≡ without_entry (bytes_eq t text.now)
            (text_list self.old t).ids }
    {
        match self.lists.get_mut(text) {
            Some(list) => {
                let _last = list.pop_last();
            }
            None => unreachable!(),
        }
    }
}
