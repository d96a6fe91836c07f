//! Primitives, batches of them, and the list with which every store begins.
#![tactic(auto)]

ghost use Rattle.std.specs.Prelude.{◌≡◌, ◌↔◌, [], ◌∷◌, ◌++◌, take, length, IsTrue, IfOk, OnOk};
ghost use Rattle.std.specs.Prelude.{OnErr};
ghost use Rattle.gd_prim.specs.End.{end_of};
ghost use Rattle.gd_prim.specs.Live.{language_of};
ghost use Rattle.gd_prim.specs.New as new;

pub mod builtin;
pub mod limits;
pub mod live;
pub mod well_formed;

use gd_base::datum::Datum;
use gd_base::id::Id;
use gd_base::memory::Memory;
use gd_base::text::Text;
use std::alloc::Global;
use std::marker::Model;

/// The language of texts that name none: `/lang/en`.
pub const ENGLISH: Id = Id(3);

/// The references by which primitives are found.
#[derive(Clone, Copy, Debug, PartialEq, Eq, PartialOrd, Ord, Hash)]
pub enum End {
    Left,
    Right,
    Typ,
    Scope,
}

/// One primitive: an object where `typ` is absent, else a link. It never changes; a newer version
/// is a primitive of its own that names the one before it.
#[derive(Drop)]
pub struct Primitive {
    /// The object that a link goes from.
    pub left: Option<Id>,
    /// The object that a link goes to, where it has one.
    pub right: Option<Id>,
    /// The property that a link is of.
    pub typ: Option<Id>,
    pub scope: Option<Id>,
    pub value: Datum,
    pub name: Option<Text>,
    /// The version before this one.
    pub previous: Option<Id>,
    /// False for a version that ends what the ones before it said.
    pub live: bool,
    /// When it was written, in milliseconds since 1970-01-01 in UTC.
    pub moment: u64,
    /// The language of a text, where it is not English.
    pub lang: Option<Id>,
}

impl Primitive {
    /// A live object of this moment, without references, value and name.
    pub fn object(moment: u64) -> Primitive
        ensures { result ≡ new.object moment }
    {
        Primitive {
            left: None,
            right: None,
            typ: None,
            scope: None,
            value: Datum::Empty,
            name: None,
            previous: None,
            live: true,
            moment,
            lang: None,
        }
    }

    /// A live link of this moment from one object to another or to none, without scope and name.
    pub fn link(left: Id, right: Option<Id>, typ: Id, value: Datum, moment: u64) -> Primitive
        ensures { result ≡ new.link left right typ value moment }
    {
        Primitive {
            left: Some(left),
            right,
            typ: Some(typ),
            scope: None,
            value,
            name: None,
            previous: None,
            live: true,
            moment,
            lang: None,
        }
    }

    /// The same as a newer version of the primitive at a place, live or not.
    pub fn newer(self, previous: Id, live: bool) -> Primitive
        ensures { result ≡ new.newer previous live self }
    {
        Primitive {
            previous: Some(previous),
            live,
            ..self
        }
    }

    /// The reference at this end, if there is one.
    pub fn end(&self, end: End) -> Option<Id>
        ensures { result ≡ end_of end self.now }
    {
        match end {
            End::Left => self.left,
            End::Right => self.right,
            End::Typ => self.typ,
            End::Scope => self.scope,
        }
    }

    /// The language of a text: the one that is named, or English. What is no text has none.
    pub fn language(&self) -> Option<Id>
        ensures { result ≡ language_of self.now }
    {
        match (&self.value, self.lang) {
            (Datum::Text(_), Some(lang)) => Some(lang),
            (Datum::Text(_), None) => Some(ENGLISH),
            _ => None,
        }
    }

    /// The same primitive again.
    pub fn copy(&self) -> Result<Primitive, Memory>
        ensures { IfOk result (λ prim. prim ≡ self.now) }
    {
        Ok(Primitive {
            left: self.left,
            right: self.right,
            typ: self.typ,
            scope: self.scope,
            value: self.value.copy()?,
            name: match &self.name {
                Some(name) => Some(name.copy()?),
                None => None,
            },
            previous: self.previous,
            live: self.live,
            moment: self.moment,
            lang: self.lang,
        })
    }
}

/// The same primitives again.
fn copies(alloc: Global, prims: &[Primitive]) -> Result<Vec<Primitive>, Memory>
    ensures { IfOk result (λ made. made.items ≡ prims.now) }
{
    let mut made = Vec::new(alloc);
    for prim in prims {
        made.push(prim.copy()?)?;
    }
    Ok(made)
}

/// Primitives in order. Contracts see them as their list.
#[derive(Drop)]
pub struct Prims {
    items: Vec<Primitive>,
}

impl Model for Prims {
    ghost use Rattle.std.specs.Prelude.{List};
    ghost use Rattle.gd_prim.specs.declared.Primitive.{Primitive};

    ghost Value = { List Primitive };

    ghost view = { λ p. p.items.items };
}

impl From<Vec<Primitive>> for Prims {
    ghost from_gives = { λ items prims. prims ≡ items.items };

    /// The primitives of the vector. It takes no memory.
    fn from(items: Vec<Primitive>) -> Prims {
        Prims { items }
    }
}

impl Prims {
    /// No primitives.
    pub fn new(alloc: Global) -> Prims
        ensures { result ≡ [] }
    {
        Prims {
            items: Vec::new(alloc),
        }
    }

    /// The vector of these primitives. It takes no memory.
    pub fn into_vec(self) -> Vec<Primitive>
        ensures { result.items ≡ self }
    {
        self.items
    }

    pub fn as_slice(&self) -> &[Primitive]
        ensures { result.now ≡ self.now }
    {
        self.items.as_slice()
    }

    pub fn len(&self) -> usize
        ensures { result ≡ length self.now }
    {
        self.items.len()
    }

    pub fn is_empty(&self) -> bool
        ensures { IsTrue result ↔ (self.now ≡ []) }
    {
        self.items.is_empty()
    }

    /// Puts a primitive at the end, or for want of memory leaves the list as it was.
    pub fn push(&mut self, prim: Primitive) -> Result<(), Memory>
        ensures ok { OnOk result (self.new ≡ self.old ++ prim ∷ []) }
        ensures err { OnErr result (self.new ≡ self.old) }
    {
        self.items.push(prim)?;
        Ok(())
    }

    /// Moves these primitives to the end, or for want of memory leaves the list as it was.
    pub fn append(&mut self, more: Prims) -> Result<(), Memory>
        ensures ok { OnOk result (self.new ≡ self.old ++ more) }
        ensures err { OnErr result (self.new ≡ self.old) }
    {
        let mut items = more.items;
        self.items.append(&mut items)?;
        Ok(())
    }

    /// Keeps the first `len` primitives, or all where there are fewer. It takes no memory.
    pub fn truncate(&mut self, len: usize)
        ensures { self.new ≡ take len self.old }
    {
        self.items.truncate(len);
    }

    /// The same primitives again.
    pub fn copy(&self) -> Result<Prims, Memory>
        ensures { IfOk result (λ prims. prims ≡ self.now) }
    {
        Ok(Prims {
            items: copies(*self.items.allocator(), self.items.as_slice())?,
        })
    }
}

/// What one request writes: primitives of one moment, in milliseconds since 1970-01-01 in UTC.
#[derive(Drop)]
pub struct Batch {
    pub moment: u64,
    pub prims: Prims,
}

impl Batch {
    /// The same batch again.
    pub fn copy(&self) -> Result<Batch, Memory>
        ensures { IfOk result (λ batch. batch ≡ self.now) }
    {
        Ok(Batch {
            moment: self.moment,
            prims: self.prims.copy()?,
        })
    }
}

/// What a limit of a store counts.
#[derive(Clone, Copy, Debug, PartialEq, Eq)]
pub enum What {
    /// The primitives of one batch.
    Batch,
    /// All primitives.
    Primitives,
    /// The bytes of all values and names that are texts.
    Text,
    /// All requests.
    Requests,
    /// The bytes of the write lines and results that were stored since the store was opened.
    History,
}
