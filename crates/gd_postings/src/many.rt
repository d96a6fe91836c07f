//! Identities in an allocation.
ghost use Rattle.std.specs.Prelude.{◌≡◌, ◌+◌, ◌<◌, ◌≤◌, [], ◌∷◌, ◌++◌, max, IfOk, IfSome, IfNone};
ghost use Rattle.std.specs.Prelude.{OnOk, OnErr};

use gd_base::id::Id;
use gd_base::memory::Memory;
use std::alloc::Global;
use std::marker::Model;

/// Identities, and for how many more there is room. Contracts see both.
#[derive(Debug, Drop)]
pub(crate) struct Many {
    ids: Vec<Id>,
    spare: usize,
}

impl Model for Many {
    ghost use Rattle.std.specs.Prelude.{◌+◌, ◌≤◌, vec_len, vec_capacity};
    ghost use Rattle.gd_postings.specs.Postings.{Places};

    ghost Value = { Places };

    ghost view = { λ many. record { ids = many.ids.items; spare = many.spare } };

    ghost invariant = { λ many. vec_len many.ids + many.spare ≤ vec_capacity many.ids };
}

impl Many {
    /// These three, and room for one more.
    pub(crate) fn of(alloc: Global, three: [Id; 3]) -> Result<Many, Memory>
        ensures ids { IfOk result (λ many. many.ids ≡ three) }
        ensures room { IfOk result (λ many. 0 < many.spare) }
    {
        let mut ids = Vec::from_array(alloc, three)?;
        ids.reserve(1)?;
        Ok(Many { ids, spare: 1 })
    }

    /// The same identities again, and as much room. It takes one allocation where there is none.
    pub(crate) fn copy(&self, alloc: Global) -> Result<Many, Memory>
        ensures { IfOk result (λ copy. copy ≡ self.now) }
    {
        let mut ids = self.ids.to_vec(alloc)?;
        ids.reserve(self.spare)?;
        Ok(Many {
            ids,
            spare: self.spare,
        })
    }

    /// The identities.
    pub(crate) fn as_slice(&self) -> &[Id]
        ensures { result.now ≡ self.now.ids }
    {
        self.ids.as_slice()
    }

    /// Makes room for one more. It never lowers the room, and `Memory` leaves all as it was.
    pub(crate) fn make_room(&mut self) -> Result<(), Memory>
        ensures ids { self.new.ids ≡ self.old.ids }
        ensures ok { OnOk result (self.new.spare ≡ max self.old.spare 1) }
        ensures err { OnErr result (self.new ≡ self.old) }
        ensures short { OnErr result (self.old.spare ≡ 0) }
    {
        if self.spare > 0 {
            return Ok(());
        }
        self.ids.reserve(1)?;
        self.spare = 1;
        Ok(())
    }

    /// Adds an identity at the end.
    pub(crate) fn push(&mut self, id: Id)
        requires { 0 < self.old.spare }
        ensures ids { self.new.ids ≡ self.old.ids ++ id ∷ [] }
        ensures spare { self.new.spare + 1 ≡ self.old.spare }
    {
        match self.ids.push(id) {
            Ok(()) => self.spare -= 1,
            Err(_) => unreachable!(),
        }
    }

    /// Takes the last identity away, if there is one.
    pub(crate) fn pop(&mut self) -> Option<Id>
        ensures some { IfSome result (λ id. (self.old.ids ≡ self.new.ids ++ id ∷ [])
            × (self.new.spare ≡ self.old.spare + 1)) }
        ensures none { IfNone result ((self.old.ids ≡ []) × (self.new ≡ self.old)) }
    {
        match self.ids.pop() {
            Some(id) => {
                self.spare += 1;
                Some(id)
            }
            None => None,
        }
    }
}
