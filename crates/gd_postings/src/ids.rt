//! Where the identities of a list stand.
ghost use Rattle.std.specs.Prelude.{◌≡◌, ◌+◌, ◌<◌, ◌≤◌, [], ◌∷◌, ◌++◌, IfSome, IfNone, OnOk, OnErr, IfOk};
ghost use Rattle.gd_postings.specs.Ids.{ids_of, room_of};

use crate::many::Many;
use gd_base::id::Id;
use gd_base::memory::Memory;
use std::alloc::Global;

/// Up to three identities stand in the value itself, and more in an allocation.
#[derive(Debug, Drop)]
pub(crate) enum Ids {
    Empty,
    One([Id; 1]),
    Two([Id; 2]),
    Three([Id; 3]),
    Many(Box<Many>),
}

impl Ids {
    /// The identities.
    pub(crate) fn as_slice(&self) -> &[Id]
        ensures { result.now ≡ ids_of self.now }
    {
        match self {
            Ids::Empty => &[],
            Ids::One(ids) => ids.as_slice(),
            Ids::Two(ids) => ids.as_slice(),
            Ids::Three(ids) => ids.as_slice(),
            Ids::Many(many) => many.as_slice(),
        }
    }

    /// The same identities again, and as much room.
    pub(crate) fn copy(&self, alloc: Global) -> Result<Ids, Memory>
        ensures ids { IfOk result (λ copy. ids_of copy ≡ ids_of self.now) }
        ensures room { IfOk result (λ copy. room_of copy ≡ room_of self.now) }
    {
        match self {
            Ids::Empty => Ok(Ids::Empty),
            Ids::One(ids) => Ok(Ids::One(*ids)),
            Ids::Two(ids) => Ok(Ids::Two(*ids)),
            Ids::Three(ids) => Ok(Ids::Three(*ids)),
            Ids::Many(many) => Ok(Ids::Many(Box::new(alloc, many.copy(alloc)?)?)),
        }
    }

    /// Makes room for one more. It never lowers the room, and `Memory` leaves all as it was.
    pub(crate) fn make_room(&mut self, alloc: Global) -> Result<(), Memory>
        ensures ids { ids_of self.new ≡ ids_of self.old }
        ensures ok { OnOk result (0 < room_of self.new) }
        ensures kept { room_of self.old ≤ room_of self.new }
        ensures err { OnErr result (room_of self.new ≡ room_of self.old) }
        ensures short { OnErr result (room_of self.old ≡ 0) }
    {
        match self {
            Ids::Three(three) => {
                let many = Many::of(alloc, *three)?;
                *self = Ids::Many(Box::new(alloc, many)?);
                Ok(())
            }
            Ids::Many(many) => many.make_room(),
            _ => Ok(()),
        }
    }

    /// Adds an identity at the end.
    pub(crate) fn push(&mut self, id: Id)
        requires { 0 < room_of self.old }
        ensures ids { ids_of self.new ≡ ids_of self.old ++ id ∷ [] }
        ensures room { room_of self.new + 1 ≡ room_of self.old }
    {
        match self {
            Ids::Empty => *self = Ids::One([id]),
            Ids::One(ids) => *self = Ids::Two([ids[0], id]),
            Ids::Two(ids) => *self = Ids::Three([ids[0], ids[1], id]),
            Ids::Three(_) => unreachable!(),
            Ids::Many(many) => many.push(id),
        }
    }

    /// Takes the last identity away, if there is one.
    pub(crate) fn pop(&mut self) -> Option<Id>
        ensures some { IfSome result (λ id. (ids_of self.old ≡ ids_of self.new ++ id ∷ [])
            × (room_of self.new ≡ room_of self.old + 1)) }
        ensures none { IfNone result ((ids_of self.old ≡ []) × (ids_of self.new ≡ [])
            × (room_of self.new ≡ room_of self.old)) }
    {
        match self {
            Ids::Empty => None,
            Ids::One(ids) => {
                let [last] = *ids;
                *self = Ids::Empty;
                Some(last)
            }
            Ids::Two(ids) => {
                let [first, last] = *ids;
                *self = Ids::One([first]);
                Some(last)
            }
            Ids::Three(ids) => {
                let [first, second, last] = *ids;
                *self = Ids::Two([first, second]);
                Some(last)
            }
            Ids::Many(many) => many.pop(),
        }
    }
}
