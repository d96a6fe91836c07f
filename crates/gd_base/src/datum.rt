//! Values of primitives.
ghost use Rattle.std.specs.Prelude.{◌≡◌, ◌↔◌, IfOk, IsTrue};
ghost use Rattle.std.specs.Cmp.{IsTotalOrder};
ghost use Rattle.gd_base.specs.Order.{datum_cmp, datum_eq};

use crate::id::Id;
use crate::memory::Memory;
use crate::text::Text;
use std::cmp::Ordering;

/// How much of a moment was given.
#[derive(Clone, Copy, Debug, PartialEq, Eq, PartialOrd, Ord, Hash)]
pub enum Precision {
    Year,
    Month,
    Day,
    Time,
}

/// The value of a primitive. `Moment` counts milliseconds from 1970-01-01 in UTC. Data are ordered
/// by their variant as written here, and then by their contents: moments by `ms` and then by
/// precision, texts by bytes. No primitive holds an `Object`: that is how rules speak of the
/// objects at a link's ends.
#[derive(Debug, Drop, PartialEq, Eq, PartialOrd, Ord, Hash)]
pub enum Datum {
    Bool(bool),
    Int(i64),
    Moment { ms: i64, precision: Precision },
    Text(Text),
    Object(Id),
    Empty,
}

impl Datum {
    /// The same value again.
    pub fn copy(&self) -> Result<Datum, Memory>
        ensures { IfOk result (λ datum. datum ≡ self.now) }
    {
        match self {
            Datum::Bool(b) => Ok(Datum::Bool(*b)),
            Datum::Int(n) => Ok(Datum::Int(*n)),
            Datum::Moment { ms, precision } => Ok(Datum::Moment {
                ms: *ms,
                precision: *precision,
            }),
            Datum::Text(text) => Ok(Datum::Text(text.copy()?)),
            Datum::Object(id) => Ok(Datum::Object(*id)),
            Datum::Empty => Ok(Datum::Empty),
        }
    }

    /// Where this value stands beside another one in the order of data, which is total.
    pub fn order(&self, other: &Datum) -> Ordering
        ensures order { result ≡ datum_cmp self.now other.now }
        ensures ties { (result ≡ Ordering.Equal) ↔ (self.now ≡ other.now) }
        ensures total { IsTotalOrder datum_cmp }
    {
        self.cmp(other)
    }

    /// Whether this value is the other one.
    pub fn is(&self, other: &Datum) -> bool
        ensures same { IsTrue result ↔ (self.now ≡ other.now) }
        ensures eq { result ≡ datum_eq self.now other.now }
    {
        self == other
    }
}
