//! Tests of data.
use gd_base::datum::Datum;
use gd_datum::pattern::Pattern;

/// What is asked of a datum. Contracts see it as the test of the definitions, `test_view`.
#[derive(Drop)]
pub enum Test {
    /// Nothing.
    Anything,
    /// It is this one.
    Equals(Datum),
    /// It is another one.
    Differs(Datum),
    /// It is one of these.
    OneOf(Vec<Datum>),
    /// It is of the same variant and below this one, or equal to it where that is let in.
    Below { value: Datum, or_equal: bool },
    /// The same above this one.
    Above { value: Datum, or_equal: bool },
    /// It is a text that matches the pattern.
    Matches(Pattern),
}
