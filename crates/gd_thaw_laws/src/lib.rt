//! Laws of readings that go on from a frozen position.
#![tactic(auto)]
