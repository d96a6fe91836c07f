//! Numbers that look random, one after another.
ghost use Rattle.std.specs.Prelude.{◌≡◌, ◌<◌, ◌%◌};
ghost use Rattle.gd_gen.specs.Draws.{draw, following};

use std::marker::Model;

/// What draws are made from: the number that the last draw gave. Contracts see this number.
#[derive(Drop)]
pub(crate) struct Draws {
    number: u32,
}

impl Model for Draws {
    ghost use Rattle.std.specs.Prelude.{ℕ};

    ghost Value = { ℕ };

    ghost view = { λ draws. draws.number };
}

/// The number behind a number.
#[tactic(auto, unfolding(crate::specs::Draws::following))]
fn number_behind(number: u32) -> u32
    ensures { result ≡ following number }
{
    ((u64::from(number) * 1_664_525 + 1_013_904_223) % (1 << 32)) as u32
}

/// The upper 16 bits of a number.
#[tactic(auto, unfolding(crate::specs::Draws::draw))]
fn upper_bits(number: u32) -> u32
    ensures { result ≡ draw number }
{
    number >> 16
}

impl Draws {
    /// The draws behind a number.
    pub(crate) fn new(number: u32) -> Draws
        ensures { result ≡ number }
    {
        Draws { number }
    }

    /// The next draw modulo a limit.
    pub(crate) fn below(&mut self, limit: u32) -> u32
        requires { 0 < limit }
        ensures value { result ≡ draw (following self.old) % limit }
        ensures within { result < limit }
        ensures later { self.new ≡ following self.old }
    {
        self.number = number_behind(self.number);
        upper_bits(self.number) % limit
    }
}
