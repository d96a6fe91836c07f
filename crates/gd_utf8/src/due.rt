//! What is due in a character.
ghost use Rattle.std.specs.Prelude.{◌≡◌, ◌==◌, ℕ, List};
ghost use Rattle.std.specs.Str.{is_utf8};
ghost use Rattle.gd_utf8.specs.Utf8 as utf8;

use std::marker::Model;

/// How many bytes are due in a character, and the least and the greatest that may come next.
#[derive(Clone, Copy)]
pub struct Due {
    due: u8,
    least: u8,
    most: u8,
}

impl Model for Due {
    ghost use Rattle.gd_utf8.specs.Utf8 as defined;

    ghost Value = { defined.Due };

    ghost view = { λ s. record { due = s.due; least = s.least; most = s.most } };

    ghost inverse = { λ s. record { due = s.due; least = s.least; most = s.most } };
}

/// How many bytes follow the first byte of a character, or 4 where it begins none.
fn follow(first: u8) -> u8
    ensures { result ≡ utf8.follow first }
{
    match first {
        0..=127 => 0,
        194..=223 => 1,
        224..=239 => 2,
        240..=244 => 3,
        _ => 4,
    }
}

/// The least byte that may follow the first byte of a character.
fn least_after(first: u8) -> u8
    ensures { result ≡ utf8.least_after first }
{
    match first {
        224 => 160,
        240 => 144,
        _ => 128,
    }
}

/// The greatest byte that may follow the first byte of a character.
fn most_after(first: u8) -> u8
    ensures { result ≡ utf8.most_after first }
{
    match first {
        237 => 159,
        244 => 143,
        _ => 191,
    }
}

impl Due {
    /// Between two characters, as at the start of a text. What is accepted from here is UTF-8.
    #[tactic(auto, using(crate::proofs::Accepts::accepts_is))]
    pub fn start() -> Due
        ensures value { result ≡ utf8.start }
        ensures accepts { (bytes : List ℕ) → utf8.accepts result bytes ≡ is_utf8 bytes }
    {
        Due {
            due: 0,
            least: 128,
            most: 191,
        }
    }

    /// Whether no byte is due: the text may end here.
    pub fn is_between(self) -> bool
        ensures { result ≡ (self.due == 0) }
    {
        self.due == 0
    }

    /// Whether the byte may come next, where the text has room for `more` bytes behind it. The
    /// bytes that a character wants have to find room, so that a text can end with it.
    #[tactic(auto, unfolding(crate::specs::Utf8::may_come))]
    pub fn may_come(self, more: usize, byte: u8) -> bool
        ensures { result ≡ utf8.may_come more self byte }
    {
        if self.due == 0 {
            let following = follow(byte);
            usize::from(following) <= more && following < 4
        } else {
            self.least <= byte && byte <= self.most
        }
    }

    /// What is due behind the byte, which may come next.
    #[tactic(auto, unfolding(crate::specs::Utf8::after))]
    pub fn after(self, byte: u8) -> Due
        ensures { result ≡ utf8.after self byte }
    {
        if self.due == 0 {
            Due {
                due: follow(byte),
                least: least_after(byte),
                most: most_after(byte),
            }
        } else {
            Due {
                due: self.due - 1,
                least: 128,
                most: 191,
            }
        }
    }
}
