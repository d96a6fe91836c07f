//! Texts of bounded length.
ghost use Rattle.std.specs.Prelude.{◌≡◌, ◌≤◌, ℕ, List, Some, nat_eq, length, IfOk, refl};
ghost use Rattle.std.specs.Cmp.{partial_equiv_from_equiv};
ghost use Rattle.std.specs.Cmp.Lexicographic.{slice_cmp, pointwise, nat_list_eq_equiv};
ghost use Rattle.std.specs.Cmp.Lexicographic.{nat_list_cmp_total, texts_po, texts_ties};
ghost use Rattle.std.specs.Ordering.{nat_cmp};
ghost use Rattle.std.specs.Hash as fed;
ghost use Rattle.std.specs.Cmp.Rules.{hashing};
ghost use Rattle.std.proofs.Common.{rules};
ghost use Rattle.gd_base.specs.Answers.{Gives};
ghost use Rattle.gd_base.specs.Text.{text_of};

use crate::memory::Memory;
use std::alloc::Global;
use std::cmp::Ordering;
use std::hash::{Hash, Hasher};
use std::marker::Model;
use thiserror::Error;

/// The greatest number of bytes of a text.
pub const TEXT_LIMIT: usize = 4096;

/// UTF-8 of at most `TEXT_LIMIT` bytes. Contracts see it as the list of its bytes, by which texts
/// are also ordered.
#[derive(Debug, Drop)]
pub struct Text {
    string: String,
}

impl Model for Text {
    ghost use Rattle.std.specs.Prelude.{ℕ, List, ◌≤◌, string_bytes, length};

    ghost Value = { List ℕ };

    ghost view = { λ text. string_bytes text.string };

    ghost invariant = { λ text. length (string_bytes text.string) ≤ 4096 };
}

/// Why bytes are no text.
#[derive(Clone, Copy, Debug, PartialEq, Eq, Error)]
pub enum TextFault {
    /// There are more than `TEXT_LIMIT`.
    #[error("the text has more than 4,096 bytes")]
    TooLong,
    /// They are no UTF-8. The longest front that is has `offset` bytes.
    #[error("the text is no UTF-8 at byte {offset}")]
    NotUtf8 { offset: u64 },
    /// An allocation was refused.
    #[error("out of memory")]
    Memory,
}

impl PartialEq for Text {
    ghost eq = { λ a b. pointwise nat_eq a b };

    ghost laws = { partial_equiv_from_equiv nat_list_eq_equiv };

    fn eq(&self, other: &Text) -> bool {
        self.string == other.string
    }
}

impl Eq for Text {
    ghost laws = { nat_list_eq_equiv };
}

impl PartialOrd for Text {
    ghost partial_cmp = { λ a b. Some (slice_cmp nat_cmp a b) };

    ghost laws = { texts_po };

    fn partial_cmp(&self, other: &Text) -> Option<Ordering> {
        Some(self.cmp(other))
    }
}

impl Ord for Text {
    ghost cmp = { λ a b. slice_cmp nat_cmp a b };

    ghost total = { nat_list_cmp_total };

    ghost matches_partial_cmp = { λ _ _. refl };

    ghost matches_eq = { texts_ties };

    fn cmp(&self, other: &Text) -> Ordering {
        self.string.cmp(&other.string)
    }
}

impl Hash for Text {
    ghost hash_input = { λ t. fed.str t };

    ghost respects_eq = { Prim.search (hashing, rules) };

    fn hash<H: Hasher>(&self, state: &mut H) {
        self.string.hash(state);
    }
}

impl Text {
    /// The text of these bytes. `TooLong`: more than `TEXT_LIMIT` bytes, tested first. `NotUtf8`:
    /// no UTF-8, with the length of the longest front that is.
    pub fn new(alloc: Global, bytes: &[u8]) -> Result<Text, TextFault>
        ensures { Gives (λ text. text) TextFault.Memory (text_of bytes.now) result }
    {
        if bytes.len() > TEXT_LIMIT {
            return Err(TextFault::TooLong);
        }
        match std::str::from_utf8(bytes) {
            Ok(text) => match String::from_str(alloc, text) {
                Ok(string) => Ok(Text { string }),
                Err(_) => Err(TextFault::Memory),
            },
            Err(fault) => Err(TextFault::NotUtf8 {
                offset: fault.valid_up_to() as u64,
            }),
        }
    }

    /// The text of a string that is known to be short.
    pub fn of(alloc: Global, text: &str) -> Result<Text, Memory>
        requires { length text.now ≤ 4096 }
        ensures { IfOk result (λ made. made ≡ text.now) }
    {
        Ok(Text {
            string: String::from_str(alloc, text)?,
        })
    }

    /// The bytes, at most `TEXT_LIMIT`.
    pub fn as_bytes(&self) -> &[u8]
        ensures bytes { result.now ≡ self.now }
        ensures bound { length self.now ≤ 4096 }
    {
        self.string.as_bytes()
    }

    /// The text as a string.
    pub fn as_str(&self) -> &str
        ensures text { result.now ≡ self.now }
        ensures bound { length self.now ≤ 4096 }
    {
        self.string.as_str()
    }

    /// The same text again.
    pub fn copy(&self) -> Result<Text, Memory>
        ensures { IfOk result (λ text. text ≡ self.now) }
    {
        Ok(Text {
            string: self.string.clone()?,
        })
    }
}
