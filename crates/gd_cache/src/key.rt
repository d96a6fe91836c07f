//! What a reply is kept under, and what is kept of it.
ghost use Rattle.std.specs.Prelude.{◌≡◌, ◌++◌, IfOk, length, nat_eq};
ghost use Rattle.std.specs.Hash as fed;
ghost use Rattle.std.specs.Cmp.{partial_equiv_from_equiv};
ghost use Rattle.std.specs.Cmp.Lexicographic.{pointwise, nat_list_eq_equiv};
ghost use Rattle.std.specs.Cmp.Rules.{hashing};
ghost use Rattle.std.proofs.Common.{rules};
ghost use Rattle.gd_cache.specs.Hits.{fits};

use gd_base::memory::Memory;
use std::hash::{Hash, Hasher};
use std::marker::Model;

/// The greatest number of bytes of a key's text under which a reply is kept.
const MAX_TEXT: usize = 4096;

/// The greatest number of bytes of a result that is kept.
const MAX_RESULT: usize = 65_536;

/// A part of a line or of a reply line. Contracts see the list of its bytes.
#[derive(Drop)]
pub struct ReplyText {
    bytes: Vec<u8>,
}

impl Model for ReplyText {
    ghost use Rattle.std.specs.Prelude.{ℕ, List};

    ghost Value = { List ℕ };

    ghost view = { λ text. text.bytes.items };
}

impl PartialEq for ReplyText {
    ghost eq = { λ a b. pointwise nat_eq a b };

    ghost laws = { partial_equiv_from_equiv nat_list_eq_equiv };

    fn eq(&self, other: &ReplyText) -> bool {
        self.bytes.as_slice() == other.bytes.as_slice()
    }
}

impl Eq for ReplyText {
    ghost laws = { nat_list_eq_equiv };
}

/// What a reply is kept under: the compact text of what the read asks, and the dateline at which it
/// was answered.
#[derive(Drop, PartialEq, Eq)]
pub struct ReplyKey {
    pub text: ReplyText,
    pub dateline: u32,
}

impl Hash for ReplyKey {
    ghost hash_input = { λ key. fed.slice fed.u8 key.text ++ fed.u32 key.dateline };

    ghost respects_eq = { Prim.search (hashing, rules) };

    fn hash<H: Hasher>(&self, state: &mut H) {
        self.text.as_slice().hash(state);
        self.dateline.hash(state);
    }
}

impl ReplyText {
    /// The text of these bytes, which it takes over.
    pub fn new(bytes: Vec<u8>) -> ReplyText
        ensures { result ≡ bytes.items }
    {
        ReplyText { bytes }
    }

    /// The bytes.
    pub fn as_slice(&self) -> &[u8]
        ensures { result.now ≡ self.now }
    {
        self.bytes.as_slice()
    }

    /// The same text again. `Memory`: an allocation was refused.
    pub fn copy(&self) -> Result<ReplyText, Memory>
        ensures { IfOk result (λ text. text ≡ self.now) }
    {
        Ok(ReplyText {
            bytes: self.bytes.clone()?,
        })
    }
}

/// What is kept of a reply: its cursor as it prints, where one was asked, and its result as it
/// prints.
#[derive(Drop)]
pub struct Kept {
    pub cursor: Option<ReplyText>,
    pub outcome: ReplyText,
}

impl Kept {
    /// The same again. `Memory`: an allocation was refused.
    pub fn copy(&self) -> Result<Kept, Memory>
        ensures { IfOk result (λ kept. kept ≡ self.now) }
    {
        let cursor = copy_cursor(&self.cursor)?;
        let outcome = self.outcome.copy()?;
        Ok(Kept { cursor, outcome })
    }
}

/// The same cursor again, where there is one.
fn copy_cursor(cursor: &Option<ReplyText>) -> Result<Option<ReplyText>, Memory>
    ensures { IfOk result (λ copied. copied ≡ cursor.now) }
{
    match cursor {
        Some(text) => Ok(Some(text.copy()?)),
        None => Ok(None),
    }
}

/// Whether a reply with this key and this result may be kept.
pub fn may_be_kept(key: &ReplyKey, outcome: &ReplyText) -> bool
    ensures { result ≡ fits key.now (length outcome.now) }
{
    key.text.as_slice().len() <= MAX_TEXT && outcome.as_slice().len() <= MAX_RESULT
}
