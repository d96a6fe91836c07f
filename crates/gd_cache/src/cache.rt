//! The cache of a session.
ghost use Rattle.std.specs.Prelude.{◌≡◌, ◌⊎◌, ◌<◌, IfOk, None};
ghost use Rattle.std.specs.Map.{lookup};
ghost use Rattle.gd_cache.specs.Hits.{same_key};
ghost use Rattle.gd_cache.specs.Shown.{empty, has, found, put, put_refused, Counts};

use crate::key::{Kept, ReplyKey, may_be_kept};
use gd_base::memory::Memory;
use lru::LruCache;
use std::alloc::Global;
use std::marker::Model;
use std::num::NonZeroUsize;

/// The replies that are kept, each under its key, the latest first, with the counts of hits and of refused puts. Both
/// counts stay at `u64::MAX`.
#[derive(Drop)]
pub struct ReplyCache {
    cache: LruCache<ReplyKey, Kept>,
    hits: u64,
    refused: u64,
}

impl Model for ReplyCache {
    ghost use Rattle.gd_cache.specs.Shown.{Shown};

    ghost Value = { Shown };

    ghost view = { λ c. record { pairs = c.cache.entries; most = c.cache.cap; hits = c.hits; refused = c.refused } };
}

impl ReplyCache {
    /// A cache of at most so many replies, without any.
    pub fn new(alloc: Global, entries: u32) -> Result<ReplyCache, Memory>
        requires { 0 < entries }
        ensures { IfOk result (λ cache. cache ≡ empty entries) }
    {
        let most = NonZeroUsize::new(entries as usize).unwrap();
        Ok(ReplyCache {
            cache: LruCache::new(alloc, most)?,
            hits: 0,
            refused: 0,
        })
    }

    /// A copy of what is kept under a key, none where nothing is. It changes nothing.
    pub fn peek(&self, key: &ReplyKey) -> Result<Option<Kept>, Memory>
        ensures { IfOk result (λ kept. kept ≡ lookup (same_key key.now) self.now.pairs) }
    {
        match self.cache.peek(key) {
            Some(kept) => Ok(Some(kept.copy()?)),
            None => Ok(None),
        }
    }

    /// Whether something is kept under a key. It is brought to the front, which is a hit. It takes no memory.
    pub fn find(&mut self, key: &ReplyKey) -> bool
        ensures answer { result ≡ has self.old key.now }
        ensures now { self.new ≡ found self.old key.now }
    {
        let found = self.cache.promote(key);
        if found {
            self.hits = self.hits.saturating_add(1);
        }
        found
    }

    /// Puts a reply in at the front. Where memory is wanted it is dropped, nothing else changes, and one more put is
    /// refused.
    pub fn keep(&mut self, key: ReplyKey, kept: Kept)
        requires { lookup (same_key key) self.old.pairs ≡ None }
        ensures { (self.new ≡ put self.old key kept) ⊎ (self.new ≡ put_refused self.old) }
    {
        match self.cache.push(key, kept) {
            Ok(_) => {}
            Err(_) => self.refused = self.refused.saturating_add(1),
        }
    }

    /// Counts a put that found no memory before it came here.
    pub fn refuse(&mut self)
        ensures { self.new ≡ put_refused self.old }
    {
        self.refused = self.refused.saturating_add(1);
    }

    /// What becomes of the cache by a read that was answered: its key is found, or else its reply is put in where it is
    /// short enough.
    pub fn count(&mut self, key: ReplyKey, kept: Kept)
        ensures { Counts self.old (key, kept) self.new }
    {
        if self.find(&key) {
            return;
        }
        if may_be_kept(&key, &kept.outcome) {
            self.keep(key, kept);
        }
    }

    /// How many reads found their reply, or `u64::MAX` where there were more.
    pub fn hits(&self) -> u64
        ensures { result ≡ self.now.hits }
    {
        self.hits
    }

    /// How many puts found no memory, or `u64::MAX` where there were more.
    pub fn refused(&self) -> u64
        ensures { result ≡ self.now.refused }
    {
        self.refused
    }
}
