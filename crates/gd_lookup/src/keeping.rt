//! What the sessions of a run keep of the replies to their reads.
ghost use Rattle.std.specs.Prelude.{◌≡◌, ◌<◌, ◌≤◌, ◌-◌, ◌^◌, ℕ, List, [], true, false, length, map};
ghost use Rattle.std.specs.Prelude.{sum, min, option_map, IfOk, IfSome};
ghost use Rattle.gd_prim.specs.declared.Batch.{Batch};
ghost use Rattle.gd_runs.specs.Request.{ReadSet as Asked, reply_of};
ghost use Rattle.gd_mql.specs.Requests.{read_set_view};
ghost use Rattle.gd_cache.specs.Asked.{IsKeyOf, dateline_at};
ghost use Rattle.gd_cache.specs.declared.key.Kept.{Kept};
ghost use Rattle.gd_cache.specs.Line.{kept_text};
ghost use Rattle.gd_cache.specs.Right.{is_ok, IsPlainKept};
ghost use Rattle.gd_lookup.specs.Found.{IsReplyFor, reply_kept};
ghost use Rattle.gd_lookup.specs.Laws.{first_kept, none_kept};
ghost use Rattle.gd_lookup.specs.Keeping.{AllRight, CountsOne, CountsReply, IsCountedAs};

use crate::found::found_for;
use gd_base::memory::Memory;
use gd_cache::cache::ReplyCache;
use gd_cache::key::{ReplyKey, ReplyText};
use gd_cache::part::kept_of;
use gd_mql::request::ReadSet;
use std::alloc::Global;
use std::marker::Model;
use std::num::NonZeroU32;

/// How many sessions there are.
const SESSIONS: usize = 64;

/// What the sessions of a run keep: the cache of each, at the place of its number, and how many of
/// their reads were answered. Where replies are not kept there is no cache, and no read is counted.
/// That count stays at `u64::MAX`.
#[derive(Drop)]
pub struct Keeping {
    caches: Vec<ReplyCache>,
    reads: u64,
}

impl Model for Keeping {
    ghost use Rattle.gd_lookup.specs.Keeping.{KeepingValue, AreAll};

    ghost Value = { KeepingValue };

    ghost view = { λ k. record { caches = k.caches.items; reads = k.reads } };

    ghost invariant = { λ k. AreAll k.caches.items };
}

/// A reply line is that of an answer.
fn is_answer(reply: &[u8]) -> bool
    ensures { result ≡ is_ok reply.now }
{
    reply.starts_with(b"{\"code\":\"/api/status/ok\"")
}

/// Counts the reply to a read, an answer, in the cache of its session. Where there is no memory for
/// what is kept of it, a put is refused.
fn count_in(alloc: Global, cache: &mut ReplyCache, key: Option<ReplyText>, line: u64, reply: &[u8])
    ensures counts { CountsOne cache.old key line reply.now cache.new }

    // Whatever has this line is what is counted.
    ensures only { (dateline : ℕ) (kept : Kept) → dateline < 2 ^ 32 → IsPlainKept kept
        → reply.now ≡ kept_text dateline line kept
        → IsCountedAs cache.old key dateline kept cache.new }
{
    let Some(text) = key else {
        cache.refuse();
        return;
    };
    match kept_of(alloc, reply, line) {
        Ok(Some((dateline, kept))) => cache.count(ReplyKey { text, dateline }, kept),
        _ => cache.refuse(),
    }
}

impl Keeping {
    /// Replies are not kept.
    pub fn none(alloc: Global) -> Keeping
        ensures { result ≡ record { caches = []; reads = 0 } }
    {
        Keeping {
            caches: Vec::new(alloc),
            reads: 0,
        }
    }

    /// Each session keeps so many replies at most, and none yet. `Memory`: an allocation was
    /// refused.
    pub fn new(alloc: Global, entries: NonZeroU32) -> Result<Keeping, Memory>
        ensures { IfOk result (λ keeping. keeping
            ≡ none_kept entries.value) }
    {
        let mut caches = Vec::with_capacity(alloc, SESSIONS)?;
        for _session in 0..SESSIONS {
            caches.push_reserved(ReplyCache::new(alloc, entries.get())?);
        }
        Ok(Keeping { caches, reads: 0 })
    }

    /// Each session keeps so many replies at most, if a number is given, and none yet. `Memory`: an
    /// allocation was refused.
    pub fn of(alloc: Global, entries: Option<NonZeroU32>) -> Result<Keeping, Memory>
        ensures { IfOk result (λ keeping. keeping ≡ first_kept (option_map (λ n. n.value) entries)) }
    {
        match entries {
            Some(entries) => Keeping::new(alloc, entries),
            None => Ok(Keeping::none(alloc)),
        }
    }

    /// Whether replies are kept.
    pub fn is_on(&self) -> bool
        ensures on { result ≡ true → length self.now.caches ≡ 64 }
        ensures off { result ≡ false → self.now.caches ≡ [] }
    {
        !self.caches.is_empty()
    }

    /// The caches, each at the place of the number of its session.
    pub fn caches(&self) -> &[ReplyCache]
        ensures { result.now ≡ self.now.caches }
    {
        self.caches.as_slice()
    }

    /// The reply line to a read of a session over so many batches, where the session keeps it.
    /// `Memory`: an allocation was refused.
    pub fn find(
        &self,
        alloc: Global,
        session: u32,
        key: &Option<ReplyText>,
        at: u32,
        line: u64,
        request: &ReadSet,
    ) -> Result<Option<Vec<u8>>, Memory>
        ensures found { IfOk result (λ found. option_map (λ bytes. bytes.items) found
            ≡ reply_kept self.now.caches session key.now
            (dateline_at at (read_set_view request.now)) line) }
        ensures right { IfOk result (λ found. IfSome found (λ bytes. (batches : List Batch)
            → AllRight batches self.now.caches
            → IfSome key.now (λ text. IsKeyOf text (read_set_view request.now))
            → at ≤ length batches
            → bytes.items ≡ reply_of batches at line (read_set_view request.now))) }
    {
        let Some(cache) = self.caches.get(session as usize) else {
            return Ok(None);
        };
        match key {
            Some(text) => found_for(alloc, cache, text, at, line, request),
            None => Ok(None),
        }
    }

    /// Counts the reply to a read of a session, if it is an answer and replies are kept: its key is
    /// found, or else it is put in where it is short enough. Where there is no memory for that, a
    /// put is refused.
    pub fn count(
        &mut self,
        alloc: Global,
        session: u32,
        key: Option<ReplyText>,
        line: u64,
        reply: &[u8],
    )
        requires session { session < 64 }
        ensures counts { CountsReply self.old session key line reply.now self.new }

        // What is kept stays right, where this is the reply to a read with this key.
        ensures right { (batches : List Batch) (at : ℕ) (q : Asked) → at ≤ length batches
            → at < 2 ^ 32 → reply.now ≡ reply_of batches at line q
            → IfSome key (λ text. IsKeyOf text q) → AllRight batches self.old.caches
            → AllRight batches self.new.caches }
    {
        if self.caches.is_empty() {
            return;
        }
        if !is_answer(reply) {
            return;
        }
        self.reads = self.reads.saturating_add(1);
        count_in(alloc, &mut self.caches[session as usize], key, line, reply);
    }

    /// How many reads were answered, or `u64::MAX` where there were more.
    pub fn reads(&self) -> u64
        ensures { result ≡ self.now.reads }
    {
        self.reads
    }

    /// How many of these found their reply kept, or `u64::MAX` where there were more.
    pub fn hits(&self) -> u64
        ensures { result ≡ min (sum (map (λ s. s.hits) self.now.caches)) (2 ^ 64 - 1) }
    {
        let mut total = 0u64;
        for cache in self.caches.as_slice() {
            total = total.saturating_add(cache.hits());
        }
        total
    }

    /// How many puts found no memory, or `u64::MAX` where there were more.
    pub fn refused(&self) -> u64
        ensures { result ≡ min (sum (map (λ s. s.refused) self.now.caches)) (2 ^ 64 - 1) }
    {
        let mut total = 0u64;
        for cache in self.caches.as_slice() {
            total = total.saturating_add(cache.refused());
        }
        total
    }
}
