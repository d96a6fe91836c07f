//! A walk over the text of a template that builds nothing: whether it is in the grammar, whether a
//! text in it is no pattern, and how many templates lie one within the other. It keeps a byte for
//! each open template, so that deep texts need no deep stack.
ghost use Rattle.std.specs.Prelude.{◌≡◌, ◌∷◌, [], ◌||◌, ◌+◌, ◌<◌, ◌≤◌, ℕ, suc, true, false, List};
ghost use Rattle.std.specs.Prelude.{max, length, OnOk, MatchBool, MatchResult, Ok};
ghost use Rattle.gd_grammar.specs.Choice.{begins, is_byte};
ghost use Rattle.gd_tplang.specs.Meaning.{is_bad_test};
ghost use Rattle.gd_tplang.specs.Seen.{test_of};
ghost use Rattle.gd_tplang.specs.Stop.{Finds, Stopped};
ghost use Rattle.gd_tplang.specs.Survey as walk;
ghost use Rattle.gd_tplang.specs.Survey.{Enough, IsOpen, marks};
ghost use Rattle.gd_tplang.specs.Walks.{Enters, Steps};
ghost use Rattle.gd_tplang.specs.Written as written;

use crate::byte::{byte, is_next};
use crate::head::{is_clause_next, read_head};
use crate::stop::Stop;
use crate::test::{Test, read_test};
use gd_base::memory::Memory;
use gd_datum::pattern::is_pattern;
use std::alloc::Global;
use std::marker::Model;

/// The greatest number of items of a template.
const MOST_ITEMS: u8 = 64;

/// How many items each open template has, the innermost apart, and what was seen so far.
#[derive(Drop)]
pub(crate) struct Walk {
    outer: Vec<u8>,
    count: u8,
    is_done: bool,
    is_bad: bool,
    deepest: usize,
}

impl Model for Walk {
    ghost use Rattle.std.specs.Prelude.{◌≤◌, suc, length};
    ghost use Rattle.gd_tplang.specs.Survey as walk;
    ghost use Rattle.gd_tplang.specs.Walks.{seen};

    ghost Value = { walk.Walk };

    ghost view = { seen };

    ghost invariant = { λ w. suc (length w.outer.items) ≤ w.deepest };
}

impl Walk {
    /// A template was opened, and nothing else was seen.
    #[tactic(auto, unfolding(crate::specs::Walks::seen))]
    fn new(alloc: Global) -> Walk
        ensures { result ≡ record { counts = 0 ∷ []; bad = false; deepest = 1 } }
    {
        Walk {
            outer: Vec::new(alloc),
            count: 0,
            is_done: false,
            is_bad: false,
            deepest: 1,
        }
    }

    /// Whether no template is open.
    #[tactic(auto, unfolding(crate::specs::Walks::seen))]
    fn is_done(&self) -> bool
        ensures { MatchBool result (self.now.counts ≡ []) (IsOpen self.now) }
    {
        self.is_done
    }

    /// Whether a text was seen that is no pattern.
    #[tactic(auto, unfolding(crate::specs::Walks::seen))]
    pub(crate) fn is_bad(&self) -> bool
        ensures { result ≡ self.now.bad }
    {
        self.is_bad
    }

    /// How many templates lie one within the other.
    #[tactic(auto, unfolding(crate::specs::Walks::seen))]
    pub(crate) fn deepest(&self) -> usize
        ensures { result ≡ self.now.deepest }
    {
        self.deepest
    }

    /// How many items the innermost open template has.
    #[tactic(auto, unfolding(crate::specs::Walks::seen))]
    fn count(&self) -> u8
        requires { IsOpen self.now }
        ensures same { result ≡ walk.top self.now.counts }
    {
        self.count
    }

    /// The innermost open template has one item more.
    #[tactic(auto, unfolding(crate::specs::Walks::seen))]
    fn add_item(&mut self)
        requires inside { IsOpen self.old }
        requires few { walk.top self.old.counts < 64 }
        ensures { self.new ≡ record {
          counts = suc (walk.top self.old.counts) ∷ walk.others
              self.old.counts;
          bad = self.old.bad;
          deepest = self.old.deepest;
        } }
    {
        self.count += 1;
    }

    /// The innermost open template ends.
    #[tactic(auto, unfolding(crate::specs::Walks::seen))]
    fn close(&mut self)
        requires { IsOpen self.old }
        ensures now { self.new ≡ record {
          counts = walk.others self.old.counts;
          bad = self.old.bad;
          deepest = self.old.deepest;
        } }
        ensures deep { length self.old.counts ≤ self.old.deepest }
    {
        match self.outer.pop() {
            Some(count) => self.count = count,
            None => self.is_done = true,
        }
    }

    /// A template is opened within the innermost one.
    #[tactic(auto, unfolding(crate::specs::Walks::seen))]
    fn enter(&mut self) -> Result<(), Memory>
        requires { IsOpen self.old }
        ensures { OnOk result (self.new ≡ record {
          counts = 0 ∷ self.old.counts;
          bad = self.old.bad;
          deepest = max self.old.deepest (length self.old.counts + 1);
        }) }
    {
        self.outer.push(self.count)?;
        self.count = 0;
        self.deepest = self.deepest.max(self.outer.len() + 1);
        Ok(())
    }

    /// A test was seen.
    #[tactic(auto, unfolding(crate::specs::Walks::seen))]
    fn mark(&mut self, is_bad: bool)
        ensures { self.new ≡ record {
          counts = self.old.counts;
          bad = self.old.bad || is_bad;
          deepest = self.old.deepest;
        } }
    {
        self.is_bad = self.is_bad || is_bad;
    }
}

/// Whether a test asks for a text that is no pattern.
fn is_bad(test: &Test) -> bool
    ensures { result ≡ is_bad_test (test_of test.now) }
{
    match test {
        Test::ValueLike(text) => !is_pattern(text.as_str()),
        _ => false,
    }
}

/// Reads what stands before a further item: a space, unless it is the first one.
fn space(bytes: &[u8], count: u8) -> Result<&[u8], Stop>
    ensures { Finds (λ rest. (tt, rest.now)) (walk.space_at count bytes.now) result }
{
    if count == 0 {
        return Ok(bytes);
    }
    if count >= MOST_ITEMS {
        return Err(Stop::Bad { left: bytes.len() });
    }
    byte(bytes, b' ')
}

impl Walk {
    /// Reads a test, and marks it.
    fn test<'a>(&mut self, alloc: Global, bytes: &'a [u8]) -> Result<&'a [u8], Stop>
        requires inside { IsOpen self.old }
        requires other { begins written.begins_clause bytes.now ≡ false }
        ensures { (k : ℕ) → Enters k self.old bytes.now self.new result }
    {
        let (test, rest) = read_test(alloc, bytes)?;
        self.mark(is_bad(&test));
        Ok(rest)
    }

    /// Reads what stands before the items of a clause's template, which it opens.
    fn clause<'a>(&mut self, bytes: &'a [u8]) -> Result<&'a [u8], Stop>
        requires inside { IsOpen self.old }
        requires comes { begins written.begins_clause bytes.now ≡ true }
        ensures { (k : ℕ) → length self.old.counts < k → Enters k self.old bytes.now self.new
            result }
    {
        let (_head, rest) = read_head(bytes)?;
        let rest = byte(rest, b' ')?;
        let rest = byte(rest, b'(')?;
        self.enter()?;
        Ok(rest)
    }

    /// Reads the bracket that ends a template, or the next item up to the template in it.
    fn step<'a>(&mut self, alloc: Global, bytes: &'a [u8]) -> Result<&'a [u8], Stop>
        requires { IsOpen self.old }
        ensures { (k : ℕ) → Enough k self.old.counts bytes.now → Steps k self.old bytes.now self.new
            result }
    {
        if is_next(bytes, b')') {
            let rest = byte(bytes, b')')?;
            self.close();
            return Ok(rest);
        }
        let rest = space(bytes, self.count())?;
        self.add_item();
        if is_clause_next(rest) {
            return self.clause(rest);
        }
        self.test(alloc, rest)
    }
}

/// What was seen of the template that all of the bytes spell.
pub(crate) fn survey(alloc: Global, bytes: &[u8]) -> Result<Walk, Stop>
    ensures { Finds marks (walk.surveyed bytes.now) result }
{
    let mut rest = byte(bytes, b'(')?;
    let mut walk = Walk::new(alloc);
    while !walk.is_done() {
        rest = walk.step(alloc, rest)?;
    }
    if !rest.is_empty() {
        return Err(Stop::Bad { left: rest.len() });
    }
    Ok(walk)
}
