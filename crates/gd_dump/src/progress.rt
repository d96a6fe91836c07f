//! How far a dump was read: line by line, each as what came before it allows.
ghost use Rattle.std.specs.Prelude.{◌≡◌, ◌+◌, ◌++◌, [], IfOk, OnOk};
ghost use Rattle.gd_dump_laws.specs.Progress as defined;
ghost use Rattle.gd_dump.specs.Progress.{IsStepBy, IsStep, IsNext, IsRun, first_at, ended};
ghost use Rattle.gd_dump.specs.declared.progress.Stage.TheVariants as stage;

use crate::line::{batch_head, end, head};
use crate::primitive::primitive;
use crate::stop::Stop;
use gd_base::memory::Memory;
use gd_prim::{Batch, Prims};
use std::alloc::Global;

/// Where reading stands.
#[derive(Clone, Copy)]
pub(crate) enum Stage {
    /// Nothing was read.
    Opening,
    /// Between two batches of a dump whose first has this number.
    Between { first: u32 },
    /// In a batch of this moment and so many primitives, of which some are to come.
    Within { first: u32, moment: u64, count: u64 },
    /// Behind the last line.
    Closed { first: u32 },
}

/// How far a dump was read.
#[derive(Drop)]
pub(crate) struct Progress {
    pub(crate) stage: Stage,
    /// The primitives that were read of the batch in which reading stands.
    pub(crate) prims: Prims,
    /// How many batches are whole.
    pub(crate) count: u64,
}

/// One more, as long as the number is one of 64 bits.
fn one_more(count: u64) -> Result<u64, Memory>
    ensures { IfOk result (λ more. more ≡ count + 1) }
{
    match count.checked_add(1) {
        Some(more) => Ok(more),
        None => Err(Memory),
    }
}

/// Puts a batch behind those that were given, if there is one.
fn keep(given: &mut Vec<Batch>, batch: Option<Batch>) -> Result<(), Memory>
    ensures { OnOk result (given.new.items ≡ given.old.items ++ ended batch) }
{
    if let Some(batch) = batch {
        given.push(batch)?;
    }
    Ok(())
}

impl Progress {
    /// Nothing was read.
    pub(crate) fn new(alloc: Global) -> Progress
        ensures { result ≡ record { stage = stage.Opening; prims = []; count = 0 } }
    {
        Progress {
            stage: Stage::Opening,
            prims: Prims::new(alloc),
            count: 0,
        }
    }

    /// The number of the first batch, once its line was read.
    pub(crate) fn first(&self) -> Option<u32>
        ensures { result ≡ first_at self.now.stage }
    {
        match self.stage {
            Stage::Opening => None,
            Stage::Between { first } => Some(first),
            Stage::Within { first, .. } => Some(first),
            Stage::Closed { first } => Some(first),
        }
    }

    /// Reads the first line of a dump.
    #[tactic(auto, unfolding(gd_dump_laws::specs::Progress::step_at))]
    fn begin<'a>(&mut self, bytes: &'a [u8]) -> Result<(Option<Batch>, &'a [u8]), Stop>
        requires { self.old.stage ≡ stage.Opening }
        ensures { IsStep self.old self.new bytes.now result }
    {
        let (first, rest) = head(bytes)?;
        self.count = 0;
        self.stage = Stage::Between {
            first: first as u32,
        };
        Ok((None, rest))
    }

    /// Reads the first line of a batch: one without primitives is whole.
    #[tactic(auto, unfolding(gd_dump_laws::specs::Progress::next_batch_at))]
    fn open<'a>(
        &mut self,
        alloc: Global,
        first: u32,
        bytes: &'a [u8],
    ) -> Result<(Option<Batch>, &'a [u8]), Stop>
        requires { self.old.stage ≡ stage.Between first }
        ensures { IsStepBy (defined.next_batch_at first) self.old self.new bytes.now result }
    {
        let ((moment, count), rest) = batch_head(bytes)?;
        let prims = Prims::new(alloc);
        if count == 0 {
            self.count = one_more(self.count)?;
            return Ok((Some(Batch { moment, prims }), rest));
        }
        self.prims = prims;
        self.stage = Stage::Within {
            first,
            moment,
            count,
        };
        Ok((None, rest))
    }

    /// Reads the last line.
    #[tactic(auto, unfolding(gd_dump_laws::specs::Progress::last_at))]
    fn close<'a>(&mut self, first: u32, bytes: &'a [u8]) -> Result<(Option<Batch>, &'a [u8]), Stop>
        requires { self.old.stage ≡ stage.Between first }
        ensures { IsStepBy (defined.last_at first) self.old self.new bytes.now result }
    {
        let rest = end(bytes, self.count)?;
        self.stage = Stage::Closed { first };
        Ok((None, rest))
    }

    /// Reads the line behind a batch.
    #[tactic(auto, unfolding(gd_dump_laws::specs::Progress::step_at))]
    fn between<'a>(
        &mut self,
        alloc: Global,
        first: u32,
        bytes: &'a [u8],
    ) -> Result<(Option<Batch>, &'a [u8]), Stop>
        requires { self.old.stage ≡ stage.Between first }
        ensures { IsStep self.old self.new bytes.now result }
    {
        match bytes {
            [] => Err(Stop::Bad { left: 0 }),
            [next, ..] => {
                if *next == b'b' {
                    self.open(alloc, first, bytes)
                } else {
                    self.close(first, bytes)
                }
            }
        }
    }

    /// Reads the line of a primitive: with the last one its batch is whole.
    #[tactic(auto, unfolding(gd_dump_laws::specs::Progress::step_at))]
    fn within<'a>(
        &mut self,
        alloc: Global,
        first: u32,
        moment: u64,
        count: u64,
        bytes: &'a [u8],
    ) -> Result<(Option<Batch>, &'a [u8]), Stop>
        requires { self.old.stage ≡ stage.Within first moment count }
        ensures { IsStep self.old self.new bytes.now result }
    {
        let (prim, rest) = primitive(alloc, moment, bytes)?;
        self.prims.push(prim)?;
        if count > self.prims.len() as u64 {
            return Ok((None, rest));
        }
        self.count = one_more(self.count)?;
        self.stage = Stage::Between { first };
        let prims = std::mem::replace(&mut self.prims, Prims::new(alloc));
        Ok((Some(Batch { moment, prims }), rest))
    }

    /// Reads the next line, and gives the batch that it ends. Where no line goes on nothing is
    /// changed.
    #[tactic(auto, unfolding(gd_dump_laws::specs::Progress::step_at))]
    fn step<'a>(
        &mut self,
        alloc: Global,
        bytes: &'a [u8],
    ) -> Result<(Option<Batch>, &'a [u8]), Stop>
        ensures { IsStep self.old self.new bytes.now result }
    {
        match self.stage {
            Stage::Opening => self.begin(bytes),
            Stage::Between { first } => self.between(alloc, first, bytes),
            Stage::Within {
                first,
                moment,
                count,
            } => self.within(alloc, first, moment, count, bytes),
            Stage::Closed { .. } => Err(Stop::Bad { left: bytes.len() }),
        }
    }

    /// Reads the next line, if it is there whole: `None` where the bytes end before it does.
    fn next<'a>(
        &mut self,
        alloc: Global,
        bytes: &'a [u8],
    ) -> Result<Option<(Option<Batch>, &'a [u8])>, Stop>
        ensures { IsNext self.old self.new bytes.now result }
    {
        match self.step(alloc, bytes) {
            Ok(line) => Ok(Some(line)),
            Err(Stop::Bad { left }) => {
                if left == 0 {
                    return Ok(None);
                }
                Err(Stop::Bad { left })
            }
            Err(Stop::Memory) => Err(Stop::Memory),
        }
    }

    /// Reads all lines that are there whole, and gives the bytes behind them, which begin a line.
    /// The batches that end in them are put behind those that were given.
    pub(crate) fn run<'a>(
        &mut self,
        alloc: Global,
        bytes: &'a [u8],
        given: &mut Vec<Batch>,
    ) -> Result<&'a [u8], Stop>
        ensures { IsRun self.old self.new bytes.now given.old.items given.new.items result }
    {
        let mut rest = bytes;
        loop {
            match self.next(alloc, rest)? {
                None => return Ok(rest),
                Some((batch, behind)) => {
                    keep(given, batch)?;
                    rest = behind;
                }
            }
        }
    }
}
