//! Sources and sinks in memory that give and take so many bytes a call, and tell nothing to proofs.
ghost use Rattle.std.specs.Prelude.{None};

use crate::case::{Case, Setting};
use crate::trouble::Trouble;
use gd_outside::Failed;
use gd_outside::memory::{MemorySink, MemorySource};
use gd_outside::sink::Sink;
use gd_outside::source::Source;
use std::alloc::Global;

/// A source that gives at most so many bytes a call, and at least one.
#[derive(Drop)]
pub(crate) struct Giving {
    source: MemorySource,
    most: u64,
}

impl Giving {
    /// The source of a case, of which these calls fail.
    pub(crate) fn new(alloc: Global, case: &Case, failing: &[u64]) -> Result<Giving, Trouble> {
        Ok(Giving {
            source: MemorySource::new(alloc, case.input.as_slice(), failing)?,
            most: case.setting.gives.max(1),
        })
    }

    /// How many reads failed.
    pub(crate) fn faults(&self) -> u64 {
        self.source.faults()
    }
}

impl Source for Giving {
    ghost left = { λ _. None };

    ghost given = { λ s. s.source.given };

    ghost faults = { λ s. s.source.faults };

    fn read(&mut self, buf: &mut [u8]) -> Result<usize, Failed> {
        let most = (self.most as usize).min(buf.len());
        self.source.read(&mut buf[..most])
    }
}

/// A sink that takes at most so many bytes a call. One that takes none counts that as a fault.
#[derive(Drop)]
pub(crate) struct Taking {
    sink: MemorySink,
    most: u64,
    faults: u64,
}

impl Taking {
    /// The sink of a case, of which these calls fail.
    pub(crate) fn new(
        alloc: Global,
        setting: &Setting,
        failing: &[u64],
    ) -> Result<Taking, Trouble> {
        Ok(Taking {
            sink: MemorySink::new(alloc, failing)?,
            most: setting.takes,
            faults: 0,
        })
    }

    /// How many calls failed or took nothing.
    pub(crate) fn faults(&self) -> u64 {
        self.faults
    }

    /// What was taken.
    pub(crate) fn into_bytes(self, alloc: Global) -> Result<Vec<u8>, Trouble> {
        Ok(self.sink.bytes().to_vec(alloc)?)
    }
}

impl Sink for Taking {
    ghost held = { λ _. None };

    ghost sent = { λ s. s.sink.sent };

    ghost faults = { λ s. s.faults };

    fn write(&mut self, bytes: &[u8]) -> Result<usize, Failed> {
        let most = (self.most as usize).min(bytes.len());
        match self.sink.write(&bytes[..most]) {
            Ok(count) => {
                if count == 0 {
                    self.faults = self.faults.saturating_add(1);
                }
                Ok(count)
            }
            Err(failed) => {
                self.faults = self.faults.saturating_add(1);
                Err(failed)
            }
        }
    }

    fn flush(&mut self) -> Result<(), Failed> {
        match self.sink.flush() {
            Ok(()) => Ok(()),
            Err(failed) => {
                self.faults = self.faults.saturating_add(1);
                Err(failed)
            }
        }
    }
}
