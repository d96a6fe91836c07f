//! Dumps, read piece by piece.
ghost use Rattle.std.specs.Prelude.{◌≡◌, ◌≢◌, ◌↔◌, ◌+◌, ℕ, IsTrue, List, [], Err, Some, None, IfOk};
ghost use Rattle.std.specs.Prelude.{IfErr, IfSome, OnOk};
ghost use Rattle.gd_prim.specs.declared.Batch.{Batch};
ghost use Rattle.gd_dump_laws.specs.Dump.{Whole};
ghost use Rattle.gd_dump.specs.Read.{HasRead, Takes, Fed, Finished, Finds};
ghost use Rattle.gd_dump.specs.declared.stop.RestoreFault.TheVariants as RestoreFault;

use crate::progress::{Progress, Stage};
use crate::stop::{RestoreFault, Stop};
use gd_prim::Batch;
use std::alloc::Global;
use std::marker::Model;

/// The batches that end in a piece of a dump, in their order. Contracts see their list.
#[derive(Drop)]
pub struct Batches {
    batches: Vec<Batch>,
}

impl Model for Batches {
    ghost use Rattle.std.specs.Prelude.{List};
    ghost use Rattle.gd_prim.specs.declared.Batch.{Batch};

    ghost Value = { List Batch };

    ghost view = { λ b. b.batches.items };
}

impl Batches {
    /// The batches in their order.
    pub fn as_slice(&self) -> &[Batch]
        ensures { result.now ≡ self.now }
    {
        self.batches.as_slice()
    }

    /// Whether there are none. It takes no memory.
    pub fn is_empty(&self) -> bool
        ensures { IsTrue result ↔ (self.now ≡ []) }
    {
        self.batches.is_empty()
    }

    /// The vector of these batches. It takes no memory.
    pub fn into_vec(self) -> Vec<Batch>
        ensures { result.items ≡ self }
    {
        self.batches
    }
}

/// Reads a dump, in whatever pieces it comes, and gives its batches as they end. It holds the bytes
/// of one line, and the primitives of one batch. Contracts speak of the text of all pieces so far,
/// and of the batches that were given of it (`HasRead`).
#[derive(Drop)]
pub struct DumpReader {
    alloc: Global,
    progress: Progress,
    held: Vec<u8>,
    read: u64,
    fault: Option<RestoreFault>,
}

impl Model for DumpReader {
    ghost use Rattle.gd_dump.specs.Read.{Reader};

    ghost Value = { Reader };

    ghost view = { λ r. record {
      progress = r.progress;
      held = r.held.items;
      read = r.read;
      fault = r.fault;
    } };
}

impl DumpReader {
    /// A reader that was given nothing.
    pub fn new(alloc: Global) -> DumpReader
        ensures read { HasRead result [] [] }
        ensures fault { result.fault ≡ None }
    {
        DumpReader {
            alloc,
            progress: Progress::new(alloc),
            held: Vec::new(alloc),
            read: 0,
            fault: None,
        }
    }

    /// The number of the first batch, once its line was read; also where a fault was met behind it,
    /// but for want of memory.
    pub fn first(&self) -> Option<u32>
        ensures { (text : List ℕ) (batches : List Batch) → HasRead self.now text batches
            → self.now.fault ≢ Some RestoreFault.Memory → Whole text result batches }
    {
        self.progress.first()
    }

    /// How many bytes of the text were given when so many are held.
    fn total(&self, held: usize) -> Result<u64, RestoreFault>
        ensures total { IfOk result (λ total. total ≡ self.now.read + held) }
        ensures memory { IfErr result (λ fault. fault ≡ RestoreFault.Memory) }
    {
        match self.read.checked_add(held as u64) {
            Some(total) => Ok(total),
            None => Err(RestoreFault::Memory),
        }
    }

    /// Reads the lines that are whole with this piece, and holds what is left of it.
    fn take(&mut self, piece: &[u8]) -> Result<Batches, RestoreFault>
        requires { self.old.fault ≡ None }
        ensures takes { Takes self.old self.new piece.now result }
        ensures sound { OnOk result (self.new.fault ≢ Some RestoreFault.Memory) }
    {
        let mut text = std::mem::replace(&mut self.held, Vec::new(self.alloc));
        text.extend_from_slice(piece)?;
        let total = self.total(text.len())?;
        let mut given = Vec::new(self.alloc);
        match self.progress.run(self.alloc, text.as_slice(), &mut given) {
            Ok(rest) => {
                self.held.extend_from_slice(rest)?;
                self.read = total.saturating_sub(rest.len() as u64);
                Ok(Batches { batches: given })
            }
            Err(Stop::Bad { left }) => {
                let fault = RestoreFault::BadDump {
                    offset: total.saturating_sub(left as u64),
                };
                let batches = Batches { batches: given };
                if batches.is_empty() {
                    return Err(fault);
                }
                self.fault = Some(fault);
                Ok(batches)
            }
            Err(Stop::Memory) => Err(RestoreFault::Memory),
        }
    }

    /// Reads on where no fault was met, and keeps the one that is met now.
    fn feed_on(&mut self, piece: &[u8]) -> Result<Batches, RestoreFault>
        requires { self.old.fault ≡ None }
        ensures fed { Fed self.old self.new piece.now result }
        ensures stays { IfErr result (λ fault. self.new.fault ≡ Some fault) }
        ensures sound { OnOk result (self.new.fault ≢ Some RestoreFault.Memory) }
    {
        match self.take(piece) {
            Ok(batches) => Ok(batches),
            Err(fault) => {
                self.fault = Some(fault);
                Err(fault)
            }
        }
    }

    /// Reads on with the next piece of the text, and gives the batches that end in it. `BadDump`:
    /// the text is no dump, and the longest front of it that begins some dump has `offset` bytes;
    /// where batches end in the piece before that, these are given, and the next call answers the
    /// fault. `Memory`: an allocation was refused, or more than 2^64 - 1 bytes came. After a fault
    /// each further call answers it again.
    pub fn feed(&mut self, piece: &[u8]) -> Result<Batches, RestoreFault>
        ensures fed { Fed self.old self.new piece.now result }
        ensures again { IfSome self.old.fault (λ fault. (result ≡ Err fault)
            × (self.new ≡ self.old)) }
        ensures stays { IfErr result (λ fault. self.new.fault ≡ Some fault) }
        ensures sound { OnOk result (self.new.fault ≢ Some RestoreFault.Memory) }
    {
        match self.fault {
            Some(fault) => Err(fault),
            None => self.feed_on(piece),
        }
    }

    /// Whether the last line was read, where no fault was met.
    fn ended(&self) -> Result<(), RestoreFault>
        requires { self.now.fault ≡ None }
        ensures { Finished self.now result }
    {
        match self.progress.stage {
            Stage::Closed { .. } => Ok(()),
            _ => Err(RestoreFault::BadDump {
                offset: self.read.saturating_add(self.held.len() as u64),
            }),
        }
    }

    /// Says whether the pieces so far are a whole dump. `BadDump`: they are not; an unfinished text
    /// is bad at its end. A fault that was answered is answered again.
    pub fn finish(&self) -> Result<(), RestoreFault>
        ensures finished { Finished self.now result }
        ensures found { Finds self.now result }
        ensures again { IfSome self.now.fault (λ fault. result ≡ Err fault) }
    {
        match self.fault {
            Some(fault) => Err(fault),
            None => self.ended(),
        }
    }
}
