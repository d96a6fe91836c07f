//! Dumps of stores.
ghost use Rattle.std.specs.Prelude.{◌≡◌, ◌≤◌, ◌<◌, ◌++◌, ℕ, List, Some, Err, drop, flat_map};
ghost use Rattle.std.specs.Prelude.{length, slice_get, IfOk, OnOk, OnErr, IfErr};
ghost use Rattle.std.specs.List.{AllByRecursion};
ghost use Rattle.std.specs.Io.KnownBytes.{Appends};
ghost use Rattle.gd_base.specs.Counts.{Rose};
ghost use Rattle.gd_prim.specs.declared.Batch.{Batch};
ghost use Rattle.gd_dump_laws.specs.Dump as dump;
ghost use Rattle.gd_outside.specs.Gains.{GainsFront};
ghost use Rattle.gd_dump_laws.specs.Dumping.{dump_from};
ghost use Rattle.gd_dump.specs.Sent.{AreEarly, IsEnd};
ghost use Rattle.gd_dump.specs.declared.stop.DumpFault.TheVariants as DumpFault;

use crate::stop::DumpFault;
use crate::text::{push_batch, push_end, push_head};
use gd_batches::prims::batch_prims;
use gd_outside::Failed;
use gd_outside::printing::write_all;
use gd_outside::sink::Sink;
use gd_store::store::Store;
use std::alloc::Global;

/// Sends a text on. `SinkFault`: the sink failed, and took a front of it.
fn send<K: Sink>(sink: &mut K, text: &[u8]) -> Result<(), DumpFault>
    ensures all { OnOk result (Appends (K.held sink.old) (K.held sink.new) text.now) }
    ensures front { OnErr result (GainsFront (K.held sink.old) (K.held sink.new) text.now) }
    ensures failed { IfErr result (λ fault. fault ≡ DumpFault.SinkFault) }
    ensures cause { OnErr result (Rose (K.faults sink.old) (K.faults sink.new)) }
    ensures later { K.faults sink.old ≤ K.faults sink.new }
{
    match write_all(sink, text) {
        Ok(()) => Ok(()),
        Err(Failed) => Err(DumpFault::SinkFault),
    }
}

/// Sends the first line on.
fn send_head<K: Sink>(alloc: Global, first: u32, sink: &mut K) -> Result<(), DumpFault>
    ensures all { OnOk result (Appends (K.held sink.old) (K.held sink.new) (dump.dump_head first)) }
    ensures front { OnErr result
        (GainsFront (K.held sink.old) (K.held sink.new) (dump.dump_head first)) }
    ensures failed { IfErr result (IsEnd (K.faults sink.old) (K.faults sink.new)) }
    ensures later { K.faults sink.old ≤ K.faults sink.new }
{
    let mut text = Vec::new(alloc);
    push_head(&mut text, first)?;
    send(sink, text.as_slice())
}

/// Sends the last line on.
fn send_end<K: Sink>(alloc: Global, count: u32, sink: &mut K) -> Result<(), DumpFault>
    ensures all { OnOk result (Appends (K.held sink.old) (K.held sink.new) (dump.dump_end count)) }
    ensures front { OnErr result
        (GainsFront (K.held sink.old) (K.held sink.new) (dump.dump_end count)) }
    ensures failed { IfErr result (IsEnd (K.faults sink.old) (K.faults sink.new)) }
    ensures later { K.faults sink.old ≤ K.faults sink.new }
{
    let mut text = Vec::new(alloc);
    push_end(&mut text, count)?;
    send(sink, text.as_slice())
}

/// Sends the lines of the n-th batch on.
fn send_batch<K: Sink>(alloc: Global, store: &Store, n: u32, sink: &mut K) -> Result<(), DumpFault>
    requires there { n < length store.now }
    requires small { n < 4_194_303 }
    ensures all { (b : Batch) → slice_get store.now n ≡ Some b
        → OnOk result (Appends (K.held sink.old) (K.held sink.new) (dump.batch_text b)) }
    ensures front { (b : Batch) → slice_get store.now n ≡ Some b
        → OnErr result (GainsFront (K.held sink.old) (K.held sink.new) (dump.batch_text b)) }
    ensures fits { (b : Batch) → slice_get store.now n ≡ Some b
        → OnOk result (AllByRecursion (λ p. dump.PrimitiveFits p.moment p) b.prims) }
    ensures failed { IfErr result (IsEnd (K.faults sink.old) (K.faults sink.new)) }
    ensures later { K.faults sink.old ≤ K.faults sink.new }
{
    let mut text = Vec::new(alloc);
    push_batch(&mut text, store.request_moment(n), batch_prims(store, n))?;
    send(sink, text.as_slice())
}

/// Sends the lines of all batches from a number on.
fn send_batches<K: Sink>(
    alloc: Global,
    store: &Store,
    from: u32,
    sink: &mut K,
) -> Result<(), DumpFault>
    requires { from ≤ length store.now }
    ensures all { OnOk result (Appends (K.held sink.old) (K.held sink.new)
        (flat_map dump.batch_text (drop from store.now))) }
    ensures front { OnErr result
        (GainsFront (K.held sink.old) (K.held sink.new)
        (flat_map dump.batch_text (drop from store.now))) }
    ensures fits { OnOk result
        (AllByRecursion (λ b. AllByRecursion (λ p. dump.PrimitiveFits p.moment p) b.prims)
        (drop from store.now)) }
    ensures failed { IfErr result (IsEnd (K.faults sink.old) (K.faults sink.new)) }
    ensures later { K.faults sink.old ≤ K.faults sink.new }
{
    for n in from..store.requests() {
        send_batch(alloc, store, n, sink)?;
    }
    Ok(())
}

/// Writes the batches of a store from a number on as a dump. `DumpFrom`: the store has fewer
/// batches, and nothing was written. `SinkFault`: the sink failed. `Memory`: an allocation was
/// refused. After a fault a front of the dump was written. Where each batch has a moment of at most
/// 253,402,300,799,999, also an empty one, what was written is read again as these batches.
pub fn write_dump<K: Sink>(
    alloc: Global,
    store: &Store,
    from: u32,
    sink: &mut K,
) -> Result<(), DumpFault>
    ensures all { OnOk result (Appends (K.held sink.old) (K.held sink.new)
        (dump_from from store.now)) }
    ensures front { OnErr result
        (GainsFront (K.held sink.old) (K.held sink.new) (dump_from from store.now)) }
    ensures dump { AreEarly store.now
        → OnOk result (dump.IsDump (dump_from from store.now) from (drop from store.now)) }
    ensures behind { length store.now < from
        → result ≡ Err (DumpFault.DumpFrom from (length store.now)) }
    ensures asked { (asked : ℕ) (have : ℕ) → result ≡ Err (DumpFault.DumpFrom asked have)
        → (length store.now < from) × (sink.new ≡ sink.old) }
    ensures cause { result ≡ Err DumpFault.SinkFault
        → Rose (K.faults sink.old) (K.faults sink.new) }
    ensures later { K.faults sink.old ≤ K.faults sink.new }
{
    let have = store.requests();
    if from > have {
        return Err(DumpFault::DumpFrom { asked: from, have });
    }
    send_head(alloc, from, sink)?;
    send_batches(alloc, store, from, sink)?;
    send_end(alloc, have - from, sink)
}
