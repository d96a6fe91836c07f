//! Whole writes to a sink.
ghost use Rattle.std.specs.Prelude.{◌≡◌, ◌≤◌, ◌∷◌, ◌++◌, [], OnOk, OnErr};
ghost use Rattle.std.specs.Io.KnownBytes.{Appends};
ghost use Rattle.gd_base.specs.Counts.{Rose};
ghost use Rattle.gd_outside.specs.Gains.{GainsFront};

use crate::Failed;
use crate::sink::Sink;

/// Writes all bytes. `Failed`: the sink gained a front of them, and its count rose.
pub fn write_all<K: Sink>(sink: &mut K, bytes: &[u8]) -> Result<(), Failed>
    ensures all { OnOk result (Appends (K.held sink.old) (K.held sink.new) bytes.now) }
    ensures front { OnErr result (GainsFront (K.held sink.old) (K.held sink.new) bytes.now) }
    ensures failed { OnErr result (Rose (K.faults sink.old) (K.faults sink.new)) }
    ensures later { K.faults sink.old ≤ K.faults sink.new }
{
    let mut written = 0;
    while written < bytes.len() {
        let count = sink.write(&bytes[written..])?;
        if count == 0 {
            return Err(Failed);
        }
        written += count;
    }
    Ok(())
}

/// Writes a line and its newline. `Failed`: the sink gained a front of them, and its count rose.
pub fn write_line<K: Sink>(sink: &mut K, line: &[u8]) -> Result<(), Failed>
    ensures all { OnOk result
        (Appends (K.held sink.old) (K.held sink.new) (line.now ++ 10 ∷ [])) }
    ensures front { OnErr result
        (GainsFront (K.held sink.old) (K.held sink.new) (line.now ++ 10 ∷ [])) }
    ensures failed { OnErr result (Rose (K.faults sink.old) (K.faults sink.new)) }
    ensures later { K.faults sink.old ≤ K.faults sink.new }
{
    write_all(sink, line)?;
    write_all(sink, b"\n")?;
    Ok(())
}
