//! The first and last lines of dumps, and the first lines of batches.
ghost use Rattle.std.specs.Prelude.{◌≡◌, ◌<◌, ◌^◌, IfOk};
ghost use Rattle.gd_dump_laws.specs.Reading as reading;
ghost use Rattle.gd_dump.specs.Stop.{Finds};

use crate::number::number_to;
use crate::stop::Stop;
use crate::word::{byte, word};
use gd_prim::limits::MAX_BATCH;
use gd_prim::well_formed::MAX_MOMENT;
use itoa::Buffer;

/// Reads the first line of a dump: the number of its first batch.
#[tactic(auto, unfolding(gd_dump_laws::specs::Reading::head_at))]
pub(crate) fn head(bytes: &[u8]) -> Result<(u64, &[u8]), Stop>
    ensures head { Finds (λ x. (x.0, x.1.now)) (reading.head_at bytes.now) result }
    ensures within { IfOk result (λ x. x.0 < 2 ^ 32) }
{
    let rest = word(bytes, b"graphd-dump 1 ")?;
    number_to(rest, u64::from(u32::MAX), b'\n')
}

/// Reads the first line of a batch: its moment, and how many primitives it has.
#[tactic(auto, unfolding(gd_dump_laws::specs::Reading::batch_at))]
pub(crate) fn batch_head(bytes: &[u8]) -> Result<((u64, u64), &[u8]), Stop>
    ensures { Finds (λ x. (x.0, x.1.now)) (reading.batch_at bytes.now) result }
{
    let rest = word(bytes, b"batch ")?;
    let (moment, rest) = number_to(rest, MAX_MOMENT, b' ')?;
    let (count, rest) = number_to(rest, MAX_BATCH as u64, b'\n')?;
    Ok(((moment, count), rest))
}

/// Reads the last line of a dump of so many batches.
#[tactic(auto, unfolding(gd_dump_laws::specs::Reading::end_at))]
pub(crate) fn end(bytes: &[u8], count: u64) -> Result<&[u8], Stop>
    ensures { Finds (λ rest. (tt, rest.now)) (reading.end_at count bytes.now) result }
{
    let rest = word(bytes, b"end ")?;
    let rest = word(rest, Buffer::new().format(count).as_bytes())?;
    byte(rest, b'\n')
}
