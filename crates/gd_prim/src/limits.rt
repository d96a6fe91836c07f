//! The limits of a store, and what they count.
ghost use Rattle.std.specs.Prelude.{◌≡◌, ◌*◌, ◌≤◌, length, sum_by};
ghost use Rattle.gd_prim.specs.Limits as defined;

use crate::Primitive;
use gd_base::datum::Datum;

/// The greatest number of primitives of a store.
pub const MAX_PRIMS: usize = 2_097_151;

/// The greatest number of primitives of a batch.
pub const MAX_BATCH: usize = 4_096;

/// The greatest number of bytes of all values and names that are texts.
pub const MAX_TEXT: u64 = 134_217_728;

/// The greatest number of requests.
pub const MAX_REQUESTS: usize = 4_194_303;

/// How many bytes the value and the name of a primitive have, as far as they are texts.
pub fn text_bytes(prim: &Primitive) -> u64
    ensures bytes { result ≡ defined.text_bytes prim.now }
    ensures bound { result ≤ 8_192 }
{
    let value = match &prim.value {
        Datum::Text(text) => text.as_bytes().len() as u64,
        _ => 0,
    };
    let name = match &prim.name {
        Some(name) => name.as_bytes().len() as u64,
        None => 0,
    };
    value + name
}

/// The same for the primitives of a batch together.
pub fn batch_text_bytes(prims: &[Primitive]) -> u64
    requires { length prims.now ≤ 4_096 }
    ensures bytes { result ≡ sum_by defined.text_bytes prims.now }
    ensures bound { result ≤ 33_554_432 }
{
    let mut bytes = 0;
    for prim in prims {
        bytes += text_bytes(prim);
    }
    bytes
}
