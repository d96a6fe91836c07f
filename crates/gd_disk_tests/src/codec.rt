//! Groups of batches as bytes.
use gd_codec::decode_group;
use std::alloc::Global;

/// The first write of a store, of an object with a name, whose first byte begins no UTF-8.
const BAD: [u8; 29] = [
    0, 1, 0, 0, 0, 0, 0, 0, 0, 0, 0, 2, 0x40, 0, 0x45, 0, 0, 0, 0x46, 0, 0, 0, 0x0d, 1, 0, 3, 0xff,
    0x6e, 0x6e,
];

/// Why the bytes are refused, as a text.
fn refusal(alloc: Global) -> Option<String> {
    match decode_group(alloc, &BAD) {
        Ok(_) => None,
        Err(fault) => format!(in alloc; "{fault}").ok(),
    }
}

/// Whether it says where the bytes are none.
fn says_where(alloc: Global) -> bool {
    match refusal(alloc) {
        Some(text) => text.as_str() == "the bytes are no group of batches at byte 26",
        None => false,
    }
}

#[test]
fn a_refusal_is_printed(rt: HostRuntime) {
    assert!(rt; says_where(rt.alloc()));
}
