//! Where the bytes are no cursor, as a text.
use gd_frozen::FrozenFault;
use std::alloc::Global;

/// Whether the fault of a cursor with a leading zero is told so.
fn is_told(alloc: Global) -> bool {
    match format!(in alloc; "{}", FrozenFault::BadFrozen { offset: 4 }) {
        Ok(text) => text.as_str() == "the bytes are no cursor at byte 4",
        Err(_) => false,
    }
}

#[test]
fn tells_where_a_cursor_ends(rt: HostRuntime) {
    assert!(rt; is_told(rt.alloc()));
}
