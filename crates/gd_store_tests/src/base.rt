//! Faults of texts, as they are printed.
use gd_base::text::TextFault;
use std::alloc::Global;

/// Each fault of a text, and how it is printed.
static FAULTS: [(TextFault, &str); 3] = [
    (TextFault::TooLong, "the text has more than 4,096 bytes"),
    (
        TextFault::NotUtf8 { offset: 3 },
        "the text is no UTF-8 at byte 3",
    ),
    (TextFault::Memory, "out of memory"),
];

/// Whether the fault is printed so.
fn is_printed(alloc: Global, fault: &TextFault, printed: &str) -> bool {
    match format!(in alloc; "{fault}") {
        Ok(text) => text.as_str() == printed,
        Err(_) => false,
    }
}

#[test]
fn prints_faults(rt: HostRuntime) {
    for (fault, printed) in &FAULTS {
        assert!(rt; is_printed(rt.alloc(), fault, printed));
    }
}
