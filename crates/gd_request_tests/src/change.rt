//! Why a write is refused, as a text.
use gd_change::fault::ChangeFault;
use gd_prim::What;
use std::alloc::Global;

/// Whether the fault prints this.
fn says(alloc: Global, fault: &ChangeFault, wanted: &str) -> bool {
    match format!(in alloc; "{fault}") {
        Ok(printed) => printed.as_str() == wanted,
        Err(_) => false,
    }
}

#[test]
fn prints_a_fault(rt: HostRuntime) {
    let full = ChangeFault::Full {
        what: What::Text,
        count: 134_217_729,
    };
    assert!(rt;
        says(
            rt.alloc(),
            &full,
            "the limit of Text does not allow 134217729"
        )
    );
}
