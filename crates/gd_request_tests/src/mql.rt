//! Why a line asks nothing, as a text.
use gd_mql::fault::{Code, LineFault, Path};
use std::alloc::Global;

/// Whether the fault prints this.
fn prints(alloc: Global, fault: &LineFault, wanted: &str) -> bool {
    match format!(in alloc; "{fault}") {
        Ok(printed) => printed.as_str() == wanted,
        Err(_) => false,
    }
}

#[test]
fn prints_a_fault(rt: HostRuntime) {
    let fault = LineFault::BadQuery {
        code: Code::Envelope,
        path: Path::root(rt.alloc()),
    };
    let wanted =
        "the query is refused at Path { names: [] }: the envelope of the request is not one";
    assert!(rt; prints(rt.alloc(), &fault, wanted));
}
