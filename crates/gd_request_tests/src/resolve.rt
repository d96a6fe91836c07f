//! Why an id names nothing, as a text.
use gd_json::value::JsonText;
use gd_resolve::fault::ResolveFault;
use std::alloc::Global;

/// Whether the refusal of the id `/x` prints this.
fn prints(alloc: Global, wanted: &str) -> bool {
    let Ok(path) = JsonText::from_str(alloc, "/x") else {
        return false;
    };
    match format!(in alloc; "{}", ResolveFault::NoSuchId { path }) {
        Ok(printed) => printed.as_str() == wanted,
        Err(_) => false,
    }
}

#[test]
fn prints_a_fault(rt: HostRuntime) {
    assert!(rt; prints(rt.alloc(), "no object has the id \"/x\""));
}
