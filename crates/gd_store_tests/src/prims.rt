//! The first bad place of a batch, as it is printed.
use gd_base::id::Id;
use gd_prim::well_formed::BadBatch;

#[test]
fn bad_place_printed(rt: HostRuntime) {
    let bad = BadBatch { place: Id(4_166) };
    let well = match format!(in rt.alloc(); "{bad}") {
        Ok(text) => text.as_str() == "the primitive at place 4166 breaks a rule",
        Err(_) => false,
    };
    assert!(rt; well);
}
