//! The refusal by a limit of the store, which no line of a case reaches.
use gd_base::memory::Memory;
use gd_prim::What;
use gd_reply::lines::err_line;
use gd_reply::refusal::Refusal;

/// Whether this line was made.
fn is_line(made: Result<Vec<u8>, Memory>, wanted: &[u8]) -> bool {
    match made {
        Ok(line) => line.as_slice() == wanted,
        Err(_) => false,
    }
}

#[test]
fn prints_a_refusal(rt: HostRuntime) {
    let refusal = Refusal::Full {
        what: What::Requests,
        count: 4_194_304,
    };
    let line = err_line(rt.alloc(), 9, 2, &refusal);
    assert!(rt;
        is_line(
            line,
            b"{\"code\":\"/api/status/error\",\"dateline\":9,\"error\":\"Full\",\"info\":{\"count\":4194304,\"what\":\"requests\"},\"line\":2}"
        )
    );
}
