//! What the program says of each status. The runs themselves are shown by the rows that `gd_rows`
//! runs.
use gd_top::status::Status;
use std::alloc::Global;

static STATUSES: [(Status, u8, &str); 12] = [
    (Status::Done, 0, "done"),
    (Status::Usage, 2, "usage: graphd VERB [--NAME VALUE]"),
    (Status::ReadFault, 3, "input failed"),
    (Status::SinkFault, 4, "output failed"),
    (Status::DiskFault, 5, "disk failed"),
    (Status::NotStore, 6, "not a store"),
    (Status::Damaged { offset: 8 }, 7, "damaged at 8"),
    (Status::Memory, 8, "out of memory"),
    (Status::TooMuch, 10, "too much input"),
    (Status::BadDump { offset: 12 }, 11, "bad dump at 12"),
    (
        Status::DumpFrom { asked: 0, have: 1 },
        12,
        "dump starts at 0, store has 1",
    ),
    (Status::Unfit { batch: 3 }, 13, "batch 3 does not fit"),
];

/// Whether a status has this code and prints this text.
fn tells(alloc: Global, status: Status, code: u8, text: &str) -> bool {
    match format!(in alloc; "{status}") {
        Ok(said) => status.code() == code && said.as_str() == text,
        Err(_) => false,
    }
}

#[test]
fn tells_each_status(rt: HostRuntime) {
    assert!(rt;
        STATUSES
            .iter()
            .all(|row| tells(rt.alloc(), row.0, row.1, row.2))
    );
}
