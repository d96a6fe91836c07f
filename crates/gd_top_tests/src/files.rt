//! A store in a real file.
use crate::run::prints;
use gd_outside::gate::OpenGate;
use std::fs;

const FOLDER: &str = "gd_top_tests_files";

const PATH: &str = "gd_top_tests_files/store";

static WORDS: [&str; 3] = ["serve", "--file", PATH];

const CREATE: &str =
    "{\"sid\":0,\"write\":{\"query\":{\"create\":\"unconditional\",\"guid\":null,\"name\":\"Ann\"}}}\n";

const CREATED: &str =
    "{\"code\":\"/api/status/ok\",\"dateline\":1,\"line\":0,\"result\":{\"create\":\"created\",\"guid\":\"#00000000000000010000000000000046\",\"name\":\"Ann\"}}\n";

const READ: &str = "{\"sid\":0,\"read\":{\"query\":[{\"guid\":null,\"name\":\"Ann\"}]}}\n";

const FOUND: &str =
    "{\"code\":\"/api/status/ok\",\"dateline\":1,\"line\":0,\"result\":[{\"guid\":\"#00000000000000010000000000000046\",\"name\":\"Ann\"}]}\n";

/// The file of a store with this object, made at the moment 0: version 2 of the format.
static FILE: [u8; 43] = [
    0x47, 0x52, 0x41, 0x50, 0x48, 0x44, 0x32, 0x0a, 0x01, 0x00, 0x00, 0x00, 0x1d, 0x00, 0x01, 0x00,
    0x00, 0x00, 0x00, 0x00, 0x00, 0x00, 0x00, 0x00, 0x02, 0x40, 0x00, 0x45, 0x00, 0x00, 0x00, 0x46,
    0x00, 0x00, 0x00, 0x0d, 0x01, 0x00, 0x03, 0x41, 0x6e, 0x6e, 0x00,
];

/// Whether the folder is made anew.
fn begins(files: &HostRuntime) -> bool {
    let _ = fs::remove_dir_all(files, FOLDER);
    fs::create_dir(files, FOLDER).is_ok()
}

/// Whether the file has these bytes.
fn holds_it(files: &HostRuntime) -> bool {
    match fs::read(files, PATH) {
        Ok(found) => found.as_slice() == FILE.as_slice(),
        Err(_) => false,
    }
}

#[test]
fn file_holds_it(rt: HostRuntime) {
    let held = begins(&rt)
        && prints(&rt, rt.alloc(), &WORDS, CREATE, &OpenGate, CREATED)
        && holds_it(&rt)
        && prints(&rt, rt.alloc(), &WORDS, READ, &OpenGate, FOUND)
        && fs::remove_dir_all(&rt, FOLDER).is_ok();
    assert!(rt; held);
}
