//! JSON values.
use gd_json::from::json_from;
use gd_json::text::json_text;
use std::alloc::Global;

/// Texts of JSON, and the compact texts of their values.
static TEXTS: [(&str, &str); 12] = [
    ("null", "null"),
    (" [ true , false ] ", "[true,false]"),
    ("[[],{},[0]]", "[[],{},[0]]"),
    ("-9223372036854775808", "-9223372036854775808"),
    ("9223372036854775807", "9223372036854775807"),
    (
        "{\"b\":1,\"a\":{\"d\":2,\"c\":3}}",
        "{\"a\":{\"c\":3,\"d\":2},\"b\":1}",
    ),
    ("{\"a\":1,\"b\":2,\"a\":3}", "{\"a\":3,\"b\":2}"),
    ("{\"Z\":1,\"a\":2,\"\":3}", "{\"\":3,\"Z\":1,\"a\":2}"),
    ("{\"a\":1.5,\"a\":1}", "{\"a\":1}"),
    ("\"\\u0041\\/\"", "\"A/\""),
    (
        "\"caf\u{e9} \\u00e9 \\ud83d\\ude00 \u{2028}\u{7f}\"",
        "\"caf\u{e9} \u{e9} \u{1f600} \u{2028}\u{7f}\"",
    ),
    (
        "\"\\u0000\\u0008\\u000b\\u001f\\\"\\\\\"",
        "\"\\u0000\\b\\u000b\\u001f\\\"\\\\\"",
    ),
];

/// The compact text of what the bytes spell.
fn reprinted(alloc: Global, bytes: &[u8]) -> Option<Vec<u8>> {
    let value = json_from(alloc, bytes).ok()?;
    json_text(alloc, &value).ok()
}

/// Whether the text is read, and printed so.
fn is_reprinted(alloc: Global, text: &str, printed: &str) -> bool {
    match reprinted(alloc, text.as_bytes()) {
        Some(again) => again.as_slice() == printed.as_bytes(),
        None => false,
    }
}

#[test]
fn prints_what_it_reads(rt: HostRuntime) {
    for (text, printed) in &TEXTS {
        assert!(rt; is_reprinted(rt.alloc(), text, printed));
    }
}
