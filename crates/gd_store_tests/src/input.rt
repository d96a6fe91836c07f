//! Rounds of an input.
use gd_input::line::RoundLine;
use gd_input::reader::Reader;
use gd_input::round::Round;
use gd_outside::memory::MemorySource;
use std::alloc::Global;

/// Inputs, the lines of their first rounds, and whether the input ends with it.
static ROUNDS: [(&str, &[&str], bool); 6] = [
    ("", &[], true),
    ("a\nbc\n", &["a", "bc"], true),
    ("a\r\n\r\nb", &["a"], false),
    ("a\rb\n\r", &["a\rb", "\r"], true),
    ("\na", &[], false),
    (" \n\t\n", &[" ", "\t"], true),
];

/// The first round of an input.
fn first_round(alloc: Global, input: &str) -> Option<Round> {
    let mut source = MemorySource::new(alloc, input.as_bytes(), &[]).ok()?;
    let mut reader = Reader::new(alloc);
    reader.read_round(&mut source).ok()
}

/// Whether the line is this text.
fn is_line(line: &RoundLine, text: &str) -> bool {
    match line {
        RoundLine::Bytes(bytes) => bytes.as_slice() == text.as_bytes(),
        RoundLine::TooLong => false,
    }
}

/// Whether the lines are these texts.
fn are_lines(lines: &[RoundLine], texts: &[&str]) -> bool {
    lines.len() == texts.len()
        && lines
            .iter()
            .zip(texts)
            .all(|(line, text)| is_line(line, text))
}

/// Whether the first round of the input is this one.
fn is_read(alloc: Global, input: &str, lines: &[&str], ended: bool) -> bool {
    match first_round(alloc, input) {
        Some(round) => round.ended == ended && are_lines(&round.lines, lines),
        None => false,
    }
}

#[test]
fn reads_rounds(rt: HostRuntime) {
    for (input, lines, ended) in &ROUNDS {
        assert!(rt; is_read(rt.alloc(), input, lines, *ended));
    }
}
