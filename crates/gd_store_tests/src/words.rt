//! The help.
use gd_words::help::help_text;

/// What the help names.
static NAMED: [&str; 15] = [
    "serve",
    "replay",
    "dump",
    "restore",
    "follow",
    "templates",
    "gen",
    "--file",
    "--workers",
    "--budget",
    "--cache",
    "--from",
    "--number",
    "--count",
    "threads",
];

/// Whether the help names it all, in so few lines that a screen shows them.
fn helps(text: &str) -> bool {
    NAMED.iter().all(|word| text.contains(*word)) && text.lines().count() < 45
}

#[test]
fn names_verbs_and_options(rt: HostRuntime) {
    assert!(rt; helps(help_text()));
}
