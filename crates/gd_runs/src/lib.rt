//! Definitions of lines and whole runs: requests, legal histories, the core and explained output.
//! They stand in `specs/`.
#![tactic(auto)]
