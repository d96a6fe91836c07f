//! Definitions of bytes and positions: groups, files, disks, cursors and frozen texts. They stand
//! in `specs/`.
#![tactic(auto)]
