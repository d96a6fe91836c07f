//! Texts of frozen readings.
ghost use Rattle.std.specs.Prelude.{◌≡◌, ◌++◌, ◌∷◌, [], ℕ, List, Ok, OnOk, IfOk, codes, decimal};
ghost use Rattle.std.specs.Prelude.{flat_map, string_bytes};
ghost use Rattle.gd_grammar.specs.Mark.{place_text};
ghost use Rattle.gd_bytes.specs.Frozen as defined;
ghost use Rattle.gd_frozen.specs.Flatly.{flat_items};
ghost use Rattle.gd_frozen.specs.FrozenAt.{frozen_of};
ghost use Rattle.gd_frozen.specs.Meaning.{reading_of};
ghost use Rattle.gd_frozen.specs.Printing.{parted, added, behind_it, print};
ghost use Rattle.gd_frozen.specs.Written.{row_written, after_written, iter_written, trees_written};
ghost use Rattle.gd_frozen.specs.Written.{frame_written, scan_written, walk_written, body_written};
ghost use Rattle.gd_frozen.specs.Written.{reading_written};

use crate::frozen::{FrozenBody, FrozenFrame, FrozenReading, FrozenScan, RowAt, Walk};
use crate::tree::{FrozenTrees, Piece};
use crate::write::push_number;
use gd_base::id::Id;
use gd_base::memory::Memory;
use gd_iter_core::turn::FrozenIter;
use std::alloc::Global;

/// The piece that was written last.
#[derive(Clone, Copy)]
pub(crate) enum Last {
    /// The beginning of a list.
    Opened,
    /// A place.
    Named,
    /// The end of a list.
    Closed,
}

/// What stands between a piece and a place behind it.
fn between(last: Last) -> &'static str
    ensures { result.now ≡ parted last }
{
    match last {
        Last::Opened => "",
        Last::Named => ";",
        Last::Closed => ");",
    }
}

/// How a list begins behind a piece.
fn opening(last: Last) -> &'static str
    ensures { result.now ≡ added last Piece.Opens }
{
    match last {
        Last::Opened => "[",
        Last::Named => "([",
        Last::Closed => ",[",
    }
}

/// How a list ends behind a piece.
fn closing(last: Last) -> &'static str
    ensures { result.now ≡ added last Piece.Closes }
{
    match last {
        Last::Closed => ")]",
        Last::Opened | Last::Named => "]",
    }
}

/// Appends a piece behind another.
fn push_piece(out: &mut String, last: Last, piece: Piece) -> Result<(), Memory>
    ensures { OnOk result (string_bytes out.new ≡ string_bytes out.old ++ added last piece) }
{
    match piece {
        Piece::Place(place) => push_number(out, between(last), place.place()),
        Piece::Opens => {
            out.push_str(opening(last))?;
            Ok(())
        }
        Piece::Closes => {
            out.push_str(closing(last))?;
            Ok(())
        }
    }
}

/// The piece that was written last.
fn written(piece: Piece) -> Last
    ensures { result ≡ behind_it piece }
{
    match piece {
        Piece::Place(_) => Last::Named,
        Piece::Opens => Last::Opened,
        Piece::Closes => Last::Closed,
    }
}

/// What ends trees behind a piece.
fn end(last: Last) -> &'static str
    ensures { result.now ≡ print last [] }
{
    match last {
        Last::Closed => ")",
        Last::Opened | Last::Named => "",
    }
}

/// Appends pieces, up to the last bracket.
fn push_pieces(out: &mut String, pieces: &[Piece]) -> Result<(), Memory>
    ensures { OnOk result (string_bytes out.new ≡ string_bytes out.old ++ print Last.Opened
        pieces.now) }
{
    let mut last = Last::Opened;
    for piece in pieces {
        push_piece(out, last, *piece)?;
        last = written(*piece);
    }
    out.push_str(end(last))?;
    Ok(())
}

/// Appends pieces between brackets.
fn push_bracketed(out: &mut String, pieces: &[Piece]) -> Result<(), Memory>
    ensures { OnOk result (string_bytes out.new ≡ string_bytes out.old ++ 91
        ∷ (print Last.Opened pieces.now ++ codes "]")) }
{
    out.push_str("[")?;
    push_pieces(out, pieces)?;
    out.push_str("]")?;
    Ok(())
}

/// Appends trees.
#[tactic(auto, using(crate::proofs::Printed::pieces_print))]
fn push_trees(out: &mut String, trees: &FrozenTrees) -> Result<(), Memory>
    ensures { OnOk result (string_bytes out.new ≡ string_bytes out.old ++ trees_written trees.now) }
{
    push_bracketed(out, trees.pieces())
}

/// Appends lists of trees, a comma before each.
fn push_more_lists(out: &mut String, lists: &[FrozenTrees]) -> Result<(), Memory>
    ensures { OnOk result (string_bytes out.new ≡ string_bytes out.old ++ flat_map
        (λ t. codes "," ++ trees_written t) lists.now) }
{
    for trees in lists {
        out.push_str(",")?;
        push_trees(out, trees)?;
    }
    Ok(())
}

/// Appends lists of trees, with commas between them.
fn push_lists(out: &mut String, lists: &[FrozenTrees]) -> Result<(), Memory>
    ensures { OnOk result (string_bytes out.new ≡ string_bytes out.old ++ flat_items (codes ",")
        trees_written lists.now) }
{
    match lists {
        [] => Ok(()),
        [first, others @ ..] => {
            push_trees(out, first)?;
            push_more_lists(out, others)
        }
    }
}

/// Appends the places of keys, a comma before each.
fn push_keys(out: &mut String, keys: &[Option<Id>]) -> Result<(), Memory>
    ensures { OnOk result (string_bytes out.new ≡ string_bytes out.old ++ flat_map
        (λ k. codes "," ++ place_text k) keys.now) }
{
    for key in keys {
        push_key(out, *key)?;
    }
    Ok(())
}

/// Appends the place of a key behind a comma.
fn push_key(out: &mut String, key: Option<Id>) -> Result<(), Memory>
    ensures { OnOk result (string_bytes out.new
        ≡ string_bytes out.old ++ (codes "," ++ place_text key)) }
{
    match key {
        Some(id) => push_number(out, ",", id.place()),
        None => {
            out.push_str(",-")?;
            Ok(())
        }
    }
}

/// Appends a row.
fn push_row(out: &mut String, row: &RowAt) -> Result<(), Memory>
    ensures { OnOk result (string_bytes out.new ≡ string_bytes out.old ++ row_written row.now) }
{
    push_number(out, "", row.object.place())?;
    push_keys(out, row.keys.as_slice())
}

/// Appends rows, a semicolon before each.
fn push_more_rows(out: &mut String, rows: &[RowAt]) -> Result<(), Memory>
    ensures { OnOk result (string_bytes out.new ≡ string_bytes out.old ++ flat_map
        (λ r. codes ";" ++ row_written r) rows.now) }
{
    for row in rows {
        out.push_str(";")?;
        push_row(out, row)?;
    }
    Ok(())
}

/// Appends rows, with semicolons between them.
fn push_rows(out: &mut String, rows: &[RowAt]) -> Result<(), Memory>
    ensures { OnOk result (string_bytes out.new ≡ string_bytes out.old ++ flat_items (codes ";")
        row_written rows.now) }
{
    match rows {
        [] => Ok(()),
        [first, others @ ..] => {
            push_row(out, first)?;
            push_more_rows(out, others)
        }
    }
}

/// Appends the row after which a page begins.
fn push_after(out: &mut String, after: &Option<RowAt>) -> Result<(), Memory>
    ensures { OnOk result (string_bytes out.new ≡ string_bytes out.old ++ after_written after.now) }
{
    match after {
        None => out.push_str("-")?,
        Some(row) => {
            out.push_str("(")?;
            push_row(out, row)?;
            out.push_str(")")?;
        }
    }
    Ok(())
}

/// Appends the position of an iterator.
fn push_iter(out: &mut String, iter: FrozenIter) -> Result<(), Memory>
    ensures { OnOk result (string_bytes out.new ≡ string_bytes out.old ++ iter_written iter) }
{
    push_number(out, "", iter.place.place())?;
    match iter.accepted {
        Some(members) => push_number(out, "?", members),
        None => Ok(()),
    }
}

/// Appends a frame.
fn push_frame(out: &mut String, frame: &FrozenFrame) -> Result<(), Memory>
    ensures { OnOk result (string_bytes out.new ≡ string_bytes out.old ++ frame_written frame.now) }
{
    push_number(out, "", frame.place.place())?;
    out.push_str(",")?;
    push_iter(out, frame.iter)?;
    out.push_str(",(")?;
    push_lists(out, frame.lists.as_slice())?;
    out.push_str(")")?;
    Ok(())
}

/// Appends frames, a semicolon before each.
fn push_frames(out: &mut String, frames: &[FrozenFrame]) -> Result<(), Memory>
    ensures { OnOk result (string_bytes out.new ≡ string_bytes out.old ++ flat_map
        (λ f. codes ";" ++ frame_written f) frames.now) }
{
    for frame in frames {
        out.push_str(";")?;
        push_frame(out, frame)?;
    }
    Ok(())
}

/// Appends a scan.
fn push_scan(out: &mut String, scan: &FrozenScan) -> Result<(), Memory>
    ensures { OnOk result (string_bytes out.new ≡ string_bytes out.old ++ scan_written scan.now) }
{
    out.push_str("[")?;
    push_iter(out, scan.iter)?;
    push_number(out, ",", scan.weight)?;
    push_frames(out, scan.frames.as_slice())?;
    out.push_str("]")?;
    Ok(())
}

/// Appends links, a comma before each.
fn push_more_links(out: &mut String, links: &[Id]) -> Result<(), Memory>
    ensures { OnOk result (string_bytes out.new ≡ string_bytes out.old ++ flat_map
        (λ k. codes "," ++ decimal k) links.now) }
{
    for link in links {
        push_number(out, ",", link.place())?;
    }
    Ok(())
}

/// Appends links, with commas between them.
fn push_links(out: &mut String, links: &[Id]) -> Result<(), Memory>
    ensures { OnOk result (string_bytes out.new ≡ string_bytes out.old ++ flat_items (codes ",")
        decimal links.now) }
{
    match links {
        [] => Ok(()),
        [first, others @ ..] => {
            push_number(out, "", first.place())?;
            push_more_links(out, others)
        }
    }
}

/// Appends a walk.
fn push_walk(out: &mut String, walk: &Walk) -> Result<(), Memory>
    ensures { OnOk result (string_bytes out.new ≡ string_bytes out.old ++ walk_written walk.now) }
{
    match walk {
        Walk::Guid => out.push_str("g")?,
        Walk::Root => out.push_str("/")?,
        Walk::Links(links) => push_links(out, links.as_slice())?,
    }
    Ok(())
}

/// Appends walks, a semicolon before each.
fn push_more_walks(out: &mut String, walks: &[Walk]) -> Result<(), Memory>
    ensures { OnOk result (string_bytes out.new ≡ string_bytes out.old ++ flat_map
        (λ w. codes ";" ++ walk_written w) walks.now) }
{
    for walk in walks {
        out.push_str(";")?;
        push_walk(out, walk)?;
    }
    Ok(())
}

/// Appends walks, with semicolons between them.
fn push_walks(out: &mut String, walks: &[Walk]) -> Result<(), Memory>
    ensures { OnOk result (string_bytes out.new ≡ string_bytes out.old ++ flat_items (codes ";")
        walk_written walks.now) }
{
    match walks {
        [] => Ok(()),
        [first, others @ ..] => {
            push_walk(out, first)?;
            push_more_walks(out, others)
        }
    }
}

/// Appends what a reading that builds trees does.
fn push_building(
    out: &mut String,
    weight: u32,
    trees: &FrozenTrees,
    scan: &FrozenScan,
) -> Result<(), Memory>
    ensures { OnOk result (string_bytes out.new
        ≡ string_bytes out.old ++ (codes
        "b" ++ (decimal weight ++ (codes
        ":" ++ (trees_written trees.now ++ (codes ":" ++ scan_written scan.now)))))) }
{
    push_number(out, "b", weight)?;
    out.push_str(":")?;
    push_trees(out, trees)?;
    out.push_str(":")?;
    push_scan(out, scan)
}

/// Appends what a reading that prints does.
fn push_printing(
    out: &mut String,
    printed: u32,
    trees: &FrozenTrees,
    walks: &[Walk],
) -> Result<(), Memory>
    ensures { OnOk result (string_bytes out.new
        ≡ string_bytes out.old ++ (codes
        "p" ++ (decimal printed ++ (codes
        ":" ++ (trees_written trees.now ++ (codes
        ":[" ++ (flat_items (codes ";") walk_written walks.now ++ codes "]"))))))) }
{
    push_number(out, "p", printed)?;
    out.push_str(":")?;
    push_trees(out, trees)?;
    out.push_str(":[")?;
    push_walks(out, walks)?;
    out.push_str("]")?;
    Ok(())
}

/// Appends what a reading does.
fn push_body(out: &mut String, body: &FrozenBody) -> Result<(), Memory>
    ensures { OnOk result (string_bytes out.new ≡ string_bytes out.old ++ body_written body.now) }
{
    match body {
        FrozenBody::Scan(scan) => {
            out.push_str("s")?;
            push_scan(out, scan)
        }
        FrozenBody::Build {
            weight,
            trees,
            scan,
        } => push_building(out, *weight, trees, scan),
        FrozenBody::Print {
            printed,
            trees,
            walks,
        } => push_printing(out, *printed, trees, walks.as_slice()),
    }
}

/// The text of a frozen reading, whatever its bounds.
fn written_text(alloc: Global, reading: &FrozenReading) -> Result<String, Memory>
    ensures { IfOk result (λ text. string_bytes text ≡ reading_written reading.now) }
{
    let mut out = String::new(alloc);
    push_number(&mut out, "f1:", reading.dateline)?;
    out.push_str(":")?;
    push_after(&mut out, &reading.after)?;
    out.push_str(":[")?;
    push_rows(&mut out, reading.rows.as_slice())?;
    out.push_str("]:")?;
    push_body(&mut out, &reading.body)?;
    Ok(out)
}

/// The text of a frozen reading that lies within the bounds of the grammar. `frozen_from` gives the
/// reading again; of one that was read it is the text that was read.
pub fn frozen_text(alloc: Global, reading: &FrozenReading) -> Result<Vec<u8>, Memory>
    requires { defined.Fits (reading_of reading.now) }
    ensures spelled { IfOk result (λ text. defined.IsFrozenText (reading_of reading.now)
        text.items) }
    ensures one { (bytes : List ℕ) → defined.IsFrozenText (reading_of reading.now) bytes
        → IfOk result (λ text. text.items ≡ bytes) }
    ensures again { IfOk result (λ text. frozen_of text.items ≡ Ok (reading_of reading.now)) }
{
    let text = written_text(alloc, reading)?;
    Ok(text.into_bytes())
}
