//! Trees, one piece after another, and how they are read.
ghost use Rattle.std.specs.Prelude.{◌≡◌, ◌+◌, ◌<◌, ◌≤◌, ◌^◌, ◌++◌, ◌∷◌, [], List, ℕ, IfOk, OnOk};
ghost use Rattle.std.specs.Prelude.{MatchOption, Some, None};
ghost use Rattle.gd_prim.specs.Limits.{max_prims};
ghost use Rattle.gd_frozen.specs.Pieces.{begin_place, close_list, after_tree, step as step_of, run};
ghost use Rattle.gd_frozen.specs.Pieces.{trees_at, trees_in, trees_pieces};
ghost use Rattle.gd_frozen.specs.Moving.{move_of, shown, IsSmall, MovesSmall};
ghost use Rattle.gd_frozen.specs.Halts.{Gets};

use crate::halt::Halt;
use crate::number::{begins, goes_on};
use crate::place::{MAX_PLACE, byte};
use gd_base::id::Id;
use gd_base::memory::Memory;
use std::alloc::Global;
use std::marker::Model;

/// A piece of trees: a place, or the beginning or the end of a list of trees below the last place.
#[derive(Clone, Copy, Debug, PartialEq, Eq)]
pub enum Piece {
    Place(Id),
    Opens,
    Closes,
}

/// Trees, as their pieces one after another, so that nothing recurs however deep they are.
/// Contracts see these; `trees_in` gives the trees.
#[derive(Drop)]
pub struct FrozenTrees {
    pieces: Vec<Piece>,
}

impl Model for FrozenTrees {
    ghost use Rattle.std.specs.Prelude.{◌≡◌, List};
    ghost use Rattle.gd_frozen.specs.Pieces.{trees_in, trees_pieces};
    ghost use Rattle.gd_frozen.specs.declared.tree.Piece.{Piece};

    ghost Value = { List Piece };

    ghost view = { λ trees. trees.pieces.items };

    ghost invariant = { λ trees. trees_pieces (trees_in trees.pieces.items) ≡ trees.pieces.items };
}

impl FrozenTrees {
    /// The trees that pieces make, which are their pieces.
    pub fn of(pieces: Vec<Piece>) -> FrozenTrees
        requires { trees_pieces (trees_in pieces.items) ≡ pieces.items }
        ensures { result ≡ pieces.items }
    {
        FrozenTrees { pieces }
    }

    /// Their pieces, one after another.
    pub fn pieces(&self) -> &[Piece]
        ensures pieces { result.now ≡ self.now }
        ensures flat { trees_pieces (trees_in self.now) ≡ self.now }
    {
        self.pieces.as_slice()
    }
}

/// Where the text of trees is read.
#[derive(Clone, Copy)]
pub(crate) enum At {
    /// Behind the bracket that opens a list: a tree comes, or its end.
    Items,
    /// Behind a semicolon: a tree comes.
    Next,
    /// In the number of a place.
    Number(u32),
    /// Behind the parenthesis that opens lists, or a comma: a list comes.
    Lists,
    /// Behind a list of a tree.
    Closed,
    /// Behind a tree that has lists.
    Ended,
}

/// What a byte makes of the reading of trees.
#[derive(Clone, Copy)]
pub(crate) enum Move {
    /// Reading stops there.
    Stops,
    /// The outermost list ends with it, behind this place, if one comes to its end.
    Ends(Option<Id>),
    /// Reading goes on, below so many lists that are open: a place comes to its end, and a list
    /// begins or ends, if they do.
    Goes(At, u64, Option<Id>, Option<Piece>),
}

/// A place begins with a byte.
fn begin(depth: u64, byte: u8) -> Move
    ensures made { move_of result ≡ begin_place depth byte }
    ensures small { MovesSmall depth result }
{
    if begins(byte, MAX_PLACE) {
        return Move::Goes(At::Number(u32::from(byte - b'0')), depth, None, None);
    }
    Move::Stops
}

/// A list ends, behind a place, if one comes to its end.
fn close(depth: u64, place: Option<Id>) -> Move
    ensures made { move_of result ≡ close_list depth (shown place None) }
    ensures small { MovesSmall depth result }
{
    if depth == 0 {
        return Move::Ends(place);
    }
    Move::Goes(At::Closed, depth - 1, place, Some(Piece::Closes))
}

/// A byte behind a tree.
fn after(depth: u64, byte: u8, place: Option<Id>) -> Move
    ensures made { move_of result ≡ after_tree depth byte (shown place None) }
    ensures small { MovesSmall depth result }
{
    if byte == b';' {
        return Move::Goes(At::Next, depth, place, None);
    }
    if byte == b']' {
        return close(depth, place);
    }
    Move::Stops
}

/// A byte in the number of a place.
fn in_number(n: u32, depth: u64, byte: u8) -> Move
    requires { n ≤ max_prims }
    ensures made { move_of result ≡ step_of (At.Number n) depth byte }
    ensures small { MovesSmall depth result }
{
    if goes_on(n, byte, MAX_PLACE) {
        return Move::Goes(
            At::Number(10 * n + u32::from(byte - b'0')),
            depth,
            None,
            None,
        );
    }
    if byte == b'(' {
        return Move::Goes(At::Lists, depth, Some(Id::new(n)), None);
    }
    after(depth, byte, Some(Id::new(n)))
}

/// A byte behind a list of a tree.
fn in_closed(depth: u64, byte: u8) -> Move
    ensures made { move_of result ≡ step_of At.Closed depth byte }
    ensures small { MovesSmall depth result }
{
    if byte == b',' {
        return Move::Goes(At::Lists, depth, None, None);
    }
    if byte == b')' {
        return Move::Goes(At::Ended, depth, None, None);
    }
    Move::Stops
}

/// A byte where a list of a tree comes.
fn in_lists(depth: u64, byte: u8) -> Move
    requires { depth < 2 ^ 63 }
    ensures made { move_of result ≡ step_of At.Lists depth byte }
    ensures small { MovesSmall depth result }
{
    if byte == b'[' {
        return Move::Goes(At::Items, depth + 1, None, Some(Piece::Opens));
    }
    Move::Stops
}

/// A byte behind the bracket of a list.
fn in_items(depth: u64, byte: u8) -> Move
    ensures made { move_of result ≡ step_of At.Items depth byte }
    ensures small { MovesSmall depth result }
{
    if byte == b']' {
        return close(depth, None);
    }
    begin(depth, byte)
}

/// What a byte makes of the reading of trees.
fn step(at: At, depth: u64, byte: u8) -> Move
    requires small { IsSmall at }
    requires deep { depth < 2 ^ 63 }
    ensures made { move_of result ≡ step_of at depth byte }
    ensures small { MovesSmall depth result }
{
    match at {
        At::Items => in_items(depth, byte),
        At::Next => begin(depth, byte),
        At::Number(n) => in_number(n, depth, byte),
        At::Lists => in_lists(depth, byte),
        At::Closed => in_closed(depth, byte),
        At::Ended => after(depth, byte, None),
    }
}

/// Further pieces: a place, and the beginning or the end of a list.
fn show(pieces: &mut Vec<Piece>, place: Option<Id>, list: Option<Piece>) -> Result<(), Memory>
    ensures { OnOk result (pieces.new.items ≡ pieces.old.items ++ shown place list) }
{
    if let Some(place) = place {
        pieces.push(Piece::Place(place))?;
    }
    if let Some(list) = list {
        pieces.push(list)?;
    }
    Ok(())
}

/// The first byte, and those behind it.
fn first(bytes: &[u8]) -> Option<(u8, &[u8])>
    ensures { MatchOption result (bytes.now ≡ []) (λ x. bytes.now ≡ x.0 ∷ x.1.now) }
{
    match bytes {
        [] => None,
        [byte, behind @ ..] => Some((*byte, behind)),
    }
}

/// Reads trees behind their first bracket, as pieces.
fn pieces_behind(alloc: Global, bytes: &[u8]) -> Result<(Vec<Piece>, &[u8]), Halt>
    ensures { Gets (λ x. (x.0.items, x.1.now)) (run At.Items 0 bytes.now) result }
{
    let mut pieces = Vec::new(alloc);
    let mut at = At::Items;
    let mut depth = 0;
    let mut rest = bytes;
    while let Some((byte, behind)) = first(rest) {
        match step(at, depth, byte) {
            Move::Stops => return Err(Halt::Bad { left: rest.len() }),
            Move::Ends(place) => {
                show(&mut pieces, place, None)?;
                return Ok((pieces, behind));
            }
            Move::Goes(next, deep, place, list) => {
                show(&mut pieces, place, list)?;
                at = next;
                depth = deep;
                rest = behind;
            }
        }
    }
    Err(Halt::Bad { left: 0 })
}

/// Reads trees.
#[tactic(auto, using(crate::proofs::Flat::flat))]
pub(crate) fn trees(alloc: Global, bytes: &[u8]) -> Result<(FrozenTrees, &[u8]), Halt>
    ensures { Gets (λ x. (trees_in x.0, x.1.now)) (trees_at bytes.now) result }
{
    let rest = byte(bytes, b'[')?;
    let (pieces, rest) = pieces_behind(alloc, rest)?;
    Ok((FrozenTrees { pieces }, rest))
}
