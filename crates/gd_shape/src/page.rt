//! What a page prints.
ghost use Rattle.std.specs.Prelude.{◌≡◌, List, [], true, false, IfErr, IfOk, map};
ghost use Rattle.json.specs.Token.{Token};
ghost use Rattle.gd_tree.specs.Trees.{place_of, lists_of};
ghost use Rattle.gd_frozen.specs.Meaning.{walk_of};
ghost use Rattle.gd_match_laws.specs.Walks.{object_listed, rows_listed};
ghost use Rattle.gd_plan.specs.Asked.{asked_view, members_view};
ghost use Rattle.gd_runs.specs.Shape.{list_shape, object_shape, page_shape, rows_shape};
ghost use Rattle.gd_trees.specs.View.{view as tree_view};
ghost use Rattle.gd_shape.specs.Knowing.{IsKnownOf};
ghost use Rattle.gd_shape.specs.Outcome.{beside, seen, text_of, written, Lacks, LacksOf};
ghost use Rattle.gd_shape.specs.Printed as print;

use crate::answer::Answer;
use crate::known::Known;
use crate::print::{Names, write_object};
use crate::sight::{Lack, Sight};
use crate::told::Told;
use gd_base::id::Id;
use gd_frozen::frozen::Walk;
use gd_json::value::JsonText;
use gd_plan::asked::{Asked, Member};
use gd_trees::tree::Tree;
use json::Writer;
use std::alloc::Global;

/// Room for a short page.
const SHORT: usize = 128;

/// Writes what the row of a tree prints.
#[tactic(auto, using(crate::proofs::InTrees::row_seen))]
fn write_row(
    alloc: Global,
    out: &mut Writer,
    sight: &Sight<'_>,
    ids: &Known,
    told: &mut Told<'_>,
    members: &[Member],
    tree: &Tree,
) -> Result<Result<(), Names>, Lack>
    requires { IsKnownOf sight.now ids.now }
    ensures printed { IfOk result (λ outcome. seen (λ _. (out.new.tokens, told.new)) outcome
        ≡ written out.old.tokens (print.as_object (object_shape sight.now
        (members_view members.now) 0 (place_of (tree_view tree.now))
        (lists_of (tree_view tree.now)) told.old))) }
    ensures before { out.new.before ≡ out.old.before }
    ensures lacks { IfErr result (λ lack. Lacks ids.now lack) }
    ensures listed { IfErr result (λ lack. LacksOf
        (object_listed sight.now (members_view members.now) 0 (place_of (tree_view tree.now))
        (lists_of (tree_view tree.now))) lack) }
{
    let at = Answer {
        link: Id(0),
        object: tree.place,
        lists: tree.lists.as_slice(),
    };
    write_object(alloc, out, sight, ids, told, members, &at)
}

/// Writes the list of what the rows of trees print, or finds the first path of two answers.
#[tactic(auto, using(crate::proofs::Written::list_begins, crate::proofs::Rows::rows_more, crate::proofs::Rows::rows_path, crate::proofs::Rows::rows_all, crate::proofs::Listed::rows_lack))]
fn write_rows(
    alloc: Global,
    out: &mut Writer,
    sight: &Sight<'_>,
    ids: &Known,
    told: &mut Told<'_>,
    members: &[Member],
    trees: &[Tree],
) -> Result<Result<(), Names>, Lack>
    requires { IsKnownOf sight.now ids.now }
    ensures printed { IfOk result (λ outcome. seen (λ _. (out.new.tokens, told.new)) outcome
        ≡ written out.old.tokens (list_shape true
        (print.rows_print sight.now (members_view members.now) (map tree_view trees.now)
        told.old))) }
    ensures before { out.new.before ≡ out.old.before }
    ensures lacks { IfErr result (λ lack. Lacks ids.now lack) }
    ensures listed { IfErr result (λ lack. LacksOf
        (rows_listed sight.now (members_view members.now) (map tree_view trees.now)) lack) }
{
    out.begin_array()?;
    for tree in trees {
        match write_row(alloc, out, sight, ids, told, members, tree)? {
            Ok(()) => {}
            Err(names) => return Ok(Err(names)),
        }
    }
    out.end_array()?;
    Ok(Ok(()))
}

/// The first path of two answers in rows that are not printed.
#[tactic(auto, using(crate::proofs::Rows::no_rows_beside, crate::proofs::Written::listed_beside))]
fn pass_rows(
    alloc: Global,
    sight: &Sight<'_>,
    ids: &Known,
    told: &mut Told<'_>,
    members: &[Member],
    trees: &[Tree],
) -> Result<Result<(), Names>, Lack>
    requires { IsKnownOf sight.now ids.now }
    ensures printed { IfOk result (λ outcome. (out : List Token)
        → seen (λ _. (out, told.new)) outcome
        ≡ beside out (print.rows_print sight.now (members_view members.now)
        (map tree_view trees.now) told.old)) }
    ensures lacks { IfErr result (λ lack. Lacks ids.now lack) }
    ensures listed { IfErr result (λ lack. LacksOf
        (rows_listed sight.now (members_view members.now) (map tree_view trees.now)) lack) }
{
    if trees.is_empty() {
        return Ok(Ok(()));
    }
    let mut aside = Writer::new(Vec::new(alloc));
    write_rows(alloc, &mut aside, sight, ids, told, members, trees)
}

/// Writes what the first row prints, or null where there is none. A path of two answers in those
/// behind it is found too.
#[tactic(auto, using(crate::proofs::Rows::first_row, crate::proofs::Rows::first_row_fails, crate::proofs::Rows::no_first_row, crate::proofs::Listed::first_row_lacks, crate::proofs::Listed::rest_rows_lack))]
fn write_first_row(
    alloc: Global,
    out: &mut Writer,
    sight: &Sight<'_>,
    ids: &Known,
    told: &mut Told<'_>,
    members: &[Member],
    trees: &[Tree],
) -> Result<Result<(), Names>, Lack>
    requires { IsKnownOf sight.now ids.now }
    ensures printed { IfOk result (λ outcome. seen (λ _. (out.new.tokens, told.new)) outcome
        ≡ written out.old.tokens (list_shape false
        (print.rows_print sight.now (members_view members.now) (map tree_view trees.now)
        told.old))) }
    ensures before { out.new.before ≡ out.old.before }
    ensures lacks { IfErr result (λ lack. Lacks ids.now lack) }
    ensures listed { IfErr result (λ lack. LacksOf
        (rows_listed sight.now (members_view members.now) (map tree_view trees.now)) lack) }
{
    let Some((tree, rest)) = trees.split_first() else {
        out.null()?;
        return Ok(Ok(()));
    };
    match write_row(alloc, out, sight, ids, told, members, tree)? {
        Ok(()) => pass_rows(alloc, sight, ids, told, members, rest),
        Err(names) => Ok(Err(names)),
    }
}

/// Writes what the root of a query prints.
fn write_page(
    alloc: Global,
    out: &mut Writer,
    sight: &Sight<'_>,
    ids: &Known,
    told: &mut Told<'_>,
    asked: &Asked,
    trees: &[Tree],
) -> Result<Result<(), Names>, Lack>
    requires { IsKnownOf sight.now ids.now }
    ensures printed { IfOk result (λ outcome. seen (λ _. (out.new.tokens, told.new)) outcome
        ≡ written out.old.tokens (list_shape (asked_view asked.now).listed
        (rows_shape sight.now (asked_view asked.now).members (map tree_view trees.now) told.old))) }
    ensures before { out.new.before ≡ out.old.before }
    ensures lacks { IfErr result (λ lack. Lacks ids.now lack) }
    ensures listed { IfErr result (λ lack. LacksOf
        (rows_listed sight.now (asked_view asked.now).members (map tree_view trees.now)) lack) }
{
    let members = asked.members.as_slice();
    if asked.listed {
        return write_rows(alloc, out, sight, ids, told, members, trees);
    }
    write_first_row(alloc, out, sight, ids, told, members, trees)
}

/// The compact text of what the root of a query prints from the trees of its page's rows: a list,
/// an object or null; or the names of the members that lead to the first two answers where one is
/// asked. The k-th id is spelt by the k-th of the walks; those behind them are printed as they are
/// known. `IdOf`: the id of an object that the page prints is not among these.
/// `Memory`: an allocation was refused.
#[tactic(auto, using(crate::proofs::Written::page_path))]
pub fn page_text(
    alloc: Global,
    sight: &Sight<'_>,
    ids: &Known,
    walks: &[Walk],
    asked: &Asked,
    trees: &[Tree],
) -> Result<Result<Vec<u8>, Vec<JsonText>>, Lack>
    requires { IsKnownOf sight.now ids.now }
    ensures printed { IfOk result (λ outcome. seen (λ text. text.items) outcome
        ≡ text_of (page_shape sight.now (asked_view asked.now) (map tree_view trees.now)
        (map walk_of walks.now))) }
    ensures lacks { IfErr result (λ lack. Lacks ids.now lack) }
    ensures listed { IfErr result (λ lack. LacksOf
        (rows_listed sight.now (asked_view asked.now).members (map tree_view trees.now)) lack) }
{
    let bytes = Vec::with_capacity(alloc, SHORT)?;
    let mut out = Writer::new(bytes);
    let mut told = Told::new(walks);
    match write_page(alloc, &mut out, sight, ids, &mut told, asked, trees)? {
        Ok(()) => Ok(Ok(out.into_inner())),
        Err(names) => Ok(Err(names)),
    }
}
