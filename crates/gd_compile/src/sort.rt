//! What rows are sorted by.
ghost use Rattle.std.specs.Prelude.{◌≡◌, ◌≤◌, ◌+◌, ◌++◌, ◌∷◌, [], map, sum_by, OnOk};
ghost use Rattle.gd_prim.specs.History.{prims_of};
ghost use Rattle.gd_defs.specs.Asked as defs;
ghost use Rattle.gd_mql.specs.Clauses.{sort_view};
ghost use Rattle.gd_mql.specs.Directives.{sort_word_view};
ghost use Rattle.gd_compile.specs.Fault.{Finds};
ghost use Rattle.gd_compile.specs.Looks.{sort_steps};
ghost use Rattle.gd_plan.specs.Seen.{expects_view};
ghost use Rattle.gd_plan.specs.Seen.{sort_key_view};
ghost use Rattle.gd_compile.specs.Words.{value_key, is_value};

use crate::fault::{Code, Unknown, bad, no_property};
use crate::words::{is_guid, is_id, is_timestamp};
use gd_base::id::Id;
use gd_base::memory::Memory;
use gd_base::steps::Steps;
use gd_mql::clause::SortWords;
use gd_mql::directive::SortWord;
use gd_plan::asked::SortKey;
use gd_plan::expects::{Expects, expects_of};
use gd_plan::{Property, View, named_property};
use std::alloc::Global;

/// Whether the answers are values of a kind.
fn is_value(expects: Expects) -> bool
    ensures { result ≡ is_value (expects_view expects) }
{
    matches!(expects, Expects::Value(_))
}

/// The sort key of a property: its links have to be its own and to hold values of a kind.
fn value_key(
    alloc: Global,
    path: &[&str],
    property: &Property,
    descending: bool,
) -> Result<SortKey, Unknown>
    ensures { Finds sort_key_view (value_key descending (map (λ name. name.now) path.now)
        property.now) result }
{
    if is_value(expects_of(property.expected)) && !property.reversed {
        Ok(SortKey::Value {
            property: *property,
            descending,
        })
    } else {
        Err(bad(alloc, Code::BadSort, path))
    }
}

/// The sort key of a sort word in a context, the type of the objects that are sorted, if one is
/// known: the guid, the timestamp, or a property whose links are its own and hold values of a kind.
/// `path` has the names that lead to the directive `sort` from the root down, its own among them.
/// `NoSuchProperty` with the path: the word leads to no property. `BadQuery` with `BadSort` and the
/// path: it is `id` or leads to another property. `Memory`: an allocation was refused.
#[tactic(auto, using(crate::proofs::Sorts::value_found, crate::proofs::Looked::sort_looked))]
pub fn sort_key<L>(
    alloc: Global,
    view: &View<'_>,
    context: Option<Id>,
    path: &[&str],
    sort: &SortWord<'_>,
    steps: &mut Steps<L>,
) -> Result<SortKey, Unknown>
    ensures key { Finds sort_key_view
        (defs.sort_key (prims_of view.now) context (map (λ name. name.now) path.now)
        (sort_word_view sort.now)) result }
    ensures looks { steps.new ≤ steps.old + sort_steps (prims_of view.now) context
        (sort_word_view sort.now) }
    ensures later { steps.old ≤ steps.new }
{
    let descending = sort.descending;
    if is_id(sort.word) {
        return Err(bad(alloc, Code::BadSort, path));
    }
    if is_guid(sort.word) {
        return Ok(SortKey::Guid { descending });
    }
    if is_timestamp(sort.word) {
        return Ok(SortKey::Timestamp { descending });
    }
    match named_property(alloc, view, context, sort.word, false, steps)? {
        Some(named) => value_key(alloc, path, &named.property, descending),
        None => Err(no_property(alloc, path)),
    }
}

/// The same context again.
pub(crate) fn same(context: &Option<Id>) -> Option<Id>
    ensures { result ≡ context.now }
{
    match context {
        Some(of) => Some(*of),
        None => None,
    }
}

fn push_key(keys: &mut Vec<SortKey>, key: SortKey) -> Result<(), Memory>
    ensures { OnOk result (keys.new.items ≡ keys.old.items ++ key ∷ []) }
{
    keys.push(key)?;
    Ok(())
}

/// The sort keys of the words of a directive `sort`, in order; the first word that is none is
/// refused as `sort_key` says.
#[tactic(auto, using(crate::proofs::SortWords::few_words, crate::proofs::SortWords::word_there))]
pub fn sort_keys<L>(
    alloc: Global,
    view: &View<'_>,
    context: Option<Id>,
    path: &[&str],
    words: &SortWords<'_>,
    steps: &mut Steps<L>,
) -> Result<Vec<SortKey>, Unknown>
    ensures keys { Finds (λ keys. map sort_key_view keys.items)
        (defs.sort_keys (prims_of view.now) context (map (λ name. name.now) path.now)
        (sort_view words.now)) result }
    ensures looks { steps.new ≤ steps.old + sum_by (sort_steps (prims_of view.now) context)
        (sort_view words.now) }
    ensures later { steps.old ≤ steps.new }
{
    let mut keys = Vec::new(alloc);
    let mut index = 0;
    while let Some(word) = words.word(index) {
        let key = sort_key(alloc, view, same(&context), path, &word, steps)?;
        push_key(&mut keys, key)?;
        index += 1;
    }
    Ok(keys)
}
