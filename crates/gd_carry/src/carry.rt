//! The members of a write, carried out one after another.
ghost use Rattle.std.specs.Prelude.{◌≡◌, ◌++◌, ◌∷◌, [], OnOk, map};
ghost use Rattle.gd_mql.specs.Changes.{create_view};
ghost use Rattle.gd_defs.specs.Write.Parts as parts;
ghost use Rattle.gd_defs.specs.Write.Carried as defined;
ghost use Rattle.gd_defs.specs.Write.Links as links;
ghost use Rattle.gd_growing.specs.State.{so_far};
ghost use Rattle.gd_growing.specs.Seen.{target_view};
ghost use Rattle.gd_intent.specs.Seen.{item_view, members_view, many_view, spelled_view};
ghost use Rattle.gd_carry.specs.Printed.{printed_view, fields_view, many_view as many_printed};
ghost use Rattle.gd_carry.specs.Outcome.{Makes, Leads, GivesLink, subject_view, connect_view};

use crate::fault::{ChangeFault, at_path};
use crate::print::{Field, Printed};
use crate::subject::{Subject, subject_of};
use gd_base::id::Id;
use gd_base::memory::Memory;
use gd_compile::path::longer;
use gd_growing::Property;
use gd_growing::growing::Growing;
use gd_growing::links::{Answer, connected, inserted};
use gd_growing::stamp::Stamp;
use gd_growing::target::Target;
use gd_intent::intent::{Connect, Entry, Item, Spelled};
use gd_mql::write_parts::CreateWord;
use std::alloc::Global;

fn push_field<'a>(fields: &mut Vec<Field<'a>>, field: Field<'a>) -> Result<(), Memory>
    ensures { OnOk result (fields.new.items ≡ fields.old.items ++ field.entry ∷ []) }
{
    fields.push(field)?;
    Ok(())
}

/// Puts a printed part behind others. `Memory`: an allocation was refused.
pub(crate) fn push_printed<'a>(
    items: &mut Vec<Printed<'a>>,
    item: Printed<'a>,
) -> Result<(), Memory>
    ensures { OnOk result (items.new.items ≡ items.old.items ++ item.entry ∷ []) }
{
    items.push(item)?;
    Ok(())
}

/// Inserts a link of a member at a path.
fn link_made(
    alloc: Global,
    growing: &mut Growing<'_>,
    stamp: &Stamp,
    path: &[&str],
    property: &Property,
    object: Id,
    target: &Target,
) -> Result<Answer, ChangeFault>
    ensures link { GivesLink (links.inserted stamp.now (map (λ name. name.now) path.now)
        (so_far growing.old) property.now object (target_view target.now)) (so_far growing.new)
        result }
    ensures below { growing.new.batches ≡ growing.old.batches }
{
    match inserted(alloc, growing, stamp, property, object, target) {
        Ok(answer) => Ok(answer),
        Err(refused) => Err(at_path(alloc, path, refused)),
    }
}

/// Carries out a fact: it is inserted, unless its object was there before the write.
fn fact_made<'a>(
    alloc: Global,
    growing: &mut Growing<'_>,
    stamp: &Stamp,
    path: &[&str],
    subject: &Subject,
    property: &Property,
    target: &Target,
    spelled: Spelled<'a>,
) -> Result<Printed<'a>, ChangeFault>
    ensures fact { Makes printed_view
        (defined.fact_made stamp.now (map (λ name. name.now) path.now) (so_far growing.old)
        property.now (subject_view subject.now) (target_view target.now)
        (spelled_view spelled.entry)) (so_far growing.new) result }
    ensures below { growing.new.batches ≡ growing.old.batches }
{
    if !subject.existed {
        link_made(
            alloc,
            growing,
            stamp,
            path,
            property,
            subject.object,
            target,
        )?;
    }
    Ok(Printed::Spelled(spelled))
}

/// Carries out a connect form on an object.
fn connect_made<'a>(
    alloc: Global,
    growing: &mut Growing<'_>,
    stamp: &Stamp,
    path: &[&str],
    subject: &Subject,
    connect: &Connect<'a>,
) -> Result<Printed<'a>, ChangeFault>
    ensures connect { Makes printed_view
        (defined.carried_item stamp.now (map (λ name. name.now) path.now) (so_far growing.old)
        (subject_view subject.now) (connect_view connect.entry.now)) (so_far growing.new) result }
    ensures below { growing.new.batches ≡ growing.old.batches }
{
    match connected(
        alloc,
        growing,
        stamp,
        &connect.property,
        subject.object,
        connect.word,
        &connect.target,
        connect.previous,
    ) {
        Ok(answer) => Ok(Printed::Connected(answer, connect.members)),
        Err(refused) => Err(at_path(alloc, path, refused)),
    }
}

/// Carries out the members of a clause on its object, in order.
#[cycle(carried)]
pub(crate) fn carried<'a>(
    alloc: Global,
    growing: &mut Growing<'_>,
    stamp: &Stamp,
    path: &[&'a str],
    subject: &Subject,
    members: &[Entry<'a, Item<'a>>],
) -> Result<Vec<Field<'a>>, ChangeFault>
    ensures members { Makes (λ final fields. fields_view final fields.items)
        (defined.carried stamp.now (map (λ name. name.now) path.entry.now) (so_far growing.old)
        (subject_view subject.now) (members_view members.entry.now)) (so_far growing.new) result }
    ensures below { growing.new.batches ≡ growing.old.batches }
{
    let mut fields = Vec::new(alloc);
    for entry in members {
        let field = carried_entry(alloc, growing, stamp, path, subject, entry)?;
        push_field(&mut fields, field)?;
    }
    Ok(fields)
}

/// Carries out an entry of a clause.
#[cycle(carried)]
fn carried_entry<'a>(
    alloc: Global,
    growing: &mut Growing<'_>,
    stamp: &Stamp,
    path: &[&'a str],
    subject: &Subject,
    entry: &Entry<'a, Item<'a>>,
) -> Result<Field<'a>, ChangeFault>
    ensures entry { Leads (λ prims ms. defined.carried stamp.now
        (map (λ name. name.now) path.entry.now) prims (subject_view subject.now) ms)
        (so_far growing.old) (so_far growing.new) entry.entry.now result }
    ensures below { growing.new.batches ≡ growing.old.batches }
{
    match entry {
        Entry::Member(name, item) => {
            let below = longer(alloc, path, name)?;
            let value = carried_item(alloc, growing, stamp, &below, subject, item)?;
            Ok((*name, value))
        }
        Entry::Created => Ok(("create", Printed::Created(subject.existed))),
    }
}

/// Carries out what a member does.
#[cycle(carried)]
fn carried_item<'a>(
    alloc: Global,
    growing: &mut Growing<'_>,
    stamp: &Stamp,
    path: &[&'a str],
    subject: &Subject,
    item: &Item<'a>,
) -> Result<Printed<'a>, ChangeFault>
    ensures item { Makes printed_view
        (defined.carried_item stamp.now (map (λ name. name.now) path.entry.now) (so_far growing.old)
        (subject_view subject.now) (item_view item.entry.now)) (so_far growing.new) result }
    ensures below { growing.new.batches ≡ growing.old.batches }
{
    match item {
        Item::Spelled(spelled) => Ok(Printed::Spelled(*spelled)),
        Item::Id => Ok(Printed::Id(subject.object)),
        Item::Guid => Ok(Printed::Guid(subject.object)),
        Item::Fact {
            property,
            target,
            spelled,
        } => fact_made(
            alloc, growing, stamp, path, subject, property, target, *spelled,
        ),
        Item::Connect(connect) => { connect_made(alloc, growing, stamp, path, subject, connect) }
        Item::Nested {
            property,
            word,
            members,
        } => nested_made(
            alloc, growing, stamp, path, subject, property, *word, members,
        ),
        Item::Several(items) => several_made(alloc, growing, stamp, path, subject, items),
    }
}

/// Carries out a nested create, and links its object.
#[cycle(carried)]
fn nested_made<'a>(
    alloc: Global,
    growing: &mut Growing<'_>,
    stamp: &Stamp,
    path: &[&'a str],
    subject: &Subject,
    property: &Property,
    word: CreateWord,
    members: &[Entry<'a, Item<'a>>],
) -> Result<Printed<'a>, ChangeFault>
    ensures nested { Makes printed_view
        (defined.carried_item stamp.now (map (λ name. name.now) path.entry.now) (so_far growing.old)
        (subject_view subject.now) (parts.nested property.now (create_view word)
        (members_view members.entry.now))) (so_far growing.new) result }
    ensures below { growing.new.batches ≡ growing.old.batches }
{
    let nested = subject_of(alloc, growing, stamp, path, word, members)?;
    let fields = carried(alloc, growing, stamp, path, &nested, members)?;
    let target = Target::Object(nested.object);
    link_made(
        alloc,
        growing,
        stamp,
        path,
        property,
        subject.object,
        &target,
    )?;
    Ok(Printed::Form(fields))
}

/// Carries out the items of a list.
#[cycle(carried)]
fn several_made<'a>(
    alloc: Global,
    growing: &mut Growing<'_>,
    stamp: &Stamp,
    path: &[&'a str],
    subject: &Subject,
    items: &[Item<'a>],
) -> Result<Printed<'a>, ChangeFault>
    ensures several { Makes printed_view
        (defined.carried_item stamp.now (map (λ name. name.now) path.entry.now) (so_far growing.old)
        (subject_view subject.now) (parts.several (many_view items.entry.now))) (so_far growing.new)
        result }
    ensures below { growing.new.batches ≡ growing.old.batches }
{
    let printed = carried_items(alloc, growing, stamp, path, subject, items)?;
    Ok(Printed::Several(printed))
}

/// Carries out each item of a list, in order.
#[cycle(carried)]
fn carried_items<'a>(
    alloc: Global,
    growing: &mut Growing<'_>,
    stamp: &Stamp,
    path: &[&'a str],
    subject: &Subject,
    items: &[Item<'a>],
) -> Result<Vec<Printed<'a>>, ChangeFault>
    ensures items { Makes (λ final ps. many_printed final ps.items)
        (defined.carried_items stamp.now (map (λ name. name.now) path.entry.now)
        (so_far growing.old) (subject_view subject.now) (many_view items.entry.now))
        (so_far growing.new) result }
    ensures below { growing.new.batches ≡ growing.old.batches }
{
    let mut done = Vec::new(alloc);
    for item in items {
        let printed = carried_item(alloc, growing, stamp, path, subject, item)?;
        push_printed(&mut done, printed)?;
    }
    Ok(done)
}
