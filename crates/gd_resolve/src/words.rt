//! The properties that words ask for.
ghost use Rattle.std.specs.Prelude.{◌≡◌, ◌==◌, ◌+◌, ◌*◌, ◌≤◌, length, None, [], ◌∷◌, codes};
ghost use Rattle.std.specs.Prelude.{if◌then◌else◌, option_map, IfOk, IfSome, IsOk, IsSome};
ghost use Rattle.std.specs.List.{starts_with};
ghost use Rattle.gd_base.specs.Answers.{Gives};
ghost use Rattle.gd_base.specs.Counts.{Rose};
ghost use Rattle.gd_prim.specs.declared.End.TheVariants.{Left};
ghost use Rattle.gd_prim.specs.End.{places_with};
ghost use Rattle.gd_prim.specs.History.{prims_of};
ghost use Rattle.gd_defs.specs.Cost.{said_of, word_cost};
ghost use Rattle.gd_defs.specs.Ids as ids;
ghost use Rattle.gd_defs.specs.Property as defined;
ghost use Rattle.gd_resolve.specs.Asked.{property_asked, property_steps, word_keys};

use crate::fault::ResolveFault;
use crate::ids::{key_leads, named_object};
use crate::property::{Property, is_property, stated};
use gd_base::id::Id;
use gd_base::memory::Memory;
use gd_base::steps::Steps;
use gd_base::text::Text;
use gd_fault::fault::Path;
use gd_json::value::JsonText;
use gd_store::view::View;
use std::alloc::Global;

/// The property `name`.
const NAME: Id = Id(13);

/// The property `type`.
const TYPE: Id = Id(14);

/// The property `key`.
const KEY: Id = Id(15);

/// A word of a query, and whether `!` stands before it.
#[derive(PartialEq, Eq, Drop)]
pub struct Word {
    pub text: JsonText,
    pub reversed: bool,
}

/// A property that a word names: the object that states it, and what is asked for.
#[derive(Clone, Copy, PartialEq, Eq)]
pub struct Named {
    pub object: Id,
    pub property: Property,
}

fn starts_with_slash(word: &str) -> bool
    ensures { result ≡ starts_with ◌==◌ word.now (codes "/") }
{
    word.starts_with("/")
}

/// The property with the links in the other direction, of which nothing else is known.
fn turned(property: &Property) -> Property
    ensures { result ≡ defined.turned property.now }
{
    Property {
        stored: property.stored,
        reversed: !property.reversed,
        expected: None,
        unique: false,
        language: None,
    }
}

/// The object that a key in a namespace leads to. A key that is longer than a text leads nowhere,
/// which is told at once.
#[tactic(auto, using(crate::proofs::Long::no_key_leads))]
fn any_key_leads<L>(
    alloc: Global,
    view: &View<'_>,
    namespace: Id,
    key: &str,
    steps: &mut Steps<L>,
) -> Result<Option<Id>, Memory>
    ensures leads { IfOk result (λ object. object ≡ ids.key_leads (prims_of view.now) namespace
        key.now) }
    ensures work { steps.new ≤ steps.old + 30 }
    ensures later { steps.old ≤ steps.new }
{
    if !view.may_have_text(key) {
        return Ok(None);
    }
    let key = Text::of(alloc, key)?;
    Ok(key_leads(view, namespace, &key, steps))
}

/// The object that a word leads to: a path is an id, `name`, `type` and `key` are of every object,
/// another key stands in the context type.
fn word_object<L>(
    alloc: Global,
    view: &View<'_>,
    context: Option<Id>,
    word: &str,
    steps: &mut Steps<L>,
) -> Result<Option<Id>, Memory>
    ensures object { IfOk result (λ object. object ≡ defined.word_object (prims_of view.now) context
        word.now) }
    ensures work { steps.new ≤ steps.old + 3 + 30 * word_keys word.now }
    ensures later { steps.old ≤ steps.new }
{
    if starts_with_slash(word) {
        return named_object(alloc, view, word, steps);
    }
    if word == "name" {
        return Ok(Some(NAME));
    }
    if word == "type" {
        return Ok(Some(TYPE));
    }
    if word == "key" {
        return Ok(Some(KEY));
    }
    match context {
        Some(of) => any_key_leads(alloc, view, of, word, steps),
        None => Ok(None),
    }
}

/// The object that a word leads to, if it is a property.
fn property_object<L>(
    alloc: Global,
    view: &View<'_>,
    context: Option<Id>,
    word: &str,
    steps: &mut Steps<L>,
) -> Result<Option<Id>, Memory>
    ensures object { IfOk result (λ object. object ≡ defined.property_object (prims_of view.now)
        context word.now) }
    ensures work { steps.new ≤ steps.old + 28 + 30 * word_keys
        word.now + 4 * said_of (prims_of view.now)
        (defined.word_object (prims_of view.now) context word.now) }
    ensures later { steps.old ≤ steps.new }
    ensures counted { IfOk result (λ object. IsSome object → Rose steps.old steps.new) }
{
    let Some(object) = word_object(alloc, view, context, word, steps)? else {
        return Ok(None);
    };
    if is_property(view, object, steps) {
        Ok(Some(object))
    } else {
        Ok(None)
    }
}

/// What the property at a place states, turned or not.
fn stated_in<L>(view: &View<'_>, place: Id, reversed: bool, steps: &mut Steps<L>) -> Property
    ensures stated { result ≡ (if reversed then defined.turned
        (defined.stated (prims_of view.now) place) else defined.stated (prims_of view.now) place) }
    ensures work { steps.new ≤ steps.old + 25 + 12 * length
        (places_with Left place (prims_of view.now)) }
    ensures later { steps.old ≤ steps.new }
{
    let property = stated(view, place, steps);
    if reversed {
        turned(&property)
    } else {
        property
    }
}

/// The object that a word leads to below the dateline, if it is a property, and what it is asked
/// for then, turned where it is `reversed`; `property` says which words lead where. A caller that
/// has to tell a refusal knows the path that led to the word, which is not asked for here.
/// `Memory`: an allocation was refused.
pub fn named_property<L>(
    alloc: Global,
    view: &View<'_>,
    context: Option<Id>,
    word: &str,
    reversed: bool,
    steps: &mut Steps<L>,
) -> Result<Option<Named>, Memory>
    ensures object { IfOk result (λ named. option_map (λ n. n.object) named
        ≡ defined.property_object (prims_of view.now) context word.now) }
    ensures property { IfOk result (λ named. option_map (λ n. n.property) named
        ≡ defined.property (prims_of view.now) context reversed word.now) }

    // With what is found the property is told, and of what the word leads to no more is looked at.
    ensures work { steps.new ≤ steps.old + property_steps (prims_of view.now) context word.now }

    // So that what the property expects may be looked up once more.
    ensures cost { IfOk result (λ named. IfSome named
        (λ n. steps.new + 23 + 4 * length (places_with Left n.object (prims_of view.now))
        ≤ steps.old + 64 * word_cost (prims_of view.now) context word.now)) }
    ensures none { IfOk result (λ named. steps.new ≤ steps.old + 64 * word_cost (prims_of view.now)
        context word.now) }
    ensures later { steps.old ≤ steps.new }
    ensures counted { IfOk result (λ named. IsSome named → Rose steps.old steps.new) }
{
    match property_object(alloc, view, context, word, steps)? {
        Some(object) => Ok(Some(Named {
            object,
            property: stated_in(view, object, reversed, steps),
        })),
        None => Ok(None),
    }
}

/// The path of a word alone.
fn path_of(alloc: Global, word: &JsonText) -> Result<Path, Memory>
    ensures { IfOk result (λ path. path ≡ word.now ∷ []) }
{
    let names = vec![in alloc; word.copy()?]?;
    Ok(Path::from(names))
}

/// The property that a word asks for below the dateline. A word that begins with a slash is an id;
/// `name`, `type` and `key` are of every object; another one is a key in the context, which is the
/// type of the objects that are asked, if one is known. What it leads to has to be an object that a
/// live link gives the type of properties. What that property states is as `stated` says; where `!`
/// stands before the word its links are asked in the other direction, no type is expected then and
/// there may be many answers. `NoSuchProperty`: the word leads to no property; with the path of the
/// word alone, without `!`.
pub fn property<L>(
    alloc: Global,
    view: &View<'_>,
    context: Option<Id>,
    word: &Word,
    steps: &mut Steps<L>,
) -> Result<Property, ResolveFault>
    ensures property { Gives (λ property. property) ResolveFault.Memory
        (property_asked (prims_of view.now) context word.now.reversed word.now.text) result }
    ensures later { steps.old ≤ steps.new }

    // What a property stands at is looked at.
    ensures counted { IsOk result → Rose steps.old steps.new }
{
    match property_object(alloc, view, context, word.text.as_str(), steps)? {
        Some(object) => Ok(stated_in(view, object, word.reversed, steps)),
        None => Err(ResolveFault::NoSuchProperty {
            path: path_of(alloc, &word.text)?,
        }),
    }
}
