//! The template that a text means, built of a text that is in the grammar and not too deep.
ghost use Rattle.std.specs.Prelude.{◌≡◌, ◌++◌, ◌∷◌, [], ◌+◌, ◌≤◌, map, codes, ℕ, List, Ok, IfOk};
ghost use Rattle.std.specs.Prelude.{OnOk, true, false};
ghost use Rattle.gd_defs.specs.Template as defs;
ghost use Rattle.gd_template.specs.Built.{view};
ghost use Rattle.gd_template.specs.Seen.{constraint_of};
ghost use Rattle.gd_template.specs.View.{clauses_view, parts as parts_of};
ghost use Rattle.gd_tplang.specs.Building.{IsBuildable, gathered, nothing, with_item, with_items};
ghost use Rattle.gd_grammar.specs.Choice.{seen_at, word_at};
ghost use Rattle.gd_tplang.specs.Meaning.{compared, constraints_of, meaning};
ghost use Rattle.gd_tplang.specs.Seen.{head_of, relation_of, test_of};
ghost use Rattle.gd_tplang.specs.Steps.{clause_at, next_at};
ghost use Rattle.gd_tplang.specs.Stop.{Finds};
ghost use Rattle.gd_tplang.specs.Written as written;

use crate::byte::{byte, is_next, word};
use crate::head::{Head, is_clause_next, read_head};
use crate::stop::Stop;
use crate::test::{Relation, Test, read_test};
use gd_base::datum::Datum;
use gd_base::memory::Memory;
use gd_base::text::Text;
use gd_datum::pattern::{Pattern, PatternFault};
use gd_template::constraint::Constraint;
use gd_template::template::{Clause, Template, TemplateFault};
use std::alloc::Global;

/// How many items a template may have behind its first one.
const MORE_ITEMS: u32 = 63;

/// What is gathered of a template.
#[derive(Drop)]
pub(crate) struct Parts {
    pub(crate) constraints: Vec<Constraint>,
    pub(crate) clauses: Vec<Clause>,
}

impl Parts {
    /// Nothing yet.
    fn new(alloc: Global) -> Parts
        ensures { gathered result ≡ nothing }
    {
        Parts {
            constraints: Vec::new(alloc),
            clauses: Vec::new(alloc),
        }
    }
}

/// The constraint that a value stands so to this one.
fn comparison(relation: Relation, value: Datum) -> Constraint
    ensures { constraint_of result ≡ compared (relation_of relation) value }
{
    match relation {
        Relation::Equal => Constraint::ValueIs(value),
        Relation::Unequal => Constraint::ValueNot(value),
        Relation::Below => Constraint::Below {
            value,
            or_equal: false,
        },
        Relation::AtMost => Constraint::Below {
            value,
            or_equal: true,
        },
        Relation::Above => Constraint::Above {
            value,
            or_equal: false,
        },
        Relation::AtLeast => Constraint::Above {
            value,
            or_equal: true,
        },
    }
}

/// Appends that the value has the words of a text, where that is a pattern.
fn add_words(constraints: &mut Vec<Constraint>, text: &Text) -> Result<(), Memory>
    ensures { OnOk result (map constraint_of constraints.new.items
        ≡ map constraint_of constraints.old.items ++ constraints_of (written.value_like text.now)) }
{
    match Pattern::new(text) {
        Ok(pattern) => {
            constraints.push(Constraint::Matches(pattern))?;
            Ok(())
        }
        Err(PatternFault::BadPattern) => Ok(()),
        Err(PatternFault::Memory) => Err(Memory),
    }
}

/// Appends what a test asks.
fn add_test(constraints: &mut Vec<Constraint>, test: Test) -> Result<(), Memory>
    ensures { OnOk result (map constraint_of constraints.new.items
        ≡ map constraint_of constraints.old.items ++ constraints_of (test_of test)) }
{
    match test {
        Test::EndIs(end, place) => constraints.push(Constraint::EndIs(end, place))?,
        Test::IsObject => constraints.push(Constraint::IsObject)?,
        Test::PlaceIn(places) => constraints.push(Constraint::PlaceIn(places))?,
        Test::PlaceNot(place) => constraints.push(Constraint::PlaceNot(place))?,
        Test::Value(relation, value) => constraints.push(comparison(relation, value))?,
        Test::ValueIn(values) => constraints.push(Constraint::ValueIn(values))?,
        Test::ValueLike(text) => add_words(constraints, &text)?,
    }
    Ok(())
}

/// Reads a test, and gathers it.
fn test_item(alloc: Global, bytes: &[u8], mut parts: Parts) -> Result<(Parts, &[u8]), Stop>
    ensures { Finds (λ x. (gathered x.0, x.1.now)) (seen_at (λ i. with_item i (gathered parts))
        (seen_at written.test written.test_at) bytes.now) result }
{
    let (test, rest) = read_test(alloc, bytes)?;
    add_test(&mut parts.constraints, test)?;
    Ok((parts, rest))
}

/// The template of what was gathered.
fn made(parts: Parts) -> Template
    requires { defs.depth (defs.template (map constraint_of parts.constraints.items) (clauses_view
        parts.clauses.items)) ≤ defs.max_depth }
    ensures { view result ≡ defs.template (map constraint_of parts.constraints.items) (clauses_view
        parts.clauses.items) }
{
    match Template::new(parts.constraints, parts.clauses) {
        Ok(template) => template,
        Err(TemplateFault::TooDeep) => unreachable!(),
    }
}

/// With a clause more.
fn add_clause(mut parts: Parts, head: Head, template: Template) -> Result<Parts, Memory>
    ensures { IfOk result (λ more. gathered more ≡ record {
      constraints = (gathered parts).constraints;
      clauses = (gathered parts).clauses ++ ((head_of head).0, (head_of head).1, view template)
          ∷ [];
    }) }
{
    parts
        .clauses
        .push(Clause::new(head.mode, head.hop, template))?;
    Ok(parts)
}

/// Reads a clause, and gathers it.
#[cycle(build)]
fn clause(alloc: Global, bytes: &[u8], below: u32, parts: Parts) -> Result<(Parts, &[u8]), Stop>
    requires { below ≤ 31 }
    ensures { Finds (λ x. (gathered x.0, x.1.now))
        (seen_at (λ i. with_item i (gathered parts)) (clause_at (written.template_at below))
        bytes.now) result }
{
    let (head, rest) = read_head(bytes)?;
    let rest = byte(rest, b' ')?;
    let (template, rest) = build(alloc, rest, below)?;
    let parts = add_clause(parts, head, template)?;
    Ok((parts, rest))
}

/// Reads an item, and gathers it.
#[cycle(build)]
#[tactic(auto, unfolding(crate::specs::Written::item_at))]
fn item(alloc: Global, bytes: &[u8], below: u32, parts: Parts) -> Result<(Parts, &[u8]), Stop>
    requires { below ≤ 31 }
    ensures { Finds (λ x. (gathered x.0, x.1.now))
        (seen_at (λ i. with_item i (gathered parts)) (written.item_at (written.template_at below))
        bytes.now) result }
{
    if is_clause_next(bytes) {
        return clause(alloc, bytes, below, parts);
    }
    test_item(alloc, bytes, parts)
}

/// Reads a space and an item behind it, and gathers that.
#[cycle(build)]
#[tactic(auto, unfolding(crate::specs::Steps::next_at))]
fn next_item(alloc: Global, bytes: &[u8], below: u32, parts: Parts) -> Result<(Parts, &[u8]), Stop>
    requires { below ≤ 31 }
    ensures { Finds (λ x. (gathered x.0, x.1.now))
        (seen_at (λ i. with_item i (gathered parts)) (next_at 32 (written.item_at
        (written.template_at below))) bytes.now) result }
{
    let rest = byte(bytes, b' ')?;
    item(alloc, rest, below, parts)
}

/// Reads the bracket behind the items.
fn bracket(bytes: &[u8], parts: Parts) -> Result<(Parts, &[u8]), Stop>
    ensures { Finds (λ x. (gathered x.0, x.1.now)) (seen_at (λ t. with_items t (gathered parts))
        (word_at (codes ")") written.no_items) bytes.now) result }
{
    let rest = byte(bytes, b')')?;
    Ok((parts, rest))
}

/// Reads further items and the bracket that ends them, and gathers them.
#[cycle(build)]
fn further(alloc: Global, bytes: &[u8], below: u32, parts: Parts) -> Result<(Parts, &[u8]), Stop>
    requires { below ≤ 31 }
    ensures { Finds (λ x. (gathered x.0, x.1.now))
        (seen_at (λ t. with_items t (gathered parts)) (written.rest_at (written.template_at below)
        63) bytes.now) result }
{
    let mut parts = parts;
    let mut rest = bytes;
    for _item in 0..MORE_ITEMS {
        if !is_next(rest, b' ') {
            return bracket(rest, parts);
        }
        let (more, behind) = next_item(alloc, rest, below, parts)?;
        parts = more;
        rest = behind;
    }
    bracket(rest, parts)
}

/// Reads items and the bracket that ends them, and gathers them.
#[cycle(build)]
fn items(alloc: Global, bytes: &[u8], below: u32, parts: Parts) -> Result<(Parts, &[u8]), Stop>
    requires { below ≤ 31 }
    ensures { Finds (λ x. (gathered x.0, x.1.now))
        (seen_at (λ t. with_items t (gathered parts)) (written.items_at (written.template_at below))
        bytes.now) result }
{
    if is_next(bytes, b')') {
        return bracket(bytes, parts);
    }
    let (parts, rest) = item(alloc, bytes, below, parts)?;
    further(alloc, rest, below, parts)
}

/// Reads a template without items.
#[tactic(auto, unfolding(crate::specs::Written::template_at))]
fn bare(alloc: Global, bytes: &[u8]) -> Result<(Template, &[u8]), Stop>
    ensures { Finds (λ x. (view x.0, x.1.now)) (seen_at meaning (written.template_at 0) bytes.now)
        result }
{
    let rest = word(bytes, b"()")?;
    Ok((made(Parts::new(alloc)), rest))
}

/// Reads a template, and builds it, with at most so many levels below it.
#[cycle(build)]
fn build(alloc: Global, bytes: &[u8], below: u32) -> Result<(Template, &[u8]), Stop>
    requires { below ≤ 31 }
    ensures { Finds (λ x. (view x.0, x.1.now)) (seen_at meaning (written.template_at below)
        bytes.now) result }
{
    if below == 0 {
        return bare(alloc, bytes);
    }
    let rest = byte(bytes, b'(')?;
    let (parts, rest) = items(alloc, rest, below - 1, Parts::new(alloc))?;
    Ok((made(parts), rest))
}

/// Reads a template, and builds it, which is not too deep.
fn whole(alloc: Global, bytes: &[u8]) -> Result<(Template, &[u8]), Stop>
    requires { (t : written.Items) (rest : List ℕ) → written.template_at 32 bytes.now ≡ Ok (t, rest)
        → defs.depth (meaning t) ≤ defs.max_depth }
    ensures { Finds (λ x. (view x.0, x.1.now)) (seen_at meaning (written.template_at 32) bytes.now)
        result }
{
    let rest = byte(bytes, b'(')?;
    let (parts, rest) = items(alloc, rest, 31, Parts::new(alloc))?;
    Ok((made(parts), rest))
}

/// The template that bytes mean, which are the text of one that is not too deep.
pub(crate) fn build_from(alloc: Global, bytes: &[u8]) -> Result<Template, Memory>
    requires { IsBuildable bytes.now }
    ensures { (t : written.Items) → written.template_of bytes.now ≡ Ok t
        → IfOk result (λ template. view template ≡ meaning t) }
{
    match whole(alloc, bytes) {
        Ok((template, _rest)) => Ok(template),
        Err(Stop::Memory) => Err(Memory),
        Err(Stop::Bad { .. }) => unreachable!(),
    }
}
