//! What each form of a member asks of its property.
ghost use Rattle.std.specs.Prelude.{◌≡◌, IfOk, map, not, option_map, unwrap_or};
ghost use Rattle.gd_defs.specs.Asked as defs;
ghost use Rattle.gd_defs.specs.Asked.Forms as forms;
ghost use Rattle.gd_defs.specs.Property.{expects_of, holds_values};
ghost use Rattle.gd_defs.specs.Query.{required};
ghost use Rattle.gd_json.specs.View.{view as json_of};
ghost use Rattle.gd_mql.specs.Directives.{mode_view, directives_view};
ghost use Rattle.gd_plan.specs.PassedOn.{mode_of};
ghost use Rattle.gd_plan.specs.Seen.{expects_view, test_view, sort_key_view};
ghost use Rattle.gd_plan.specs.Asked.{style_view, asking_view, members_view, put};
ghost use Rattle.gd_compile.specs.Walk.{clause_view};

use crate::gathered::AskedClause;
use gd_base::id::Id;
use gd_base::memory::Memory;
use gd_json::value::{Json, JsonText};
use gd_mql::directive::{Directives, Mode as SpelledMode};
use gd_plan::asked::{Asking, Member, SortKey, Style};
use gd_plan::expects::{Expects, expects_of, holds_values};
use gd_plan::spoken::spoken;
use gd_plan::test::Test;
use gd_plan::{Mode, Property};
use gd_prim::ENGLISH;
use std::alloc::Global;

/// How many answers are given where no limit is set.
const USUAL_LIMIT: u32 = 100;

/// The place of the property `name`.
const NAME: Id = Id(13);

/// The type of texts, which names are.
const TEXT: Id = Id(7);

/// What a member asks of a property where nothing else is said but a test: its answers as they
/// stand, up to 100.
fn asking_with(alloc: Global, property: &Property, style: Style, test: Test) -> Asking
    ensures { asking_view result ≡ record (forms.bare_asking property.now
        (style_view style)) { test = test_view test } }
{
    Asking {
        property: *property,
        test,
        mode: Mode::Optional,
        given: false,
        counted: true,
        style,
        listed: false,
        single: false,
        sort: Vec::new(alloc),
        limit: USUAL_LIMIT,
    }
}

/// What a member asks of a property where nothing else is said.
fn bare_asking(alloc: Global, property: &Property, style: Style) -> Asking
    ensures { asking_view result ≡ forms.bare_asking property.now (style_view style) }
{
    asking_with(alloc, property, style, Test::Anything)
}

/// The property `name`, in English.
fn name_property() -> Property
    ensures { result ≡ forms.name_property }
{
    Property {
        stored: NAME,
        reversed: false,
        expected: Some(TEXT),
        unique: true,
        language: Some(ENGLISH),
    }
}

/// What the name is asked for: in a mode, with a test, as a literal or not.
fn name_asking(alloc: Global, mode: Mode, given: bool, test: Test) -> Asking
    ensures { asking_view result ≡ record (forms.bare_asking forms.name_property
        defs.as_value) { test = test_view test; mode = mode_of mode; given = given } }
{
    Asking {
        mode,
        given,
        ..asking_with(alloc, &name_property(), Style::Value, test)
    }
}

/// A member that asks a property, with the clause of its answers.
fn asks(alloc: Global, name: &str, asking: Asking, clause: Vec<Member>) -> Result<Member, Memory>
    ensures { IfOk result (λ member. put member ≡ defs.asks name.now (asking_view asking)
        (members_view clause.items)) }
{
    match JsonText::from_str(alloc, name) {
        Ok(name) => Ok(Member::Asks {
            name,
            asking,
            clause,
        }),
        Err(refused) => {
            drop(asking);
            drop(clause);
            Err(refused)
        }
    }
}

/// The members of the clause of one member.
fn sole(alloc: Global, member: Member) -> Result<Vec<Member>, Memory>
    ensures { IfOk result (λ members. members_view members.items ≡ put member defs.no_members) }
{
    let members = vec![in alloc; member]?;
    Ok(members)
}

/// The clause whose one member is the name: in a mode, with a test, as a literal or not.
fn name_test(alloc: Global, mode: Mode, given: bool, test: Test) -> Result<Vec<Member>, Memory>
    ensures { IfOk result (λ clause. members_view clause.items ≡ forms.name_test (mode_of mode)
        given (test_view test)) }
{
    let asking = name_asking(alloc, mode, given, test);
    let name = asks(alloc, "name", asking, Vec::new(alloc))?;
    sole(alloc, name)
}

/// What null and `[]` ask of an answer: of a plain object its name.
fn own_clause(alloc: Global, expects: Expects) -> Result<Vec<Member>, Memory>
    ensures { IfOk result (λ clause. members_view clause.items
        ≡ forms.own_clause (expects_view expects)) }
{
    match expects {
        Expects::PlainObject => name_test(alloc, Mode::Optional, false, Test::Anything),
        _ => Ok(Vec::new(alloc)),
    }
}

/// How answers print that no clause of their own prints.
fn style_of(expects: Expects) -> Style
    ensures { style_view result ≡ forms.style_of (expects_view expects) }
{
    match expects {
        Expects::Value(_) | Expects::Key => Style::Value,
        Expects::SystemObject => Style::Id,
        Expects::PlainObject => Style::Name,
    }
}

/// Whether the answers are counted one by one, whatever is asked of them.
fn counts(expects: Expects) -> bool
    ensures { result ≡ forms.counts (expects_view expects) }
{
    !matches!(expects, Expects::PlainObject)
}

/// What null asks of a property, or `[]` where a list is asked for.
fn plain_asking(alloc: Global, property: &Property, listed: bool) -> Asking
    ensures { asking_view result ≡ record (forms.bare_asking property.now
        (forms.style_of (expects_of property.now.expected))) {
          counted = forms.counts
              (expects_of property.now.expected);
          listed = listed;
          single = not listed;
        } }
{
    let expects = expects_of(property.expected);
    Asking {
        counted: counts(expects),
        listed,
        single: !listed,
        ..bare_asking(alloc, property, style_of(expects))
    }
}

/// The member that null asks, or `[]` where a list is asked for. `Memory`: an allocation was
/// refused.
pub(crate) fn ask_form(
    alloc: Global,
    name: &str,
    property: &Property,
    listed: bool,
) -> Result<Member, Memory>
    ensures { IfOk result (λ member. put member ≡ forms.ask_form name.now property.now listed) }
{
    let clause = own_clause(alloc, expects_of(property.expected))?;
    asks(alloc, name, plain_asking(alloc, property, listed), clause)
}

/// What a literal or an operand asks of a property whose answers are tested themselves.
fn tested_asking(
    alloc: Global,
    property: &Property,
    style: Style,
    literal: bool,
    test: Test,
) -> Asking
    ensures { asking_view result ≡ record (forms.bare_asking property.now
        (style_view style)) { test = test_view test; mode = required; given = literal } }
{
    Asking {
        mode: Mode::Required,
        given: literal,
        ..asking_with(alloc, property, style, test)
    }
}

/// What a literal or an operand asks of a property of plain objects, whose names are tested.
fn named_asking(alloc: Global, property: &Property, style: Style, literal: bool) -> Asking
    ensures { asking_view result ≡ record (forms.bare_asking property.now
        (style_view style)) { mode = required; given = literal; counted = literal } }
{
    Asking {
        mode: Mode::Required,
        given: literal,
        counted: literal,
        ..bare_asking(alloc, property, style)
    }
}

/// The member that a literal or an operand asks of such answers, with its test; of a plain object
/// it tests the name. The operand is copied. `Memory`: an allocation was refused.
pub(crate) fn operand_form(
    alloc: Global,
    name: &str,
    property: &Property,
    expects: Expects,
    literal: bool,
    json: &Json,
    test: Test,
) -> Result<Member, Memory>
    ensures { IfOk result (λ member. put member ≡ forms.operand_form name.now property.now
        (expects_view expects) literal (json_of json.now) (test_view test)) }
{
    match json.copy() {
        Ok(json) => operand_asks(alloc, name, property, expects, literal, json, test),
        Err(refused) => {
            drop(test);
            Err(refused)
        }
    }
}

/// The same with an operand of its own.
fn operand_asks(
    alloc: Global,
    name: &str,
    property: &Property,
    expects: Expects,
    literal: bool,
    operand: Json,
    test: Test,
) -> Result<Member, Memory>
    ensures { IfOk result (λ member. put member ≡ forms.operand_form name.now property.now
        (expects_view expects) literal (json_of operand) (test_view test)) }
{
    let style = Style::Operand(operand);
    if !matches!(expects, Expects::PlainObject) {
        let asking = tested_asking(alloc, property, style, literal, test);
        return asks(alloc, name, asking, Vec::new(alloc));
    }
    match name_test(alloc, Mode::Required, literal, test) {
        Ok(clause) => {
            let asking = named_asking(alloc, property, style, literal);
            asks(alloc, name, asking, clause)
        }
        Err(refused) => {
            drop(style);
            Err(refused)
        }
    }
}

/// The mode of a form `{..}` or `[{..}]`: required, unless it says otherwise.
fn mode_from(spelled: Option<SpelledMode>) -> Mode
    ensures { mode_of result ≡ unwrap_or (option_map mode_view spelled) required }
{
    match spelled {
        Some(SpelledMode::Optional) => Mode::Optional,
        Some(SpelledMode::Forbidden) => Mode::Forbidden,
        Some(SpelledMode::Required) | None => Mode::Required,
    }
}

/// Whether one answer is asked for, and another is one too many: not in a list, nor with the limit
/// 1.
pub(crate) fn asks_single(listed: bool, directives: &Directives) -> bool
    ensures { result ≡ forms.asks_single listed (directives_view directives.now) }
{
    !listed && directives.limit != Some(1)
}

/// The limit of the directives, or the usual one.
pub(crate) fn limit_from(directives: &Directives) -> u32
    ensures { result ≡ unwrap_or directives.now.limit 100 }
{
    directives.limit.unwrap_or(USUAL_LIMIT)
}

/// What `{..}` asks of a property, or `[{..}]` where a list is asked for, by its directives and its
/// sort keys.
fn clause_asking(
    alloc: Global,
    property: &Property,
    directives: &Directives,
    listed: bool,
    sort: Vec<SortKey>,
) -> Asking
    ensures { asking_view result ≡ record (forms.bare_asking property.now defs.as_clause) {
      mode = forms.mode_of (directives_view directives.now);
      counted = holds_values (expects_of property.now.expected);
      listed = listed;
      single = forms.asks_single listed (directives_view directives.now);
      sort = map sort_key_view sort.items;
      limit = unwrap_or directives.now.limit 100;
    } }
{
    Asking {
        mode: mode_from(directives.mode),
        counted: holds_values(expects_of(property.expected)),
        listed,
        single: asks_single(listed, directives),
        sort,
        limit: limit_from(directives),
        ..bare_asking(alloc, property, Style::Clause)
    }
}

/// The member that `{..}` asks, or `[{..}]` where a list is asked for, with what its clause asks.
/// `Memory`: an allocation was refused.
pub(crate) fn clause_form(
    alloc: Global,
    name: &str,
    property: &Property,
    directives: &Directives,
    listed: bool,
    clause: AskedClause,
) -> Result<Member, Memory>
    ensures { IfOk result (λ member. put member ≡ forms.clause_form name.now property.now
        (directives_view directives.now) listed (clause_view clause)) }
{
    let spoken = spoken(property, &clause.members);
    let asking = clause_asking(alloc, &spoken, directives, listed, clause.sort);
    asks(alloc, name, asking, clause.members)
}
