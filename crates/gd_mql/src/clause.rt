//! A query that was read, walked clause by clause: it takes no memory, and nothing in it can fail.
ghost use Rattle.std.specs.Prelude.{◌≡◌, ◌≢◌, ◌≤◌, ◌<◌, true, false, None, Ok, Option, MatchOption};
ghost use Rattle.std.specs.Prelude.{is_none, is_some, option_map, option_and_then, if◌then◌else◌};
ghost use Rattle.std.specs.Prelude.{bytes_eq, not, ◌&&◌};
ghost use Rattle.gd_tree.specs.Look.{get};
ghost use Rattle.gd_tree.specs.Json.{Members as JsonMembers, member as json_member, list, item};
ghost use Rattle.gd_tree.specs.Json.{no_items};
ghost use Rattle.gd_defs.specs.Query as query;
ghost use Rattle.gd_json.specs.View.{view, items_view, members_view};
ghost use Rattle.gd_form_laws.specs.Faults.{clause_fault, member_fault, value_fault, form_fault};
ghost use Rattle.gd_form_laws.specs.Spelled.{spelled_members};
ghost use Rattle.gd_mql.specs.Names.{name_view};
ghost use Rattle.gd_mql.specs.Directives.{mode_view, directives_view, word_name};
ghost use Rattle.gd_mql.specs.QueryForm.{takes_operand};

use crate::directive::{
    DirectiveWord, Directives, Mode, SortWord, is_directive, item_word, limit_of, mode_of,
    sort_word,
};
use crate::name::{Name, Operator};
use crate::object::{has, member};
use crate::query_form::{has_operator, member_name, wants_operand};
use gd_json::value::{Json, JsonText};

/// A clause of a query, which borrows the members of an object. Contracts see it by `clause_view`:
/// its directives and its members.
#[derive(Clone, Copy)]
pub struct Clause<'a> {
    root: bool,
    members: &'a [(JsonText, Json)],
    ghost spells: { is_none (clause_fault root (members_view members.now)) ≡ true },
}

/// Members of a clause that are left. Contracts see them by `left`.
#[derive(Clone, Copy)]
pub struct Members<'a> {
    root: bool,
    members: &'a [(JsonText, Json)],
    defaults: u32,
    ghost few: { defaults ≤ 3 },
    ghost spells: { is_none (clause_fault root (members_view members.now)) ≡ true },
}

/// The sort words of a clause.
#[derive(Clone, Copy)]
pub struct SortWords<'a> {
    spelled: &'a Json,
    ghost sorts: { is_some (query.sort_of (view spelled.now)) ≡ true },
}

/// What a member asks: null, `[]`, a literal, an operator's operand, `{..}` or `[{..}]`.
#[derive(Clone, Copy)]
pub enum Form<'a> {
    Ask,
    AskAll,
    Literal(&'a Json),
    Operand(&'a Json),
    One(Clause<'a>),
    Many(Clause<'a>),
}

/// A member of a clause, or the directive `sort` at its place among them.
#[derive(Clone, Copy)]
pub enum Part<'a> {
    Member(Name<'a>, Form<'a>),
    Sort(SortWords<'a>),
}

fn spelled_mode(members: &[(JsonText, Json)]) -> Option<Mode>
    ensures { option_map mode_view result ≡ option_and_then query.mode_of
        (get (word_name DirectiveWord.Optional) (members_view members.now)) }
{
    mode_of(member(members, DirectiveWord::Optional.name())?)
}

fn spelled_limit(members: &[(JsonText, Json)]) -> Option<u32>
    ensures { result ≡ option_and_then query.limit_of
        (get (word_name DirectiveWord.Limit) (members_view members.now)) }
{
    limit_of(member(members, DirectiveWord::Limit.name())?)
}

/// Whether the name is that of a directive other than `sort`.
fn is_no_part(name: &str) -> bool
    ensures { result ≡ (query.is_directive name.now
        && not (bytes_eq name.now (word_name DirectiveWord.Sort))) }
{
    is_directive(name) && !DirectiveWord::Sort.is_named(name)
}

impl<'a> Clause<'a> {
    ghost use Rattle.gd_mql.specs.Clauses.{clause_view, left};
    ghost use Rattle.gd_form_laws.specs.Spelled.{spelled_clause};

    /// The root clause of these members, which have no fault of form.
    pub fn root(members: &'a [(JsonText, Json)]) -> Clause<'a>
        requires { clause_fault true (members_view members.now) ≡ None }
        ensures { clause_view result ≡ spelled_clause true (members_view members.entry.now) }
    {
        Clause {
            root: true,
            members,
        }
    }

    /// The directives but for `sort`.
    pub fn directives(&self) -> Directives
        ensures { directives_view result ≡ (clause_view self.now).0 }
    {
        if self.members.is_empty() {
            return Directives {
                mode: Some(Mode::Optional),
                limit: None,
                count: false,
            };
        }
        Directives {
            mode: spelled_mode(self.members),
            limit: spelled_limit(self.members),
            count: has(self.members, DirectiveWord::Return.name()),
        }
    }

    /// The members, with `sort` at its place among them.
    pub fn members(&self) -> Members<'a>
        ensures { left result ≡ (clause_view self.now).1 }
    {
        if self.members.is_empty() {
            return Members {
                root: self.root,
                members: self.members,
                defaults: 3,
            };
        }
        Members {
            root: self.root,
            members: self.members,
            defaults: 0,
        }
    }
}

impl<'a> Members<'a> {
    ghost use Rattle.gd_mql.specs.Clauses.{left, with_part};
    ghost use Rattle.gd_form_laws.specs.Spelled.{defaults_left};

    /// The first part of the members and those behind it; nothing where none is left.
    pub fn split(&self) -> Option<(Part<'a>, Members<'a>)>
        ensures { MatchOption result (left self.now ≡ query.no_members)
            (λ p. left self.now ≡ with_part p.0 (left p.1)) }
    {
        if self.defaults > 0 {
            self.split_default()
        } else {
            self.split_spelled()
        }
    }

    fn split_default(&self) -> Option<(Part<'a>, Members<'a>)>
        requires { self.now.defaults ≤ 3 }
        ensures { MatchOption result (defaults_left self.now.defaults ≡ query.no_members)
            (λ p. defaults_left self.now.defaults ≡ with_part p.0 (left p.1)) }
    {
        match self.defaults {
            3 => Some((Part::asks("id"), self.with_defaults(2))),
            2 => Some((Part::asks("name"), self.with_defaults(1))),
            1 => Some((Part::asks_all("type"), self.end())),
            _ => None,
        }
    }

    fn with_defaults(&self, defaults: u32) -> Members<'a>
        requires { defaults ≤ 3 }
        ensures { defaults ≢ 0 → left result ≡ defaults_left defaults }
    {
        Members {
            root: self.root,
            members: self.members,
            defaults,
        }
    }

    fn with_members(&self, members: &'a [(JsonText, Json)]) -> Members<'a>
        requires { clause_fault self.now.root (members_view members.now) ≡ None }
        ensures { left result ≡ spelled_members self.now.root (members_view members.entry.now) }
    {
        Members {
            root: self.root,
            members,
            defaults: 0,
        }
    }

    fn end(&self) -> Members<'a>
        ensures { left result ≡ query.no_members }
    {
        self.with_members(&self.members[..0])
    }

    fn split_spelled(&self) -> Option<(Part<'a>, Members<'a>)>
        ensures { MatchOption result (spelled_members self.now.root
            (members_view self.now.members.now) ≡ query.no_members)
            (λ p. spelled_members self.now.root (members_view self.now.members.now)
            ≡ with_part p.0 (left p.1)) }
    {
        let mut rest = self.members;
        while let Some((first, others)) = rest.split_first() {
            if !is_no_part(first.0.as_str()) {
                let part = Part::of(self.root, &first.0, &first.1);
                return Some((part, self.with_members(others)));
            }
            rest = others;
        }
        None
    }
}

impl<'a> Part<'a> {
    ghost use Rattle.gd_mql.specs.Clauses.{with_part};
    ghost use Rattle.gd_mql.specs.Clauses.{plain_name};

    fn asks(word: &'a str) -> Part<'a>
        ensures { (ms : query.Members) → with_part result ms ≡ query.member (plain_name word.now)
            query.ask ms }
    {
        Part::Member(
            Name {
                spelled: word,
                reversed: false,
                word,
                operator: Operator::Absent,
            },
            Form::Ask,
        )
    }

    fn asks_all(word: &'a str) -> Part<'a>
        ensures { (ms : query.Members) → with_part result ms ≡ query.member (plain_name word.now)
            query.ask_all ms }
    {
        Part::Member(
            Name {
                spelled: word,
                reversed: false,
                word,
                operator: Operator::Absent,
            },
            Form::AskAll,
        )
    }

    /// The part that a member is, which is `sort` or no directive and has no fault of form.
    fn of(root: bool, name: &'a JsonText, value: &'a Json) -> Part<'a>
        requires part { (query.is_directive name.now
            && not (bytes_eq name.now (word_name DirectiveWord.Sort))) ≡ false }
        requires right { member_fault root name.now (view value.now) ≡ None }
        ensures { (ms : JsonMembers) → clause_fault root ms ≡ None
            → spelled_members root (json_member name.now (view value.now) ms)
            ≡ with_part result (spelled_members root ms) }
    {
        let spelled = name.as_str();
        if DirectiveWord::Sort.is_named(spelled) {
            return Part::Sort(SortWords { spelled: value });
        }
        match member_name(root, spelled) {
            Ok(name) => Part::Member(name, Form::of(&name, value)),
            Err(_) => unreachable!(),
        }
    }
}

impl<'a> Form<'a> {
    ghost use Rattle.gd_mql.specs.Clauses.{form_view};

    /// The form or the operand that a value is behind a name, where it has no fault of form.
    fn of(name: &Name<'_>, value: &'a Json) -> Form<'a>
        requires { value_fault (name_view name.now) (view value.now) ≡ None }
        ensures { query.form_or_operand (name_view name.now) (view value.now)
            (query.form_of (name_view name.now) (view value.now)) ≡ Ok (form_view result) }
    {
        if wants_operand(name, value) {
            return Form::operand(has_operator(name), value);
        }
        Form::of_value(name, value)
    }

    fn operand(has_operator: bool, value: &'a Json) -> Form<'a>
        ensures { form_view result ≡ (if has_operator then query.operand (view value.now)
            else query.literal (view value.now)) }
    {
        if has_operator {
            Form::Operand(value)
        } else {
            Form::Literal(value)
        }
    }

    fn of_value(name: &Name<'_>, value: &'a Json) -> Form<'a>
        requires { form_fault (name_view name.now) (view value.now) ≡ None }
        ensures { query.form_of (name_view name.now) (view value.now) ≡ Ok (form_view result) }
    {
        if let Some(members) = value.as_object() {
            return Form::One(Clause {
                root: false,
                members,
            });
        }
        if let Some(items) = value.as_list() {
            return Form::of_list(name, items);
        }
        if value.is_null() {
            Form::Ask
        } else {
            Form::Literal(value)
        }
    }

    fn of_list(name: &Name<'_>, items: &'a [Json]) -> Form<'a>
        requires { form_fault (name_view name.now) (list (items_view items.now)) ≡ None }
        ensures { query.form_of (name_view name.now) (list (items_view items.now))
            ≡ Ok (form_view result) }
    {
        match items {
            [] => Form::AskAll,
            [sole] => Form::of_sole(name, sole),
            _ => unreachable!(),
        }
    }

    fn of_sole(name: &Name<'_>, sole: &'a Json) -> Form<'a>
        requires { form_fault (name_view name.now) (list (item (view sole.now) no_items)) ≡ None }
        ensures { query.form_of (name_view name.now) (list (item (view sole.now) no_items))
            ≡ Ok (form_view result) }
    {
        match sole.as_object() {
            Some(members) => Form::Many(Clause {
                root: false,
                members,
            }),
            None => unreachable!(),
        }
    }
}

impl<'a> SortWords<'a> {
    ghost use Rattle.gd_mql.specs.Clauses.{sort_view};
    ghost use Rattle.gd_mql.specs.Directives.{sort_word_view};
    ghost use Rattle.std.specs.Prelude.{slice_get};

    /// The sort word at an index, the first being at 0.
    pub fn word(&self, index: usize) -> Option<SortWord<'a>>
        ensures { option_map sort_word_view result ≡ slice_get (sort_view self.now) index }
    {
        let spelled = self.spelled;
        if let Some(text) = spelled.as_text() {
            if index > 0 {
                return None;
            }
            return sort_word(text.as_str());
        }
        match spelled.item(index) {
            Some(item) => item_word(item),
            None => None,
        }
    }
}
