//! A write that was read, walked member by member: it takes no memory, and nothing in it can fail.
ghost use Rattle.std.specs.Prelude.{◌≡◌, true, false, None, Ok, Some, MatchOption, is_none};
ghost use Rattle.std.specs.Prelude.{is_some, option_map, if◌then◌else◌, codes};
ghost use Rattle.std.specs.Option.{option_or};
ghost use Rattle.gd_tree.specs.Look.{get, is_null};
ghost use Rattle.gd_tree.specs.Json.{Members as JsonMembers, member as json_member, object};
ghost use Rattle.gd_defs.specs.Change as defined;
ghost use Rattle.gd_json.specs.View.{view, items_view, members_view};
ghost use Rattle.gd_form_laws.specs.WriteFaults.{entries_fault, entry_fault, named_item_fault};
ghost use Rattle.gd_form_laws.specs.WriteFaults.{item_fault, items_fault, target_fault};
ghost use Rattle.gd_form_laws.specs.WriteFaults.{change_fault};
ghost use Rattle.gd_form_laws.specs.SpelledChange.{spelled_entries, spelled_items, spelled_change};
ghost use Rattle.gd_mql.specs.Names.{name_view};
ghost use Rattle.gd_mql.specs.Changes.{setting_view, target_view, create_view, connect_view};

use crate::change_form::write_name;
use crate::name::Name;
use crate::object::{member, text_of};
use crate::operand::is_identity;
use crate::write_parts::{
    ConnectWord, CreateWord, Setting, Target, connect_word, create_word, guid_of, setting_of,
    target_of,
};
use gd_json::value::{Json, JsonText};

/// What the clause of a write is carried out on, and its members.
#[derive(Clone, Copy)]
pub struct Change<'a> {
    pub root: Root<'a>,
    pub members: Members<'a>,
}

/// What the clause of a write is carried out on: an object that it creates, or one that an id
/// names.
#[derive(Clone, Copy)]
pub enum Root<'a> {
    Create(CreateWord),
    Existing(&'a JsonText),
}

/// Members of a clause of a write that are left, which borrows the members of an object. Contracts
/// see them by `entries_left`.
#[derive(Clone, Copy)]
pub struct Members<'a> {
    setting: Setting,
    members: &'a [(JsonText, Json)],
    ghost spells: { is_none (entries_fault (setting_view setting) (members_view members.now))
        ≡ true },
}

/// Items of a list that are left, which stands at a member of a write. Contracts see them by
/// `items_left`.
#[derive(Clone, Copy)]
pub struct Items<'a> {
    setting: Setting,
    name: Name<'a>,
    items: &'a [Json],
    ghost spells: { is_none (items_fault (setting_view setting) (name_view name)
        (items_view items.now)) ≡ true },
}

/// A connect form: its word, what its link leads to, the place of the link that `previous` names,
/// and the members that spell it.
#[derive(Clone, Copy)]
pub struct Connect<'a> {
    pub word: ConnectWord,
    pub target: Target<'a>,
    pub previous: Option<u64>,
    pub members: &'a [(JsonText, Json)],
}

/// What a member of a write has: null at `id` and `guid`, a literal by itself, a form {..} with a
/// target and the members that spell it, a connect form, a nested create with its members, or a
/// list of these.
#[derive(Clone, Copy)]
pub enum Item<'a> {
    Blank,
    Plain(&'a Json),
    Fact(Target<'a>, &'a [(JsonText, Json)]),
    Connect(Connect<'a>),
    Nested(CreateWord, Members<'a>),
    Several(Items<'a>),
}

/// A member of a clause of a write, or `create` at its place among them.
#[derive(Clone, Copy)]
pub enum Entry<'a> {
    Member(Name<'a>, Item<'a>),
    Created(CreateWord),
}

impl<'a> Change<'a> {
    ghost use Rattle.gd_mql.specs.Entries.{change_view};

    /// The change that the members of an object spell, which have no fault of form.
    pub fn of(members: &'a [(JsonText, Json)]) -> Change<'a>
        requires { change_fault (object (members_view members.now)) ≡ None }
        ensures { change_view result ≡ spelled_change (object (members_view members.entry.now)) }
    {
        Change {
            root: Root::of(members),
            members: Members {
                setting: setting_of(true, members),
                members,
            },
        }
    }
}

impl<'a> Root<'a> {
    ghost use Rattle.gd_mql.specs.Entries.{root_view};

    /// What the change of these members is carried out on.
    fn of(members: &'a [(JsonText, Json)]) -> Root<'a>
        requires { change_fault (object (members_view members.now)) ≡ None }
        ensures { spelled_change (object (members_view members.entry.now))
            ≡ record {
              root = root_view result;
              members = spelled_entries (defined.setting_of true (members_view members.entry.now))
                  (members_view members.entry.now);
            } }
    {
        if let Some(word) = member(members, "create") {
            return Root::of_create(word);
        }
        match object_text(members) {
            Some(text) => Root::Existing(text),
            None => unreachable!(),
        }
    }

    fn of_create(word: &Json) -> Root<'a>
        requires { is_some (defined.create_word (view word.now)) ≡ true }
        ensures { option_map (λ w. defined.to_create w) (defined.create_word (view word.now))
            ≡ Some (root_view result) }
    {
        match create_word(word) {
            Some(word) => Root::Create(word),
            None => unreachable!(),
        }
    }
}

/// The text of `id`, or else of `guid`.
fn object_text(members: &[(JsonText, Json)]) -> Option<&JsonText>
    ensures { option_map (λ text. text.now) result
        ≡ option_or (defined.text_member (codes "id") (members_view members.now))
        (defined.text_member (codes "guid") (members_view members.now)) }
{
    match text_of(members, "id") {
        Some(text) => Some(text),
        None => text_of(members, "guid"),
    }
}

impl<'a> Members<'a> {
    ghost use Rattle.gd_mql.specs.Entries.{entries_left, with_entry};

    /// The first of the members, or `create`, and those behind it; nothing where none is left.
    pub fn split(&self) -> Option<(Entry<'a>, Members<'a>)>
        ensures { MatchOption result (entries_left self.now ≡ defined.no_members)
            (λ p. entries_left self.now ≡ with_entry p.0 (entries_left p.1)) }
    {
        match self.members.split_first() {
            Some((first, others)) => {
                let entry = Entry::of(self.setting, &first.0, &first.1);
                Some((entry, self.with_members(others)))
            }
            None => None,
        }
    }

    fn with_members(&self, members: &'a [(JsonText, Json)]) -> Members<'a>
        requires { entries_fault (setting_view self.now.setting) (members_view members.now) ≡ None }
        ensures { entries_left result ≡ spelled_entries (setting_view self.now.setting)
            (members_view members.entry.now) }
    {
        Members {
            setting: self.setting,
            members,
        }
    }

    /// The members of a nested create.
    fn nested(members: &'a [(JsonText, Json)]) -> Members<'a>
        requires { entries_fault (defined.setting_of false (members_view members.now))
            (members_view members.now) ≡ None }
        ensures { entries_left result ≡ spelled_entries
            (defined.setting_of false (members_view members.entry.now))
            (members_view members.entry.now) }
    {
        Members {
            setting: setting_of(false, members),
            members,
        }
    }
}

impl<'a> Entry<'a> {
    ghost use Rattle.gd_mql.specs.Entries.{with_entry};

    /// The entry that a member is, which has no fault of form.
    fn of(setting: Setting, name: &'a JsonText, value: &'a Json) -> Entry<'a>
        requires { entry_fault (setting_view setting) name.now (view value.now) ≡ None }
        ensures { (ms : JsonMembers) → entries_fault (setting_view setting) ms ≡ None
            → spelled_entries (setting_view setting) (json_member name.now (view value.now) ms)
            ≡ with_entry result (spelled_entries (setting_view setting) ms) }
    {
        let spelled = name.as_str();
        if spelled == "create" {
            return Entry::of_create(setting, value);
        }
        match write_name(setting.at_root, spelled) {
            Ok(name) => Entry::Member(name, Item::of(setting, &name, value)),
            Err(_) => unreachable!(),
        }
    }

    fn of_create(setting: Setting, value: &'a Json) -> Entry<'a>
        requires { entry_fault (setting_view setting) (codes "create") (view value.now) ≡ None }
        ensures { (ms : JsonMembers) → entries_fault (setting_view setting) ms ≡ None
            → spelled_entries (setting_view setting)
            (json_member (codes "create") (view value.now) ms)
            ≡ with_entry result (spelled_entries (setting_view setting) ms) }
    {
        match create_word(value) {
            Some(word) => Entry::Created(word),
            None => unreachable!(),
        }
    }
}

impl<'a> Item<'a> {
    ghost use Rattle.gd_mql.specs.Entries.{item_view};

    /// What a member has behind its name, where it has no fault of form.
    fn of(setting: Setting, name: &Name<'a>, value: &'a Json) -> Item<'a>
        requires { named_item_fault (setting_view setting) (name_view name.now) (view value.now)
            ≡ None }
        ensures { defined.by_name (setting_view setting) (name_view name.now) (view value.now)
            (defined.item_of (setting_view setting) (name_view name.now) (view value.now))
            ≡ Ok (item_view result) }
    {
        if is_identity(name.word) {
            return Item::of_identity(value);
        }
        Item::of_value(setting, name, value)
    }

    fn of_identity(value: &'a Json) -> Item<'a>
        ensures { item_view result ≡ (if is_null (view value.now) then defined.blank
            else defined.plain (view value.now)) }
    {
        if value.is_null() {
            Item::Blank
        } else {
            Item::Plain(value)
        }
    }

    fn of_value(setting: Setting, name: &Name<'a>, value: &'a Json) -> Item<'a>
        requires { item_fault (setting_view setting) (name_view name.now) (view value.now) ≡ None }
        ensures { defined.item_of (setting_view setting) (name_view name.now) (view value.now)
            ≡ Ok (item_view result) }
    {
        if let Some(form) = value.as_object() {
            return Item::of_form(setting, name, form);
        }
        if let Some(items) = value.as_list() {
            return Item::Several(Items {
                setting,
                name: *name,
                items,
            });
        }
        Item::Plain(value)
    }

    fn of_form(setting: Setting, name: &Name<'a>, form: &'a [(JsonText, Json)]) -> Item<'a>
        requires { item_fault (setting_view setting) (name_view name.now)
            (object (members_view form.now)) ≡ None }
        ensures { defined.item_of (setting_view setting) (name_view name.now)
            (object (members_view form.now)) ≡ Ok (item_view result) }
    {
        if let Some(word) = member(form, "connect") {
            return Item::Connect(Connect::of(form, word));
        }
        if let Some(word) = member(form, "create") {
            return Item::of_create(form, word);
        }
        Item::of_fact(form)
    }

    fn of_create(form: &'a [(JsonText, Json)], word: &Json) -> Item<'a>
        requires right { entries_fault (defined.setting_of false (members_view form.now))
            (members_view form.now) ≡ None }
        requires worded { is_some (defined.create_word (view word.now)) ≡ true }
        ensures { option_map (λ w. defined.nested w
            (spelled_entries (defined.setting_of false (members_view form.now))
            (members_view form.now))) (defined.create_word (view word.now))
            ≡ Some (item_view result) }
    {
        match create_word(word) {
            Some(word) => Item::Nested(word, Members::nested(form)),
            None => unreachable!(),
        }
    }

    fn of_fact(form: &'a [(JsonText, Json)]) -> Item<'a>
        requires { is_some (defined.target_of (members_view form.now)) ≡ true }
        ensures { option_map (λ t. defined.fact t (members_view form.now))
            (defined.target_of (members_view form.now)) ≡ Some (item_view result) }
    {
        match target_of(form) {
            Some(target) => Item::Fact(target, form),
            None => unreachable!(),
        }
    }
}

impl<'a> Connect<'a> {
    fn of(form: &'a [(JsonText, Json)], word: &Json) -> Connect<'a>
        requires target { is_some (defined.target_of (members_view form.now)) ≡ true }
        requires worded { is_some (defined.connect_word (view word.now)) ≡ true }
        ensures target { defined.target_of (members_view form.entry.now)
            ≡ Some (target_view result.target) }
        ensures word { defined.connect_word (view word.now) ≡ Some (connect_view result.word) }
        ensures previous { result.previous ≡ defined.guid_member (codes "previous")
            (members_view form.entry.now) }
        ensures members { result.members.now ≡ form.entry.now }
    {
        let Some(target) = target_of(form) else {
            unreachable!()
        };
        let Some(word) = connect_word(word) else {
            unreachable!()
        };
        Connect {
            word,
            target,
            previous: guid_of(form, "previous"),
            members: form,
        }
    }
}

impl<'a> Items<'a> {
    ghost use Rattle.gd_mql.specs.Entries.{items_left, item_view};

    /// The first of the items and those behind it; nothing where none is left.
    pub fn split(&self) -> Option<(Item<'a>, Items<'a>)>
        ensures { MatchOption result (items_left self.now ≡ defined.no_more)
            (λ p. items_left self.now ≡ defined.and_then (item_view p.0) (items_left p.1)) }
    {
        match self.items.split_first() {
            Some((first, others)) => {
                let item = Item::of_value(self.setting, &self.name, first);
                Some((item, self.with_items(others)))
            }
            None => None,
        }
    }

    fn with_items(&self, items: &'a [Json]) -> Items<'a>
        requires { items_fault (setting_view self.now.setting) (name_view self.now.name)
            (items_view items.now) ≡ None }
        ensures { items_left result ≡ spelled_items (setting_view self.now.setting)
            (name_view self.now.name) (items_view items.entry.now) }
    {
        Items {
            setting: self.setting,
            name: self.name,
            items,
        }
    }
}
