//! Directives of a clause: `optional`, `sort`, `limit` and `return`.
ghost use Rattle.std.specs.Prelude.{◌≡◌, ◌&&◌, option_map, option_and_then, is_some, if◌then◌else◌};
ghost use Rattle.std.specs.Prelude.{Some, None, false, bytes_eq};
ghost use Rattle.std.specs.Int.{is_in_range};
ghost use Rattle.std.specs.Option.{option_map_or};
ghost use Rattle.gd_tree.specs.Json.{text};
ghost use Rattle.gd_tree.specs.Look.{text_of, items_len};
ghost use Rattle.gd_defs.specs.Query.{is_directive as names_directive};
ghost use Rattle.gd_defs.specs.Query.Directive as defined;
ghost use Rattle.gd_json.specs.View.{view, items_view};
ghost use Rattle.gd_mql.specs.Directives.{mode_view, sort_word_view, word_named};
ghost use Rattle.gd_mql.specs.Directives.{directive_fits as fits};

use crate::operand::counts_to;
use gd_fault::ids::{is_key, is_key_path};
use gd_json::value::Json;

/// The greatest limit.
const MAX_LIMIT: u32 = 1_000;

/// The greatest number of sort words.
const MAX_SORT_WORDS: usize = 4;

/// What a clause asks of its answers: one at least, nothing, or none.
#[derive(Clone, Copy)]
pub enum Mode {
    Required,
    Optional,
    Forbidden,
}

/// A word by which rows are sorted, upward or downward.
#[derive(Clone, Copy)]
pub struct SortWord<'a> {
    pub descending: bool,
    pub word: &'a str,
}

/// The directives of a clause but for `sort`. The mode is absent where `optional` does not stand in
/// it.
#[derive(Clone, Copy)]
pub struct Directives {
    pub mode: Option<Mode>,
    pub limit: Option<u32>,
    pub count: bool,
}

/// The directives.
#[derive(Clone, Copy)]
pub enum DirectiveWord {
    Optional,
    Sort,
    Limit,
    Return,
}

impl DirectiveWord {
    ghost use Rattle.gd_mql.specs.Directives.{word_name};

    /// The name of the directive.
    pub fn name(self) -> &'static str
        ensures { result.now ≡ word_name self }
    {
        match self {
            DirectiveWord::Optional => "optional",
            DirectiveWord::Sort => "sort",
            DirectiveWord::Limit => "limit",
            DirectiveWord::Return => "return",
        }
    }

    /// Whether the name is that of the directive.
    pub fn is_named(self, name: &str) -> bool
        ensures { result ≡ bytes_eq name.now (word_name self) }
    {
        name == self.name()
    }
}

/// The directive of this name.
pub fn directive_word(name: &str) -> Option<DirectiveWord>
    ensures { result ≡ word_named name.now }
{
    if DirectiveWord::Optional.is_named(name) {
        Some(DirectiveWord::Optional)
    } else if DirectiveWord::Sort.is_named(name) {
        Some(DirectiveWord::Sort)
    } else if DirectiveWord::Limit.is_named(name) {
        Some(DirectiveWord::Limit)
    } else if DirectiveWord::Return.is_named(name) {
        Some(DirectiveWord::Return)
    } else {
        None
    }
}

/// Whether the name is that of a directive.
pub fn is_directive(name: &str) -> bool
    ensures { result ≡ names_directive name.now }
{
    directive_word(name).is_some()
}

fn mode_word(word: &str) -> Option<Mode>
    ensures { option_map mode_view result ≡ defined.mode_of (text word.now) }
{
    match word {
        "optional" => Some(Mode::Optional),
        "required" => Some(Mode::Required),
        "forbidden" => Some(Mode::Forbidden),
        _ => None,
    }
}

/// The mode that the value of `optional` spells.
pub fn mode_of(value: &Json) -> Option<Mode>
    ensures { option_map mode_view result ≡ defined.mode_of (view value.now) }
{
    match value {
        Json::Bool(optional) => {
            if *optional {
                Some(Mode::Optional)
            } else {
                Some(Mode::Required)
            }
        }
        Json::Text(word) => mode_word(word.as_str()),
        _ => None,
    }
}

/// The limit that the value of `limit` spells: 1 to 1,000.
pub fn limit_of(value: &Json) -> Option<u32>
    ensures { result ≡ defined.limit_of (view value.now) }
{
    let limit = u32::try_from(value.as_int()?).ok()?;
    if (1..=MAX_LIMIT).contains(&limit) {
        Some(limit)
    } else {
        None
    }
}

/// Whether the text may be a sort word: a key or a path.
fn may_sort(word: &str) -> bool
    ensures { result ≡ defined.may_sort word.now }
{
    is_key(word) || is_key_path(word)
}

fn plain_sort_word(word: &str) -> Option<SortWord<'_>>
    ensures { option_map sort_word_view result
        ≡ (if defined.may_sort word.now then Some (record { descending = false; word = word.now })
        else None) }
{
    if may_sort(word) {
        Some(SortWord {
            descending: false,
            word,
        })
    } else {
        None
    }
}

/// The sort word that a text spells, downward behind `-`. It takes no memory.
pub fn sort_word(spelled: &str) -> Option<SortWord<'_>>
    ensures { option_map sort_word_view result ≡ defined.sort_word spelled.now }
{
    if let Some(word) = spelled.strip_prefix("-") {
        if may_sort(word) {
            return Some(SortWord {
                descending: true,
                word,
            });
        }
    }
    plain_sort_word(spelled)
}

/// The sort word that an item of a list spells.
pub fn item_word(item: &Json) -> Option<SortWord<'_>>
    ensures { option_map sort_word_view result ≡ option_and_then defined.sort_word
        (text_of (view item.now)) }
{
    sort_word(item.as_text()?.as_str())
}

fn is_sort_word(value: &Json) -> bool
    ensures { result ≡ option_map_or (λ word. is_some (defined.sort_word word))
        (text_of (view value.now)) false }
{
    match value.as_text() {
        Some(word) => sort_word(word.as_str()).is_some(),
        None => false,
    }
}

fn are_sort_words(items: &[Json]) -> bool
    ensures { result ≡ is_some (defined.sort_words (items_view items.now)) }
{
    for item in items {
        if !is_sort_word(item) {
            return false;
        }
    }
    true
}

fn is_sort_list(words: &[Json]) -> bool
    ensures { result ≡ (is_in_range 1 4 (items_len (items_view words.now))
        && is_some (defined.sort_words (items_view words.now))) }
{
    counts_to(words, MAX_SORT_WORDS) && are_sort_words(words)
}

/// Whether the value of `sort` spells sort words: one, or a list of 1 to 4.
pub fn is_sort(value: &Json) -> bool
    ensures { result ≡ is_some (defined.sort_of (view value.now)) }
{
    match value {
        Json::Text(word) => sort_word(word.as_str()).is_some(),
        Json::List(words) => is_sort_list(words.as_slice()),
        _ => false,
    }
}

/// Whether the value of `return` is `count`.
pub fn is_count(value: &Json) -> bool
    ensures { result ≡ defined.is_count (view value.now) }
{
    match value {
        Json::Text(word) => word.as_str() == "count",
        _ => false,
    }
}

fn optional_fits(root: bool, value: &Json) -> bool
    ensures { result ≡ is_some (if root then None else defined.mode_of (view value.now)) }
{
    if root {
        false
    } else {
        mode_of(value).is_some()
    }
}

/// Whether the directive may have the value, at the root or elsewhere: the root has no `optional`,
/// and it alone has `return`.
pub fn directive_fits(root: bool, word: DirectiveWord, value: &Json) -> bool
    ensures { result ≡ fits root word (view value.now) }
{
    match word {
        DirectiveWord::Optional => optional_fits(root, value),
        DirectiveWord::Sort => is_sort(value),
        DirectiveWord::Limit => limit_of(value).is_some(),
        DirectiveWord::Return => root && is_count(value),
    }
}
