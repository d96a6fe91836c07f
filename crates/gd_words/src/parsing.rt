//! The values of the options.
ghost use Rattle.std.specs.Prelude.{◌≡◌, List, ℕ, Some, map, option_map, codes, IfOk, IfSome};
ghost use Rattle.std.specs.Prelude.{IsTrue, is_some};
ghost use Rattle.std.specs.List.{list_all};
ghost use Rattle.clap.specs.Words.{app_of, with_rule};
ghost use Rattle.gd_words.specs.Options.{Setting, is_name, options_of, value_of};
ghost use Rattle.gd_words.specs.Parser.{long_rule, parser_options, serving as serving_app};
ghost use Rattle.gd_words.specs.Parser.{parser as parser_app, generating as generating_app};

use crate::grammar::are_options;
use clap::error::ErrorKind;
use clap::{Arg, Command};
use gd_base::memory::Memory;
use std::alloc::{AllocError, Global};

/// The values that the options are set to, as texts.
#[derive(Clone, Copy)]
pub struct Values<'a> {
    pub file: Option<&'a str>,
    pub workers: Option<&'a str>,
    pub budget: Option<&'a str>,
    pub from: Option<&'a str>,
    pub number: Option<&'a str>,
    pub count: Option<&'a str>,
    pub cache: Option<&'a str>,
}

/// The parser with one more option.
fn with_option<'a>(
    alloc: Global,
    parser: Command<'a>,
    name: &'a str,
) -> Result<Command<'a>, AllocError>
    ensures { IfOk result (λ c. app_of c ≡ with_rule (app_of parser.entry)
        (long_rule name.entry.now)) }
{
    parser.arg(Arg::new(alloc, name).long(name))
}

/// The parser of the options of `serve`.
fn serving<'a>(alloc: Global) -> Result<Command<'a>, AllocError>
    ensures { IfOk result (λ c. app_of c ≡ serving_app) }
{
    let bare = Command::new(alloc, "serve")
        .no_binary_name(true)
        .disable_help_flag(true)
        .disable_version_flag(true);
    let with_file = with_option(alloc, bare, "file")?;
    let with_workers = with_option(alloc, with_file, "workers")?;
    let with_budget = with_option(alloc, with_workers, "budget")?;
    with_option(alloc, with_budget, "cache")
}

/// A parser with the options of `gen` besides.
fn generating<'a>(alloc: Global, parser: Command<'a>) -> Result<Command<'a>, AllocError>
    ensures { IfOk result (λ c. app_of c ≡ generating_app (app_of parser.entry)) }
{
    let with_number = with_option(alloc, parser, "number")?;
    with_option(alloc, with_number, "count")
}

/// The parser of the options of all verbs.
fn parser<'a>(alloc: Global) -> Result<Command<'a>, AllocError>
    ensures { IfOk result (λ c. app_of c ≡ parser_app) }
{
    let with_serve = serving(alloc)?;
    let with_from = with_option(alloc, with_serve, "from")?;
    generating(alloc, with_from)
}

/// The values of the options with these names that the words spell, each at most once. The names
/// are among those that the parser knows. None: the words spell no such options.
pub fn values_of<'a>(
    alloc: Global,
    names: &[&str],
    words: &'a [&'a str],
) -> Result<Option<Values<'a>>, Memory>
    requires { IsTrue (list_all (is_name parser_options) (map (λ n. n.now) names.now)) }
    ensures spelled { IfOk result (λ values. is_some values
        ≡ is_some (options_of (map (λ n. n.now) names.now) (map (λ w. w.now) words.entry.now))) }
    ensures values { IfOk result (λ values. IfSome values (λ v. (given : List Setting)
        → options_of (map (λ n. n.now) names.now) (map (λ w. w.now) words.entry.now) ≡ Some given
        → (option_map (λ t. t.now) v.file ≡ value_of (codes "file") given)
        × (option_map (λ t. t.now) v.workers ≡ value_of (codes "workers") given)
        × (option_map (λ t. t.now) v.budget ≡ value_of (codes "budget") given)
        × (option_map (λ t. t.now) v.from ≡ value_of (codes "from") given)
        × (option_map (λ t. t.now) v.number ≡ value_of (codes "number") given)
        × (option_map (λ t. t.now) v.count ≡ value_of (codes "count") given)
        × (option_map (λ t. t.now) v.cache ≡ value_of (codes "cache") given))) }
{
    if !are_options(names, words) {
        return Ok(None);
    }
    match parser(alloc)?.try_get_matches_from(words) {
        Ok(matches) => Ok(Some(Values {
            file: matches.get_str("file"),
            workers: matches.get_str("workers"),
            budget: matches.get_str("budget"),
            from: matches.get_str("from"),
            number: matches.get_str("number"),
            count: matches.get_str("count"),
            cache: matches.get_str("cache"),
        })),
        Err(error) => match error.kind() {
            ErrorKind::OutOfMemory => Err(Memory),
            _ => unreachable!(),
        },
    }
}
