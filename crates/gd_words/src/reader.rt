//! From words to a command.
ghost use Rattle.std.specs.Prelude.{◌≡◌, ◌≤◌, ℕ, List, map, option_and_then, length, IfOk, IfSome};
ghost use Rattle.std.specs.Prelude.{option_map, All};
ghost use Rattle.gd_words.specs.Options.{options_of};
ghost use Rattle.gd_words.specs.Words.{serve_options, serve_of, dump_options, dump_of};
ghost use Rattle.gd_words.specs.Words.{place_options, place_in, command_of, generate_options};
ghost use Rattle.gd_words.specs.Words.{generate_of, number_if, number_or as number_or_of};

use crate::number::{number, number_or};
use crate::parsing::values_of;
use crate::verbs::{
    Command, Dump, Generate, MOST_NODES, MOST_REPLIES, NodeCount, Place, ReplyCount, Serve,
};
use gd_base::memory::Memory;
use gd_base::text::Text;
use std::alloc::Global;

/// How many workers `serve` has where its words name none.
pub const WORKERS: u32 = 4;

const MOST_WORKERS: u32 = 16;

/// How many steps a slice of a read may take under `serve` where its words name none.
pub const BUDGET: u32 = 10_000;

const MOST_BUDGET: u32 = 1_000_000;

const MOST_FROM: u32 = 4_194_303;

const NODES: u32 = 1_000;

/// The words as strings.
fn strings<'a>(alloc: Global, words: &'a [Text]) -> Result<Vec<&'a str>, Memory>
    ensures same { IfOk result (λ v. map (λ w. w.now) v.items ≡ words.now) }
    ensures short { IfOk result (λ v. All (λ w. length w.now ≤ 4096) v.items) }
{
    let mut strings = Vec::new(alloc);
    for word in words {
        strings.push(word.as_str())?;
    }
    Ok(strings)
}

/// The command that the words after the program's name give: a verb, and then its options in any
/// order, each at most once, as `--name value` or `--name=value`. Each verb but `gen` has
/// `--file PATH`; `serve` has also `--workers N` (1 to 16, else 4), `--budget N` (1 to 1,000,000,
/// else 10,000) and `--cache N` (1 to 64, else none), `dump` also `--from N` (0 to 4,194,303, else
/// 0); `replay`, `restore`, `follow` and `templates` have no other; `gen` has `--number N` (0 to
/// 4,294,967,295, else 0) and `--count N` (1 to 200,000, else 1,000). A value is not empty, and as a
/// word of its own does not begin with `-`; a number is 1 to 10 digits. None: the words are not of
/// this grammar. `Memory`: an allocation was refused.
#[tactic(auto, unfolding(crate::specs::Words::command_of))]
pub fn command(alloc: Global, words: &[Text]) -> Result<Option<Command>, Memory>
    ensures { IfOk result (λ command. command ≡ command_of words.now) }
{
    let Some((verb, options)) = words.split_first() else {
        return Ok(None);
    };
    let options = strings(alloc, options)?;
    match verb.as_str() {
        "serve" => Ok(serve(alloc, &options)?.map(Command::Serve)),
        "replay" => Ok(place(alloc, &options)?.map(Command::Replay)),
        "dump" => Ok(dump(alloc, &options)?.map(Command::Dump)),
        "restore" => Ok(place(alloc, &options)?.map(Command::Restore)),
        "follow" => Ok(place(alloc, &options)?.map(Command::Follow)),
        "templates" => Ok(place(alloc, &options)?.map(Command::Templates)),
        "gen" => Ok(generate(alloc, &options)?.map(Command::Generate)),
        _ => Ok(None),
    }
}

/// The options of `serve`.
fn serve_names() -> [&'static str; 4]
    ensures { map (λ n. n.now) result ≡ serve_options }
{
    ["file", "workers", "budget", "cache"]
}

/// How many replies a value asks for, or no number where there is none. None: it asks for none that
/// a session may keep.
fn reply_count(value: Option<&str>) -> Option<Option<ReplyCount>>
    ensures { result ≡ number_if 1 64 (option_map (λ v. v.now) value.entry) }
{
    match value {
        Some(text) => {
            let replies = number(text, 1, MOST_REPLIES)?;
            Some(Some(ReplyCount::new(replies)))
        }
        None => Some(None),
    }
}

/// `serve` with the options that the words spell.
fn serve(alloc: Global, words: &[&str]) -> Result<Option<Serve>, Memory>
    requires { All (λ w. length w.now ≤ 4096) words.now }
    ensures { IfOk result (λ serve. serve ≡ option_and_then serve_of
        (options_of serve_options (map (λ w. w.now) words.now))) }
{
    let names = serve_names();
    let Some(values) = values_of(alloc, &names, words)? else {
        return Ok(None);
    };
    let Some(workers) = number_or(WORKERS, 1, MOST_WORKERS, values.workers) else {
        return Ok(None);
    };
    let Some(budget) = number_or(BUDGET, 1, MOST_BUDGET, values.budget) else {
        return Ok(None);
    };
    let Some(cache) = reply_count(values.cache) else {
        return Ok(None);
    };
    let file = file_of(alloc, values.file)?;
    Ok(Some(Serve {
        file,
        workers,
        budget,
        cache,
    }))
}

/// The options of `dump`.
fn dump_names() -> [&'static str; 2]
    ensures { map (λ n. n.now) result ≡ dump_options }
{
    ["file", "from"]
}

/// `dump` with the options that the words spell.
fn dump(alloc: Global, words: &[&str]) -> Result<Option<Dump>, Memory>
    requires { All (λ w. length w.now ≤ 4096) words.now }
    ensures { IfOk result (λ dump. dump ≡ option_and_then dump_of
        (options_of dump_options (map (λ w. w.now) words.now))) }
{
    let names = dump_names();
    let Some(values) = values_of(alloc, &names, words)? else {
        return Ok(None);
    };
    let Some(from) = number_or(0, 0, MOST_FROM, values.from) else {
        return Ok(None);
    };
    let file = file_of(alloc, values.file)?;
    Ok(Some(Dump { file, from }))
}

/// The options of a verb that asks for the place of its store alone.
fn place_names() -> [&'static str; 1]
    ensures { map (λ n. n.now) result ≡ place_options }
{
    ["file"]
}

/// The place with the options that the words spell.
fn place(alloc: Global, words: &[&str]) -> Result<Option<Place>, Memory>
    requires { All (λ w. length w.now ≤ 4096) words.now }
    ensures { IfOk result (λ place. place ≡ place_in (map (λ w. w.now) words.now)) }
{
    let names = place_names();
    let Some(values) = values_of(alloc, &names, words)? else {
        return Ok(None);
    };
    let file = file_of(alloc, values.file)?;
    Ok(Some(Place { file }))
}

/// The options of `gen`.
fn generate_names() -> [&'static str; 2]
    ensures { map (λ n. n.now) result ≡ generate_options }
{
    ["number", "count"]
}

/// How many nodes a value asks for, or the default where there is none.
fn node_count(value: Option<&str>) -> Option<NodeCount>
    ensures { result ≡ number_or_of 1000 1 200_000 (option_map (λ v. v.now) value.entry) }
{
    let nodes = number_or(NODES, 1, MOST_NODES, value)?;
    Some(NodeCount::new(nodes))
}

/// `gen` with the options that the words spell.
fn generate(alloc: Global, words: &[&str]) -> Result<Option<Generate>, Memory>
    ensures { IfOk result (λ generate. generate ≡ option_and_then generate_of
        (options_of generate_options (map (λ w. w.now) words.now))) }
{
    let names = generate_names();
    let Some(values) = values_of(alloc, &names, words)? else {
        return Ok(None);
    };
    let Some(number) = number_or(0, 0, u32::MAX, values.number) else {
        return Ok(None);
    };
    let Some(count) = node_count(values.count) else {
        return Ok(None);
    };
    Ok(Some(Generate { number, count }))
}

/// The path of the file, if it is given.
fn file_of(alloc: Global, value: Option<&str>) -> Result<Option<Text>, Memory>
    requires { IfSome value (λ path. length path.now ≤ 4096) }
    ensures { IfOk result (λ path. path ≡ option_map (λ text. text.now) value.entry) }
{
    match value {
        Some(path) => Ok(Some(Text::of(alloc, path)?)),
        None => Ok(None),
    }
}
