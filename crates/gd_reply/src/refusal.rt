//! Why a line is refused.
ghost use Rattle.std.specs.Prelude.{◌≡◌, ◌<◌, ◌^◌, ◌∷◌, ◌++◌, [], IfOk, OnOk, codes, map};
ghost use Rattle.gd_tree.specs.Json.{object as object_tree, list as list_of, text as text_of};
ghost use Rattle.gd_json.specs.View.{view, member_view};
ghost use Rattle.gd_defs.specs.Ids.{guid as guid_of};
ghost use Rattle.gd_defs.specs.Lines.{object_of, count_json, texts};
ghost use Rattle.gd_defs.specs.Reply.{code_text};
ghost use Rattle.gd_runs.specs.Request.{what_text};
ghost use Rattle.gd_fault.specs.Fault.{code_view};
ghost use Rattle.gd_reply.specs.Refusals.{refusal_of, CountsFit};

use crate::members::{Members, list, object, push_count, push_member, push_text};
use gd_base::id::Id;
use gd_base::memory::Memory;
use gd_base::text::Text;
use gd_fault::fault::{Code, Path};
use gd_fault::guid::guid;
use gd_json::from::JsonFault;
use gd_json::value::{Json, JsonText};
use gd_prim::What;
use std::alloc::Global;

/// Why a line is refused, with what its reply tells of it.
#[derive(Drop)]
pub enum Refusal {
    /// The line has more than 262,144 bytes.
    LineTooLong,
    /// The line is no JSON of this profile, or there was no memory to read it.
    Json(JsonFault),
    /// The line is no object of just `sid`, a number from 0 to 63, and one of `read` and `write`.
    BadLine,
    /// The query or the write is refused at this place.
    BadQuery { code: Code, path: Path },
    /// A limit would be passed; `count` is the number that would be reached.
    Full { what: What, count: u64 },
    /// No object has this id.
    NoSuchId { path: JsonText },
    /// No property is meant by the word of the name at the end of this path.
    NoSuchProperty { path: Path },
    /// More than one answer stands where one is asked, or would stand where one may, at the end of
    /// this path.
    NotUnique { path: Path },
    /// The key leads to another object.
    KeyTaken { key: Text, holder: Id },
    /// The link that is to give way has a successor already.
    StaleVersion { previous: Id, successor: Id },
    /// The text of a cursor is none, and so many of its bytes begin one.
    BadCursor { offset: u64 },
    /// The dateline of a cursor is above the one that there is.
    CursorAhead { asked: u32, have: u32 },
    /// An answer or a page weighs at least so much.
    TooWideAnswer { weight: u32 },
    /// The reply line would have so many bytes.
    ReplyTooLarge { bytes: u64 },
    /// There was no memory for the request or its reply.
    Memory,
}

fn json_name(fault: JsonFault) -> &'static str
    ensures { result.now ≡ (refusal_of (Refusal.Json fault)).error }
{
    match fault {
        JsonFault::BadJson => "BadJson",
        JsonFault::TooDeep => "TooDeep",
        JsonFault::TooWide => "TooWide",
        JsonFault::FloatValue => "FloatValue",
        JsonFault::Memory => "Memory",
    }
}

/// The name of the refusal.
pub fn error_name(refusal: &Refusal) -> &'static str
    ensures { result.now ≡ (refusal_of refusal.now).error }
{
    match refusal {
        Refusal::LineTooLong => "LineTooLong",
        Refusal::Json(fault) => json_name(*fault),
        Refusal::BadLine => "BadLine",
        Refusal::BadQuery { .. } => "BadQuery",
        Refusal::Full { .. } => "Full",
        Refusal::NoSuchId { .. } => "NoSuchId",
        Refusal::NoSuchProperty { .. } => "NoSuchProperty",
        Refusal::NotUnique { .. } => "NotUnique",
        Refusal::KeyTaken { .. } => "KeyTaken",
        Refusal::StaleVersion { .. } => "StaleVersion",
        Refusal::BadCursor { .. } => "BadCursor",
        Refusal::CursorAhead { .. } => "CursorAhead",
        Refusal::TooWideAnswer { .. } => "TooWideAnswer",
        Refusal::ReplyTooLarge { .. } => "ReplyTooLarge",
        Refusal::Memory => "Memory",
    }
}

fn code_name(code: Code) -> &'static str
    ensures { result.now ≡ code_text (code_view code) }
{
    match code {
        Code::Envelope => "envelope",
        Code::ListForm => "list_form",
        Code::BadWord => "bad_word",
        Code::LeftOut => "left_out",
        Code::BadDirective => "bad_directive",
        Code::BadOperand => "bad_operand",
        Code::BadWrite => "bad_write",
        Code::BadCreate => "bad_create",
        Code::BadConnect => "bad_connect",
        Code::BadValue => "bad_value",
        Code::BadOperator => "bad_operator",
        Code::ValueReversed => "value_reversed",
        Code::ObjectForm => "object_form",
        Code::BadSort => "bad_sort",
        Code::NotMet => "not_met",
        Code::BadPrevious => "bad_previous",
        Code::BadLang => "bad_lang",
    }
}

fn what_name(what: What) -> &'static str
    ensures { result.now ≡ what_text what }
{
    match what {
        What::Batch => "batch",
        What::Primitives => "primitives",
        What::Text => "text",
        What::Requests => "requests",
        What::History => "history",
    }
}

fn names(alloc: Global, path: &[JsonText]) -> Result<Vec<Json>, Memory>
    ensures { IfOk result (λ names. map view names.items ≡ map text_of path.now) }
{
    let mut names = Vec::new(alloc);
    for name in path {
        names.push(Json::text(alloc, name.as_str())?)?;
    }
    Ok(names)
}

/// The names of a path as a list.
fn path_list(alloc: Global, path: &Path) -> Result<Json, Memory>
    ensures { IfOk result (λ json. view json ≡ list_of (texts path.now)) }
{
    let names = names(alloc, path.names())?;
    Ok(list(names))
}

fn query_info(alloc: Global, code: Code, path: &Path) -> Result<Json, Memory>
    ensures { IfOk result (λ json. view json
        ≡ object_tree (object_of ((codes "code", text_of (code_text (code_view code)))
        ∷ (codes "path", list_of (texts path.now)) ∷ []))) }
{
    let mut members = Vec::new(alloc);
    push_text(alloc, &mut members, "code", code_name(code))?;
    push_member(alloc, &mut members, "path", path_list(alloc, path)?)?;
    Ok(object(members))
}

fn path_info(alloc: Global, path: &Path) -> Result<Json, Memory>
    ensures { IfOk result (λ json. view json
        ≡ object_tree (object_of ((codes "path", list_of (texts path.now)) ∷ []))) }
{
    let mut members = Vec::new(alloc);
    push_member(alloc, &mut members, "path", path_list(alloc, path)?)?;
    Ok(object(members))
}

fn ahead_info(alloc: Global, asked: u32, have: u32) -> Result<Json, Memory>
    ensures { IfOk result (λ json. view json
        ≡ object_tree (object_of ((codes "asked", count_json asked)
        ∷ (codes "have", count_json have) ∷ []))) }
{
    let mut members = Vec::new(alloc);
    push_count(alloc, &mut members, "asked", u64::from(asked))?;
    push_count(alloc, &mut members, "have", u64::from(have))?;
    Ok(object(members))
}

fn full_info(alloc: Global, what: What, reached: u64) -> Result<Json, Memory>
    requires { reached < 2 ^ 63 }
    ensures { IfOk result (λ json. view json
        ≡ object_tree (object_of ((codes "count", count_json reached)
        ∷ (codes "what", text_of (what_text what)) ∷ []))) }
{
    let mut members = Vec::new(alloc);
    push_count(alloc, &mut members, "count", reached)?;
    push_text(alloc, &mut members, "what", what_name(what))?;
    Ok(object(members))
}

fn count_info(alloc: Global, name: &str, n: u64) -> Result<Json, Memory>
    requires { n < 2 ^ 63 }
    ensures { IfOk result (λ json. view json
        ≡ object_tree (object_of ((name.now, count_json n) ∷ []))) }
{
    let mut members = Vec::new(alloc);
    push_count(alloc, &mut members, name, n)?;
    Ok(object(members))
}

fn text_info(alloc: Global, name: &str, value: &JsonText) -> Result<Json, Memory>
    ensures { IfOk result (λ json. view json
        ≡ object_tree (object_of ((name.now, text_of value.now) ∷ []))) }
{
    let mut members = Vec::new(alloc);
    push_text(alloc, &mut members, name, value.as_str())?;
    Ok(object(members))
}

/// Appends a member whose value is a guid.
fn push_guid(alloc: Global, members: &mut Members, name: &str, id: Id) -> Result<(), Memory>
    ensures { OnOk result (map member_view members.new.items
        ≡ map member_view members.old.items ++ (name.now, text_of (guid_of id)) ∷ []) }
{
    let text = guid(alloc, id)?;
    push_text(alloc, members, name, text.as_str())?;
    Ok(())
}

fn taken_info(alloc: Global, key: &Text, holder: Id) -> Result<Json, Memory>
    ensures { IfOk result (λ json. view json
        ≡ object_tree (object_of ((codes "holder", text_of (guid_of holder))
        ∷ (codes "key", text_of key.now) ∷ []))) }
{
    let mut members = Vec::new(alloc);
    push_guid(alloc, &mut members, "holder", holder)?;
    push_text(alloc, &mut members, "key", key.as_str())?;
    Ok(object(members))
}

fn stale_info(alloc: Global, previous: Id, successor: Id) -> Result<Json, Memory>
    ensures { IfOk result (λ json. view json
        ≡ object_tree (object_of ((codes "previous", text_of (guid_of previous))
        ∷ (codes "successor", text_of (guid_of successor)) ∷ []))) }
{
    let mut members = Vec::new(alloc);
    push_guid(alloc, &mut members, "previous", previous)?;
    push_guid(alloc, &mut members, "successor", successor)?;
    Ok(object(members))
}

/// What the reply tells of the refusal.
pub fn info(alloc: Global, refusal: &Refusal) -> Result<Json, Memory>
    requires { CountsFit refusal.now }
    ensures { IfOk result (λ json. view json ≡ object_tree (refusal_of refusal.now).info) }
{
    match refusal {
        Refusal::LineTooLong | Refusal::Json(_) | Refusal::BadLine | Refusal::Memory => {
            Ok(Json::Object(Vec::new(alloc)))
        }
        Refusal::BadQuery { code, path } => query_info(alloc, *code, path),
        Refusal::Full { what, count } => full_info(alloc, *what, *count),
        Refusal::NoSuchId { path } => text_info(alloc, "path", path),
        Refusal::TooWideAnswer { weight } => count_info(alloc, "weight", u64::from(*weight)),
        Refusal::ReplyTooLarge { bytes } => count_info(alloc, "bytes", *bytes),
        Refusal::NoSuchProperty { path } | Refusal::NotUnique { path } => path_info(alloc, path),
        Refusal::KeyTaken { key, holder } => taken_info(alloc, key, *holder),
        Refusal::StaleVersion {
            previous,
            successor,
        } => stale_info(alloc, *previous, *successor),
        Refusal::BadCursor { offset } => count_info(alloc, "offset", *offset),
        Refusal::CursorAhead { asked, have } => ahead_info(alloc, *asked, *have),
    }
}
