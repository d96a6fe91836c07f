//! The requests that envelopes spell: one query or several, of a read or of a write.
ghost use Rattle.std.specs.Prelude.{◌≡◌, ◌≤◌, ◌<◌, true, false, length, map, codes, decimal, Some};
ghost use Rattle.std.specs.Prelude.{IfOk, IfSome, is_some, option_map, option_and_then};
ghost use Rattle.gd_tree.specs.Bounds.{json_depth, items_depth};
ghost use Rattle.gd_tree.specs.Json as tree;
ghost use Rattle.gd_tree.specs.Json.{list, item, no_items};
ghost use Rattle.gd_tree.specs.Look.{member_of, members_in};
ghost use Rattle.gd_defs.specs.Query.{within, each_numbered};
ghost use Rattle.gd_runs.specs.Request as defined;
ghost use Rattle.gd_json.specs.View.{view, items_view};
ghost use Rattle.gd_mql.specs.FormFault.{Checks, Spells};
ghost use Rattle.gd_mql.specs.Envelopes.{or_envelope, paged_of, few_of, written_fault};
ghost use Rattle.gd_mql.specs.Envelopes.{write_set_in};
ghost use Rattle.gd_mql.specs.Requests.{cursor_view, read_view, read_set_view, asked_change};
ghost use Rattle.gd_mql.specs.Requests.{write_set_view, write_view};

use crate::change_form::check_change;
use crate::directive::DirectiveWord;
use crate::form_fault::{FormFault, below, root_fault};
use crate::number::number_text;
use crate::object::{has, has_only, take};
use crate::operand::counts_to;
use crate::query_form::{check_query, is_object};
use crate::request::{
    ChangeList, ChangeRequest, CursorAsk, ReadList, ReadRequest, ReadSet, WriteRequest, WriteSet,
};
use gd_fault::fault::Code;
use gd_fault::ids::is_id;
use gd_json::value::{Json, JsonText};
use std::alloc::Global;

/// The greatest number of queries of one request.
const MAX_QUERIES: usize = 16;

/// The page that the member `cursor` of an envelope asks for.
fn cursor_of(alloc: Global, value: Option<&Json>) -> Result<CursorAsk, FormFault>
    ensures { Spells cursor_view (or_envelope
        (defined.cursor_ask (option_map (λ part. view part.now) value.entry))) result }
{
    let Some(value) = value else {
        return Ok(CursorAsk::Absent);
    };
    match value {
        Json::Bool(true) => Ok(CursorAsk::First),
        Json::Bool(false) => Ok(CursorAsk::Absent),
        Json::Text(text) => Ok(CursorAsk::After(text.copy()?)),
        _ => Err(root_fault(alloc, Code::Envelope)),
    }
}

/// Whether a query may have pages: it is a list without `return`.
fn has_pages(query: &Json) -> bool
    ensures { result ≡ defined.has_pages (view query.now) }
{
    if is_object(query) {
        return false;
    }
    match query.as_list() {
        Some(items) => list_has_pages(items),
        None => true,
    }
}

fn list_has_pages(items: &[Json]) -> bool
    ensures { result ≡ defined.has_pages (list (items_view items.now)) }
{
    match items {
        [] => true,
        [sole] => sole_has_pages(sole),
        _ => true,
    }
}

fn sole_has_pages(sole: &Json) -> bool
    ensures { result ≡ defined.has_pages (list (item (view sole.now) no_items)) }
{
    match sole.as_object() {
        Some(members) => !has(members, DirectiveWord::Return.name()),
        None => true,
    }
}

/// Whether the page may not be asked for: the query has none, or the text of a cursor stands among
/// several queries.
fn is_misplaced(among: bool, cursor: &CursorAsk, query: &Json) -> bool
    ensures { result ≡ defined.is_misplaced among (cursor_view cursor.now) (view query.now) }
{
    if cursor.asks_page() && !has_pages(query) {
        return true;
    }
    among && cursor.names_page()
}

/// A query with its page, by itself or among several, or its first fault of form.
fn paged(
    alloc: Global,
    among: bool,
    cursor: CursorAsk,
    query: Json,
) -> Result<ReadRequest, FormFault>
    requires { json_depth (view query) ≤ 14 }
    ensures { Spells read_view (paged_of among (cursor_view cursor) (view query)) result }
{
    if is_misplaced(among, &cursor, &query) {
        return Err(root_fault(alloc, Code::Envelope));
    }
    check_query(alloc, &query)?;
    Ok(ReadRequest::new(cursor, query))
}

/// The query with its page that an envelope spells, by itself or among several, or its first fault
/// of form.
fn request_of(alloc: Global, among: bool, envelope: Json) -> Result<ReadRequest, FormFault>
    requires { json_depth (view envelope) ≤ 15 }
    ensures { Spells read_view (defined.request_of among (view envelope)) result }
{
    if !has_only(&envelope, "cursor", "query") {
        return Err(root_fault(alloc, Code::Envelope));
    }
    let cursor = cursor_of(alloc, envelope.member("cursor"))?;
    match take(envelope, "query") {
        Some(query) => paged(alloc, among, cursor, query),
        None => Err(root_fault(alloc, Code::Envelope)),
    }
}

/// The same of an item of `queries`, whose number begins the path of a fault.
fn numbered_request(alloc: Global, number: usize, item: Json) -> Result<ReadRequest, FormFault>
    requires few { number < 16 }
    requires shallow { json_depth (view item) ≤ 15 }
    ensures { Spells read_view (within (decimal number) (defined.request_of true (view item)))
        result }
{
    match request_of(alloc, true, item) {
        Ok(request) => Ok(request),
        Err(fault) => Err(below(alloc, number_text(number), fault)),
    }
}

/// The queries with their pages that the items of `queries` spell, or the first fault of form.
fn requests_of(alloc: Global, items: Vec<Json>) -> Result<Vec<ReadRequest>, FormFault>
    requires few { length items.items ≤ 16 }
    requires shallow { items_depth (items_view items.items) ≤ 15 }
    ensures spelled { Spells (λ requests. map read_view requests.items)
        (each_numbered (defined.request_of true) 0 (items_view items.items)) result }
    ensures count { IfOk result (λ requests. length requests.items ≡ length items.items) }
{
    let mut requests = Vec::with_capacity(alloc, items.len())?;
    for item in items {
        requests.push(numbered_request(alloc, requests.len(), item)?)?;
    }
    Ok(requests)
}

/// The items of a list of 1 to 16.
fn few_items(queries: Json) -> Option<Vec<Json>>
    ensures items { option_map (λ items. items_view items.items) result
        ≡ defined.few_items (Some (view queries)) }
    ensures some { IfSome result (λ items. 1 ≤ length items.items) }
    ensures few { IfSome result (λ items. length items.items ≤ 16) }
{
    match queries {
        Json::List(items) => few(items),
        _ => None,
    }
}

fn few(items: Vec<Json>) -> Option<Vec<Json>>
    ensures items { option_map (λ items. items_view items.items) result
        ≡ defined.few_items (Some (list (items_view items.items))) }
    ensures some { IfSome result (λ items. 1 ≤ length items.items) }
    ensures few { IfSome result (λ items. length items.items ≤ 16) }
{
    if counts_to(&items, MAX_QUERIES) {
        Some(items)
    } else {
        None
    }
}

/// The items of the member `queries` of an envelope, 1 to 16, where it has no members but of that
/// name and of another.
fn queries_in(envelope: Json, other: &str) -> Option<Vec<Json>>
    requires { json_depth (view envelope) ≤ 15 }
    ensures items { option_map (λ items. items_view items.items) result
        ≡ few_of other.now (view envelope) }
    ensures some { IfSome result (λ items. 1 ≤ length items.items) }
    ensures few { IfSome result (λ items. length items.items ≤ 16) }
    ensures shallow { IfSome result (λ items. items_depth (items_view items.items) ≤ 13) }
{
    if has_only(&envelope, "queries", other) {
        few_items(take(envelope, "queries")?)
    } else {
        None
    }
}

/// The queries that an envelope with the member `queries` spells, or its first fault of form.
fn several_reads(alloc: Global, envelope: Json) -> Result<ReadSet, FormFault>
    requires shallow { json_depth (view envelope) ≤ 15 }
    requires several { is_some (member_of (codes "queries") (view envelope)) ≡ true }
    ensures { Spells read_set_view (defined.read_of (view envelope)) result }
{
    match queries_in(envelope, "queries") {
        Some(items) => {
            let requests = requests_of(alloc, items)?;
            Ok(ReadSet::Several(ReadList::new(requests)))
        }
        None => Err(root_fault(alloc, Code::Envelope)),
    }
}

/// What the envelope of a read spells, one query or several, or its first fault of form.
pub fn read_of(alloc: Global, envelope: Json) -> Result<ReadSet, FormFault>
    requires { json_depth (view envelope) ≤ 15 }
    ensures { Spells read_set_view (defined.read_of (view envelope)) result }
{
    if envelope.member("queries").is_some() {
        return several_reads(alloc, envelope);
    }
    Ok(ReadSet::One(request_of(alloc, false, envelope)?))
}

/// The id of the scope that the member `scope` of an envelope names.
fn scope_of(alloc: Global, value: Option<&Json>) -> Result<Option<JsonText>, FormFault>
    ensures { Spells (λ scope. scope) (or_envelope
        (defined.scope_ask (option_map (λ part. view part.now) value.entry))) result }
{
    let Some(value) = value else {
        return Ok(None);
    };
    match value {
        Json::Text(text) => scope_named(alloc, text),
        _ => Err(root_fault(alloc, Code::Envelope)),
    }
}

fn scope_named(alloc: Global, text: &JsonText) -> Result<Option<JsonText>, FormFault>
    ensures { Spells (λ scope. scope) (or_envelope
        (defined.scope_ask (Some (tree.text text.now)))) result }
{
    if is_id(text.as_str()) {
        Ok(Some(text.copy()?))
    } else {
        Err(root_fault(alloc, Code::Envelope))
    }
}

/// The change that a clause in an envelope spells, or its first fault of form.
fn clause_of(alloc: Global, clause: Json) -> Result<ChangeRequest, FormFault>
    requires { json_depth (view clause) ≤ 14 }
    ensures { Spells asked_change (defined.clause_of (view clause)) result }
{
    check_clause(alloc, &clause)?;
    Ok(ChangeRequest::new(clause))
}

fn check_clause(alloc: Global, clause: &Json) -> Result<(), FormFault>
    ensures { Checks (written_fault (view clause.now)) result }
{
    match clause.as_object() {
        Some(members) => check_change(alloc, members),
        None => Err(root_fault(alloc, Code::Envelope)),
    }
}

/// The same of an item of `queries`, whose number begins the path of a fault.
fn numbered_clause(alloc: Global, number: usize, item: Json) -> Result<ChangeRequest, FormFault>
    requires few { number < 16 }
    requires shallow { json_depth (view item) ≤ 14 }
    ensures { Spells asked_change (within (decimal number) (defined.clause_of (view item)))
        result }
{
    match clause_of(alloc, item) {
        Ok(change) => Ok(change),
        Err(fault) => Err(below(alloc, number_text(number), fault)),
    }
}

/// The changes that the items of `queries` spell, or the first fault of form.
fn changes_of(alloc: Global, items: Vec<Json>) -> Result<Vec<ChangeRequest>, FormFault>
    requires few { length items.items ≤ 16 }
    requires shallow { items_depth (items_view items.items) ≤ 14 }
    ensures spelled { Spells (λ changes. map asked_change changes.items)
        (each_numbered defined.clause_of 0 (items_view items.items)) result }
    ensures count { IfOk result (λ changes. length changes.items ≡ length items.items) }
{
    let mut changes = Vec::with_capacity(alloc, items.len())?;
    for item in items {
        changes.push(numbered_clause(alloc, changes.len(), item)?)?;
    }
    Ok(changes)
}

/// The changes that an envelope with the member `queries` spells, or its first fault of form.
fn several_changes(alloc: Global, envelope: Json) -> Result<WriteSet, FormFault>
    requires shallow { json_depth (view envelope) ≤ 15 }
    requires several { is_some (member_of (codes "queries") (view envelope)) ≡ true }
    ensures { Spells write_set_view (write_set_in (view envelope)) result }
{
    match queries_in(envelope, "scope") {
        Some(items) => {
            let changes = changes_of(alloc, items)?;
            Ok(WriteSet::Several(ChangeList::new(changes)))
        }
        None => Err(root_fault(alloc, Code::Envelope)),
    }
}

/// The value of the member `query` of an envelope that has no members but that and `scope`.
fn query_in(envelope: Json) -> Option<Json>
    ensures { option_map view result ≡ option_and_then defined.query_in
        (members_in (view envelope)) }
{
    if has_only(&envelope, "query", "scope") {
        take(envelope, "query")
    } else {
        None
    }
}

/// The change that an envelope without `queries` spells, or its first fault of form.
fn one_change(alloc: Global, envelope: Json) -> Result<WriteSet, FormFault>
    requires shallow { json_depth (view envelope) ≤ 15 }
    requires alone { is_some (member_of (codes "queries") (view envelope)) ≡ false }
    ensures { Spells write_set_view (write_set_in (view envelope)) result }
{
    match query_in(envelope) {
        Some(clause) => Ok(WriteSet::One(clause_of(alloc, clause)?)),
        None => Err(root_fault(alloc, Code::Envelope)),
    }
}

/// What the envelope of a write asks, one change or several, or its first fault of form.
fn write_set_of(alloc: Global, envelope: Json) -> Result<WriteSet, FormFault>
    requires { json_depth (view envelope) ≤ 15 }
    ensures { Spells write_set_view (write_set_in (view envelope)) result }
{
    if envelope.member("queries").is_some() {
        several_changes(alloc, envelope)
    } else {
        one_change(alloc, envelope)
    }
}

/// The write that an envelope spells, or its first fault of form.
pub fn write_of(alloc: Global, envelope: Json) -> Result<WriteRequest, FormFault>
    requires { json_depth (view envelope) ≤ 15 }
    ensures { Spells write_view (defined.write_of (view envelope)) result }
{
    let scope = scope_of(alloc, envelope.member("scope"))?;
    let asks = write_set_of(alloc, envelope)?;
    Ok(WriteRequest { scope, asks })
}
