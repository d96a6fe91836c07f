//! Requests that were read from a line.
ghost use Rattle.std.specs.Prelude.{◌≡◌, ◌≤◌, ◌+◌, true, None, is_none, option_map, IfOk};
ghost use Rattle.std.specs.Prelude.{length, map};
ghost use Rattle.gd_tree.specs.Bounds.{json_depth};
ghost use Rattle.gd_tree.specs.Json.{list, item, no_items};
ghost use Rattle.gd_json.specs.View.{view, items_view, members_view};
ghost use Rattle.gd_form_laws.specs.Faults.{query_fault, clause_fault};
ghost use Rattle.gd_form_laws.specs.WriteFaults.{change_fault};

use crate::change::Change;
use crate::clause::Clause;
use gd_base::memory::Memory;
use gd_json::value::{Json, JsonText};
use std::marker::Model;

/// Which page a read asks for: the first without a cursor, the first with one, or the page after
/// the text of a cursor.
#[derive(Drop)]
pub enum CursorAsk {
    Absent,
    First,
    After(JsonText),
}

/// A read: the page that it asks for, and its query, which has the form of one. At most 14 forms
/// `{..}` lie one within another in it.
#[derive(Drop)]
pub struct ReadRequest {
    pub cursor: CursorAsk,
    query: Json,
    ghost spells: { is_none (query_fault (view query)) ≡ true },
    ghost shallow: { json_depth (view query) ≤ 14 },
}

/// 1 to 16 reads that are answered together. Contracts see their list.
#[derive(Drop)]
pub struct ReadList {
    requests: Vec<ReadRequest>,
}

impl Model for ReadList {
    ghost use Rattle.std.specs.Prelude.{◌≤◌, List, length};
    ghost use Rattle.std.specs.Coded.{codes};
    ghost use Rattle.gd_json.specs.contracts.value.Json as json_row;
    ghost use Rattle.gd_mql.specs.declared.request.ReadRequest.{ReadRequest};

    ghost Value = { List ReadRequest };

    ghost coded = { Prim.hlevel (codes, json_row.the_row.coded) };

    ghost view = { λ list. list.requests.items };

    ghost invariant = { λ list. (1 ≤ length list.requests.items)
        × (length list.requests.items ≤ 16) };
}

/// What a read asks: one query, or several that are answered together, all at one dateline.
#[derive(Drop)]
pub enum ReadSet {
    One(ReadRequest),
    Several(ReadList),
}

/// A clause that has the form of a change. At most 14 forms `{..}` and lists lie one within another
/// in it.
#[derive(Drop)]
pub struct ChangeRequest {
    query: Json,
    ghost spells: { is_none (change_fault (view query)) ≡ true },
    ghost shallow: { json_depth (view query) ≤ 14 },
}

/// 1 to 16 changes that are carried out together. Contracts see their list.
#[derive(Drop)]
pub struct ChangeList {
    changes: Vec<ChangeRequest>,
}

impl Model for ChangeList {
    ghost use Rattle.std.specs.Prelude.{◌≤◌, List, length};
    ghost use Rattle.std.specs.Coded.{codes};
    ghost use Rattle.gd_json.specs.contracts.value.Json as json_row;
    ghost use Rattle.gd_mql.specs.declared.request.ChangeRequest.{ChangeRequest};

    ghost Value = { List ChangeRequest };

    ghost coded = { Prim.hlevel (codes, json_row.the_row.coded) };

    ghost view = { λ list. list.changes.items };

    ghost invariant = { λ list. (1 ≤ length list.changes.items)
        × (length list.changes.items ≤ 16) };
}

/// What a write asks: one change, or several that are carried out together, all or none.
#[derive(Drop)]
pub enum WriteSet {
    One(ChangeRequest),
    Several(ChangeList),
}

/// A write: the id of the scope of all that it makes, and what it asks.
#[derive(Drop)]
pub struct WriteRequest {
    pub scope: Option<JsonText>,
    pub asks: WriteSet,
}

/// The query of a read: whether it is a list, and its root clause.
#[derive(Clone, Copy)]
pub struct Query<'a> {
    pub listed: bool,
    pub root: Clause<'a>,
}

/// A session, from 0 to 63, with a read or a write.
#[derive(Drop)]
pub enum Line {
    Read { sid: u32, request: ReadSet },
    Write { sid: u32, request: WriteRequest },
}

impl CursorAsk {
    ghost use Rattle.gd_runs.specs.Request as defined;
    ghost use Rattle.gd_mql.specs.Requests.{cursor_view};

    /// Whether a cursor is to be printed.
    pub fn asks_page(&self) -> bool
        ensures { result ≡ defined.asks_page (cursor_view self.now) }
    {
        !matches!(self, CursorAsk::Absent)
    }

    /// Whether the page after the text of a cursor is asked for.
    pub fn names_page(&self) -> bool
        ensures { result ≡ defined.names_page (cursor_view self.now) }
    {
        matches!(self, CursorAsk::After(_))
    }

    /// The same page again.
    fn copy(&self) -> Result<CursorAsk, Memory>
        ensures { IfOk result (λ copied. cursor_view copied ≡ cursor_view self.now) }
    {
        match self {
            CursorAsk::Absent => Ok(CursorAsk::Absent),
            CursorAsk::First => Ok(CursorAsk::First),
            CursorAsk::After(text) => Ok(CursorAsk::After(text.copy()?)),
        }
    }
}

impl ReadRequest {
    ghost use Rattle.gd_form_laws.specs.Spelled.{spelled_query, forms_depth};
    ghost use Rattle.gd_mql.specs.Requests.{cursor_view, read_view, query_view};

    /// The read of this page of a query, which has the form of one and nests at most 14 values.
    pub fn new(cursor: CursorAsk, query: Json) -> ReadRequest
        requires right { query_fault (view query) ≡ None }
        requires shallow { json_depth (view query) ≤ 14 }
        ensures { read_view result ≡ record {
          cursor = cursor_view cursor;
          query = spelled_query (view query);
        } }
    {
        ReadRequest { cursor, query }
    }

    /// The same read again. `Memory`: an allocation was refused.
    pub fn copy(&self) -> Result<ReadRequest, Memory>
        ensures { IfOk result (λ request. read_view request ≡ read_view self.now) }
    {
        let cursor = self.cursor.copy()?;
        Ok(ReadRequest {
            cursor,
            query: self.query.copy()?,
        })
    }

    /// The query. At most 14 forms `{..}` lie one within another in it, the root among them.
    pub fn query(&self) -> Query<'_>
        ensures shown { query_view result ≡ (read_view self.now).query }
        ensures depth { 1 + forms_depth (read_view self.now).query.members ≤ 14 }
    {
        if let Some(members) = self.query.as_object() {
            return Query::of_root(false, members);
        }
        match self.query.as_list() {
            Some(items) => Query::of_list(items),
            None => unreachable!(),
        }
    }
}

impl ReadList {
    ghost use Rattle.gd_mql.specs.Requests.{read_view};

    /// These reads, 1 to 16.
    pub fn new(requests: Vec<ReadRequest>) -> ReadList
        requires some { 1 ≤ length requests.items }
        requires few { length requests.items ≤ 16 }
        ensures { result ≡ requests.items }
    {
        ReadList { requests }
    }

    /// The reads, in order: 1 to 16.
    pub fn as_slice(&self) -> &[ReadRequest]
        ensures list { result.now ≡ self.now }
        ensures some { 1 ≤ length self.now }
        ensures few { length self.now ≤ 16 }
    {
        self.requests.as_slice()
    }

    /// The reads, in order: 1 to 16.
    pub fn into_requests(self) -> Vec<ReadRequest>
        ensures list { result.items ≡ self }
        ensures some { 1 ≤ length self }
        ensures few { length self ≤ 16 }
    {
        self.requests
    }

    /// The same reads again. `Memory`: an allocation was refused.
    pub fn copy(&self) -> Result<ReadList, Memory>
        ensures { IfOk result (λ list. map read_view list ≡ map read_view self.now) }
    {
        let mut requests = Vec::with_capacity(*self.requests.allocator(), self.requests.len())?;
        for request in &self.requests {
            requests.push(request.copy()?)?;
        }
        Ok(ReadList { requests })
    }
}

impl ReadSet {
    ghost use Rattle.gd_mql.specs.Requests.{read_set_view};

    /// The same reads again. `Memory`: an allocation was refused.
    pub fn copy(&self) -> Result<ReadSet, Memory>
        ensures { IfOk result (λ set. read_set_view set ≡ read_set_view self.now) }
    {
        match self {
            ReadSet::One(request) => Ok(ReadSet::One(request.copy()?)),
            ReadSet::Several(requests) => Ok(ReadSet::Several(requests.copy()?)),
        }
    }
}

impl<'a> Query<'a> {
    ghost use Rattle.gd_form_laws.specs.Spelled.{spelled_query, spelled_clause};
    ghost use Rattle.gd_mql.specs.Requests.{query_view};

    fn of_root(listed: bool, members: &'a [(JsonText, Json)]) -> Query<'a>
        requires { clause_fault true (members_view members.now) ≡ None }
        ensures { query_view result ≡ record {
          listed = listed;
          directives = (spelled_clause true (members_view members.entry.now)).0;
          members = (spelled_clause true (members_view members.entry.now)).1;
        } }
    {
        Query {
            listed,
            root: Clause::root(members),
        }
    }

    fn of_list(items: &'a [Json]) -> Query<'a>
        requires { query_fault (list (items_view items.now)) ≡ None }
        ensures { query_view result ≡ spelled_query (list (items_view items.entry.now)) }
    {
        match items {
            [] => unreachable!(),
            [sole] => Query::of_sole(sole),
            _ => unreachable!(),
        }
    }

    fn of_sole(sole: &'a Json) -> Query<'a>
        requires { query_fault (list (item (view sole.now) no_items)) ≡ None }
        ensures { query_view result ≡ spelled_query (list (item (view sole.entry.now) no_items)) }
    {
        match sole.as_object() {
            Some(members) => Query::of_root(true, members),
            None => unreachable!(),
        }
    }
}

/// The same scope again.
fn copy_scope(scope: &Option<JsonText>) -> Result<Option<JsonText>, Memory>
    ensures { IfOk result (λ copied. copied ≡ option_map (λ text. text) scope.now) }
{
    match scope {
        Some(text) => Ok(Some(text.copy()?)),
        None => Ok(None),
    }
}

impl ChangeRequest {
    ghost use Rattle.gd_form_laws.specs.SpelledChange.{spelled_change, entries_depth};
    ghost use Rattle.gd_mql.specs.Requests.{asked_change};
    ghost use Rattle.gd_mql.specs.Entries.{change_view};

    /// The change of a clause, which has the form of one and nests at most 14 values.
    pub fn new(query: Json) -> ChangeRequest
        requires right { change_fault (view query) ≡ None }
        requires shallow { json_depth (view query) ≤ 14 }
        ensures { asked_change result ≡ spelled_change (view query) }
    {
        ChangeRequest { query }
    }

    /// The same change again. `Memory`: an allocation was refused.
    pub fn copy(&self) -> Result<ChangeRequest, Memory>
        ensures { IfOk result (λ request. asked_change request ≡ asked_change self.now) }
    {
        Ok(ChangeRequest {
            query: self.query.copy()?,
        })
    }

    /// The change. At most 14 forms `{..}` and lists lie one within another in it, the clause
    /// itself among them.
    pub fn change(&self) -> Change<'_>
        ensures shown { change_view result ≡ asked_change self.now }
        ensures depth { 1 + entries_depth (asked_change self.now).members ≤ 14 }
    {
        match self.query.as_object() {
            Some(members) => Change::of(members),
            None => unreachable!(),
        }
    }
}

impl ChangeList {
    ghost use Rattle.gd_mql.specs.Requests.{asked_change};

    /// These changes, 1 to 16.
    pub fn new(changes: Vec<ChangeRequest>) -> ChangeList
        requires some { 1 ≤ length changes.items }
        requires few { length changes.items ≤ 16 }
        ensures { result ≡ changes.items }
    {
        ChangeList { changes }
    }

    /// The changes, in order: 1 to 16.
    pub fn as_slice(&self) -> &[ChangeRequest]
        ensures list { result.now ≡ self.now }
        ensures some { 1 ≤ length self.now }
        ensures few { length self.now ≤ 16 }
    {
        self.changes.as_slice()
    }

    /// The same changes again. `Memory`: an allocation was refused.
    pub fn copy(&self) -> Result<ChangeList, Memory>
        ensures { IfOk result (λ list. map asked_change list ≡ map asked_change self.now) }
    {
        let mut changes = Vec::with_capacity(*self.changes.allocator(), self.changes.len())?;
        for change in &self.changes {
            changes.push(change.copy()?)?;
        }
        Ok(ChangeList { changes })
    }
}

impl WriteSet {
    ghost use Rattle.gd_mql.specs.Requests.{write_set_view};

    /// The same changes again. `Memory`: an allocation was refused.
    pub fn copy(&self) -> Result<WriteSet, Memory>
        ensures { IfOk result (λ set. write_set_view set ≡ write_set_view self.now) }
    {
        match self {
            WriteSet::One(change) => Ok(WriteSet::One(change.copy()?)),
            WriteSet::Several(changes) => Ok(WriteSet::Several(changes.copy()?)),
        }
    }
}

impl WriteRequest {
    ghost use Rattle.gd_mql.specs.Requests.{write_view};

    /// The same write again. `Memory`: an allocation was refused.
    pub fn copy(&self) -> Result<WriteRequest, Memory>
        ensures { IfOk result (λ request. write_view request ≡ write_view self.now) }
    {
        let scope = copy_scope(&self.scope)?;
        Ok(WriteRequest {
            scope,
            asks: self.asks.copy()?,
        })
    }
}
