//! The texts of cursors.
ghost use Rattle.std.specs.Prelude.{◌≡◌, ◌≤◌, length, IfOk};
ghost use Rattle.gd_grammar.specs.Mark.{cursor_text};
ghost use Rattle.gd_json.specs.View.{view as json_view};
ghost use Rattle.gd_tree.specs.Json as tree;
ghost use Rattle.gd_defs.specs.Reply as reply;
ghost use Rattle.gd_window.specs.Laws.{defined, places};

use gd_base::memory::Memory;
use gd_frozen::cursor::Places;
use gd_frozen::mark_text;
use gd_json::value::{Json, JsonText};
use gd_window::keys::Key;
use gd_window::row::Row;
use std::alloc::Global;

/// The places of keys.
pub(crate) fn places_of(keys: &[Key]) -> Places
    requires { length keys.now ≤ 4 }
    ensures { result ≡ places keys.now }
{
    let mut places = Places::new();
    for key in keys {
        places.push(key.place);
    }
    places
}

/// The text of a cursor that marks a row. `Memory`: an allocation was refused.
pub(crate) fn row_text(alloc: Global, dateline: u32, row: &Row) -> Result<Json, Memory>
    ensures { IfOk result (λ json. json_view json
        ≡ tree.text (cursor_text dateline (reply.row_mark (defined row.now)))) }
{
    let places = places_of(row.keys.as_slice());
    let text = mark_text(alloc, dateline, row.id, places.as_slice())?;
    Ok(Json::Text(JsonText::new(text)))
}
