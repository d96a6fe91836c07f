//! What a line of a template is answered.
ghost use Rattle.std.specs.Prelude.{◌≡◌, IfOk, codes};
ghost use Rattle.gd_prim.specs.History.{prims_of};
ghost use Rattle.gd_template.specs.Built.{view as template_view};
ghost use Rattle.gd_trees.specs.Answers.{answers_of};
ghost use Rattle.gd_tplang.specs.Meaning.{answer, trees_line as trees_said};

use crate::answers::answers_line;
use crate::said::{counted, said};
use crate::stop::TplFault;
use crate::template::template_from;
use gd_base::memory::Memory;
use gd_store::store::Store;
use gd_template::template::Template;
use gd_trees::linked::LinkedPrims;
use std::alloc::Global;

/// The greatest number of bytes of a line.
const MAX_LINE: usize = 262_144;

/// What a template is answered at the newest state of a store.
#[tactic(auto, using(crate::proofs::Newest::whole))]
fn newest_line(alloc: Global, store: &Store, template: &Template) -> Result<Vec<u8>, Memory>
    ensures { IfOk result (λ line. line.items
        ≡ trees_said (answers_of (prims_of store.now) (template_view template.now))) }
{
    let view = store.view(store.requests());
    let linked = LinkedPrims::new(&view);
    answers_line(alloc, &linked, template)
}

/// What a line is answered at the newest state of a store, without a newline at its end: the text
/// of the trees of the places that answer its template, in rising order, as `[66;68]`. Else `!` and
/// the first of what stands against that:
///
/// - `! long`: the line has more than 262,144 bytes;
/// - `! bad N`: it is no template, and its longest front that begins one has N bytes;
/// - `! pattern`: a text in it with which words are compared is no pattern;
/// - `! deep`: more than 32 templates lie one within the other;
/// - `! wide 65537`: a place that passes the template weighs more than 65,536;
/// - `! large N`: the text of the trees has N bytes, more than 1,048,576. It is counted, not made.
///
/// `Memory`: an allocation was refused. It may come in place of any line.
pub fn answer_line(alloc: Global, store: &Store, bytes: &[u8]) -> Result<Vec<u8>, Memory>
    ensures { IfOk result (λ line. line.items ≡ answer bytes.now (prims_of store.now)) }
{
    if bytes.len() > MAX_LINE {
        return said(alloc, "! long");
    }
    match template_from(alloc, bytes) {
        Ok(template) => newest_line(alloc, store, &template),
        Err(TplFault::BadTemplate { offset }) => counted(alloc, "! bad ", offset),
        Err(TplFault::BadPattern) => said(alloc, "! pattern"),
        Err(TplFault::TooDeep) => said(alloc, "! deep"),
        Err(TplFault::Memory) => Err(Memory),
    }
}
