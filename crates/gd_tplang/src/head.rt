//! What stands before the template of a clause: its mode, and where it leads.
ghost use Rattle.std.specs.Prelude.{◌≡◌, codes};
ghost use Rattle.gd_defs.specs.Query as query;
ghost use Rattle.gd_defs.specs.Template as defs;
ghost use Rattle.gd_template.specs.View.{mode_of, hop_of};
ghost use Rattle.gd_grammar.specs.Choice.{begins, behind_at, seen_at};
ghost use Rattle.gd_tplang.specs.Seen.{head_of};
ghost use Rattle.gd_tplang.specs.Stop.{Finds};
ghost use Rattle.gd_tplang.specs.Written as written;

use crate::byte::{is_next, word};
use crate::stop::Stop;
use crate::test::end;
use gd_template::template::{Hop, Mode};

/// Reads where a clause leads: to the places that have this one at an end.
fn links_by(bytes: &[u8]) -> Result<(Hop, &[u8]), Stop>
    ensures { Finds (λ x. (hop_of x.0, x.1.now)) (behind_at (codes "<-") defs.links_by
        written.end_at bytes.now) result }
{
    let rest = word(bytes, b"<-")?;
    let (end, rest) = end(rest)?;
    Ok((Hop::LinksBy(end), rest))
}

/// Reads where a clause leads: to the place's own end.
fn end_of(bytes: &[u8]) -> Result<(Hop, &[u8]), Stop>
    ensures { Finds (λ x. (hop_of x.0, x.1.now)) (behind_at (codes "->") defs.end_here
        written.end_at bytes.now) result }
{
    let rest = word(bytes, b"->")?;
    let (end, rest) = end(rest)?;
    Ok((Hop::EndOf(end), rest))
}

/// Reads where a clause leads.
#[tactic(auto, unfolding(crate::specs::Written::hop_at))]
fn hop(bytes: &[u8]) -> Result<(Hop, &[u8]), Stop>
    ensures { Finds (λ x. (hop_of x.0, x.1.now)) (written.hop_at bytes.now) result }
{
    if is_next(bytes, b'<') {
        return links_by(bytes);
    }
    end_of(bytes)
}

/// A mode, and where a clause leads.
#[derive(Clone, Copy)]
pub(crate) struct Head {
    pub(crate) mode: Mode,
    pub(crate) hop: Hop,
}

/// Reads a mode that a byte tells, and where the clause leads.
fn marked<'a>(bytes: &'a [u8], expected: &[u8], mode: Mode) -> Result<(Head, &'a [u8]), Stop>
    ensures { Finds (λ x. (head_of x.0, x.1.now)) (behind_at expected.now (λ h. (mode_of mode, h))
        written.hop_at bytes.now) result }
{
    let rest = word(bytes, expected)?;
    let (hop, rest) = hop(rest)?;
    Ok((Head { mode, hop }, rest))
}

/// Reads where a required clause leads.
fn required(bytes: &[u8]) -> Result<(Head, &[u8]), Stop>
    ensures { Finds (λ x. (head_of x.0, x.1.now)) (seen_at (λ h. (query.required, h)) written.hop_at
        bytes.now) result }
{
    let (hop, rest) = hop(bytes)?;
    let mode = Mode::Required;
    Ok((Head { mode, hop }, rest))
}

/// Reads the mode of a clause and where it leads.
#[tactic(auto, unfolding(crate::specs::Written::head_at))]
pub(crate) fn read_head(bytes: &[u8]) -> Result<(Head, &[u8]), Stop>
    ensures { Finds (λ x. (head_of x.0, x.1.now)) (written.head_at bytes.now) result }
{
    if is_next(bytes, b'?') {
        return marked(bytes, b"?", Mode::Optional);
    }
    if is_next(bytes, b'!') {
        return marked(bytes, b"!", Mode::Forbidden);
    }
    required(bytes)
}

/// Whether the byte begins a clause.
fn begins_clause(byte: u8) -> bool
    ensures { result ≡ written.begins_clause byte }
{
    b"?!<-".iter().any(|first| *first == byte)
}

/// Whether a clause comes next.
pub(crate) fn is_clause_next(bytes: &[u8]) -> bool
    ensures { result ≡ begins written.begins_clause bytes.now }
{
    match bytes {
        [first, ..] => begins_clause(*first),
        [] => false,
    }
}
