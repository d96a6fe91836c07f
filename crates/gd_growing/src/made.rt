//! What a write has made, looked over. The first of its primitives stands at the place `from`.
ghost use Rattle.std.specs.Prelude.{◌≡◌, ◌+◌, ◌^◌, ◌<◌, length};
ghost use Rattle.std.specs.List.{last_or};
ghost use Rattle.gd_prim.specs.Keys.{is_key_link, is_key_of};
ghost use Rattle.gd_prim.specs.Live as live;
ghost use Rattle.gd_store.specs.Scan.{places_from};
ghost use Rattle.gd_growing.specs.Scan.{first_place};

use gd_base::datum::Datum;
use gd_base::id::Id;
use gd_base::text::Text;
use gd_prim::Primitive;
use gd_prim::live::refers;

/// The property `key`.
const KEY: Id = Id(15);

/// The first place whose primitive has this one as `previous`.
pub(crate) fn first_previous(made: &[Primitive], from: u32, place: Id) -> Option<Id>
    requires { from + length made.now < 2 ^ 32 }
    ensures { result ≡ first_place (λ p. live.refers p.previous place) from made.now }
{
    for (i, prim) in made.iter().enumerate() {
        if refers(prim.previous, place) {
            return Some(Id(from + i as u32));
        }
    }
    None
}

/// Whether the value is this text.
fn is_text(value: &Datum, text: &str) -> bool
    ensures { result ≡ live.is_text text.now value.now }
{
    match value {
        Datum::Text(held) => text == held.as_str(),
        _ => false,
    }
}

/// Whether the primitive is a link of this key into this namespace.
fn is_key_link(prim: &Primitive, namespace: Id, key: &Text) -> bool
    ensures { result ≡ is_key_link namespace key.now prim.now }
{
    refers(prim.typ, KEY) && refers(prim.right, namespace) && is_text(&prim.value, key.as_str())
}

/// Whether the primitive is a key link of this object.
pub(crate) fn is_key_of(prim: &Primitive, object: Id) -> bool
    ensures { result ≡ is_key_of object prim.now }
{
    refers(prim.typ, KEY) && refers(prim.left, object)
}

/// The last place whose primitive is a link of this key into this namespace, or else `before`.
pub(crate) fn last_key_link(
    made: &[Primitive],
    from: u32,
    namespace: Id,
    key: &Text,
    before: Option<Id>,
) -> Option<Id>
    requires { from + length made.now < 2 ^ 32 }
    ensures { result ≡ last_or before (places_from (is_key_link namespace key.now) from made.now) }
{
    let mut last = before;
    for (i, prim) in made.iter().enumerate() {
        if is_key_link(prim, namespace, key) {
            last = Some(Id(from + i as u32));
        }
    }
    last
}
