//! Looking into the members of an object.
ghost use Rattle.std.specs.Prelude.{◌≡◌, ◌||◌, ◌∷◌, [], false, is_some, option_map, bytes_eq};
ghost use Rattle.std.specs.List.{list_all};
ghost use Rattle.std.specs.Option.{option_map_or};
ghost use Rattle.gd_tree.specs.Look.{get, only, member_of, members_in};
ghost use Rattle.gd_defs.specs.Change.{text_member, made_of};
ghost use Rattle.gd_json.specs.View.{view, members_view};

use gd_json::value::{Json, JsonText};

/// The value of the member of this name.
pub fn member<'a>(members: &'a [(JsonText, Json)], name: &str) -> Option<&'a Json>
    ensures { option_map (λ part. view part.now) result ≡ get name.now (members_view members.now) }
{
    for member in members {
        if name == member.0.as_str() {
            return Some(&member.1);
        }
    }
    None
}

/// Whether there is a member of this name.
pub fn has(members: &[(JsonText, Json)], name: &str) -> bool
    ensures { result ≡ is_some (get name.now (members_view members.now)) }
{
    member(members, name).is_some()
}

/// The text that the member of this name has.
pub fn text_of<'a>(members: &'a [(JsonText, Json)], name: &str) -> Option<&'a JsonText>
    ensures { option_map (λ text. text.now) result
        ≡ text_member name.now (members_view members.now) }
{
    member(members, name)?.as_text()
}

fn all_among(members: &[(JsonText, Json)], a: &str, b: &str, c: &str, d: &str) -> bool
    ensures { result ≡ list_all (λ member. bytes_eq member.0 a.now
        || (bytes_eq member.0 b.now || (bytes_eq member.0 c.now || bytes_eq member.0 d.now)))
        members.now }
{
    members
        .iter()
        .all(|member| is_among(member.0.as_str(), a, b, c, d))
}

/// Whether the name is one of these two.
pub fn is_either(name: &str, a: &str, b: &str) -> bool
    ensures { result ≡ (bytes_eq name.now a.now || bytes_eq name.now b.now) }
{
    name == a || name == b
}

fn is_among(name: &str, a: &str, b: &str, c: &str, d: &str) -> bool
    ensures { result ≡ (bytes_eq name.now a.now
        || (bytes_eq name.now b.now || (bytes_eq name.now c.now || bytes_eq name.now d.now))) }
{
    if is_either(name, a, b) {
        return true;
    }
    is_either(name, c, d)
}

/// Whether there are no members but of these names.
pub fn only_of(members: &[(JsonText, Json)], a: &str, b: &str, c: &str, d: &str) -> bool
    ensures { result ≡ only (a.now ∷ b.now ∷ c.now ∷ d.now ∷ []) (members_view members.now) }
{
    all_among(members, a, b, c, d)
}

/// Whether this is the only member.
pub fn is_made_of_one(members: &[(JsonText, Json)], a: &str) -> bool
    ensures { result ≡ made_of (a.now ∷ []) [] (members_view members.now) }
{
    has(members, a) && only_of(members, a, a, a, a)
}

/// Whether these two are the members.
pub fn is_made_of_two(members: &[(JsonText, Json)], a: &str, b: &str) -> bool
    ensures { result ≡ made_of (a.now ∷ b.now ∷ []) [] (members_view members.now) }
{
    has(members, a) && has(members, b) && only_of(members, a, b, b, b)
}

/// Whether these two are the members, and besides at most one more.
pub fn is_made_of_two_or(members: &[(JsonText, Json)], a: &str, b: &str, more: &str) -> bool
    ensures { result ≡ made_of (a.now ∷ b.now ∷ []) (more.now ∷ []) (members_view members.now) }
{
    has(members, a) && has(members, b) && only_of(members, a, b, more, more)
}

/// Whether these two are the members, and besides at most two more.
pub fn is_made_of_two_or_both(
    members: &[(JsonText, Json)],
    a: &str,
    b: &str,
    more: &str,
    other: &str,
) -> bool
    ensures { result ≡ made_of (a.now ∷ b.now ∷ []) (more.now ∷ other.now ∷ [])
        (members_view members.now) }
{
    has(members, a) && has(members, b) && only_of(members, a, b, more, other)
}

/// Whether these three are the members, and besides at most one more.
pub fn is_made_of_three_or(
    members: &[(JsonText, Json)],
    a: &str,
    b: &str,
    c: &str,
    more: &str,
) -> bool
    ensures { result ≡ made_of (a.now ∷ b.now ∷ c.now ∷ []) (more.now ∷ [])
        (members_view members.now) }
{
    has(members, a) && has(members, b) && has(members, c) && only_of(members, a, b, c, more)
}

/// Whether the name of each member is one of these two.
fn all_named(members: &[(JsonText, Json)], first: &str, second: &str) -> bool
    ensures { result ≡ list_all (λ member. bytes_eq member.0 first.now
        || bytes_eq member.0 second.now) members.now }
{
    members
        .iter()
        .all(|member| is_either(member.0.as_str(), first, second))
}

/// Whether the value is an object that has no members but of these two names.
pub(crate) fn has_only(value: &Json, first: &str, second: &str) -> bool
    ensures { result ≡ option_map_or (only (first.now ∷ second.now ∷ []))
        (members_in (view value.now)) false }
{
    match value.as_object() {
        Some(members) => all_named(members, first, second),
        None => false,
    }
}

/// The value of the member of this name, taken out of its object.
pub fn take(value: Json, name: &str) -> Option<Json>
    ensures { option_map (λ part. view part) result ≡ member_of name.now (view value) }
{
    match value {
        Json::Object(members) => take_member(members, name),
        _ => None,
    }
}

fn take_member(members: Vec<(JsonText, Json)>, name: &str) -> Option<Json>
    ensures { option_map (λ part. view part) result ≡ get name.now (members_view members.items) }
{
    for (key, value) in members {
        if name == key.as_str() {
            return Some(value);
        }
    }
    None
}
