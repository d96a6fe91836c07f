//! The language in which a form asks.
ghost use Rattle.std.specs.Prelude.{◌≡◌};
ghost use Rattle.gd_defs.specs.Asked.{no_members};
ghost use Rattle.gd_defs.specs.Asked.Forms as forms;
ghost use Rattle.gd_plan.specs.Asked.{put, members_view};

use crate::asked::{Member, Own};
use gd_resolve::property::Property;

/// Whether a member asks for the language of a text.
fn is_lang(member: &Member) -> bool
    ensures { result ≡ forms.asks_language (put member.now no_members) }
{
    match member {
        Member::Own { own, .. } => matches!(own, Own::Lang),
        Member::Asks { .. } => false,
    }
}

/// Whether a form asks for the language of its texts.
fn asks_language(members: &[Member]) -> bool
    ensures { result ≡ forms.asks_language (members_view members.now) }
{
    for member in members {
        if is_lang(member) {
            return true;
        }
    }
    false
}

/// The property that a form asks: of texts in every language, where it asks for their language. It
/// takes no memory.
pub fn spoken(property: &Property, members: &[Member]) -> Property
    ensures { result ≡ forms.spoken property.now (members_view members.now) }
{
    Property {
        language: if asks_language(members) {
            None
        } else {
            property.language
        },
        ..*property
    }
}
