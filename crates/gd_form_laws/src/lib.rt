//! Laws of the definitions of requests: which fault of form comes first, and how deep forms nest.
//! They stand in `proofs/`. Those of a write are also the contracts of functions that do nothing:
//! whoever calls one may use its law, whose statement stands in `specs/Laws.antt`.
#![tactic(auto)]

ghost use Rattle.gd_form_laws.specs.Laws.{ChangesAreShallow, ConnectsAreSpelled, CreatesLead};
ghost use Rattle.gd_form_laws.specs.Laws.{FactsAreSpelled, FirstEntriesAreRight};
ghost use Rattle.gd_form_laws.specs.Laws.{IdentitiesAreSpelled, ItemsLead, ListsAreSpelled};
ghost use Rattle.gd_form_laws.specs.Laws.{NamesLead, NestedAreSpelled, OtherEntriesAreRight};
ghost use Rattle.gd_form_laws.specs.Laws.{RootsCreate, RootsName};

/// A clause of a write without a fault of form has none in its first member.
pub fn first_entries_are_right()
    ensures { FirstEntriesAreRight }
{}

/// Nor has it one in the others.
pub fn other_entries_are_right()
    ensures { OtherEntriesAreRight }
{}

/// `create` spells its word, in front of what the others spell.
pub fn creates_lead()
    ensures { CreatesLead }
{}

/// Another member spells its name with what it has, in front of what the others spell.
pub fn names_lead()
    ensures { NamesLead }
{}

/// `id` and `guid` have null or the text itself.
pub fn identities_are_spelled()
    ensures { IdentitiesAreSpelled }
{}

/// A form with `connect` is a connect form with its word, its target and its members.
pub fn connects_are_spelled()
    ensures { ConnectsAreSpelled }
{}

/// Another form with `create` is a nested create with its word and what its members spell.
pub fn nested_are_spelled()
    ensures { NestedAreSpelled }
{}

/// Another form is a fact with its target and its members.
pub fn facts_are_spelled()
    ensures { FactsAreSpelled }
{}

/// A list has what its items spell.
pub fn lists_are_spelled()
    ensures { ListsAreSpelled }
{}

/// An item stands in front of what the others spell.
pub fn items_lead()
    ensures { ItemsLead }
{}

/// A write with `create` creates by its word.
pub fn roots_create()
    ensures { RootsCreate }
{}

/// Another write is about the object that the text of `id` names, or else that of `guid`.
pub fn roots_name()
    ensures { RootsName }
{}

/// Forms and lists of a write nest no deeper than the JSON that spells it, the clause itself among
/// them.
pub fn changes_are_shallow()
    ensures { ChangesAreShallow }
{}
