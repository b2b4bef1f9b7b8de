//! What an object contains, taken out one by one.

ghost use Rattle.std.specs.Prelude.{◌≡◌, ◌∷◌, [], ◌++◌, MatchOption};
ghost use Rattle.std.specs.List.{flat_map};
ghost use Rattle.object_texts.specs.Show.{change_ids, content};

use pickle_ops::{Change, ObjId, Object};
use std::marker::Model;

/// What is left of the content of an object: a value whose key was taken out, parts, and changes.
#[derive(Drop)]
pub(crate) struct RemainingContent<'a> {
    value: Option<ObjId>,
    parts: &'a [ObjId],
    changes: &'a [Change],
}

impl<'a> Model for RemainingContent<'a> {
    ghost use Rattle.std.specs.Prelude.{ℕ, List, ◌++◌};
    ghost use Rattle.std.specs.Option.{option_to_list};
    ghost use Rattle.std.specs.List.{flat_map};
    ghost use Rattle.object_texts.specs.Show.{change_ids};

    ghost Value = { List ℕ };

    ghost view = { λ c. option_to_list c.value ++ c.parts.now ++ flat_map change_ids c.changes.now };
}

impl<'a> RemainingContent<'a> {
    /// All that an object contains.
    pub(crate) fn of(object: &'a Object) -> RemainingContent<'a>
        ensures { result ≡ content object.now }
    {
        RemainingContent {
            value: None,
            parts: object.parts(),
            changes: object.changes(),
        }
    }

    /// The next object, and what is left after it.
    pub(crate) fn next(&self) -> Option<(ObjId, RemainingContent<'a>)>
        ensures { MatchOption result (self.now ≡ []) (λ p. self.now ≡ p.0 ∷ p.1) }
    {
        let parts = self.parts;
        let changes = self.changes;
        match self.value {
            Some(id) => Some((
                id,
                RemainingContent {
                    value: None,
                    parts,
                    changes,
                },
            )),
            None => next_part(parts, changes),
        }
    }
}

/// The next part, or else the first object of the next change.
fn next_part<'a>(parts: &'a [ObjId], changes: &'a [Change]) -> Option<(ObjId, RemainingContent<'a>)>
    ensures { MatchOption result (parts.now ++ flat_map change_ids changes.now ≡ []) (λ p. parts.now ++ flat_map change_ids changes.now ≡ p.0 ∷ p.1) }
{
    match parts.split_first() {
        Some((first, rest)) => Some((
            *first,
            RemainingContent {
                value: None,
                parts: rest,
                changes,
            },
        )),
        None => next_change(parts, changes),
    }
}

/// The first object of the next change, where no part is left.
fn next_change<'a>(
    parts: &'a [ObjId],
    changes: &'a [Change],
) -> Option<(ObjId, RemainingContent<'a>)>
    requires { parts.now ≡ [] }
    ensures { MatchOption result (flat_map change_ids changes.now ≡ []) (λ p. flat_map change_ids changes.now ≡ p.0 ∷ p.1) }
{
    match changes.split_first() {
        Some((first, rest)) => Some(take_change(*first, parts, rest)),
        None => None,
    }
}

/// The first object of a change, and what is left after it, where no part is left.
fn take_change<'a>(
    change: Change,
    parts: &'a [ObjId],
    rest: &'a [Change],
) -> (ObjId, RemainingContent<'a>)
    requires { parts.now ≡ [] }
    ensures { change_ids change ++ flat_map change_ids rest.now ≡ result.0 ∷ result.1 }
{
    let (id, value) = match change {
        Change::Append(id) => (id, None),
        Change::SetItem(key, value) => (key, Some(value)),
        Change::Add(id) => (id, None),
        Change::Build(id) => (id, None),
    };
    (
        id,
        RemainingContent {
            value,
            parts,
            changes: rest,
        },
    )
}
