//! What is known of the objects of a pickle while it is read: which of them have a name, how deep brackets stand within one another in the
//! source of each, and which ask nothing of anybody as a key.

ghost use Rattle.std.specs.Prelude.{◌≡◌, ◌-◌, ◌+◌, ◌<◌, ◌||◌, not, nat_lt, max, drop, length, get_or, Some};
ghost use Rattle.std.specs.Option.{option_map_or};
ghost use Rattle.std.specs.List.{list_all};
ghost use Rattle.pickle_ops.specs.declared.object.Change.{Change};
ghost use Rattle.pickle_source.specs.Value.{is_value, is_short_value};
ghost use Rattle.pickle_source.specs.Fact.{no_fact, fact_at, over, deepest, change_depth, deepest_in, are_plain, key_is_plain, keys_are_plain, is_held, has_name, plain_by, depth_by, starts_named, fact_of, fits, filled, is_named};

use crate::value::{is_short_value, is_value};
use pickle_ops::{Change, Filling, Kind, ObjId, Object};

/// How many brackets may stand within one another where an object is used. What is deeper has a name.
pub const MOST_DEPTH: u8 = 6;

/// What is known of an object.
#[derive(Clone, Copy, Debug, PartialEq, Eq)]
pub struct Fact {
    /// It has a name, unless it is a plain value: it comes from elsewhere or from a call, or the pickle fetches it again, or no literal says
    /// what is done to it.
    pub named: bool,
    /// How many brackets stand within one another in its literal.
    pub depth: u8,
    /// As a key or a member it asks nothing of anybody.
    pub plain: bool,
}

/// What is known of the object of this number; nothing where there is none.
pub fn fact_at(facts: &[Fact], id: ObjId) -> Fact
    ensures { result ≡ fact_at facts.now id }
{
    match facts.get(id as usize) {
        Some(fact) => *fact,
        None => Fact {
            named: false,
            depth: 0,
            plain: false,
        },
    }
}

/// The depth of what holds an object of this depth: what is deep has a name.
fn over(depth: u8) -> u8
    ensures { result ≡ over depth }
{
    if depth < MOST_DEPTH { depth + 1 } else { 1 }
}

/// The greater of both.
fn greater(one: u8, other: u8) -> u8
    ensures { result ≡ max one other }
{
    if one < other { other } else { one }
}

/// The depth of what holds these objects.
fn deepest(facts: &[Fact], ids: &[ObjId]) -> u8
    ensures { result ≡ deepest facts.now ids.now }
{
    let mut most = 0;
    for id in ids {
        most = greater(most, over(fact_at(facts, *id).depth));
    }
    most
}

/// The depth of what a change goes into.
fn change_depth(facts: &[Fact], change: Change) -> u8
    ensures { result ≡ change_depth facts.now change }
{
    match change {
        Change::Append(id) => over(fact_at(facts, id).depth),
        Change::SetItem(key, value) => greater(
            over(fact_at(facts, key).depth),
            over(fact_at(facts, value).depth),
        ),
        Change::Add(id) => over(fact_at(facts, id).depth),
        Change::Build(id) => over(fact_at(facts, id).depth),
    }
}

/// The depth of what these changes go into.
fn deepest_in(facts: &[Fact], changes: &[Change]) -> u8
    ensures { result ≡ deepest_in facts.now changes.now }
{
    let mut most = 0;
    for change in changes {
        most = greater(most, change_depth(facts, *change));
    }
    most
}

/// Whether all these objects ask nothing of anybody.
fn are_plain(facts: &[Fact], ids: &[ObjId]) -> bool
    ensures { result ≡ are_plain facts.now ids.now }
{
    for id in ids {
        if !fact_at(facts, *id).plain {
            return false;
        }
    }
    true
}

/// Whether what a change makes a key or a member asks nothing of anybody.
fn key_is_plain(facts: &[Fact], change: Change) -> bool
    ensures { result ≡ key_is_plain facts.now change }
{
    match change {
        Change::Append(_) => true,
        Change::SetItem(key, _) => fact_at(facts, key).plain,
        Change::Add(id) => fact_at(facts, id).plain,
        Change::Build(_) => true,
    }
}

/// The same of all these changes.
fn keys_are_plain(facts: &[Fact], changes: &[Change]) -> bool
    ensures { result ≡ keys_are_plain facts.now changes.now }
{
    for change in changes {
        if !key_is_plain(facts, *change) {
            return false;
        }
    }
    true
}

/// Whether an object of this kind has a literal that holds what is in it.
fn is_held(kind: &Kind) -> bool
    ensures { result ≡ is_held kind.now }
{
    matches!(
        kind,
        Kind::Tuple | Kind::List | Kind::Set | Kind::FrozenSet | Kind::Dict | Kind::ByteArray(_)
    )
}

/// Whether an object of this kind has a name, since no literal says what it is: it comes from elsewhere or from a call, is a view, or a value
/// that its line or its bytes do not spell.
fn has_name(kind: &Kind) -> bool
    ensures { result ≡ has_name kind.now }
{
    !is_held(kind) && !is_value(kind)
}

/// Whether an object of this kind with these parts asks nothing of anybody as a key.
fn plain_by(facts: &[Fact], kind: &Kind, parts: &[ObjId]) -> bool
    ensures { result ≡ plain_by facts.now kind.now parts.now }
{
    match kind {
        Kind::Tuple => are_plain(facts, parts),
        Kind::FrozenSet => are_plain(facts, parts),
        _ => is_value(kind),
    }
}

/// The depth of an object of this kind with these parts.
fn depth_by(facts: &[Fact], kind: &Kind, parts: &[ObjId]) -> u8
    ensures { result ≡ depth_by facts.now kind.now parts.now }
{
    if is_held(kind) {
        deepest(facts, parts)
    } else {
        0
    }
}

/// Whether an object of this kind with these parts has a name from the start: so has also what asks its members for something.
fn starts_named(facts: &[Fact], kind: &Kind, parts: &[ObjId]) -> bool
    ensures { result ≡ starts_named facts.now kind.now parts.now }
{
    match kind {
        Kind::FrozenSet => !are_plain(facts, parts),
        Kind::Dict => !are_plain(facts, parts),
        _ => has_name(kind),
    }
}

/// What is known of an object that was just made.
pub(crate) fn fact_of(facts: &[Fact], object: &Object) -> Fact
    ensures { result ≡ fact_of facts.now object.now }
{
    Fact {
        named: starts_named(facts, object.kind(), object.parts()),
        depth: depth_by(facts, object.kind(), object.parts()),
        plain: plain_by(facts, object.kind(), object.parts()),
    }
}

/// Whether the literal of an object of this kind says what was put into it so.
fn fits(filling: Filling, kind: &Kind) -> bool
    ensures { result ≡ fits filling kind.now }
{
    match filling {
        Filling::Append => matches!(kind, Kind::List),
        Filling::SetItem => matches!(kind, Kind::Dict),
        Filling::Add => matches!(kind, Kind::Set),
        Filling::Build => false,
    }
}

/// What is known of an object of this kind after these changes went into it, from what was known before.
pub(crate) fn filled(
    facts: &[Fact],
    filling: Filling,
    kind: &Kind,
    changes: &[Change],
    fact: Fact,
) -> Fact
    ensures { result ≡ filled facts.now filling kind.now changes.now fact }
{
    Fact {
        named: fact.named || !fits(filling, kind) || !keys_are_plain(facts, changes),
        depth: greater(fact.depth, deepest_in(facts, changes)),
        plain: fact.plain,
    }
}

/// Whether the source has a name for an object of this kind, of which this is known when the pickle is read.
pub fn is_named(kind: &Kind, fact: Fact) -> bool
    ensures { result ≡ is_named kind.now fact }
{
    !is_short_value(kind) && (fact.named || fact.depth >= MOST_DEPTH)
}
