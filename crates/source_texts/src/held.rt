//! Literals of containers, by the expressions of what they hold.

ghost use Rattle.std.specs.Prelude.{◌≡◌, [], ◌∷◌};
ghost use Rattle.std.specs.Option.{option_map};
ghost use Rattle.source_texts.specs.Inside.Pairs.{first_pair, pair_view};
ghost use Rattle.pickle_io.specs.Text.{◌⧺◌};
ghost use Rattle.pickle_io.specs.Device.{Writes, each};
ghost use Rattle.pickle_calls.specs.Event.{part};
ghost use Rattle.source_texts.specs.Held.{frozen_word, view_word, next_part, then_part, some_parts, parts_text, pair_text, change_text, next_change, some_changes, changes_text, then_pair, pairs_text, tuple_end, tuple_text, list_text, dict_text, some_set, set_text, some_frozen, frozen_text, view_end, view_text, held_text};

use crate::expression::Say;
use crate::literals::Literals;
use pickle_calls::part_at;
use pickle_io::{Failed, Page, write_all};
use pickle_ops::{Change, Kind, ObjId};

/// Writes a part after a comma.
fn write_next_part<P: Say, S: Page>(inner: &P, id: ObjId, page: &mut S) -> Result<(), Failed>
    ensures { Writes (S.told page.old) (S.told page.new) result (next_part (P.says inner.now) id) }
{
    write_all(page, b", ")?;
    inner.say(id, page)
}

/// Writes parts, each after a comma.
#[tactic(auto, using(pickle_io::proofs::Devices::each_steps))]
pub(crate) fn write_next_parts<P: Say, S: Page>(
    inner: &P,
    ids: &[ObjId],
    page: &mut S,
) -> Result<(), Failed>
    ensures { Writes (S.told page.old) (S.told page.new) result (each (next_part (P.says inner.now)) ids.now) }
{
    for id in ids {
        write_next_part(inner, *id, page)?;
    }
    Ok(())
}

/// Writes a part before a comma.
pub(crate) fn write_part_then<P: Say, S: Page>(
    inner: &P,
    id: ObjId,
    page: &mut S,
) -> Result<(), Failed>
    ensures { Writes (S.told page.old) (S.told page.new) result (then_part (P.says inner.now) id) }
{
    inner.say(id, page)?;
    write_all(page, b", ")
}

/// Writes parts, each before a comma.
#[tactic(auto, using(pickle_io::proofs::Devices::each_steps))]
fn write_parts_then<P: Say, S: Page>(inner: &P, ids: &[ObjId], page: &mut S) -> Result<(), Failed>
    ensures { Writes (S.told page.old) (S.told page.new) result (each (then_part (P.says inner.now)) ids.now) }
{
    for id in ids {
        write_part_then(inner, *id, page)?;
    }
    Ok(())
}

/// Writes a part, and others after it.
#[tactic(auto, using(pickle_io::proofs::Devices::text_steps), unfolding(crate::specs::Held::some_parts))]
fn write_some_parts<P: Say, S: Page>(
    inner: &P,
    first: ObjId,
    rest: &[ObjId],
    page: &mut S,
) -> Result<(), Failed>
    ensures { Writes (S.told page.old) (S.told page.new) result (some_parts (P.says inner.now) first rest.now) }
{
    inner.say(first, page)?;
    write_next_parts(inner, rest, page)
}

/// Writes parts with commas between them. `Failed` where the sink fails; a beginning of the text was written then.
#[tactic(auto, using(pickle_io::proofs::Devices::text_steps))]
pub(crate) fn write_parts<P: Say, S: Page>(
    inner: &P,
    ids: &[ObjId],
    page: &mut S,
) -> Result<(), Failed>
    ensures { Writes (S.told page.old) (S.told page.new) result (parts_text (P.says inner.now) ids.now) }
{
    match ids.split_first() {
        None => Ok(()),
        Some((first, rest)) => write_some_parts(inner, *first, rest, page),
    }
}

/// Writes a key and its value.
fn write_pair<P: Say, S: Page>(
    inner: &P,
    key: ObjId,
    value: ObjId,
    page: &mut S,
) -> Result<(), Failed>
    ensures { Writes (S.told page.old) (S.told page.new) result (pair_text (P.says inner.now) key value) }
{
    inner.say(key, page)?;
    write_all(page, b": ")?;
    inner.say(value, page)
}

/// Writes what a change put into a container.
#[tactic(auto, unfolding(crate::specs::Held::change_text))]
fn write_change<P: Say, S: Page>(inner: &P, change: Change, page: &mut S) -> Result<(), Failed>
    ensures { Writes (S.told page.old) (S.told page.new) result (change_text (P.says inner.now) change) }
{
    match change {
        Change::Append(id) => inner.say(id, page),
        Change::SetItem(key, value) => write_pair(inner, key, value, page),
        Change::Add(id) => inner.say(id, page),
        Change::Build(id) => inner.say(id, page),
    }
}

/// Writes it after a comma.
fn write_next_change<P: Say, S: Page>(inner: &P, change: Change, page: &mut S) -> Result<(), Failed>
    ensures { Writes (S.told page.old) (S.told page.new) result (next_change (P.says inner.now) change) }
{
    write_all(page, b", ")?;
    write_change(inner, change, page)
}

/// Writes what changes put into a container, each after a comma.
#[tactic(auto, using(pickle_io::proofs::Devices::each_steps))]
fn write_next_changes<P: Say, S: Page>(
    inner: &P,
    changes: &[Change],
    page: &mut S,
) -> Result<(), Failed>
    ensures { Writes (S.told page.old) (S.told page.new) result (each (next_change (P.says inner.now)) changes.now) }
{
    for change in changes {
        write_next_change(inner, *change, page)?;
    }
    Ok(())
}

/// Writes what a change put into a container, and what others did after it.
fn write_some_changes<P: Say, S: Page>(
    inner: &P,
    first: Change,
    rest: &[Change],
    page: &mut S,
) -> Result<(), Failed>
    ensures { Writes (S.told page.old) (S.told page.new) result (some_changes (P.says inner.now) first rest.now) }
{
    write_change(inner, first, page)?;
    write_next_changes(inner, rest, page)
}

/// Writes what changes put into a container, with commas between them. `Failed` where the sink fails; a beginning of the text was written
/// then.
#[tactic(auto, using(pickle_io::proofs::Devices::text_steps))]
pub(crate) fn write_changes<P: Say, S: Page>(
    inner: &P,
    changes: &[Change],
    page: &mut S,
) -> Result<(), Failed>
    ensures { Writes (S.told page.old) (S.told page.new) result (changes_text (P.says inner.now) changes.now) }
{
    match changes.split_first() {
        None => Ok(()),
        Some((first, rest)) => write_some_changes(inner, *first, rest, page),
    }
}

/// Writes a key and its value before a comma.
fn write_pair_then<P: Say, S: Page>(
    inner: &P,
    key: ObjId,
    value: ObjId,
    page: &mut S,
) -> Result<(), Failed>
    ensures { Writes (S.told page.old) (S.told page.new) result (then_pair (P.says inner.now) key value) }
{
    write_pair(inner, key, value, page)?;
    write_all(page, b", ")
}

/// A key, its value, and the keys and values after them.
#[derive(Clone, Copy)]
struct Pair<'a> {
    key: ObjId,
    value: ObjId,
    rest: &'a [ObjId],
}

/// The first key with its value.
fn first_pair(parts: &[ObjId]) -> Option<Pair<'_>>
    ensures { option_map pair_view result ≡ first_pair parts.now }
{
    let Some((key, values)) = parts.split_first() else {
        return None;
    };
    let Some((value, rest)) = values.split_first() else {
        return None;
    };
    Some(Pair {
        key: *key,
        value: *value,
        rest,
    })
}

/// Writes keys and values in turn as pairs, each before a comma.
#[tactic(auto, using(crate::proofs::Pairs::pair_rules))]
fn write_pairs_then<P: Say, S: Page>(inner: &P, parts: &[ObjId], page: &mut S) -> Result<(), Failed>
    ensures { Writes (S.told page.old) (S.told page.new) result (pairs_text (P.says inner.now) parts.now) }
{
    let mut rest = parts;
    'pairs: loop {
        match first_pair(rest) {
            Some(pair) => {
                write_pair_then(inner, pair.key, pair.value, page)?;
                rest = pair.rest;
            }
            None => return Ok(()),
        }
    }
}

/// Writes the bracket that ends a tuple: of one item, a comma before it.
fn write_tuple_end<S: Page>(count: usize, page: &mut S) -> Result<(), Failed>
    ensures { Writes (S.told page.old) (S.told page.new) result (tuple_end count) }
{
    if count == 1 {
        write_all(page, b",)")
    } else {
        write_all(page, b")")
    }
}

/// Writes a tuple.
fn write_tuple<P: Say, S: Page>(inner: &P, parts: &[ObjId], page: &mut S) -> Result<(), Failed>
    ensures { Writes (S.told page.old) (S.told page.new) result (tuple_text (P.says inner.now) parts.now) }
{
    write_all(page, b"(")?;
    write_parts(inner, parts, page)?;
    write_tuple_end(parts.len(), page)
}

/// Writes a list.
fn write_list<P: Say, S: Page>(
    inner: &P,
    parts: &[ObjId],
    changes: &[Change],
    page: &mut S,
) -> Result<(), Failed>
    ensures { Writes (S.told page.old) (S.told page.new) result (list_text (P.says inner.now) parts.now changes.now) }
{
    write_all(page, b"[")?;
    write_parts_then(inner, parts, page)?;
    write_changes(inner, changes, page)?;
    write_all(page, b"]")
}

/// Writes a dictionary.
fn write_dict<P: Say, S: Page>(
    inner: &P,
    parts: &[ObjId],
    changes: &[Change],
    page: &mut S,
) -> Result<(), Failed>
    ensures { Writes (S.told page.old) (S.told page.new) result (dict_text (P.says inner.now) parts.now changes.now) }
{
    write_all(page, b"{")?;
    write_pairs_then(inner, parts, page)?;
    write_changes(inner, changes, page)?;
    write_all(page, b"}")
}

/// Writes a set with members.
fn write_some_set<P: Say, S: Page>(
    inner: &P,
    changes: &[Change],
    page: &mut S,
) -> Result<(), Failed>
    ensures { Writes (S.told page.old) (S.told page.new) result (some_set (P.says inner.now) changes.now) }
{
    write_all(page, b"{")?;
    write_changes(inner, changes, page)?;
    write_all(page, b"}")
}

/// Writes a set.
#[tactic(auto, unfolding(crate::specs::Held::set_text))]
fn write_set<P: Say, S: Page>(inner: &P, changes: &[Change], page: &mut S) -> Result<(), Failed>
    ensures { Writes (S.told page.old) (S.told page.new) result (set_text (P.says inner.now) changes.now) }
{
    if changes.is_empty() {
        write_all(page, b"set()")
    } else {
        write_some_set(inner, changes, page)
    }
}

/// Words of a frozen set.
#[tactic(auto, unfolding(crate::specs::Held::frozen_word))]
fn words_of_frozen() -> &'static str
    ensures { result.now ≡ frozen_word }
{
    "frozenset({"
}

/// Writes a frozen set with members.
fn write_some_frozen<P: Say, S: Page>(
    inner: &P,
    parts: &[ObjId],
    page: &mut S,
) -> Result<(), Failed>
    ensures { Writes (S.told page.old) (S.told page.new) result (some_frozen (P.says inner.now) parts.now) }
{
    write_all(page, words_of_frozen().as_bytes())?;
    write_parts(inner, parts, page)?;
    write_all(page, b"})")
}

/// Writes a frozen set.
#[tactic(auto, unfolding(crate::specs::Held::frozen_text))]
fn write_frozen<P: Say, S: Page>(inner: &P, parts: &[ObjId], page: &mut S) -> Result<(), Failed>
    ensures { Writes (S.told page.old) (S.told page.new) result (frozen_text (P.says inner.now) parts.now) }
{
    if parts.is_empty() {
        write_all(page, b"frozenset()")
    } else {
        write_some_frozen(inner, parts, page)
    }
}

/// Words of a view.
#[tactic(auto, unfolding(crate::specs::Held::view_end))]
fn words_of_view_end() -> &'static str
    ensures { result.now ≡ view_end }
{
    ").toreadonly()"
}

/// Words of a view.
#[tactic(auto, unfolding(crate::specs::Held::view_word))]
fn words_of_view() -> &'static str
    ensures { result.now ≡ view_word }
{
    "memoryview("
}

/// Writes a view that cannot be written to.
#[tactic(auto, using(pickle_io::proofs::Devices::text_steps), unfolding(crate::specs::Held::view_text))]
pub(crate) fn write_view<P: Say, S: Page>(inner: &P, id: ObjId, page: &mut S) -> Result<(), Failed>
    ensures { Writes (S.told page.old) (S.told page.new) result (view_text (P.says inner.now) id) }
{
    write_all(page, words_of_view().as_bytes())?;
    inner.say(id, page)?;
    write_all(page, words_of_view_end().as_bytes())
}

/// Writes the literal of an object of this kind with these parts, into which these changes put something. `Failed` where the sink fails; a
/// beginning of the literal was written then.
#[tactic(auto, unfolding(crate::specs::Held::held_text))]
pub(crate) fn write_held<L: Literals, P: Say, S: Page>(
    literals: &L,
    inner: &P,
    kind: &Kind,
    parts: &[ObjId],
    changes: &[Change],
    page: &mut S,
) -> Result<(), Failed>
    ensures { Writes (S.told page.old) (S.told page.new) result (held_text (L.value literals.now) (P.says inner.now) kind.now parts.now changes.now) }
{
    match kind {
        Kind::Tuple => write_tuple(inner, parts, page),
        Kind::List => write_list(inner, parts, changes, page),
        Kind::Dict => write_dict(inner, parts, changes, page),
        Kind::Set => write_set(inner, changes, page),
        Kind::FrozenSet => write_frozen(inner, parts, page),
        Kind::ReadOnly => write_view(inner, part_at(0, parts), page),
        _ => literals.write_value(kind, page),
    }
}
