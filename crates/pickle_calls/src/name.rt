//! The names of objects.

ghost use Rattle.std.specs.Prelude.{◌≡◌, ◌&&◌, IfSome, None, Some};
ghost use Rattle.std.specs.Option.{option_map, option_map_or};
ghost use Rattle.pickle_io.specs.Device.{Writes};
ghost use Rattle.pickle_io.specs.Text.{◌⧺◌};
ghost use Rattle.pickle_names.specs.Renamed.{import_of};
ghost use Rattle.pickle_ops.specs.KindRef.{kind_view};
ghost use Rattle.pickle_calls.specs.Brief.{kind_name, name_text};
ghost use Rattle.pickle_calls.specs.Naming.{inner, spelled_of, spelled_at, said_text, pair_text, is_text, said_names, short_of, may_be_name, by_both, renamed_by, pair_renamed, member_text, import_text, import_for, renamed_text, now_text, known_text, names_by, names_from, names_text, global_pair, inst_pair, stack_pair, spelled_view, pair_view, new_view, is_as_said};

use crate::event::part;
use crate::naming::Naming;
use arrayvec::ArrayVec;
use pickle_io::{Failed, Page, write_all, write_quoted};
use pickle_machine::Inspect;
use pickle_names::{
    Coding, NewNames, is_plain_name, module_renamed, read, renamed, short_value, write_text,
};
use pickle_ops::{KindRef, ObjId};
use pickle_text::{write_id, write_with_signed};

/// A text as it is in a pickle.
#[derive(Clone, Copy)]
pub struct SpelledText<'a> {
    /// How its bytes are read.
    pub coding: Coding,
    /// Its bytes.
    pub bytes: &'a [u8],
}

/// The names of a module and of a member: texts, or else the objects that they are.
#[derive(Clone, Copy)]
pub struct NamePair<'a> {
    /// The module.
    pub from: Option<SpelledText<'a>>,
    /// The object that it is.
    pub from_id: ObjId,
    /// The member.
    pub name: Option<SpelledText<'a>>,
    /// The object that it is.
    pub name_id: ObjId,
}

/// What is imported for names of Python 2: from which module, and which member of it, or the one that the names say.
#[derive(Clone, Copy)]
pub struct Imported<'a> {
    /// The module.
    pub from: &'a [u8],
    /// The member, if it has another name.
    pub name: Option<&'a [u8]>,
}

/// What is between the quotes of a line.
pub fn inner(line: &[u8]) -> &[u8]
    ensures { result.now ≡ inner line.now }
{
    match line.split_first() {
        None => line,
        Some((_, rest)) => &rest[..line.len().saturating_sub(2)],
    }
}

/// An object of this kind, if it is a text.
fn spelled_of<'a>(kind: KindRef<'a>) -> Option<SpelledText<'a>>
    ensures { option_map spelled_view result ≡ spelled_of (kind_view kind.entry) }
{
    match kind {
        KindRef::Text(text) => Some(SpelledText {
            coding: Coding::AnyUtf8,
            bytes: text,
        }),
        KindRef::TextLine(text) => Some(SpelledText {
            coding: Coding::RawEscape,
            bytes: text,
        }),
        KindRef::LegacyString(text) => Some(SpelledText {
            coding: Coding::Ascii,
            bytes: text,
        }),
        KindRef::LegacyLine(text) => Some(SpelledText {
            coding: Coding::StringEscape,
            bytes: inner(text),
        }),
        _ => None,
    }
}

/// The object of this number, if it is a text.
#[tactic(auto, using(crate::proofs::Looks::look_rules))]
fn spelled_at<'a, M: Inspect>(machine: &'a M, id: ObjId) -> Option<SpelledText<'a>>
    ensures { option_map spelled_view result ≡ spelled_at (M.state machine.now).heap id }
{
    match machine.look(id) {
        Some(look) => spelled_of(look.kind),
        None => None,
    }
}

/// The names of GLOBAL.
pub fn global_pair<'a>(first: &'a [u8], second: &'a [u8]) -> NamePair<'a>
    ensures { pair_view result ≡ global_pair first.now second.now }
{
    NamePair {
        from: Some(SpelledText {
            coding: Coding::Utf8,
            bytes: first,
        }),
        from_id: 0,
        name: Some(SpelledText {
            coding: Coding::Utf8,
            bytes: second,
        }),
        name_id: 0,
    }
}

/// The names of INST.
pub fn inst_pair<'a>(first: &'a [u8], second: &'a [u8]) -> NamePair<'a>
    ensures { pair_view result ≡ inst_pair first.now second.now }
{
    NamePair {
        from: Some(SpelledText {
            coding: Coding::Ascii,
            bytes: first,
        }),
        from_id: 0,
        name: Some(SpelledText {
            coding: Coding::Ascii,
            bytes: second,
        }),
        name_id: 0,
    }
}

/// The names of STACK_GLOBAL, which are its parts.
pub fn stack_pair<'a, M: Inspect>(machine: &'a M, parts: &[ObjId]) -> NamePair<'a>
    ensures { pair_view result ≡ stack_pair (M.state machine.now).heap parts.now }
{
    let from = part(0, parts);
    let name = part(1, parts);
    NamePair {
        from: spelled_at(machine, from),
        from_id: from,
        name: spelled_at(machine, name),
        name_id: name,
    }
}

/// Writes a name by its value, or by its number.
#[tactic(auto, unfolding(crate::specs::Naming::said_text))]
fn write_said<S: Page>(
    spelled: Option<SpelledText<'_>>,
    id: ObjId,
    page: &mut S,
) -> Result<(), Failed>
    ensures { Writes (S.told page.old) (S.told page.new) result (said_text (option_map spelled_view spelled.entry) id) }
{
    match spelled {
        Some(text) => write_text(text.coding, text.bytes, page),
        None => write_id(u64::from(id), page),
    }
}

/// Writes both names as they are said.
fn write_pair<S: Page>(pair: NamePair<'_>, page: &mut S) -> Result<(), Failed>
    ensures { Writes (S.told page.old) (S.told page.new) result (pair_text (pair_view pair.entry)) }
{
    write_said(pair.from, pair.from_id, page)?;
    write_all(page, b" ")?;
    write_said(pair.name, pair.name_id, page)
}

/// Whether both names are texts.
fn are_texts(pair: NamePair<'_>) -> bool
    ensures { result ≡ (is_text (pair_view pair.entry).from && is_text (pair_view pair.entry).name) }
{
    pair.from.is_some() && pair.name.is_some()
}

/// Writes both names as they are said; where one of them is no text, of what was imported as an object its number.
fn write_said_names<S: Page>(
    object: Option<ObjId>,
    pair: NamePair<'_>,
    page: &mut S,
) -> Result<(), Failed>
    ensures { Writes (S.told page.old) (S.told page.new) result (said_names object (pair_view pair.entry)) }
{
    match object {
        None => write_pair(pair, page),
        Some(id) => {
            if are_texts(pair) {
                write_pair(pair, page)
            } else {
                write_id(u64::from(id), page)
            }
        }
    }
}

/// The value of a name, if it is a short text.
pub fn short_of(spelled: Option<SpelledText<'_>>) -> Option<ArrayVec<u8, 32>>
    ensures { option_map (λ v. v.items) result ≡ short_of (option_map spelled_view spelled.entry) }
{
    match spelled {
        Some(text) => short_value(text.coding, text.bytes),
        None => None,
    }
}

/// A name that needs no decoding.
fn plain_of<'a>(spelled: Option<SpelledText<'a>>) -> Option<&'a [u8]>
    ensures { IfSome result (λ v. short_of (option_map spelled_view spelled.entry) ≡ Some v.now) }
{
    match spelled {
        Some(text) => {
            if is_plain_name(text.bytes) {
                Some(text.bytes)
            } else {
                None
            }
        }
        None => None,
    }
}

/// Whether a name is a text that can be read, or no text, which is a name by the time that it is looked up.
pub fn may_be_name(spelled: Option<SpelledText<'_>>) -> bool
    ensures { result ≡ may_be_name (option_map spelled_view spelled.entry) }
{
    match spelled {
        Some(text) => read(text.coding, text.bytes.len(), text.bytes).good,
        None => true,
    }
}

/// What is imported where both names have a row.
pub fn by_both<'a>(new: Option<NewNames<'a>>) -> Option<Imported<'a>>
    ensures { option_map new_view result ≡ option_map by_both (option_map import_of new.entry) }
{
    match new {
        Some(new) => Some(Imported {
            from: new.from,
            name: Some(new.name),
        }),
        None => None,
    }
}

/// What is imported where only the module may have a row.
pub fn by_module(from: &[u8], named: bool) -> Option<Imported<'static>>
    ensures { option_map new_view result ≡ renamed_by (Some from.now) None named }
{
    if !named {
        return None;
    }
    match module_renamed(from) {
        Some(from) => Some(Imported { from, name: None }),
        None => None,
    }
}

/// Writes the member that is imported.
fn write_member<S: Page>(
    name: Option<&[u8]>,
    pair: NamePair<'_>,
    page: &mut S,
) -> Result<(), Failed>
    ensures { Writes (S.told page.old) (S.told page.new) result (member_text (option_map (λ n. n.now) name.entry) (pair_view pair.entry)) }
{
    match name {
        Some(name) => write_quoted(name, page),
        None => write_said(pair.name, pair.name_id, page),
    }
}

/// Writes what is imported.
fn write_import<S: Page>(new: Imported<'_>, pair: NamePair<'_>, page: &mut S) -> Result<(), Failed>
    ensures { Writes (S.told page.old) (S.told page.new) result (import_text (new_view new.entry) (pair_view pair.entry)) }
{
    write_quoted(new.from, page)?;
    write_all(page, b" ")?;
    write_member(new.name, pair, page)
}

/// Writes what is imported, and for which names.
fn write_import_for<S: Page>(
    new: Imported<'_>,
    pair: NamePair<'_>,
    page: &mut S,
) -> Result<(), Failed>
    ensures { Writes (S.told page.old) (S.told page.new) result (import_for (new_view new.entry) (pair_view pair.entry)) }
{
    write_import(new, pair, page)?;
    write_all(page, b" for ")?;
    write_pair(pair, page)
}

/// Writes what was imported as an object of that number: what it is, or what its names say.
fn write_known<S: Page>(
    old: bool,
    id: ObjId,
    new: Imported<'_>,
    pair: NamePair<'_>,
    page: &mut S,
) -> Result<(), Failed>
    ensures { Writes (S.told page.old) (S.told page.new) result (known_text old id (new_view new.entry) (pair_view pair.entry)) }
{
    if old {
        write_import(new, pair, page)
    } else {
        write_said_names(Some(id), pair, page)
    }
}

/// Writes what is imported now: what it is and for which names, or what these say.
fn write_now<S: Page>(
    old: bool,
    new: Imported<'_>,
    pair: NamePair<'_>,
    page: &mut S,
) -> Result<(), Failed>
    ensures { Writes (S.told page.old) (S.told page.new) result (now_text old (new_view new.entry) (pair_view pair.entry)) }
{
    if old {
        write_import_for(new, pair, page)
    } else {
        write_pair(pair, page)
    }
}

/// Writes names that have a row.
fn write_renamed<S: Page>(
    naming: Naming,
    object: Option<ObjId>,
    new: Imported<'_>,
    pair: NamePair<'_>,
    page: &mut S,
) -> Result<(), Failed>
    ensures { Writes (S.told page.old) (S.told page.new) result (renamed_text naming object (new_view new.entry) (pair_view pair.entry)) }
{
    match object {
        None => write_now(naming.old, new, pair, page),
        Some(id) => {
            if naming.since <= id && pair.name.is_some() {
                write_known(naming.old, id, new, pair, page)
            } else {
                write_id(u64::from(id), page)
            }
        }
    }
}

/// Writes names that may have a row.
fn write_names_by<S: Page>(
    naming: Naming,
    object: Option<ObjId>,
    new: Option<Imported<'_>>,
    pair: NamePair<'_>,
    page: &mut S,
) -> Result<(), Failed>
    ensures { Writes (S.told page.old) (S.told page.new) result (names_by naming object (option_map new_view new.entry) (pair_view pair.entry)) }
{
    match new {
        Some(new) => write_renamed(naming, object, new, pair, page),
        None => write_said_names(object, pair, page),
    }
}

/// Writes names of which the module has this value, and the member is decoded.
fn write_decoded_of<S: Page>(
    naming: Naming,
    object: Option<ObjId>,
    from: &[u8],
    pair: NamePair<'_>,
    page: &mut S,
) -> Result<(), Failed>
    ensures { Writes (S.told page.old) (S.told page.new) result (names_from naming object from.now (pair_view pair.entry)) }
{
    match short_of(pair.name) {
        Some(name) => {
            let new = by_both(renamed(from, name.as_slice()));
            write_names_by(naming, object, new, pair, page)
        }
        None => {
            let new = by_module(from, may_be_name(pair.name));
            write_names_by(naming, object, new, pair, page)
        }
    }
}

/// Writes names of which the module has this value.
fn write_names_of<S: Page>(
    naming: Naming,
    object: Option<ObjId>,
    from: &[u8],
    pair: NamePair<'_>,
    page: &mut S,
) -> Result<(), Failed>
    ensures { Writes (S.told page.old) (S.told page.new) result (names_from naming object from.now (pair_view pair.entry)) }
{
    match plain_of(pair.name) {
        Some(name) => write_names_by(naming, object, by_both(renamed(from, name)), pair, page),
        None => write_decoded_of(naming, object, from, pair, page),
    }
}

/// Writes names by their rows, if they have one, of which the module is decoded.
#[tactic(auto, unfolding(crate::specs::Naming::names_text, crate::specs::Naming::pair_renamed))]
fn write_decoded<S: Page>(
    naming: Naming,
    object: Option<ObjId>,
    pair: NamePair<'_>,
    page: &mut S,
) -> Result<(), Failed>
    ensures { Writes (S.told page.old) (S.told page.new) result (names_text naming object (pair_view pair.entry)) }
{
    match short_of(pair.from) {
        Some(from) => write_names_of(naming, object, from.as_slice(), pair, page),
        None => write_said_names(object, pair, page),
    }
}

/// Writes names by their rows, if they have one.
#[tactic(auto, unfolding(crate::specs::Naming::names_text, crate::specs::Naming::pair_renamed))]
fn write_names_by_rows<S: Page>(
    naming: Naming,
    object: Option<ObjId>,
    pair: NamePair<'_>,
    page: &mut S,
) -> Result<(), Failed>
    ensures { Writes (S.told page.old) (S.told page.new) result (names_text naming object (pair_view pair.entry)) }
{
    match plain_of(pair.from) {
        Some(from) => write_names_of(naming, object, from, pair, page),
        None => write_decoded(naming, object, pair, page),
    }
}

/// Whether names are what they say, whatever rows there are.
fn is_as_said(naming: Naming, object: Option<ObjId>) -> bool
    ensures { result ≡ is_as_said naming object }
{
    match object {
        None => !naming.old,
        Some(id) => !naming.old && naming.since <= id,
    }
}

/// Writes the names of what is imported now, or was as this object.
#[tactic(auto, using(crate::proofs::Namings::as_said))]
fn write_names<S: Page>(
    naming: Naming,
    object: Option<ObjId>,
    pair: NamePair<'_>,
    page: &mut S,
) -> Result<(), Failed>
    ensures { Writes (S.told page.old) (S.told page.new) result (names_text naming object (pair_view pair.entry)) }
{
    if is_as_said(naming, object) {
        write_said_names(object, pair, page)
    } else {
        write_names_by_rows(naming, object, pair, page)
    }
}

/// Writes such names after a keyword.
pub fn write_names_after<S: Page>(
    keyword: &[u8],
    naming: Naming,
    object: Option<ObjId>,
    pair: NamePair<'_>,
    page: &mut S,
) -> Result<(), Failed>
    ensures { Writes (S.told page.old) (S.told page.new) result (keyword.now ⧺ names_text naming object (pair_view pair.entry)) }
{
    write_all(page, keyword)?;
    write_names(naming, object, pair, page)
}

/// Writes the names of GLOBAL after a keyword.
pub fn write_global_after<S: Page>(
    keyword: &[u8],
    naming: Naming,
    object: Option<ObjId>,
    first: &[u8],
    second: &[u8],
    page: &mut S,
) -> Result<(), Failed>
    ensures { Writes (S.told page.old) (S.told page.new) result (keyword.now ⧺ names_text naming object (global_pair first.now second.now)) }
{
    write_names_after(keyword, naming, object, global_pair(first, second), page)
}

/// Writes the names of STACK_GLOBAL after a keyword.
pub fn write_stack_after<M: Inspect, S: Page>(
    keyword: &[u8],
    naming: Naming,
    object: Option<ObjId>,
    machine: &M,
    parts: &[ObjId],
    page: &mut S,
) -> Result<(), Failed>
    ensures { Writes (S.told page.old) (S.told page.new) result (keyword.now ⧺ names_text naming object (stack_pair (M.state machine.now).heap parts.now)) }
{
    write_names_after(keyword, naming, object, stack_pair(machine, parts), page)
}

/// Writes the names of GLOBAL.
fn write_global<S: Page>(
    naming: Naming,
    id: ObjId,
    first: &[u8],
    second: &[u8],
    page: &mut S,
) -> Result<(), Failed>
    ensures { Writes (S.told page.old) (S.told page.new) result (names_text naming (Some id) (global_pair first.now second.now)) }
{
    write_names(naming, Some(id), global_pair(first, second), page)
}

/// Writes the names of STACK_GLOBAL.
fn write_stack<M: Inspect, S: Page>(
    naming: Naming,
    id: ObjId,
    machine: &M,
    parts: &[ObjId],
    page: &mut S,
) -> Result<(), Failed>
    ensures { Writes (S.told page.old) (S.told page.new) result (names_text naming (Some id) (stack_pair (M.state machine.now).heap parts.now)) }
{
    write_names(naming, Some(id), stack_pair(machine, parts), page)
}

/// Writes the name of an object of this kind with these parts.
#[tactic(auto, unfolding(crate::specs::Brief::kind_name, pickle_text::specs::Words::kind_text))]
fn write_kind_name<M: Inspect, S: Page>(
    naming: Naming,
    machine: &M,
    id: ObjId,
    kind: KindRef<'_>,
    parts: &[ObjId],
    page: &mut S,
) -> Result<(), Failed>
    ensures { Writes (S.told page.old) (S.told page.new) result (kind_name naming (M.state machine.now).heap id (kind_view kind.entry) parts.now) }
{
    match kind {
        KindRef::Global(names) => write_global(naming, id, names.first(), names.second(), page),
        KindRef::StackGlobal => write_stack(naming, id, machine, parts, page),
        KindRef::Ext(code) => write_with_signed(b"ext ", code, page),
        _ => write_id(u64::from(id), page),
    }
}

/// Writes the name of the object of this number.
#[tactic(auto, using(crate::proofs::Looks::look_rules))]
pub fn write_name<M: Inspect, S: Page>(
    naming: Naming,
    machine: &M,
    id: ObjId,
    page: &mut S,
) -> Result<(), Failed>
    ensures { Writes (S.told page.old) (S.told page.new) result (name_text naming (M.state machine.now).heap id) }
{
    match machine.look(id) {
        Some(look) => write_kind_name(naming, machine, id, look.kind, look.parts, page),
        None => write_id(u64::from(id), page),
    }
}
