//! The names of what is imported or called. `Failed` where the sink fails; a beginning of the text was written then.

ghost use Rattle.std.specs.Prelude.{◌≡◌, None, Some};
ghost use Rattle.std.specs.Option.{option_map};
ghost use Rattle.pickle_io.specs.Device.{Writes};
ghost use Rattle.json_lines.specs.Line.{fields_text};
ghost use Rattle.pickle_calls.specs.Naming.{spelled_view, pair_view, new_view, pair_renamed, renamed_by, short_of, may_be_name};
ghost use Rattle.calls_json.specs.NameFields.{said_fields, pair_fields, for_fields, member_fields, import_fields, import_for_fields, id_fields, said_names_fields, now_fields, known_fields, renamed_fields, names_by_fields, names_fields};

use crate::said::{Said, object_name};
use crate::text::{write_own, write_whole};
use json_lines::write_number_field;
use pickle_calls::{
    Imported, NamePair, Naming, SpelledText, by_both, by_module, may_be_name, short_of,
};
use pickle_io::{Failed, Page};
use pickle_names::renamed;
use pickle_ops::ObjId;

/// Writes a name by its text, or by its object.
#[tactic(auto, unfolding(crate::specs::NameFields::said_fields))]
fn write_said<P: Page>(
    said: Said,
    spelled: Option<SpelledText<'_>>,
    id: ObjId,
    page: &mut P,
) -> Result<(), Failed>
    ensures { Writes (P.told page.old) (P.told page.new) result (fields_text (said_fields said (option_map spelled_view spelled.entry) id)) }
{
    match spelled {
        Some(text) => write_whole(said, text.coding, text.bytes, page),
        None => write_number_field(object_name(said), u64::from(id), page),
    }
}

/// Writes both names as they are said.
fn write_pair<P: Page>(pair: NamePair<'_>, page: &mut P) -> Result<(), Failed>
    ensures { Writes (P.told page.old) (P.told page.new) result (fields_text (pair_fields (pair_view pair.entry))) }
{
    write_said(Said::Module, pair.from, pair.from_id, page)?;
    write_said(Said::Name, pair.name, pair.name_id, page)
}

/// Writes the names that the pickle says, where something else is imported for them.
fn write_for<P: Page>(pair: NamePair<'_>, page: &mut P) -> Result<(), Failed>
    ensures { Writes (P.told page.old) (P.told page.new) result (fields_text (for_fields (pair_view pair.entry))) }
{
    write_said(Said::ForModule, pair.from, pair.from_id, page)?;
    write_said(Said::ForName, pair.name, pair.name_id, page)
}

/// Writes the member that is imported.
#[tactic(auto, unfolding(crate::specs::NameFields::member_fields))]
fn write_member<P: Page>(
    name: Option<&[u8]>,
    pair: NamePair<'_>,
    page: &mut P,
) -> Result<(), Failed>
    ensures { Writes (P.told page.old) (P.told page.new) result (fields_text (member_fields (option_map (λ n. n.now) name.entry) (pair_view pair.entry))) }
{
    match name {
        Some(name) => write_own(Said::Name, name, page),
        None => write_said(Said::Name, pair.name, pair.name_id, page),
    }
}

/// Writes what is imported.
fn write_import<P: Page>(new: Imported<'_>, pair: NamePair<'_>, page: &mut P) -> Result<(), Failed>
    ensures { Writes (P.told page.old) (P.told page.new) result (fields_text (import_fields (new_view new.entry) (pair_view pair.entry))) }
{
    write_own(Said::Module, new.from, page)?;
    write_member(new.name, pair, page)
}

/// Writes what is imported, and for which names.
fn write_import_for<P: Page>(
    new: Imported<'_>,
    pair: NamePair<'_>,
    page: &mut P,
) -> Result<(), Failed>
    ensures { Writes (P.told page.old) (P.told page.new) result (fields_text (import_for_fields (new_view new.entry) (pair_view pair.entry))) }
{
    write_import(new, pair, page)?;
    write_for(pair, page)
}

/// Writes the number of an object under a name.
#[tactic(auto, unfolding(crate::specs::NameFields::id_fields))]
pub(crate) fn write_id<P: Page>(word: &str, id: ObjId, page: &mut P) -> Result<(), Failed>
    ensures { Writes (P.told page.old) (P.told page.new) result (fields_text (id_fields word.now id)) }
{
    write_number_field(word, u64::from(id), page)
}

/// Writes both names as they are said; where one of them is no text, of what was imported as an object its number.
fn write_said_names<P: Page>(
    word: &str,
    object: Option<ObjId>,
    pair: NamePair<'_>,
    page: &mut P,
) -> Result<(), Failed>
    ensures { Writes (P.told page.old) (P.told page.new) result (fields_text (said_names_fields word.now object (pair_view pair.entry))) }
{
    match object {
        None => write_pair(pair, page),
        Some(id) => {
            if pair.from.is_some() && pair.name.is_some() {
                write_pair(pair, page)
            } else {
                write_id(word, id, page)
            }
        }
    }
}

/// Writes what was imported as an object of that number: what it is, or what its names say.
fn write_known<P: Page>(
    word: &str,
    old: bool,
    id: ObjId,
    new: Imported<'_>,
    pair: NamePair<'_>,
    page: &mut P,
) -> Result<(), Failed>
    ensures { Writes (P.told page.old) (P.told page.new) result (fields_text (known_fields word.now old id (new_view new.entry) (pair_view pair.entry))) }
{
    if old {
        write_import(new, pair, page)
    } else {
        write_said_names(word, Some(id), pair, page)
    }
}

/// Writes what is imported now: what it is and for which names, or what these say.
fn write_now<P: Page>(
    old: bool,
    new: Imported<'_>,
    pair: NamePair<'_>,
    page: &mut P,
) -> Result<(), Failed>
    ensures { Writes (P.told page.old) (P.told page.new) result (fields_text (now_fields old (new_view new.entry) (pair_view pair.entry))) }
{
    if old {
        write_import_for(new, pair, page)
    } else {
        write_pair(pair, page)
    }
}

/// Writes names for which something else may be imported.
fn write_renamed<P: Page>(
    word: &str,
    naming: Naming,
    object: Option<ObjId>,
    new: Imported<'_>,
    pair: NamePair<'_>,
    page: &mut P,
) -> Result<(), Failed>
    ensures { Writes (P.told page.old) (P.told page.new) result (fields_text (renamed_fields word.now naming object (new_view new.entry) (pair_view pair.entry))) }
{
    match object {
        None => write_now(naming.old, new, pair, page),
        Some(id) => {
            if naming.since <= id && pair.name.is_some() {
                write_known(word, naming.old, id, new, pair, page)
            } else {
                write_id(word, id, page)
            }
        }
    }
}

/// Writes names, for which this is imported, if anything else is.
fn write_names_by<P: Page>(
    word: &str,
    naming: Naming,
    object: Option<ObjId>,
    new: Option<Imported<'_>>,
    pair: NamePair<'_>,
    page: &mut P,
) -> Result<(), Failed>
    ensures { Writes (P.told page.old) (P.told page.new) result (fields_text (names_by_fields word.now naming object (option_map new_view new.entry) (pair_view pair.entry))) }
{
    match new {
        Some(new) => write_renamed(word, naming, object, new, pair, page),
        None => write_said_names(word, object, pair, page),
    }
}

/// Writes names of which the module has this value.
fn write_names_of<P: Page>(
    word: &str,
    naming: Naming,
    object: Option<ObjId>,
    from: &[u8],
    pair: NamePair<'_>,
    page: &mut P,
) -> Result<(), Failed>
    ensures { Writes (P.told page.old) (P.told page.new) result (fields_text (names_by_fields word.now naming object
        (renamed_by (Some from.now) (short_of (pair_view pair.entry).name) (may_be_name (pair_view pair.entry).name)) (pair_view pair.entry))) }
{
    match short_of(pair.name) {
        Some(name) => {
            let new = by_both(renamed(from, name.as_slice()));
            write_names_by(word, naming, object, new, pair, page)
        }
        None => {
            let new = by_module(from, may_be_name(pair.name));
            write_names_by(word, naming, object, new, pair, page)
        }
    }
}

/// Writes the names of what is imported now, or was as this object, whose number comes under this name where they are not shown.
#[tactic(auto, unfolding(crate::specs::NameFields::names_fields, pickle_calls::specs::Naming::pair_renamed))]
pub(crate) fn write_names<P: Page>(
    word: &str,
    naming: Naming,
    object: Option<ObjId>,
    pair: NamePair<'_>,
    page: &mut P,
) -> Result<(), Failed>
    ensures { Writes (P.told page.old) (P.told page.new) result (fields_text (names_fields word.now naming object (pair_view pair.entry))) }
{
    match short_of(pair.from) {
        Some(from) => write_names_of(word, naming, object, from.as_slice(), pair, page),
        None => write_said_names(word, object, pair, page),
    }
}
