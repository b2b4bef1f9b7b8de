//! Imports: a statement where Python has one, and else a call of the loader's own way to find a class.

ghost use Rattle.std.specs.Prelude.{◌≡◌, codes, is_some};
ghost use Rattle.pickle_io.specs.Text.{◌⧺◌};
ghost use Rattle.pickle_io.specs.Device.{Writes};
ghost use Rattle.pickle_names.specs.Renamed.{renamed};
ghost use Rattle.source_texts.specs.Import.{find_word, no_name, name_literal, protocol_word, is_renamed, is_statement, from_text, find_end, found_call, found_text, import_text, found_object};
ghost use Rattle.source_texts.specs.Name.{member_name};

use crate::expression::Say;
use crate::literals::Literals;
use crate::name::write_member_name;
use pickle_io::{Failed, Page, write_all, write_decimal};
use pickle_names::{Coding, renamed};
use pickle_ops::ObjId;

/// What is imported: from which module, which member of it, by which protocol the names are read, and how their bytes are.
#[derive(Clone, Copy)]
pub(crate) struct Names<'a> {
    pub(crate) coding: Coding,
    pub(crate) protocol: u64,
    pub(crate) from: &'a [u8],
    pub(crate) member: &'a [u8],
}

/// Whether a loader imports something else for names that are read by this protocol.
fn is_renamed(protocol: u64, from: &[u8], member: &[u8]) -> bool
    ensures { result ≡ is_renamed protocol from.now member.now }
{
    if protocol < 3 {
        renamed(from, member).is_some()
    } else {
        false
    }
}

/// Whether a statement of Python imports it.
pub(crate) fn is_statement<L: Literals>(
    literals: &L,
    protocol: u64,
    from: &[u8],
    member: &[u8],
) -> bool
    ensures { result ≡ is_statement (L.modules literals.now) (L.names literals.now) protocol from.now member.now }
{
    literals.is_module(from) && literals.is_name(member) && !is_renamed(protocol, from, member)
}

/// Writes the statement that imports a member by a name of its own.
pub(crate) fn write_from<L: Literals, S: Page>(
    literals: &L,
    from: &[u8],
    member: &[u8],
    id: ObjId,
    page: &mut S,
) -> Result<(), Failed>
    ensures { Writes (S.told page.old) (S.told page.new) result (from_text (L.names literals.now) from.now member.now id) }
{
    write_all(page, b"from ")?;
    write_all(page, from)?;
    write_all(page, b" import ")?;
    write_all(page, member)?;
    write_as(literals, member, id, page)
}

/// Writes the name that an import has.
fn write_as<L: Literals, S: Page>(
    literals: &L,
    member: &[u8],
    id: ObjId,
    page: &mut S,
) -> Result<(), Failed>
    ensures { Writes (S.told page.old) (S.told page.new) result (codes " as " ⧺ member_name (L.names literals.now) member.now id) }
{
    write_all(page, b" as ")?;
    write_member_name(literals, member, id, page)
}

/// Words of the protocol.
#[tactic(auto, unfolding(crate::specs::Import::protocol_word))]
fn words_of_protocol() -> &'static str
    ensures { result.now ≡ protocol_word }
{
    ", protocol="
}

/// Writes the end of a call that finds a class: the protocol by which the names are read.
pub(crate) fn write_find_end<S: Page>(protocol: u64, page: &mut S) -> Result<(), Failed>
    ensures { Writes (S.told page.old) (S.told page.new) result (find_end protocol) }
{
    write_all(page, words_of_protocol().as_bytes())?;
    write_decimal(protocol, page)?;
    write_all(page, b")")
}

/// Words of a call that finds a class.
#[tactic(auto, unfolding(crate::specs::Import::find_word))]
fn words_of_find() -> &'static str
    ensures { result.now ≡ find_word }
{
    " = find_class("
}

/// Words of a line that is empty.
#[tactic(auto, unfolding(crate::specs::Import::no_name))]
fn words_of_no_name() -> &'static str
    ensures { result.now ≡ no_name }
{
    "unpickle(b'')"
}

/// Writes a name in a line.
#[tactic(auto, unfolding(crate::specs::Import::name_literal))]
fn write_name_literal<L: Literals, S: Page>(
    literals: &L,
    coding: Coding,
    bytes: &[u8],
    page: &mut S,
) -> Result<(), Failed>
    ensures { Writes (S.told page.old) (S.told page.new) result (name_literal (L.text literals.now coding) bytes.now) }
{
    if bytes.is_empty() {
        write_all(page, words_of_no_name().as_bytes())
    } else {
        literals.write_text(coding, bytes, page)
    }
}

/// Writes the call that finds a class by two texts.
fn write_found_call<L: Literals, S: Page>(
    literals: &L,
    names: Names<'_>,
    page: &mut S,
) -> Result<(), Failed>
    ensures { Writes (S.told page.old) (S.told page.new) result (found_call (L.text literals.now names.entry.coding) names.entry.protocol names.entry.from.now names.entry.member.now) }
{
    write_all(page, words_of_find().as_bytes())?;
    write_name_literal(literals, names.coding, names.from, page)?;
    write_all(page, b", ")?;
    write_name_literal(literals, names.coding, names.member, page)?;
    write_find_end(names.protocol, page)
}

/// Writes that a class is found by two texts.
fn write_found<L: Literals, S: Page>(
    literals: &L,
    names: Names<'_>,
    id: ObjId,
    page: &mut S,
) -> Result<(), Failed>
    ensures { Writes (S.told page.old) (S.told page.new) result (found_text (L.text literals.now names.entry.coding) (L.names literals.now) names.entry.protocol names.entry.from.now names.entry.member.now id) }
{
    write_member_name(literals, names.member, id, page)?;
    write_found_call(literals, names, page)
}

/// Writes the import of a member for the object of this number. `Failed` where the sink fails; a beginning of the text was written then.
#[tactic(auto, unfolding(crate::specs::Import::import_text))]
pub(crate) fn write_import<L: Literals, S: Page>(
    literals: &L,
    names: Names<'_>,
    id: ObjId,
    page: &mut S,
) -> Result<(), Failed>
    ensures { Writes (S.told page.old) (S.told page.new) result (import_text (L.text literals.now names.entry.coding) (L.modules literals.now) (L.names literals.now) names.entry.protocol names.entry.from.now names.entry.member.now id) }
{
    if is_statement(literals, names.protocol, names.from, names.member) {
        write_from(literals, names.from, names.member, id, page)
    } else {
        write_found(literals, names, id, page)
    }
}

/// Writes that a class is found by two objects. `Failed` where the sink fails; a beginning of the text was written then.
pub(crate) fn write_found_object<P: Say, S: Page>(
    say: &P,
    protocol: u64,
    from: ObjId,
    member: ObjId,
    page: &mut S,
) -> Result<(), Failed>
    ensures { Writes (S.told page.old) (S.told page.new) result (found_object (P.says say.now) protocol from member) }
{
    write_all(page, words_of_find().as_bytes())?;
    say.say(from, page)?;
    write_all(page, b", ")?;
    say.say(member, page)?;
    write_find_end(protocol, page)
}
