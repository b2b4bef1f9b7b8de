//! Statements that reach out of the pickle: what is imported, called, filled by its own methods, or gets a state.

ghost use Rattle.std.specs.Prelude.{◌≡◌, codes, drop, slice_get, None, Some};
ghost use Rattle.std.specs.Option.{option_map, option_map_or};
ghost use Rattle.std.specs.Fmt.{signed_decimal};
ghost use Rattle.pickle_io.specs.Text.{◌⧺◌};
ghost use Rattle.pickle_io.specs.Device.{Writes, each};
ghost use Rattle.pickle_names.specs.declared.coding.Coding.TheVariants as coding;
ghost use Rattle.pickle_calls.specs.Event.{part};
ghost use Rattle.source_texts.specs.Name.{own_name, named_by, bytes_at, member_name};
ghost use Rattle.source_texts.specs.Held.{next_part, parts_text};
ghost use Rattle.source_texts.specs.Import.{import_text};
ghost use Rattle.source_texts.specs.Reach.{instantiate_word, persistent_word, if_view_word, comment, assignment, is_tuple, is_dict, dict_at, tuple_at, unnamed_parts, spread_parts, starred, arguments_text, after_text, call_words, class_words, new_words, keywords_text, new_with_words, bracketed, obj_words, member_words, inst_words, asked, persistent_line, extension_words, read_only_end, read_only_words, stack_found, stack_names, stack_text, value_words, assigned_words, made_words, made_text};

use crate::expression::Say;
use crate::held::{write_next_parts, write_parts, write_view};
use crate::import::{
    Names, is_statement, write_find_end, write_found_object, write_from, write_import,
};
use crate::literals::Literals;
use crate::name::{bytes_at, write_member_name, write_named, write_own_name};
use pickle_calls::part_at;
use pickle_io::{Failed, Page, write_all, write_decimal};
use pickle_machine::Machine;
use pickle_names::Coding;
use pickle_ops::{Kind, ObjId, Object};
use pickle_source::{Act, Fact, fact_at, is_named};
use pickle_text::write_with_signed;

/// Writes the end of a statement that reaches out: the offset of its opcode.
pub(crate) fn write_comment<S: Page>(offset: u64, page: &mut S) -> Result<(), Failed>
    ensures { Writes (S.told page.old) (S.told page.new) result (comment offset) }
{
    write_all(page, b"  # ")?;
    write_decimal(offset, page)?;
    write_all(page, b"\n")
}

/// Writes that the object of this number is what follows.
pub(crate) fn write_assignment<S: Page>(id: ObjId, page: &mut S) -> Result<(), Failed>
    ensures { Writes (S.told page.old) (S.told page.new) result (assignment id) }
{
    write_own_name(id, page)?;
    write_all(page, b" = ")
}

/// Whether an object of this kind is a tuple.
fn is_tuple(kind: &Kind) -> bool
    ensures { result ≡ is_tuple kind.now }
{
    matches!(kind, Kind::Tuple)
}

/// Whether the object of this number is a tuple.
fn tuple_at(machine: &Machine, id: ObjId) -> bool
    ensures { result ≡ tuple_at machine.now.state.heap id }
{
    match machine.object(id) {
        Some(object) => is_tuple(object.kind()),
        None => false,
    }
}

/// The items of an object that is a tuple without a name.
fn unnamed_parts<'a>(object: &'a Object, fact: Fact) -> Option<&'a [ObjId]>
    ensures { option_map (λ p. p.now) result ≡ unnamed_parts object.now fact }
{
    if is_tuple(object.kind()) && !is_named(object.kind(), fact) {
        Some(object.parts())
    } else {
        None
    }
}

/// The items of the object of this number, where it is a tuple without a name.
fn spread_parts<'a>(machine: &'a Machine, facts: &[Fact], id: ObjId) -> Option<&'a [ObjId]>
    ensures { option_map (λ p. p.now) result ≡ spread_parts machine.now.state.heap facts.now id }
{
    match machine.object(id) {
        Some(object) => unnamed_parts(object, fact_at(facts, id)),
        None => None,
    }
}

/// Writes arguments that a function takes out of an object.
fn write_asked<P: Say, S: Page>(word: &[u8], say: &P, id: ObjId, page: &mut S) -> Result<(), Failed>
    ensures { Writes (S.told page.old) (S.told page.new) result (asked word.now (P.says say.now) id) }
{
    write_all(page, word)?;
    say.say(id, page)?;
    write_all(page, b")")
}

/// Writes the arguments that are in an object, after a star.
#[tactic(auto, using(pickle_io::proofs::Devices::text_steps), unfolding(crate::specs::Reach::starred))]
fn write_starred<P: Say, S: Page>(
    machine: &Machine,
    say: &P,
    id: ObjId,
    page: &mut S,
) -> Result<(), Failed>
    ensures { Writes (S.told page.old) (S.told page.new) result (starred machine.now.state.heap (P.says say.now) id) }
{
    if tuple_at(machine, id) {
        write_all(page, b"*")?;
        say.say(id, page)
    } else {
        write_asked(b"*arguments(", say, id, page)
    }
}

/// Writes the arguments of a call.
#[tactic(auto, unfolding(crate::specs::Reach::arguments_text))]
fn write_arguments<P: Say, S: Page>(
    machine: &Machine,
    facts: &[Fact],
    say: &P,
    id: ObjId,
    page: &mut S,
) -> Result<(), Failed>
    ensures { Writes (S.told page.old) (S.told page.new) result (arguments_text machine.now.state.heap facts.now (P.says say.now) id) }
{
    match spread_parts(machine, facts, id) {
        Some(parts) => write_parts(say, parts, page),
        None => write_starred(machine, say, id, page),
    }
}

/// Writes arguments after a comma.
fn write_starred_after<P: Say, S: Page>(
    machine: &Machine,
    say: &P,
    id: ObjId,
    page: &mut S,
) -> Result<(), Failed>
    ensures { Writes (S.told page.old) (S.told page.new) result (codes ", " ⧺ starred machine.now.state.heap (P.says say.now) id) }
{
    write_all(page, b", ")?;
    write_starred(machine, say, id, page)
}

/// Writes the arguments of a call that has one before them.
#[tactic(auto, unfolding(crate::specs::Reach::after_text))]
fn write_after<P: Say, S: Page>(
    machine: &Machine,
    facts: &[Fact],
    say: &P,
    id: ObjId,
    page: &mut S,
) -> Result<(), Failed>
    ensures { Writes (S.told page.old) (S.told page.new) result (after_text machine.now.state.heap facts.now (P.says say.now) id) }
{
    match spread_parts(machine, facts, id) {
        Some(parts) => write_next_parts(say, parts, page),
        None => write_starred_after(machine, say, id, page),
    }
}

/// Writes a call.
fn write_call<P: Say, S: Page>(
    machine: &Machine,
    facts: &[Fact],
    say: &P,
    parts: &[ObjId],
    page: &mut S,
) -> Result<(), Failed>
    ensures { Writes (S.told page.old) (S.told page.new) result (call_words machine.now.state.heap facts.now (P.says say.now) parts.now) }
{
    say.say(part_at(0, parts), page)?;
    write_all(page, b"(")?;
    write_arguments(machine, facts, say, part_at(1, parts), page)?;
    write_all(page, b")")
}

/// Writes the making of an instance of a class, up to its arguments.
fn write_class<P: Say, S: Page>(say: &P, class: ObjId, page: &mut S) -> Result<(), Failed>
    ensures { Writes (S.told page.old) (S.told page.new) result (class_words (P.says say.now) class) }
{
    say.say(class, page)?;
    write_all(page, b".__new__(")?;
    say.say(class, page)
}

/// Writes the making of an instance.
fn write_new<P: Say, S: Page>(
    machine: &Machine,
    facts: &[Fact],
    say: &P,
    parts: &[ObjId],
    page: &mut S,
) -> Result<(), Failed>
    ensures { Writes (S.told page.old) (S.told page.new) result (new_words machine.now.state.heap facts.now (P.says say.now) parts.now) }
{
    write_class(say, part_at(0, parts), page)?;
    write_after(machine, facts, say, part_at(1, parts), page)?;
    write_all(page, b")")
}

/// Whether an object of this kind is a dictionary.
fn is_dict(kind: &Kind) -> bool
    ensures { result ≡ is_dict kind.now }
{
    matches!(kind, Kind::Dict)
}

/// Whether the object of this number is a dictionary.
fn dict_at(machine: &Machine, id: ObjId) -> bool
    ensures { result ≡ dict_at machine.now.state.heap id }
{
    match machine.object(id) {
        Some(object) => is_dict(object.kind()),
        None => false,
    }
}

/// Writes the arguments that have names, after a comma.
#[tactic(auto, using(pickle_io::proofs::Devices::text_steps), unfolding(crate::specs::Reach::keywords_text))]
fn write_keywords<P: Say, S: Page>(
    machine: &Machine,
    say: &P,
    id: ObjId,
    page: &mut S,
) -> Result<(), Failed>
    ensures { Writes (S.told page.old) (S.told page.new) result (keywords_text machine.now.state.heap (P.says say.now) id) }
{
    if dict_at(machine, id) {
        write_all(page, b", **")?;
        say.say(id, page)
    } else {
        write_asked(b", **keywords(", say, id, page)
    }
}

/// Writes the making of an instance with arguments that have names.
fn write_new_with<P: Say, S: Page>(
    machine: &Machine,
    facts: &[Fact],
    say: &P,
    parts: &[ObjId],
    page: &mut S,
) -> Result<(), Failed>
    ensures { Writes (S.told page.old) (S.told page.new) result (new_with_words machine.now.state.heap facts.now (P.says say.now) parts.now) }
{
    write_class(say, part_at(0, parts), page)?;
    write_after(machine, facts, say, part_at(1, parts), page)?;
    write_keywords(machine, say, part_at(2, parts), page)?;
    write_all(page, b")")
}

/// Writes the arguments of a class in brackets.
fn write_bracketed<P: Say, S: Page>(say: &P, ids: &[ObjId], page: &mut S) -> Result<(), Failed>
    ensures { Writes (S.told page.old) (S.told page.new) result (bracketed (P.says say.now) ids.now) }
{
    write_all(page, b"(")?;
    write_parts(say, ids, page)?;
    write_all(page, b")")
}

/// Writes what a class that is an object gives with arguments.
#[tactic(auto, using(pickle_io::proofs::Devices::text_steps))]
fn write_called<P: Say, S: Page>(
    say: &P,
    class: ObjId,
    rest: &[ObjId],
    page: &mut S,
) -> Result<(), Failed>
    ensures { Writes (S.told page.old) (S.told page.new) result (P.says say.now class ⧺ bracketed (P.says say.now) rest.now) }
{
    say.say(class, page)?;
    write_bracketed(say, rest, page)
}

/// Writes an instance of a class that is an object.
#[tactic(auto, unfolding(crate::specs::Reach::obj_words))]
fn write_obj<P: Say, S: Page>(
    say: &P,
    class: ObjId,
    rest: &[ObjId],
    page: &mut S,
) -> Result<(), Failed>
    ensures { Writes (S.told page.old) (S.told page.new) result (obj_words (P.says say.now) class rest.now) }
{
    if rest.is_empty() {
        write_asked(b"instantiate(", say, class, page)
    } else {
        write_called(say, class, rest, page)
    }
}

/// Words of an instance.
#[tactic(auto, unfolding(crate::specs::Reach::instantiate_word))]
fn words_of_instantiate() -> &'static str
    ensures { result.now ≡ instantiate_word }
{
    "instantiate("
}

/// Writes an instance of a class that is imported, without arguments.
fn write_instantiated<L: Literals, S: Page>(
    literals: &L,
    member: &[u8],
    id: ObjId,
    page: &mut S,
) -> Result<(), Failed>
    ensures { Writes (S.told page.old) (S.told page.new) result (instantiate_word ⧺ member_name (L.names literals.now) member.now id ⧺ codes ")") }
{
    write_all(page, words_of_instantiate().as_bytes())?;
    write_member_name(literals, member, id, page)?;
    write_all(page, b")")
}

/// Writes what a class that is imported gives with arguments.
fn write_member_called<L: Literals, P: Say, S: Page>(
    literals: &L,
    say: &P,
    member: &[u8],
    id: ObjId,
    parts: &[ObjId],
    page: &mut S,
) -> Result<(), Failed>
    ensures { Writes (S.told page.old) (S.told page.new) result (member_name (L.names literals.now) member.now id ⧺ bracketed (P.says say.now) parts.now) }
{
    write_member_name(literals, member, id, page)?;
    write_bracketed(say, parts, page)
}

/// Writes an instance of a class that is imported.
#[tactic(auto, unfolding(crate::specs::Reach::member_words))]
fn write_member<L: Literals, P: Say, S: Page>(
    literals: &L,
    say: &P,
    member: &[u8],
    id: ObjId,
    parts: &[ObjId],
    page: &mut S,
) -> Result<(), Failed>
    ensures { Writes (S.told page.old) (S.told page.new) result (member_words (L.names literals.now) (P.says say.now) member.now id parts.now) }
{
    if parts.is_empty() {
        write_instantiated(literals, member, id, page)
    } else {
        write_member_called(literals, say, member, id, parts, page)
    }
}

/// Writes the import of a class, and its instance.
fn write_inst<L: Literals, P: Say, S: Page>(
    literals: &L,
    say: &P,
    names: Names<'_>,
    id: ObjId,
    parts: &[ObjId],
    page: &mut S,
) -> Result<(), Failed>
    ensures { Writes (S.told page.old) (S.told page.new) result (inst_words (L.text literals.now names.entry.coding) (L.modules literals.now) (L.names literals.now) (P.says say.now) names.entry.protocol names.entry.from.now names.entry.member.now id parts.now) }
{
    write_import(literals, names, id, page)?;
    write_all(page, b"; ")?;
    write_assignment(id, page)?;
    write_member(literals, say, names.member, id, parts, page)
}

/// Words of what is kept elsewhere.
#[tactic(auto, unfolding(crate::specs::Reach::persistent_word))]
fn words_of_persistent() -> &'static str
    ensures { result.now ≡ persistent_word }
{
    "persistent_load("
}

/// Writes what is kept elsewhere under the text of a line.
fn write_persistent_line<L: Literals, S: Page>(
    literals: &L,
    line: &[u8],
    page: &mut S,
) -> Result<(), Failed>
    ensures { Writes (S.told page.old) (S.told page.new) result (persistent_line (L.text literals.now) line.now) }
{
    write_all(page, words_of_persistent().as_bytes())?;
    literals.write_text(Coding::Ascii, line, page)?;
    write_all(page, b")")
}

/// Writes what the registry of extensions has under a code.
fn write_extension<S: Page>(code: i64, protocol: u64, page: &mut S) -> Result<(), Failed>
    ensures { Writes (S.told page.old) (S.told page.new) result (extension_words code protocol) }
{
    write_with_signed(b"extension(", code, page)?;
    write_find_end(protocol, page)
}

/// Words of a view.
#[tactic(auto, unfolding(crate::specs::Reach::read_only_end))]
fn words_of_read_only() -> &'static str
    ensures { result.now ≡ read_only_end }
{
    ").readonly else "
}

/// Words of a view of what may be read only.
#[tactic(auto, unfolding(crate::specs::Reach::if_view_word))]
fn words_of_if_view() -> &'static str
    ensures { result.now ≡ if_view_word }
{
    " if memoryview("
}

/// Writes a view of an object that may be read only already.
fn write_read_only<P: Say, S: Page>(say: &P, id: ObjId, page: &mut S) -> Result<(), Failed>
    ensures { Writes (S.told page.old) (S.told page.new) result (read_only_words (P.says say.now) id) }
{
    say.say(id, page)?;
    write_all(page, words_of_if_view().as_bytes())?;
    say.say(id, page)?;
    write_all(page, words_of_read_only().as_bytes())?;
    write_view(say, id, page)
}

/// Writes the name of what two objects name, and that it is found by them.
fn write_stack_found<L: Literals, P: Say, S: Page>(
    literals: &L,
    machine: &Machine,
    say: &P,
    protocol: u64,
    id: ObjId,
    parts: &[ObjId],
    page: &mut S,
) -> Result<(), Failed>
    ensures { Writes (S.told page.old) (S.told page.new) result (stack_found (L.names literals.now) machine.now.state.heap (P.says say.now) protocol id parts.now) }
{
    write_named(literals, bytes_at(machine, part_at(1, parts)), id, page)?;
    write_found_object(say, protocol, part_at(0, parts), part_at(1, parts), page)
}

/// The names that two objects are, where a statement of Python imports them.
fn stack_names<'a, L: Literals>(
    literals: &L,
    machine: &'a Machine,
    protocol: u64,
    parts: &[ObjId],
) -> Option<(&'a [u8], &'a [u8])>
    ensures { option_map (λ p. (p.0.now, p.1.now)) result ≡ stack_names (L.modules literals.now) (L.names literals.now) machine.now.state.heap protocol parts.now }
{
    let Some(from) = bytes_at(machine, part_at(0, parts)) else {
        return None;
    };
    let Some(member) = bytes_at(machine, part_at(1, parts)) else {
        return None;
    };
    if is_statement(literals, protocol, from, member) {
        Some((from, member))
    } else {
        None
    }
}

/// Writes the import of what two objects name.
#[tactic(auto, unfolding(crate::specs::Reach::stack_text))]
fn write_stack_import<L: Literals, P: Say, S: Page>(
    literals: &L,
    machine: &Machine,
    say: &P,
    protocol: u64,
    id: ObjId,
    parts: &[ObjId],
    page: &mut S,
) -> Result<(), Failed>
    ensures { Writes (S.told page.old) (S.told page.new) result (stack_text (L.modules literals.now) (L.names literals.now) machine.now.state.heap (P.says say.now) protocol id parts.now) }
{
    match stack_names(literals, machine, protocol, parts) {
        Some((from, member)) => write_from(literals, from, member, id, page),
        None => write_stack_found(literals, machine, say, protocol, id, parts, page),
    }
}

/// Writes what an object of this kind with these parts is, which has its name before it.
#[tactic(auto, unfolding(crate::specs::Reach::value_words))]
fn write_value_words<L: Literals, P: Say, S: Page>(
    literals: &L,
    machine: &Machine,
    facts: &[Fact],
    say: &P,
    protocol: u64,
    kind: &Kind,
    parts: &[ObjId],
    page: &mut S,
) -> Result<(), Failed>
    ensures { Writes (S.told page.old) (S.told page.new) result (value_words (L.text literals.now) machine.now.state.heap facts.now (P.says say.now) protocol kind.now parts.now) }
{
    match kind {
        Kind::Call => write_call(machine, facts, say, parts, page),
        Kind::New => write_new(machine, facts, say, parts, page),
        Kind::NewEx => write_new_with(machine, facts, say, parts, page),
        Kind::Obj => write_obj(say, part_at(0, parts), behind_first(parts), page),
        Kind::PersistentLine(line) => write_persistent_line(literals, line.as_slice(), page),
        Kind::Persistent => write_asked(b"persistent_load(", say, part_at(0, parts), page),
        Kind::Ext(code) => write_extension(*code, protocol, page),
        Kind::Buffer(_) => write_all(page, b"next(buffers)"),
        Kind::ReadOnly => write_read_only(say, part_at(0, parts), page),
        _ => Ok(()),
    }
}

/// The objects behind the first.
fn behind_first(parts: &[ObjId]) -> &[ObjId]
    ensures { result.now ≡ drop 1 parts.now }
{
    match parts.split_first() {
        Some((_, rest)) => rest,
        None => parts,
    }
}

/// Writes the name of an object, and what it is.
fn write_assigned<L: Literals, P: Say, S: Page>(
    literals: &L,
    machine: &Machine,
    facts: &[Fact],
    say: &P,
    protocol: u64,
    id: ObjId,
    kind: &Kind,
    parts: &[ObjId],
    page: &mut S,
) -> Result<(), Failed>
    ensures { Writes (S.told page.old) (S.told page.new) result (assigned_words (L.text literals.now) machine.now.state.heap facts.now (P.says say.now) protocol id kind.now parts.now) }
{
    write_assignment(id, page)?;
    write_value_words(literals, machine, facts, say, protocol, kind, parts, page)
}

/// Writes what makes an object of this kind with these parts.
#[tactic(auto, unfolding(crate::specs::Reach::made_words))]
fn write_made_words<L: Literals, P: Say, S: Page>(
    literals: &L,
    machine: &Machine,
    facts: &[Fact],
    say: &P,
    protocol: u64,
    id: ObjId,
    kind: &Kind,
    parts: &[ObjId],
    page: &mut S,
) -> Result<(), Failed>
    ensures { Writes (S.told page.old) (S.told page.new) result (made_words (L.text literals.now) (L.modules literals.now) (L.names literals.now) machine.now.state.heap facts.now (P.says say.now) protocol id kind.now parts.now) }
{
    match kind {
        Kind::Global(texts) => {
            let names = Names {
                coding: Coding::Utf8,
                protocol,
                from: texts.first(),
                member: texts.second(),
            };
            write_import(literals, names, id, page)
        }
        Kind::StackGlobal => write_stack_import(literals, machine, say, protocol, id, parts, page),
        Kind::Inst(texts) => {
            let names = Names {
                coding: Coding::Ascii,
                protocol,
                from: texts.first(),
                member: texts.second(),
            };
            write_inst(literals, say, names, id, parts, page)
        }
        _ => write_assigned(
            literals, machine, facts, say, protocol, id, kind, parts, page,
        ),
    }
}

/// Writes the statement that makes an object. `Failed` where the sink fails; a beginning of the statement was written then.
pub(crate) fn write_made<L: Literals, P: Say, S: Page>(
    literals: &L,
    machine: &Machine,
    facts: &[Fact],
    say: &P,
    act: Act,
    id: ObjId,
    object: &Object,
    page: &mut S,
) -> Result<(), Failed>
    ensures { Writes (S.told page.old) (S.told page.new) result (made_text (L.text literals.now) (L.modules literals.now) (L.names literals.now) machine.now.state.heap facts.now (P.says say.now) act.offset act.protocol id object.now) }
{
    write_made_words(
        literals,
        machine,
        facts,
        say,
        act.protocol,
        id,
        object.kind(),
        object.parts(),
        page,
    )?;
    write_comment(act.offset, page)
}
