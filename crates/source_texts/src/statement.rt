//! The statement of each thing that an opcode does.

ghost use Rattle.std.specs.Prelude.{◌≡◌, [], codes, decimal, drop, take, slice_get, None, Some};
ghost use Rattle.std.specs.Option.{option_map, option_map_or, option_to_list};
ghost use Rattle.pickle_io.specs.Text.{◌⧺◌};
ghost use Rattle.pickle_io.specs.Device.{Writes, each};
ghost use Rattle.source_texts.specs.Name.{own_name};
ghost use Rattle.pickle_machine.specs.State.{stack_of};
ghost use Rattle.source_texts.specs.Held.{held_text, changes_text, then_part};
ghost use Rattle.source_texts.specs.Reach.{comment, assignment, asked, made_text};
ghost use Rattle.source_texts.specs.Expression.{expression};
ghost use Rattle.source_texts.specs.Statement.{ending, named_at, given_text, object_lines, made_lines, set_words, set_line, method_words, fill_lines, filled_text, state_text, into_text, reached_fill, reached_object, reach_text, result_name, result_text, changes_between, act_text, stack_front, stack_text, cut_text, end_text, lines_text, source_text};

use crate::expression::{ByName, Say, Within};
use crate::held::{write_changes, write_held, write_part_then};
use crate::literals::Literals;
use crate::reach::{write_assignment, write_comment, write_made};
use pickle_calls::{Event, front};
use pickle_io::{Failed, Page, write_all, write_decimal};
use pickle_machine::Machine;
use pickle_ops::{Change, Filling, ObjId, Object};
use pickle_source::{Act, Fact, Tale, What, changes_at, fact_at, is_named};
use pickle_text::{Closing, write_closing};

/// The end of a statement: the offset of an opcode that reaches out of the pickle, or nothing.
#[tactic(auto, unfolding(crate::specs::Statement::ending))]
fn write_ending<S: Page>(offset: Option<u64>, page: &mut S) -> Result<(), Failed>
    ensures { Writes (S.told page.old) (S.told page.new) result (ending offset) }
{
    match offset {
        Some(offset) => write_comment(offset, page),
        None => write_all(page, b"\n"),
    }
}

/// Whether the object of this number has a name.
fn named_at(machine: &Machine, facts: &[Fact], id: ObjId) -> bool
    ensures { result ≡ named_at machine.now.state.heap facts.now id }
{
    match machine.object(id) {
        Some(object) => is_named(object.kind(), fact_at(facts, id)),
        None => false,
    }
}

/// Writes the statement that gives an object its name, as it was made.
fn write_given<L: Literals, P: Say, S: Page>(
    literals: &L,
    say: &P,
    id: ObjId,
    object: &Object,
    page: &mut S,
) -> Result<(), Failed>
    ensures { Writes (S.told page.old) (S.told page.new) result (given_text (L.value literals.now) (P.says say.now) id object.now) }
{
    write_assignment(id, page)?;
    write_held(literals, say, object.kind(), object.parts(), &[], page)?;
    write_all(page, b"\n")
}

/// Writes that a key of an object is mapped to a value.
fn write_set<P: Say, S: Page>(
    say: &P,
    id: ObjId,
    key: ObjId,
    value: ObjId,
    page: &mut S,
) -> Result<(), Failed>
    ensures { Writes (S.told page.old) (S.told page.new) result (set_words (P.says say.now) id key value) }
{
    say.say(id, page)?;
    write_all(page, b"[")?;
    say.say(key, page)?;
    write_all(page, b"] = ")?;
    say.say(value, page)
}

/// Writes the statement of that.
fn write_set_statement<P: Say, S: Page>(
    say: &P,
    offset: Option<u64>,
    id: ObjId,
    key: ObjId,
    value: ObjId,
    page: &mut S,
) -> Result<(), Failed>
    ensures { Writes (S.told page.old) (S.told page.new) result (set_words (P.says say.now) id key value ⧺ ending offset) }
{
    write_set(say, id, key, value, page)?;
    write_ending(offset, page)
}

/// Writes the statement of a change that maps a key to a value; nothing of another.
#[tactic(auto, unfolding(crate::specs::Statement::set_line))]
fn write_set_line<P: Say, S: Page>(
    say: &P,
    offset: Option<u64>,
    id: ObjId,
    change: Change,
    page: &mut S,
) -> Result<(), Failed>
    ensures { Writes (S.told page.old) (S.told page.new) result (set_line (P.says say.now) offset id change) }
{
    match change {
        Change::SetItem(key, value) => write_set_statement(say, offset, id, key, value, page),
        _ => Ok(()),
    }
}

/// Writes the statements of all changes that map keys to values.
#[tactic(auto, using(pickle_io::proofs::Devices::each_steps))]
fn write_set_lines<P: Say, S: Page>(
    say: &P,
    offset: Option<u64>,
    id: ObjId,
    changes: &[Change],
    page: &mut S,
) -> Result<(), Failed>
    ensures { Writes (S.told page.old) (S.told page.new) result (each (set_line (P.says say.now) offset id) changes.now) }
{
    for change in changes {
        write_set_line(say, offset, id, *change, page)?;
    }
    Ok(())
}

/// Writes the call of a method with a list of what changes put into an object.
fn write_method<P: Say, S: Page>(
    say: &P,
    method: &[u8],
    id: ObjId,
    changes: &[Change],
    page: &mut S,
) -> Result<(), Failed>
    ensures { Writes (S.told page.old) (S.told page.new) result (method_words (P.says say.now) method.now id changes.now) }
{
    say.say(id, page)?;
    write_all(page, method)?;
    write_changes(say, changes, page)?;
    write_all(page, b"])\n")
}

/// Writes the statements of changes that go into an object with a name which stays in the pickle.
#[tactic(auto, unfolding(crate::specs::Statement::fill_lines))]
fn write_fill_lines<P: Say, S: Page>(
    say: &P,
    id: ObjId,
    changes: &[Change],
    page: &mut S,
) -> Result<(), Failed>
    ensures { Writes (S.told page.old) (S.told page.new) result (fill_lines (P.says say.now) id changes.now) }
{
    match changes.first().copied() {
        Some(Change::Append(_)) => write_method(say, b".extend([", id, changes, page),
        Some(Change::Add(_)) => write_method(say, b".update([", id, changes, page),
        _ => write_set_lines(say, None, id, changes, page),
    }
}

/// Writes that an object gets a state.
fn write_state<P: Say, S: Page>(
    say: &P,
    offset: u64,
    value: ObjId,
    target: ObjId,
    page: &mut S,
) -> Result<(), Failed>
    ensures { Writes (S.told page.old) (S.told page.new) result (state_text (P.says say.now) offset value target) }
{
    write_all(page, b"set_state(")?;
    say.say(target, page)?;
    write_all(page, b", ")?;
    say.say(value, page)?;
    write_closed(offset, page)
}

/// Writes the bracket that ends a call, and the offset of its opcode.
fn write_closed<S: Page>(offset: u64, page: &mut S) -> Result<(), Failed>
    ensures { Writes (S.told page.old) (S.told page.new) result (codes ")" ⧺ comment offset) }
{
    write_all(page, b")")?;
    write_comment(offset, page)
}

/// Writes the brackets that end a call with a list, and the offset of its opcode.
fn write_list_closed<S: Page>(offset: u64, page: &mut S) -> Result<(), Failed>
    ensures { Writes (S.told page.old) (S.told page.new) result (codes "])" ⧺ comment offset) }
{
    write_all(page, b"])")?;
    write_comment(offset, page)
}

/// Writes that a function of the source puts what changes say into an object that comes from elsewhere or from a call.
fn write_into<P: Say, S: Page>(
    say: &P,
    word: &[u8],
    offset: u64,
    id: ObjId,
    changes: &[Change],
    page: &mut S,
) -> Result<(), Failed>
    ensures { Writes (S.told page.old) (S.told page.new) result (into_text (P.says say.now) word.now offset id changes.now) }
{
    write_all(page, word)?;
    say.say(id, page)?;
    write_all(page, b", [")?;
    write_changes(say, changes, page)?;
    write_list_closed(offset, page)
}

/// The changes from a place on.
#[tactic(auto, using(crate::proofs::Slices::nothing_behind))]
fn behind(changes: &[Change], first: usize) -> &[Change]
    ensures { result.now ≡ drop first changes.now }
{
    if first <= changes.len() {
        &changes[first..]
    } else {
        &[]
    }
}

/// The changes of the object of this number, from a place on, this many of them.
fn changes_between(machine: &Machine, id: ObjId, first: usize, count: usize) -> &[Change]
    ensures { result.now ≡ changes_between machine.now.state.heap id first count }
{
    front(behind(changes_at(machine, id), first), count)
}

/// Writes the statements of what was put into an object that comes from elsewhere or from a call.
#[tactic(auto, unfolding(crate::specs::Statement::reached_fill))]
fn write_reached_fill<P: Say, S: Page>(
    say: &P,
    offset: u64,
    filling: Filling,
    id: ObjId,
    changes: &[Change],
    page: &mut S,
) -> Result<(), Failed>
    ensures { Writes (S.told page.old) (S.told page.new) result (reached_fill (P.says say.now) offset filling id changes.now) }
{
    match filling {
        Filling::Append => write_into(say, b"extend(", offset, id, changes, page),
        Filling::SetItem => write_set_lines(say, Some(offset), id, changes, page),
        Filling::Add => write_into(say, b"add_items(", offset, id, changes, page),
        Filling::Build => Ok(()),
    }
}

/// Writes the statement of the object of this number, which reaches out.
#[tactic(auto, unfolding(crate::specs::Statement::reached_object))]
fn write_reached_object<L: Literals, P: Say, S: Page>(
    literals: &L,
    machine: &Machine,
    facts: &[Fact],
    say: &P,
    act: Act,
    id: ObjId,
    page: &mut S,
) -> Result<(), Failed>
    ensures { Writes (S.told page.old) (S.told page.new) result (reached_object (L.text literals.now) (L.modules literals.now) (L.names literals.now) machine.now.state.heap facts.now (P.says say.now) act.offset act.protocol id) }
{
    match machine.object(id) {
        Some(object) => write_made(literals, machine, facts, say, act, id, object, page),
        None => Ok(()),
    }
}

/// Writes the statements of an event.
#[tactic(auto, unfolding(crate::specs::Statement::reach_text))]
fn write_reach<L: Literals, P: Say, S: Page>(
    literals: &L,
    machine: &Machine,
    facts: &[Fact],
    say: &P,
    act: Act,
    event: Event,
    page: &mut S,
) -> Result<(), Failed>
    ensures { Writes (S.told page.old) (S.told page.new) result (reach_text (L.text literals.now) (L.modules literals.now) (L.names literals.now) machine.now.state.heap facts.now (P.says say.now) act event) }
{
    match event {
        Event::Made(id) => write_reached_object(literals, machine, facts, say, act, id, page),
        Event::State(value, target) => write_state(say, act.offset, value, target, page),
        Event::Filled(filling, count, id) => {
            let changes = changes_between(machine, id, act.first, count);
            write_reached_fill(say, act.offset, filling, id, changes, page)
        }
    }
}

/// Writes which result it is, of several pickles.
#[tactic(auto, using(pickle_io::proofs::Devices::text_steps), unfolding(crate::specs::Statement::result_name))]
fn write_result_name<S: Page>(count: usize, page: &mut S) -> Result<(), Failed>
    ensures { Writes (S.told page.old) (S.told page.new) result (result_name count) }
{
    if count <= 1 {
        return Ok(());
    }
    write_all(page, b"_")?;
    write_decimal(count as u64, page)
}

/// Writes the statement of a result.
fn write_result<P: Say, S: Page>(
    say: &P,
    count: usize,
    id: ObjId,
    page: &mut S,
) -> Result<(), Failed>
    ensures { Writes (S.told page.old) (S.told page.new) result (result_text (P.says say.now) count id) }
{
    write_all(page, b"result")?;
    write_result_name(count, page)?;
    write_all(page, b" = ")?;
    say.say(id, page)?;
    write_all(page, b"\n")
}

/// Writes the statement that gives the object of this number its name, if it has one.
#[tactic(auto, unfolding(crate::specs::Statement::made_lines))]
fn write_named<L: Literals, P: Say, S: Page>(
    literals: &L,
    machine: &Machine,
    facts: &[Fact],
    say: &P,
    id: ObjId,
    page: &mut S,
) -> Result<(), Failed>
    ensures { Writes (S.told page.old) (S.told page.new) result (made_lines (L.value literals.now) machine.now.state.heap facts.now (P.says say.now) id) }
{
    match machine.object(id) {
        Some(object) => write_object_named(literals, facts, say, id, object, page),
        None => Ok(()),
    }
}

/// The same of an object that is there.
fn write_object_named<L: Literals, P: Say, S: Page>(
    literals: &L,
    facts: &[Fact],
    say: &P,
    id: ObjId,
    object: &Object,
    page: &mut S,
) -> Result<(), Failed>
    ensures { Writes (S.told page.old) (S.told page.new) result (object_lines (L.value literals.now) facts.now (P.says say.now) id object.now) }
{
    if is_named(object.kind(), fact_at(facts, id)) {
        write_given(literals, say, id, object, page)
    } else {
        Ok(())
    }
}

/// Writes the statements of what went into an object, if it has a name.
#[tactic(auto, unfolding(crate::specs::Statement::filled_text))]
fn write_filled<P: Say, S: Page>(
    machine: &Machine,
    facts: &[Fact],
    say: &P,
    first: usize,
    count: usize,
    id: ObjId,
    page: &mut S,
) -> Result<(), Failed>
    ensures { Writes (S.told page.old) (S.told page.new) result (filled_text machine.now.state.heap facts.now (P.says say.now) first count id) }
{
    if named_at(machine, facts, id) {
        write_fill_lines(say, id, changes_between(machine, id, first, count), page)
    } else {
        Ok(())
    }
}

/// Writes the statements of what an opcode does.
#[tactic(auto, unfolding(crate::specs::Statement::act_text))]
fn write_act<L: Literals, P: Say, S: Page>(
    literals: &L,
    machine: &Machine,
    facts: &[Fact],
    say: &P,
    act: Act,
    page: &mut S,
) -> Result<(), Failed>
    ensures { Writes (S.told page.old) (S.told page.new) result (act_text (L.value literals.now) (L.text literals.now) (L.modules literals.now) (L.names literals.now) machine.now.state.heap facts.now (P.says say.now) act) }
{
    match act.what {
        What::Reached(event) => write_reach(literals, machine, facts, say, act, event, page),
        What::Made(id) => write_named(literals, machine, facts, say, id, page),
        What::Filled(id, count) => write_filled(machine, facts, say, act.first, count, id, page),
        What::Result(id) => write_result(say, act.first, id, page),
    }
}

/// Writes the statements of what opcodes do, one after another.
#[tactic(auto, using(pickle_io::proofs::Devices::each_steps))]
fn write_acts<L: Literals, P: Say, S: Page>(
    literals: &L,
    machine: &Machine,
    facts: &[Fact],
    say: &P,
    acts: &[Act],
    page: &mut S,
) -> Result<(), Failed>
    ensures { Writes (S.told page.old) (S.told page.new) result (each (act_text (L.value literals.now) (L.text literals.now) (L.modules literals.now) (L.names literals.now) machine.now.state.heap facts.now (P.says say.now)) acts.now) }
{
    for act in acts {
        write_act(literals, machine, facts, say, *act, page)?;
    }
    Ok(())
}

/// Words of the stack.
#[tactic(auto, unfolding(crate::specs::Statement::stack_front))]
fn words_of_stack() -> &'static str
    ensures { result.now ≡ stack_front }
{
    "stack = ["
}

/// Writes the object that has this many below it on the stack, if there is one.
fn write_at<P: Say, S: Page>(
    machine: &Machine,
    say: &P,
    below: usize,
    page: &mut S,
) -> Result<(), Failed>
    ensures { Writes (S.told page.old) (S.told page.new) result (each (then_part (P.says say.now)) (option_to_list (slice_get (stack_of machine.now.state) below))) }
{
    match machine.stack_at(below) {
        Some(id) => write_part_then(say, id, page),
        None => Ok(()),
    }
}

/// Writes the objects of the stack, from the lowest on.
fn write_left<P: Say, S: Page>(machine: &Machine, say: &P, page: &mut S) -> Result<(), Failed>
    ensures { Writes (S.told page.old) (S.told page.new) result (each (then_part (P.says say.now)) (stack_of machine.now.state)) }
{
    for below in 0..machine.stack_len() {
        write_at(machine, say, below, page)?;
    }
    Ok(())
}

/// Writes the stack as a list.
fn write_stack<P: Say, S: Page>(machine: &Machine, say: &P, page: &mut S) -> Result<(), Failed>
    ensures { Writes (S.told page.old) (S.told page.new) result (stack_text (P.says say.now) (stack_of machine.now.state)) }
{
    write_all(page, words_of_stack().as_bytes())?;
    write_left(machine, say, page)?;
    write_all(page, b"]\n")
}

/// Writes why reading ends before a STOP, and the stack.
fn write_cut<P: Say, S: Page>(
    machine: &Machine,
    say: &P,
    closing: Closing,
    page: &mut S,
) -> Result<(), Failed>
    ensures { Writes (S.told page.old) (S.told page.new) result (cut_text (P.says say.now) closing (stack_of machine.now.state)) }
{
    write_all(page, b"# ")?;
    write_closing(closing, page)?;
    write_stack(machine, say, page)
}

/// Writes how reading ends, unless that is a STOP.
#[tactic(auto, unfolding(crate::specs::Statement::end_text))]
fn write_end<P: Say, S: Page>(
    machine: &Machine,
    say: &P,
    closing: Closing,
    page: &mut S,
) -> Result<(), Failed>
    ensures { Writes (S.told page.old) (S.told page.new) result (end_text (P.says say.now) closing (stack_of machine.now.state)) }
{
    match closing {
        Closing::Stopped => Ok(()),
        Closing::Refused(_, _) => write_cut(machine, say, closing, page),
        Closing::Fault(_, _) => write_cut(machine, say, closing, page),
    }
}

/// Writes all statements, and how reading ends.
fn write_lines<L: Literals, P: Say, S: Page>(
    literals: &L,
    machine: &Machine,
    facts: &[Fact],
    say: &P,
    acts: &[Act],
    closing: Closing,
    page: &mut S,
) -> Result<(), Failed>
    ensures { Writes (S.told page.old) (S.told page.new) result (lines_text (L.value literals.now) (L.text literals.now) (L.modules literals.now) (L.names literals.now) machine.now.state facts.now (P.says say.now) acts.now closing) }
{
    write_acts(literals, machine, facts, say, acts, page)?;
    write_end(machine, say, closing, page)
}

/// Writes the same, in which each object stands by its expression.
#[tactic(auto, unfolding(crate::specs::Statement::source_text))]
fn write_expressed<L: Literals, S: Page>(
    literals: &L,
    machine: &Machine,
    facts: &[Fact],
    acts: &[Act],
    closing: Closing,
    page: &mut S,
) -> Result<(), Failed>
    ensures { Writes (S.told page.old) (S.told page.new) result (source_text (L.value literals.now) (L.text literals.now) (L.modules literals.now) (L.names literals.now) machine.now.state facts.now acts.now closing) }
{
    let names = ByName { literals, machine };
    let one = Within {
        literals,
        machine,
        facts,
        inner: names,
    };
    let two = Within {
        literals,
        machine,
        facts,
        inner: one,
    };
    let three = Within {
        literals,
        machine,
        facts,
        inner: two,
    };
    let four = Within {
        literals,
        machine,
        facts,
        inner: three,
    };
    let five = Within {
        literals,
        machine,
        facts,
        inner: four,
    };
    let six = Within {
        literals,
        machine,
        facts,
        inner: five,
    };
    let seven = Within {
        literals,
        machine,
        facts,
        inner: six,
    };
    write_lines(literals, machine, facts, &seven, acts, closing, page)
}

/// Writes the source of a pickle: a statement for what each of its opcodes did, by what is known of the objects that the machine has; and where
/// reading ended before a STOP a comment that says why, and the stack as a list.
///
/// `Failed` where the sink fails; a beginning of the source was written then.
pub fn write_source<L: Literals, S: Page>(
    literals: &L,
    machine: &Machine,
    tale: &Tale,
    page: &mut S,
) -> Result<(), Failed>
    ensures { Writes (S.told page.old) (S.told page.new) result (source_text (L.value literals.now) (L.text literals.now) (L.modules literals.now) (L.names literals.now) machine.now.state tale.now.facts.items tale.now.acts.items tale.now.closing) }
{
    let (facts, acts) = (tale.facts.as_slice(), tale.acts.as_slice());
    write_expressed(literals, machine, facts, acts, tale.closing, page)
}
