//! The line of the stack.

ghost use Rattle.std.specs.Prelude.{◌≡◌, length, slice_get, IfOk};
ghost use Rattle.std.specs.Option.{option_to_list};
ghost use Rattle.pickle_io.specs.Device.{Writes, each};
ghost use Rattle.pickle_machine.specs.State.{objects_below, stack_of};
ghost use Rattle.object_texts.specs.ObjectText.{next_text};
ghost use Rattle.object_texts.specs.StackText.{stack_mark_text, section_text, marked_text, stack_text};
ghost use Rattle.object_texts.specs.Inside.Between.{between};

use crate::object::write_next;
use pickle_io::{Failed, Page, write_all, write_decimal};
use pickle_machine::Machine;

/// Writes a mark, by the place of its item.
#[tactic(auto, using(pickle_io::proofs::Devices::text_steps), unfolding(crate::specs::StackText::stack_mark_text))]
fn write_mark<S: Page>(place: usize, page: &mut S) -> Result<(), Failed>
    ensures { Writes (S.told page.old) (S.told page.new) result (stack_mark_text place) }
{
    write_all(page, b" (")?;
    write_decimal(place as u64, page)
}

/// Writes the object that has this many below it on the stack, if there is one.
fn write_at<S: Page>(machine: &Machine, below: usize, page: &mut S) -> Result<(), Failed>
    ensures { Writes (S.told page.old) (S.told page.new) result (each next_text (option_to_list (slice_get (stack_of machine.now.state) below))) }
{
    match machine.stack_at(below) {
        Some(id) => write_next(id, page),
        None => Ok(()),
    }
}

/// Writes the objects of the stack from one height up to another.
fn write_between<S: Page>(
    machine: &Machine,
    from: usize,
    to: usize,
    page: &mut S,
) -> Result<(), Failed>
    ensures { Writes (S.told page.old) (S.told page.new) result (each next_text (between from to (stack_of machine.now.state))) }
{
    for below in from..to {
        write_at(machine, below, page)?;
    }
    Ok(())
}

/// Writes the section of the stack from one height up to another, and the mark above it.
fn write_section<S: Page>(
    machine: &Machine,
    from: usize,
    to: usize,
    mark: usize,
    page: &mut S,
) -> Result<(), Failed>
    ensures { Writes (S.told page.old) (S.told page.new) result (section_text (between from to (stack_of machine.now.state)) mark) }
{
    write_between(machine, from, to, page)?;
    write_mark(mark, page)
}

/// Writes the sections of the stack under the top one, from the lowest, and answers how many objects they have.
fn write_marked<S: Page>(machine: &Machine, page: &mut S) -> Result<usize, Failed>
    ensures text { Writes (S.told page.old) (S.told page.new) result (marked_text machine.now.state.marked) }
    ensures below { IfOk result (λ n. n ≡ length (objects_below machine.now.state.marked)) }
{
    let mut from = 0;
    for i in 0..machine.marks_len() {
        let Some((mark, to)) = machine.mark(i) else {
            unreachable!();
        };
        write_section(machine, from, to, mark, page)?;
        from = to;
    }
    Ok(from)
}

/// Writes the objects of the top section, below which there are this many.
fn write_top<S: Page>(machine: &Machine, below: usize, page: &mut S) -> Result<(), Failed>
    requires { below ≡ length (objects_below machine.now.state.marked) }
    ensures { Writes (S.told page.old) (S.told page.new) result (each next_text machine.now.state.top) }
{
    write_between(machine, below, machine.stack_len(), page)
}

/// Writes the stack of a machine: `stack`, and from the bottom ` #n` for an object and ` (k` for a mark of item k. It takes no
/// memory. `Failed` where the sink fails; a beginning of the line was written then.
#[tactic(auto, using(pickle_io::proofs::Devices::text_steps), unfolding(crate::specs::StackText::stack_text))]
pub fn write_stack<S: Page>(machine: &Machine, page: &mut S) -> Result<(), Failed>
    ensures { Writes (S.told page.old) (S.told page.new) result (stack_text machine.now.state) }
{
    write_all(page, b"stack")?;
    let below = write_marked(machine, page)?;
    write_top(machine, below, page)?;
    write_all(page, b"\n")
}
