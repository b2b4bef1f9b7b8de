//! A line of a script is obeyed and answered.

ghost use Rattle.std.specs.Prelude.{◌≡◌, Some};
ghost use Rattle.pickle_io.specs.Device.{Writes};
ghost use Rattle.pickle_session.specs.Session.{state_at};
ghost use Rattle.debug_json.specs.Lines.{nothing_line, quit_line, shown_line, said_line};
ghost use Rattle.debug_json.specs.Says.{IsTold};
ghost use Rattle.debug_json.specs.Answered.{AnswersSaying, AnswersJsonLine};

use crate::asked::{Asked, read_asked};
use crate::breaks::write_breaks;
use crate::items::{write_items, write_some_items};
use crate::made::write_made;
use crate::memo::write_memo;
use crate::obey::obey;
use crate::objects::{write_objects, write_show, write_some_objects};
use crate::place::write_where;
use crate::refused::{write_no_item, write_no_object, write_refused_syntax};
use crate::reply::write_reply;
use crate::said::{Said, refuses};
use crate::stack::write_stack;
use crate::step::{write_no_step, write_step};
use json_lines::{begin_line, end_line};
use pickle_io::{Failed, Page};
use pickle_machine::Machine;
use pickle_script::{Query, Syntax};
use pickle_session::{Past, Session};
use std::alloc::Global;

/// Writes the line that answers a line without a word.
fn write_nothing<P: Page>(page: &mut P) -> Result<(), Failed>
    ensures { Writes (P.told page.old) (P.told page.new) result nothing_line }
{
    begin_line("nothing", page)?;
    end_line(page)
}

/// Writes the line that answers `quit`.
fn write_quit<P: Page>(page: &mut P) -> Result<(), Failed>
    ensures { Writes (P.told page.old) (P.told page.new) result quit_line }
{
    begin_line("quit", page)?;
    end_line(page)
}

/// Writes what is shown of a session that has this machine.
fn write_shown<A: Past, P: Page>(
    session: &Session<A>,
    machine: &Machine,
    query: Query,
    page: &mut P,
) -> Result<(), Failed>
    requires { machine.now ≡ session.now.machine }
    ensures { Writes (P.told page.old) (P.told page.new) result (shown_line query session.now.session session.now.machine.state) }
{
    match query {
        Query::Items => write_items(session, page),
        Query::Objects => write_objects(machine.heap(), page),
        Query::Stack => write_stack(machine, page),
        Query::Memo => write_memo(machine, page),
        Query::Show(number) => write_show(machine.heap(), number, page),
        Query::Where => write_where(session, page),
    }
}

/// Writes what is said of a session. Its machine is at its cursor. What is told of a step has a record.
#[tactic(auto, using(crate::proofs::Stepping::told_steps))]
fn write_said<A: Past, P: Page>(
    session: &Session<A>,
    said: Said,
    page: &mut P,
) -> Result<(), Failed>
    requires { IsTold said session.now }
    ensures line { Writes (P.told page.old) (P.told page.new) result (said_line said session.now.session session.now.machine.state) }
    ensures reached { state_at session.now.session.document session.now.session.cursor ≡ Some session.now.machine.state }
{
    let machine = session.machine();
    match said {
        Said::Nothing => write_nothing(page),
        Said::Quit => write_quit(page),
        Said::Replied(reply) => write_reply(session.document().end(), reply, page),
        Said::NoItem(offset) => write_no_item(offset, page),
        Said::NoObject(number) => write_no_object(number, page),
        Said::Bad(syntax) => write_refused_syntax(syntax, page),
        Said::Shown(query) => write_shown(session, machine, query, page),
        Said::Breaks => write_breaks(session, page),
        Said::SomeItems(from, to) => write_some_items(session, from, to, page),
        Said::SomeObjects(from, to) => write_some_objects(machine.heap(), from, to, page),
        Said::Step => write_step(session, page),
        Said::NoStep => write_no_step(page),
        Said::Made(number, first) => write_made(session, number, first, page),
    }
}

/// Obeys what a line asks for, and answers it by one line of JSON, which tells what the text of `answer_line` tells where the line is one of the
/// texts. Answers whether it is a refusal.
/// `Failed` where the sink fails: the line is obeyed then, too, and a beginning of the line of JSON was written.
#[tactic(auto, using(crate::proofs::Answering::answer_steps))]
pub fn answer_json<A: Past, P: Page>(
    alloc: Global,
    session: &mut Session<A>,
    says: Result<Asked, Syntax>,
    page: &mut P,
) -> Result<bool, Failed>
    ensures { AnswersSaying says session.old session.new (P.told page.old) (P.told page.new) result }
{
    let said = obey(alloc, session, says);
    write_said(session, said, page)?;
    Ok(refuses(said))
}

/// Obeys one line, given without its newline, and answers it as `answer_json` does. The line `quit` changes nothing.
pub fn answer_json_line<A: Past, P: Page>(
    alloc: Global,
    session: &mut Session<A>,
    line: &[u8],
    page: &mut P,
) -> Result<bool, Failed>
    ensures { AnswersJsonLine line.now session.old session.new (P.told page.old) (P.told page.new) result }
{
    let says = read_asked(alloc, line);
    answer_json(alloc, session, says, page)
}
