//! A line is obeyed, and what is said of it.

ghost use Rattle.std.specs.Prelude.{◌≡◌, ◌-◌};
ghost use Rattle.pickle_session.specs.Allowed.{kept_of};
ghost use Rattle.debug_json.specs.Says.{SaysLine, SaysOwn, SaysBy};

use crate::asked::{Asked, Own};
use crate::said::Said;
use pickle_script::{Action, Line, Place, Query, Syntax};
use pickle_session::{Command, Past, Session};
use std::alloc::Global;

/// Obeys a command.
fn obey_command<P: Past>(alloc: Global, session: &mut Session<P>, command: &Command) -> Said
    ensures { SaysLine (Line.Command command.now) session.old result session.new }
{
    Said::Replied(session.obey(alloc, command))
}

/// Obeys a command at the place that a line names, or says that there is none.
#[tactic(auto, using(crate::proofs::Obeyed::placing_steps))]
fn obey_at<P: Past>(alloc: Global, session: &mut Session<P>, place: Place, action: Action) -> Said
    ensures { SaysLine (Line.At place action) session.old result session.new }
{
    let k = match place {
        Place::Number(k) => k,
        Place::Offset(offset) => match session.place_at(offset) {
            Some(k) => k,
            None => return Said::NoItem(offset),
        },
    };
    obey_command(alloc, session, &action.at(k))
}

/// What is shown where that is asked.
#[tactic(auto, using(crate::proofs::Obeyed::showing_steps))]
fn show<P: Past>(session: &Session<P>, query: Query) -> Said
    ensures { SaysLine (Line.Query query) session.now result session.now }
{
    let objects = session.machine().objects() as u64;
    match query {
        Query::Items => Said::Shown(Query::Items),
        Query::Objects => Said::Shown(Query::Objects),
        Query::Stack => Said::Shown(Query::Stack),
        Query::Memo => Said::Shown(Query::Memo),
        Query::Show(number) => {
            if number < objects {
                Said::Shown(Query::Show(number))
            } else {
                Said::NoObject(number)
            }
        }
        Query::Where => Said::Shown(Query::Where),
    }
}

/// Obeys a line of the texts.
fn obey_line<P: Past>(alloc: Global, session: &mut Session<P>, line: Line) -> Said
    ensures { SaysLine line session.old result session.new }
{
    match line {
        Line::Nothing => Said::Nothing,
        Line::Command(command) => obey_command(alloc, session, &command),
        Line::At(place, action) => obey_at(alloc, session, place, action),
        Line::Query(query) => show(session, query),
        Line::Quit => Said::Quit,
    }
}

/// The place of the first item whose record is kept, as those of all items after it before the cursor are.
fn first_kept<P: Past>(session: &Session<P>) -> usize
    ensures { result ≡ session.now.session.cursor - kept_of session.now }
{
    session.cursor().saturating_sub(session.kept())
}

/// Who made an object and who changed it, if there is one of this number.
#[tactic(auto, using(crate::proofs::Making::telling_steps))]
fn tell_made<P: Past>(session: &Session<P>, number: u64) -> Said
    ensures { SaysOwn (Own.Made number) session.now result session.now }
{
    let objects = session.machine().objects() as u64;
    if number < objects {
        Said::Made(number, first_kept(session))
    } else {
        Said::NoObject(number)
    }
}

/// What is told in JSON alone.
#[tactic(auto, using(crate::proofs::Stepping::tracing_steps))]
fn tell<P: Past>(session: &Session<P>, own: Own) -> Said
    ensures { SaysOwn own session.now result session.now }
{
    match own {
        Own::Breaks => Said::Breaks,
        Own::Items(from, to) => Said::SomeItems(from, to),
        Own::Objects(from, to) => Said::SomeObjects(from, to),
        Own::Trace => {
            if 0 < session.kept() {
                Said::Step
            } else {
                Said::NoStep
            }
        }
        Own::Made(number) => tell_made(session, number),
    }
}

/// Obeys what a line asks for.
pub(crate) fn obey<P: Past>(
    alloc: Global,
    session: &mut Session<P>,
    says: Result<Asked, Syntax>,
) -> Said
    ensures { SaysBy says session.old result session.new }
{
    match says {
        Ok(Asked::Line(line)) => obey_line(alloc, session, line),
        Ok(Asked::Own(own)) => tell(session, own),
        Err(syntax) => Said::Bad(syntax),
    }
}
