//! What is shown of a session.

ghost use Rattle.std.specs.Prelude.{◌≡◌, ◌<◌, ◌≤◌, length, MatchOption, Ok};
ghost use Rattle.pickle_script.specs.Inside.Progress.{WritesQuery, WritesLine};

use crate::conversation::items::write_items;
use crate::conversation::line::{Line, Query, Syntax};
use crate::conversation::outcome::Outcome;
use crate::conversation::place::write_where;
use crate::conversation::syntax::{write_no_such_object, write_syntax};
use object_texts::{write_memo, write_objects, write_show, write_stack};
use pickle_io::{Failed, Page};
use pickle_ops::ObjId;
use pickle_session::{Past, Session};
use pickle_text::TextStop;
use std::alloc::Global;

/// The object of this number, where there is one.
fn object_of<P: Past>(session: &Session<P>, number: u64) -> Option<ObjId>
    ensures { MatchOption result (length session.now.machine.state.heap ≤ number) (λ id. (id ≡ number) × (id < length session.now.machine.state.heap)) }
{
    if number < session.machine().objects() as u64 {
        Some(number as ObjId)
    } else {
        None
    }
}

/// Writes that there is no such object.
#[tactic(auto, using(crate::proofs::Queries::query_steps))]
fn write_missing<P: Past, K: Page>(
    session: &Session<P>,
    number: u64,
    page: &mut K,
) -> Result<Outcome, Failed>
    requires { length session.now.machine.state.heap ≤ number }
    ensures { WritesQuery (Query.Show number) session.now.session session.now.machine.state (K.told page.old) (K.told page.new) result }
{
    write_no_such_object(page)?;
    Ok(Outcome::Refused)
}

/// Writes an object with all that it contains, or that memory runs out for it.
#[tactic(auto, using(crate::proofs::Queries::query_steps))]
fn write_object_of<P: Past, K: Page>(
    alloc: Global,
    session: &Session<P>,
    id: ObjId,
    page: &mut K,
) -> Result<Outcome, Failed>
    requires { id < length session.now.machine.state.heap }
    ensures { WritesQuery (Query.Show id) session.now.session session.now.machine.state (K.told page.old) (K.told page.new) result }
{
    match write_show(alloc, session.machine(), id, page) {
        Ok(()) => Ok(Outcome::Accepted),
        Err(TextStop::Failed) => Err(Failed),
        Err(TextStop::Memory) => {
            write_syntax(Syntax::Memory, page)?;
            Ok(Outcome::Refused)
        }
    }
}

/// Writes the object of this number with all that it contains, or that there is none.
fn write_shown<P: Past, K: Page>(
    alloc: Global,
    session: &Session<P>,
    number: u64,
    page: &mut K,
) -> Result<Outcome, Failed>
    ensures { WritesQuery (Query.Show number) session.now.session session.now.machine.state (K.told page.old) (K.told page.new) result }
{
    match object_of(session, number) {
        Some(id) => write_object_of(alloc, session, id, page),
        None => write_missing(session, number, page),
    }
}

/// Writes what is asked of a session. Memory is asked for to show an object that is there, and for nothing else.
#[tactic(auto, using(crate::proofs::Refusals::telling_steps, crate::proofs::Queries::line_of_query))]
pub fn write_query<P: Past, K: Page>(
    alloc: Global,
    session: &Session<P>,
    query: Query,
    page: &mut K,
) -> Result<Outcome, Failed>
    ensures { WritesLine (Ok (Line.Query query)) session.now session.now (K.told page.old) (K.told page.new) result }
{
    let machine = session.machine();
    match query {
        Query::Items => {
            write_items(session, page)?;
            Ok(Outcome::Accepted)
        }
        Query::Objects => {
            write_objects(machine, page)?;
            Ok(Outcome::Accepted)
        }
        Query::Stack => {
            write_stack(machine, page)?;
            Ok(Outcome::Accepted)
        }
        Query::Memo => {
            write_memo(machine, page)?;
            Ok(Outcome::Accepted)
        }
        Query::Show(number) => write_shown(alloc, session, number, page),
        Query::Where => {
            write_where(session, page)?;
            Ok(Outcome::Accepted)
        }
    }
}
