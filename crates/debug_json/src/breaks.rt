//! The line of the places that have a breakpoint. `Failed` where the sink fails; a beginning of the text was written then.

ghost use Rattle.std.specs.Prelude.{◌≡◌, ◌+◌, ◌<◌, ◌^◌, length, IfOk};
ghost use Rattle.std.specs.Option.{option_to_list};
ghost use Rattle.pickle_io.specs.Device.{Writes, each_below};
ghost use Rattle.pickle_io.specs.Text.{◌⧺◌};
ghost use Rattle.json_lines.specs.Json.{value_text};
ghost use Rattle.json_lines.specs.Line.{whole, fields_text};
ghost use Rattle.pickle_session.specs.Session.{len_of};
ghost use Rattle.debug_json.specs.Array.{lead, picked_json, found_text, picked_text};
ghost use Rattle.debug_json.specs.OwnFields.{break_at, breaks_fields, breaks_line};

use crate::value::{write_lead, write_number};
use json_lines::{begin_line, end_line, write_name};
use pickle_io::{Failed, Page, write_all};
use pickle_session::{Past, Session};

/// A place, where its item has a breakpoint.
fn break_at<A: Past>(session: &Session<A>, place: usize) -> Option<usize>
    ensures { result ≡ break_at session.now.session place }
{
    if session.has_break(place) {
        Some(place)
    } else {
        None
    }
}

/// Writes a place behind so many others.
fn write_next<P: Page>(count: usize, place: usize, page: &mut P) -> Result<(), Failed>
    ensures { Writes (P.told page.old) (P.told page.new) result (lead count ⧺ value_text (whole place)) }
{
    write_lead(count, page)?;
    write_number(place as u64, page)
}

/// Writes a place behind so many others, if there is one, and answers how many there are with it.
#[tactic(auto, using(crate::proofs::Picks::found_steps))]
fn write_found<P: Page>(count: usize, found: Option<usize>, page: &mut P) -> Result<usize, Failed>
    requires few { count + 1 < 2 ^ 64 }
    ensures text { Writes (P.told page.old) (P.told page.new) result (found_text whole count found) }
    ensures count { IfOk result (λ n. n ≡ count + length (option_to_list found)) }
{
    match found {
        Some(place) => {
            write_next(count, place, page)?;
            Ok(count + 1)
        }
        None => Ok(count),
    }
}

/// Writes the places that have a breakpoint.
#[tactic(auto, using(pickle_io::proofs::Devices::below_steps))]
fn write_places<A: Past, P: Page>(session: &Session<A>, page: &mut P) -> Result<(), Failed>
    ensures { Writes (P.told page.old) (P.told page.new) result (each_below (picked_text whole (break_at session.now.session)) (len_of session.now.session.document)) }
{
    let mut count: usize = 0;
    for place in 0..session.document().len() {
        count = write_found(count, break_at(session, place), page)?;
    }
    Ok(())
}

/// Writes an array of these places.
#[tactic(auto, using(crate::proofs::Picks::array_steps))]
fn write_array<A: Past, P: Page>(session: &Session<A>, page: &mut P) -> Result<(), Failed>
    ensures { Writes (P.told page.old) (P.told page.new) result (value_text (picked_json whole (break_at session.now.session) (len_of session.now.session.document))) }
{
    write_all(page, b"[")?;
    write_places(session, page)?;
    write_all(page, b"]")
}

/// Writes the field of these places.
fn write_field<A: Past, P: Page>(session: &Session<A>, page: &mut P) -> Result<(), Failed>
    ensures { Writes (P.told page.old) (P.told page.new) result (fields_text (breaks_fields session.now.session)) }
{
    write_name("places", page)?;
    write_array(session, page)
}

/// Writes the line of these places, by rising number, in time linear in the items.
pub(crate) fn write_breaks<A: Past, P: Page>(
    session: &Session<A>,
    page: &mut P,
) -> Result<(), Failed>
    ensures { Writes (P.told page.old) (P.told page.new) result (breaks_line session.now.session) }
{
    begin_line("breaks", page)?;
    write_field(session, page)?;
    end_line(page)
}
