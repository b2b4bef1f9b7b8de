//! The line of the item that made an object, and of the items that changed it. `Failed` where the sink fails; a beginning of the text was
//! written then.

ghost use Rattle.std.specs.Prelude.{◌≡◌, ◌+◌, ◌-◌, ◌<◌, ◌≤◌, ◌^◌, length, unwrap_or, IfOk};
ghost use Rattle.std.specs.Option.{option_to_list};
ghost use Rattle.pickle_io.specs.Device.{Writes, each_below};
ghost use Rattle.pickle_io.specs.Text.{◌⧺◌};
ghost use Rattle.json_lines.specs.Json.{value_text};
ghost use Rattle.json_lines.specs.Line.{fields_text};
ghost use Rattle.pickle_doc.specs.Place.{offset_of};
ghost use Rattle.pickle_session.specs.Allowed.{IsAtCursor, kept_of};
ghost use Rattle.debug_json.specs.Array.{lead, picked_json, found_text, picked_text};
ghost use Rattle.debug_json.specs.Inside.Counted.{HasObjects};
ghost use Rattle.debug_json.specs.MadeFields.{does_at, made_by, changed_by, is_number, maker, gets, changer, changer_from, changer_fields, changer_json, place_fields, maker_fields, since_field, changers_field, made_fields, made_line};

use crate::offset::{next_offset, offset_at};
use crate::value::write_lead;
use json_lines::{begin_line, end_line, write_name, write_number_field};
use pickle_io::{Failed, Page, write_all};
use pickle_ops::ObjId;
use pickle_session::{Past, Session};

/// An item whose step changed an object.
#[derive(Clone, Copy)]
pub(crate) struct Changer {
    /// Its place.
    pub(crate) item: usize,
    /// Where it begins.
    pub(crate) offset: u64,
    /// How many changes the object got.
    pub(crate) changes: usize,
}

/// The object that the step over an item made, where so many objects were there after it, and its record is kept.
#[tactic(auto, using(crate::proofs::Making::made_steps))]
fn made_at<A: Past>(session: &Session<A>, place: usize, objects: usize) -> Option<usize>
    requires from { session.now.session.cursor - kept_of session.now ≤ place }
    requires before { place < session.now.session.cursor }
    requires objects { HasObjects session.now.session.document (place + 1) objects }
    ensures { result ≡ made_by (does_at session.now.session.document place) }
{
    match session.step_at(place) {
        None => None,
        Some(step) => {
            if step.is_made() {
                Some(objects.saturating_sub(1))
            } else {
                None
            }
        }
    }
}

/// Whether an object that was made has this number.
fn is_number(number: u64, made: Option<usize>) -> bool
    ensures { result ≡ is_number number made }
{
    match made {
        None => false,
        Some(made) => made as u64 == number,
    }
}

/// How many objects were there before an item, after which there are so many.
fn objects_before(made: Option<usize>, objects: usize) -> usize
    ensures { result ≡ unwrap_or made objects }
{
    match made {
        None => objects,
        Some(made) => made,
    }
}

/// The item that made an object, of those from one on before the cursor, whose records are kept.
fn maker<A: Past>(session: &Session<A>, first: usize, number: u64) -> Option<usize>
    requires { first ≡ session.now.session.cursor - kept_of session.now }
    ensures { result ≡ maker session.now.session.document first number session.now.session.cursor }
{
    let mut objects = session.machine().objects();
    let mut place = session.cursor();
    while first < place {
        place -= 1;
        let made = made_at(session, place, objects);
        if is_number(number, made) {
            return Some(place);
        }
        objects = objects_before(made, objects);
    }
    None
}

/// The object that the step over an item changed, with how many changes, where its record is kept.
#[tactic(auto, using(crate::proofs::Making::changed_steps))]
fn changed_at<A: Past>(session: &Session<A>, place: usize) -> Option<(ObjId, usize)>
    requires from { session.now.session.cursor - kept_of session.now ≤ place }
    requires before { place < session.now.session.cursor }
    requires reached { IsAtCursor session.now }
    ensures { result ≡ changed_by (does_at session.now.session.document place) }
{
    match session.step_at(place) {
        None => None,
        Some(step) => step.changed(),
    }
}

/// How many changes an object gets of these.
fn gets(number: u64, found: Option<(ObjId, usize)>) -> Option<usize>
    ensures { result ≡ gets number found }
{
    match found {
        None => None,
        Some((id, count)) => {
            if u64::from(id) == number && 0 < count {
                Some(count)
            } else {
                None
            }
        }
    }
}

/// An item with this offset before the cursor, where its step changed an object, and its record is kept.
fn changer_at<A: Past>(
    session: &Session<A>,
    number: u64,
    place: usize,
    offset: u64,
) -> Option<Changer>
    requires from { session.now.session.cursor - kept_of session.now ≤ place }
    requires before { place < session.now.session.cursor }
    requires reached { IsAtCursor session.now }
    requires offset { offset ≡ offset_of session.now.session.document place }
    ensures { result ≡ changer session.now.session.document number place }
{
    match gets(number, changed_at(session, place)) {
        None => None,
        Some(changes) => Some(Changer {
            item: place,
            offset,
            changes,
        }),
    }
}

/// Writes an item, where it begins, and how many changes the object got.
#[tactic(auto, using(json_lines::proofs::Lines::fields_steps), unfolding(crate::specs::MadeFields::changer_fields))]
fn write_changer_fields<P: Page>(changer: Changer, page: &mut P) -> Result<(), Failed>
    ensures { Writes (P.told page.old) (P.told page.new) result (fields_text (changer_fields changer)) }
{
    write_number_field("item", changer.item as u64, page)?;
    write_number_field("offset", changer.offset, page)?;
    write_number_field("changes", changer.changes as u64, page)
}

/// Writes the same as an object of JSON.
#[tactic(auto, using(crate::proofs::Arrays::object_steps), unfolding(crate::specs::MadeFields::changer_json))]
fn write_changer<P: Page>(changer: Changer, page: &mut P) -> Result<(), Failed>
    ensures { Writes (P.told page.old) (P.told page.new) result (value_text (changer_json changer)) }
{
    begin_line("changer", page)?;
    write_changer_fields(changer, page)?;
    write_all(page, b"}")
}

/// Writes the same behind so many others.
#[tactic(auto, using(pickle_io::proofs::Devices::text_steps))]
fn write_next<P: Page>(count: usize, changer: Changer, page: &mut P) -> Result<(), Failed>
    ensures { Writes (P.told page.old) (P.told page.new) result (lead count ⧺ value_text (changer_json changer)) }
{
    write_lead(count, page)?;
    write_changer(changer, page)
}

/// Writes the same, if there is one, and answers how many there are with it.
#[tactic(auto, using(crate::proofs::Picks::found_steps))]
fn write_found<P: Page>(count: usize, found: Option<Changer>, page: &mut P) -> Result<usize, Failed>
    requires few { count + 1 < 2 ^ 64 }
    ensures text { Writes (P.told page.old) (P.told page.new) result (found_text changer_json count found) }
    ensures count { IfOk result (λ n. n ≡ count + length (option_to_list found)) }
{
    match found {
        Some(changer) => {
            write_next(count, changer, page)?;
            Ok(count + 1)
        }
        None => Ok(count),
    }
}

/// Writes the items that changed an object, from one on, of which all records are kept.
#[tactic(auto, using(pickle_io::proofs::Devices::below_steps, crate::proofs::Offsets::range_steps))]
fn write_changers<A: Past, P: Page>(
    session: &Session<A>,
    first: usize,
    number: u64,
    page: &mut P,
) -> Result<(), Failed>
    requires reached { IsAtCursor session.now }
    requires first { first ≡ session.now.session.cursor - kept_of session.now }
    ensures { Writes (P.told page.old) (P.told page.new) result (each_below (picked_text changer_json (changer_from session.now.session.document first number)) (session.now.session.cursor - first)) }
{
    let mut count: usize = 0;
    let mut offset = offset_at(session, first);
    for i in 0..session.cursor() - first {
        let found = changer_at(session, number, first + i, offset);
        count = write_found(count, found, page)?;
        offset = next_offset(session, first + i, offset);
    }
    Ok(())
}

/// Writes an array of these items.
#[tactic(auto, using(crate::proofs::Picks::array_steps))]
fn write_array<A: Past, P: Page>(
    session: &Session<A>,
    first: usize,
    number: u64,
    page: &mut P,
) -> Result<(), Failed>
    requires reached { IsAtCursor session.now }
    requires first { first ≡ session.now.session.cursor - kept_of session.now }
    ensures { Writes (P.told page.old) (P.told page.new) result (value_text (picked_json changer_json (changer_from session.now.session.document first number) (session.now.session.cursor - first))) }
{
    write_all(page, b"[")?;
    write_changers(session, first, number, page)?;
    write_all(page, b"]")
}

/// Writes the field of these items.
#[tactic(auto, using(json_lines::proofs::Lines::field_steps), unfolding(crate::specs::MadeFields::changers_field))]
fn write_changed<A: Past, P: Page>(
    session: &Session<A>,
    first: usize,
    number: u64,
    page: &mut P,
) -> Result<(), Failed>
    requires reached { IsAtCursor session.now }
    requires first { first ≡ session.now.session.cursor - kept_of session.now }
    ensures { Writes (P.told page.old) (P.told page.new) result (fields_text (changers_field session.now.session.document first number session.now.session.cursor)) }
{
    write_name("changed", page)?;
    write_array(session, first, number, page)
}

/// Writes an item, and where it begins.
#[tactic(auto, using(json_lines::proofs::Lines::fields_steps), unfolding(crate::specs::MadeFields::place_fields))]
fn write_place<P: Page>(place: usize, offset: u64, page: &mut P) -> Result<(), Failed>
    ensures { Writes (P.told page.old) (P.told page.new) result (fields_text (place_fields place offset)) }
{
    write_number_field("item", place as u64, page)?;
    write_number_field("offset", offset, page)
}

/// Writes the item that made an object, where its record is kept.
#[tactic(auto, using(json_lines::proofs::Lines::fields_steps), unfolding(crate::specs::MadeFields::maker_fields))]
fn write_maker<A: Past, P: Page>(
    session: &Session<A>,
    found: Option<usize>,
    page: &mut P,
) -> Result<(), Failed>
    ensures { Writes (P.told page.old) (P.told page.new) result (fields_text (maker_fields session.now.session.document found)) }
{
    match found {
        None => Ok(()),
        Some(place) => write_place(place, offset_at(session, place), page),
    }
}

/// Writes the first item whose record is kept, where others were dropped.
#[tactic(auto, using(json_lines::proofs::Lines::fields_steps), unfolding(crate::specs::MadeFields::since_field))]
fn write_since<P: Page>(first: usize, page: &mut P) -> Result<(), Failed>
    ensures { Writes (P.told page.old) (P.told page.new) result (fields_text (since_field first)) }
{
    if 0 < first {
        write_number_field("since", first as u64, page)
    } else {
        Ok(())
    }
}

/// Writes the fields of the item that made an object, and of the items that changed it, from one on, of which all records are kept.
#[tactic(auto, using(json_lines::proofs::Lines::fields_steps), unfolding(crate::specs::MadeFields::made_fields))]
fn write_made_fields<A: Past, P: Page>(
    session: &Session<A>,
    number: u64,
    first: usize,
    page: &mut P,
) -> Result<(), Failed>
    requires reached { IsAtCursor session.now }
    requires first { first ≡ session.now.session.cursor - kept_of session.now }
    ensures { Writes (P.told page.old) (P.told page.new) result (fields_text (made_fields session.now.session number first)) }
{
    write_number_field("object", number, page)?;
    write_maker(session, maker(session, first, number), page)?;
    write_since(first, page)?;
    write_changed(session, first, number, page)
}

/// Writes the line of these, in time linear in the items from the first on and in those that `offset_at` goes over.
#[tactic(auto, using(json_lines::proofs::Lines::line_steps), unfolding(crate::specs::MadeFields::made_line))]
pub(crate) fn write_made<A: Past, P: Page>(
    session: &Session<A>,
    number: u64,
    first: usize,
    page: &mut P,
) -> Result<(), Failed>
    requires reached { IsAtCursor session.now }
    requires first { first ≡ session.now.session.cursor - kept_of session.now }
    ensures { Writes (P.told page.old) (P.told page.new) result (made_line session.now.session number first) }
{
    begin_line("made", page)?;
    write_made_fields(session, number, first, page)?;
    end_line(page)
}
