//! The text of what bytes would import and call.

ghost use Rattle.std.specs.Prelude.{◌≡◌, ◌≤◌, ◌+◌, ◌*◌, ◌-◌, ◌^◌, length, drop, IfOk, IfErr};
ghost use Rattle.pickle_io.specs.Device.{Told, Writes};
ghost use Rattle.pickle_doc.specs.Document.{size_limit};
ghost use Rattle.pickle_calls.specs.Manner.{manner};
ghost use Rattle.pickle_calls.specs.Ran.{IsRun};
ghost use Rattle.pickle_further.specs.Parts.{wording, are_many, ignoring, text_from_in, is_open, lost_by_in, lost_text_in, file_frames, first_mixed, mixed_text_in, parts_in};
ghost use Rattle.pickle_further.specs.Inside.{standing_behind};
ghost use Rattle.pickle_further.specs.CallsText.{CompletesTextIn, CutsCallsTextIn, CompletesDocument, CutsDocument, PutsText, first_loss, loss_text_in, losses_text_in, kept_behind_in, kept_status};

use crate::deep::first_deep;
use crate::engine::write_items;
use crate::going::go;
use crate::leads::{first_leading, or_first, warned_status};
use crate::machine::LoaderMachine;
use crate::parts::{find_loss, find_mixed, write_found, write_from};
use crate::quiet::{is_quiet, takes_nothing};
use crate::way::{Pickles, Spot, Way};
use crate::worder::Worder;
use pickle_calls::{Detail, Ending, Naming, Ran, run_items, write_end};
use pickle_doc::Items;
use pickle_io::{Failed, Holes, Page};
use pickle_lenient::Frames;
use pickle_machine::{Machine, Slim};
use pickle_text::{Closing, TextStop};
use std::alloc::Global;

/// Whether several pickles are read one after another, each by a machine that begins anew.
fn are_many(pickles: Pickles) -> bool
    ensures { result ≡ are_many pickles }
{
    match pickles {
        Pickles::First => false,
        Pickles::All => true,
        Pickles::OneMemo => false,
    }
}

/// Whether loaders may go on behind such an end.
fn is_open(ending: Ending) -> bool
    ensures { result ≡ is_open ending }
{
    match ending {
        Ending::Closed(_, Closing::Stopped) => false,
        Ending::Closed(_, Closing::Refused(_, _)) => true,
        Ending::Closed(_, Closing::Fault(_, _)) => true,
        Ending::Unsure(_) => true,
    }
}

/// Writes what loaders may do that read so, from the first item on whose reading loses bytes.
fn write_lost<T: Worder, S: Page>(
    alloc: Global,
    detail: Detail,
    holes: &Holes,
    way: Way,
    bytes: &[u8],
    page: &mut S,
) -> Result<(), TextStop>
    requires { length bytes.now ≤ size_limit }
    ensures { PutsText (S.told page.old) (S.told page.new) (lost_by_in (wording T.telling T.words) (manner detail holes.now) way bytes.now) result }
{
    let mut machine = LoaderMachine::new(alloc, Machine::start(alloc, are_many(way.pickles)));
    write_found::<T, S>(alloc, detail, holes, way, bytes, &mut machine, page)
}

/// What a loader in C does with frames that reads a file which shows nothing ahead.
fn file_frames(pickles: Pickles) -> Frames
    ensures { result ≡ file_frames pickles }
{
    match pickles {
        Pickles::First => Frames::Buffered,
        Pickles::All => Frames::Buffered,
        Pickles::OneMemo => Frames::Held,
    }
}

/// From where frames may be mixed, if they may be: a machine goes over the items.
fn seek_mixed(
    alloc: Global,
    detail: Detail,
    pickles: Pickles,
    bytes: &[u8],
) -> Result<Option<u64>, TextStop>
    requires { length bytes.now ≤ size_limit }
    ensures ok { IfOk result (λ x. x ≡ first_mixed detail pickles bytes.now) }
    ensures err { IfErr result (λ e. e ≡ TextStop.Memory) }
{
    let way = Way {
        pickles,
        frames: file_frames(pickles),
    };
    let mut machine = LoaderMachine::new(alloc, Machine::start(alloc, are_many(pickles)));
    find_mixed(alloc, detail, way, bytes, &mut machine)
}

/// From where frames may be mixed, if they may be.
pub fn first_mixed(
    alloc: Global,
    detail: Detail,
    pickles: Pickles,
    bytes: &[u8],
) -> Result<Option<u64>, TextStop>
    requires { length bytes.now ≤ size_limit }
    ensures ok { IfOk result (λ x. x ≡ first_mixed detail pickles bytes.now) }
    ensures err { IfErr result (λ e. e ≡ TextStop.Memory) }
{
    if is_quiet(alloc, bytes)? {
        return Ok(None);
    }
    seek_mixed(alloc, detail, pickles, bytes)
}

/// Writes it, if they may be.
fn write_mixed<T: Worder, S: Page>(
    holes: &Holes,
    mixed: Option<u64>,
    page: &mut S,
) -> Result<(), Failed>
    ensures { Writes (S.told page.old) (S.told page.new) result (mixed_text_in (wording T.telling T.words) holes.now mixed) }
{
    match mixed {
        Some(offset) => T::write_mixing(holes.in_file(offset), page),
        None => Ok(()),
    }
}

/// Writes what loaders may do that lose bytes of frames, and from where others may mix frames: machines go over the items.
fn write_found_lossy<T: Worder, S: Page>(
    alloc: Global,
    detail: Detail,
    holes: &Holes,
    pickles: Pickles,
    bytes: &[u8],
    page: &mut S,
) -> Result<(), TextStop>
    requires { length bytes.now ≤ size_limit }
    ensures { PutsText (S.told page.old) (S.told page.new) (lost_text_in (wording T.telling T.words) (manner detail holes.now) pickles bytes.now) result }
{
    let way = Way {
        pickles,
        frames: Frames::Buffered,
    };
    write_lost::<T, S>(alloc, detail, holes, way, bytes, page)?;
    let mixed = seek_mixed(alloc, detail, pickles, bytes)?;
    write_mixed::<T, S>(holes, mixed, page)?;
    Ok(())
}

/// Writes what loaders may do that lose bytes of frames, and from where others may mix frames.
fn write_lossy<T: Worder, S: Page>(
    alloc: Global,
    detail: Detail,
    holes: &Holes,
    pickles: Pickles,
    bytes: &[u8],
    page: &mut S,
) -> Result<(), TextStop>
    requires { length bytes.now ≤ size_limit }
    ensures { PutsText (S.told page.old) (S.told page.new) (lost_text_in (wording T.telling T.words) (manner detail holes.now) pickles bytes.now) result }
{
    if is_quiet(alloc, bytes)? {
        return Ok(());
    }
    write_found_lossy::<T, S>(alloc, detail, holes, pickles, bytes, page)
}

/// Writes what loaders may do that ignore frames, behind the items that were run. Their machine has all that the objects hold, which the
/// slim one does not keep, and both are gone when it returns.
fn write_going_on<T: Worder, S: Page>(
    alloc: Global,
    holes: &Holes,
    pickles: Pickles,
    bytes: &[u8],
    ran: Ran,
    slim: Slim<'_>,
    page: &mut S,
) -> Result<(), TextStop>
    requires small { length bytes.now ≤ size_limit }
    requires offset { ran.offset ≤ length bytes.now }
    requires place { ran.place ≤ length bytes.now }
    requires heap { length slim.state.heap ≤ ran.place }
    ensures { PutsText (S.told page.old) (S.told page.new)
        (text_from_in (wording T.telling T.words) holes.now (ignoring pickles) (standing_behind bytes.now slim.entry.state ran)) result }
{
    let way = Way {
        pickles,
        frames: Frames::Ignored,
    };
    let at = Spot {
        offset: ran.offset,
        place: ran.place,
        left: 0,
    };
    let rest = bytes.split_at(ran.offset as usize).1;
    let mut machine = LoaderMachine::new(alloc, slim.into_whole(alloc)?);
    write_from::<T, S>(
        alloc,
        holes,
        way,
        rest,
        at,
        ran.course.naming,
        &mut machine,
        page,
    )
}

/// Writes what loaders may do that ignore frames, behind the items that were run. Where they take nothing more, no machine is needed.
fn write_ignoring<T: Worder, S: Page>(
    alloc: Global,
    holes: &Holes,
    pickles: Pickles,
    bytes: &[u8],
    ran: Ran,
    slim: Slim<'_>,
    page: &mut S,
) -> Result<(), TextStop>
    requires small { length bytes.now ≤ size_limit }
    requires offset { ran.offset ≤ length bytes.now }
    requires place { ran.place ≤ length bytes.now }
    requires heap { length slim.state.heap ≤ ran.place }
    ensures { PutsText (S.told page.old) (S.told page.new)
        (text_from_in (wording T.telling T.words) holes.now (ignoring pickles) (standing_behind bytes.now slim.entry.state ran)) result }
{
    let rest = bytes.split_at(ran.offset as usize).1;
    if takes_nothing(alloc, rest)? {
        return Ok(());
    }
    write_going_on::<T, S>(alloc, holes, pickles, bytes, ran, slim, page)
}

/// Writes what loaders may do behind the end of the lines.
fn write_parts<T: Worder, S: Page>(
    alloc: Global,
    detail: Detail,
    holes: &Holes,
    pickles: Pickles,
    bytes: &[u8],
    ran: Ran,
    slim: Slim<'_>,
    page: &mut S,
) -> Result<(), TextStop>
    requires small { length bytes.now ≤ size_limit }
    requires offset { ran.offset ≤ length bytes.now }
    requires place { ran.place ≤ length bytes.now }
    requires heap { length slim.state.heap ≤ ran.place }
    ensures { (a b : Told) → (w : IsRun T.telling (manner detail holes.now) (are_many pickles) bytes.now a b slim.entry.state ran)
        → PutsText (S.told page.old) (S.told page.new) (parts_in (wording T.telling T.words) (manner detail holes.now) pickles w.d) result }
{
    if !is_open(ran.ending) {
        return Ok(());
    }
    write_ignoring::<T, S>(alloc, holes, pickles, bytes, ran, slim, page)?;
    write_lossy::<T, S>(alloc, detail, holes, pickles, bytes, page)
}

/// Writes the text of the document that the bytes read as.
fn write_document<T: Worder, S: Page>(
    alloc: Global,
    detail: Detail,
    holes: &Holes,
    pickles: Pickles,
    bytes: &[u8],
    page: &mut S,
) -> Result<u8, TextStop>
    requires { length bytes.now ≤ size_limit }
    ensures ok { IfOk result (CompletesDocument (wording T.telling T.words) (manner detail holes.now) pickles bytes.now (S.told page.old) (S.told page.new)) }
    ensures err { IfErr result (CutsDocument (wording T.telling T.words) (manner detail holes.now) pickles bytes.now (S.told page.old) (S.told page.new)) }
{
    let many = are_many(pickles);
    let mut slim = Slim::new(alloc, many, bytes);
    let ran = run_items::<T, _, S>(
        alloc,
        detail,
        holes,
        many,
        Items::new(bytes),
        &mut slim,
        page,
    )?;
    let status = write_end::<T, S>(holes, bytes, ran.course, ran.ending, page)?;
    let leads = first_leading(&slim);
    let deep = first_deep(alloc, &slim)?;
    T::write_warning(leads, deep, page)?;
    write_parts::<T, S>(alloc, detail, holes, pickles, bytes, ran, slim, page)?;
    Ok(warned_status(or_first(leads, deep), status))
}

/// Where the first item is whose reading by one unpickler loses bytes, if there is one.
fn first_loss(alloc: Global, detail: Detail, bytes: &[u8]) -> Result<Option<u64>, TextStop>
    requires { length bytes.now ≤ size_limit }
    ensures ok { IfOk result (λ x. x ≡ first_loss detail bytes.now) }
    ensures err { IfErr result (λ e. e ≡ TextStop.Memory) }
{
    let way = Way {
        pickles: Pickles::OneMemo,
        frames: Frames::Buffered,
    };
    let mut machine = LoaderMachine::new(alloc, Machine::start(alloc, false));
    find_loss(alloc, detail, way, bytes, &mut machine)
}

/// Where the first item is whose reading by one unpickler loses bytes, and from where frames may be mixed.
#[derive(Clone, Copy)]
pub struct Doubts {
    /// The first.
    pub loss: Option<u64>,
    /// The second.
    pub mixed: Option<u64>,
}

/// Both, if they are anywhere.
fn find_doubts(alloc: Global, detail: Detail, bytes: &[u8]) -> Result<Doubts, TextStop>
    requires { length bytes.now ≤ size_limit }
    ensures loss { IfOk result (λ x. x.loss ≡ first_loss detail bytes.now) }
    ensures mixed { IfOk result (λ x. x.mixed ≡ first_mixed detail Pickles.OneMemo bytes.now) }
    ensures err { IfErr result (λ e. e ≡ TextStop.Memory) }
{
    if is_quiet(alloc, bytes)? {
        return Ok(Doubts {
            loss: None,
            mixed: None,
        });
    }
    let loss = first_loss(alloc, detail, bytes)?;
    let mixed = seek_mixed(alloc, detail, Pickles::OneMemo, bytes)?;
    Ok(Doubts { loss, mixed })
}

/// Writes what one unpickler may do that loses bytes, first at this offset.
fn write_losses<T: Worder, S: Page>(
    alloc: Global,
    detail: Detail,
    holes: &Holes,
    bytes: &[u8],
    offset: u64,
    page: &mut S,
) -> Result<(), TextStop>
    requires { length bytes.now ≤ size_limit }
    ensures { PutsText (S.told page.old) (S.told page.new) (loss_text_in (wording T.telling T.words) (manner detail holes.now) bytes.now offset) result }
{
    T::write_losing(holes.in_file(offset), page)?;
    let left = Way {
        pickles: Pickles::OneMemo,
        frames: Frames::Buffered,
    };
    write_lost::<T, S>(alloc, detail, holes, left, bytes, page)?;
    let held = Way {
        pickles: Pickles::OneMemo,
        frames: Frames::Held,
    };
    write_lost::<T, S>(alloc, detail, holes, held, bytes, page)
}

/// Writes it, if they are lost anywhere.
fn write_losses_if<T: Worder, S: Page>(
    alloc: Global,
    detail: Detail,
    holes: &Holes,
    bytes: &[u8],
    loss: Option<u64>,
    page: &mut S,
) -> Result<(), TextStop>
    requires { length bytes.now ≤ size_limit }
    ensures { PutsText (S.told page.old) (S.told page.new) (losses_text_in (wording T.telling T.words) (manner detail holes.now) bytes.now loss) result }
{
    match loss {
        None => Ok(()),
        Some(offset) => write_losses::<T, S>(alloc, detail, holes, bytes, offset, page),
    }
}

/// Writes what one unpickler may do that loses bytes, and from where others may mix frames.
fn write_behind<T: Worder, S: Page>(
    alloc: Global,
    detail: Detail,
    holes: &Holes,
    bytes: &[u8],
    loss: Option<u64>,
    mixed: Option<u64>,
    page: &mut S,
) -> Result<(), TextStop>
    requires { length bytes.now ≤ size_limit }
    ensures { PutsText (S.told page.old) (S.told page.new) (kept_behind_in (wording T.telling T.words) (manner detail holes.now) bytes.now loss mixed) result }
{
    write_losses_if::<T, S>(alloc, detail, holes, bytes, loss, page)?;
    write_mixed::<T, S>(holes, mixed, page)?;
    Ok(())
}

/// The status: 1 where bytes are lost, or frames may be mixed.
fn kept_status(loss: Option<u64>, mixed: Option<u64>, status: u8) -> u8
    ensures { result ≡ kept_status loss mixed status }
{
    if loss.is_some() || mixed.is_some() {
        1
    } else {
        status
    }
}

/// Writes the text of bytes that one unpickler reads on and on.
fn write_kept<T: Worder, S: Page>(
    alloc: Global,
    detail: Detail,
    holes: &Holes,
    bytes: &[u8],
    page: &mut S,
) -> Result<u8, TextStop>
    requires { length bytes.now ≤ size_limit }
    ensures ok { IfOk result (CompletesTextIn (wording T.telling T.words) (manner detail holes.now) Pickles.OneMemo bytes.now (S.told page.old) (S.told page.new)) }
    ensures err { IfErr result (CutsCallsTextIn (wording T.telling T.words) (manner detail holes.now) Pickles.OneMemo bytes.now (S.told page.old) (S.told page.new)) }
{
    let doubts = find_doubts(alloc, detail, bytes)?;
    let mut machine = LoaderMachine::new(alloc, Machine::start(alloc, false));
    let way = Way {
        pickles: Pickles::OneMemo,
        frames: Frames::Ignored,
    };
    let at = Spot {
        offset: 0,
        place: 0,
        left: 0,
    };
    let first = go(alloc, way, bytes, at, &mut machine)?;
    let end = write_items::<T, S>(
        alloc,
        holes,
        way,
        bytes,
        at,
        Naming::begin(detail, 0),
        first,
        &mut machine,
        page,
    )?;
    let status = write_end::<T, S>(
        holes,
        bytes,
        end.course,
        Ending::Closed(0, end.closing),
        page,
    )?;
    T::write_leading(end.leads, page)?;
    write_behind::<T, S>(alloc, detail, holes, bytes, doubts.loss, doubts.mixed, page)?;
    Ok(kept_status(doubts.loss, doubts.mixed, warned_status(end.leads, status)))
}

/// Writes what the pickles of the bytes would import and call, as `T` tells it: a line for each item that does, the last lines, and behind a refused item,
/// a fault, or an end of which loaders disagree what those may do that go on. Answers the status: 0 where the reading ended with the
/// bytes, right behind a STOP, no import leads to the unpickler, and no tuple is nested too deep; with one memo, no bytes of a frame are lost,
/// and no frames may be mixed; else 1. The bytes are what is left of a file without these holes, and the offsets that are shown are those in
/// the file. There are to be no more bytes than the limit.
///
/// `Memory` (M) where memory runs out, `Failed` where the sink fails; what was written then is a beginning of the text.
pub fn calls<T: Worder, S: Page>(
    alloc: Global,
    detail: Detail,
    holes: &Holes,
    pickles: Pickles,
    bytes: &[u8],
    page: &mut S,
) -> Result<u8, TextStop>
    requires { length bytes.now ≤ size_limit }
    ensures ok { IfOk result (CompletesTextIn (wording T.telling T.words) (manner detail holes.now) pickles bytes.now (S.told page.old) (S.told page.new)) }
    ensures err { IfErr result (CutsCallsTextIn (wording T.telling T.words) (manner detail holes.now) pickles bytes.now (S.told page.old) (S.told page.new)) }
{
    match pickles {
        Pickles::First => write_document::<T, S>(alloc, detail, holes, Pickles::First, bytes, page),
        Pickles::All => write_document::<T, S>(alloc, detail, holes, Pickles::All, bytes, page),
        Pickles::OneMemo => write_kept::<T, S>(alloc, detail, holes, bytes, page),
    }
}
