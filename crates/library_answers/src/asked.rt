//! What a caller asks for by options, a bit each, and by the holes that it gives.

ghost use Rattle.std.specs.Prelude.{◌≡◌, ◌≢◌, ◌+◌, [], ◌∷◌, ◌++◌, true, None, OnOk, IfOk};
ghost use Rattle.pickle_io.specs.Holes.{end_of};
ghost use Rattle.pickle_io.specs.Holes.{may_follow};
ghost use Rattle.library_answers.specs.Asked.{is_given, is_many, is_loose, are_modes, pickles_by, pickles_of, pickles_of_input, pickles_left, detail_of, granted_of, hole_of, stand_from, holes_of};

use pickle_calls::Detail;
use pickle_further::Pickles;
use pickle_io::{Hole, Holes};
use pickle_reach::Granted;
use std::alloc::{AllocError, Global};

/// Several pickles that follow one another.
const MANY: u32 = 1;
/// Frames are not looked at: no option of imports and calls.
const UNFRAMED: u32 = 2;
/// Of imports and calls: the first pickle alone.
const FIRST: u32 = 4;
/// Of imports and calls: the memo is kept from one pickle to the next.
const MEMO_KEPT: u32 = 8;
/// Of imports and calls: arguments are shown in full.
const FULL: u32 = 16;
/// All of these.
const ALL: u32 = 31;

/// Of a loader: it knows extension codes.
const EXTENSIONS: u32 = 1;
/// It knows persistent ids.
const PERSISTENT_IDS: u32 = 2;
/// It was given buffers.
const BUFFERS: u32 = 4;
/// All of these.
const ALL_GRANTED: u32 = 7;

/// Bytes of an input that are left out.
#[repr(C)]
#[derive(Clone, Copy)]
pub struct GivenHole {
    /// The offset of the first of them.
    pub offset: u64,
    /// How many they are.
    pub size: u64,
}

/// Whether an option is given.
fn is_given(options: u32, bit: u32) -> bool
    ensures { result ≡ is_given options bit }
{
    options & bit != 0
}

/// Whether several pickles follow one another.
pub fn is_many(options: u32) -> bool
    ensures { result ≡ is_many options }
{
    is_given(options, MANY)
}

/// Whether frames are not looked at.
pub fn is_loose(options: u32) -> bool
    ensures { result ≡ is_loose options }
{
    is_given(options, UNFRAMED)
}

/// Whether they say how an input is read, and nothing else.
pub fn are_modes(options: u32) -> bool
    ensures { result ≡ are_modes options }
{
    options < FIRST
}

/// The pickles that are read.
fn pickles_by(first: bool, memo_kept: bool) -> Option<Pickles>
    ensures { result ≡ pickles_by first memo_kept }
{
    match (first, memo_kept) {
        (false, false) => Some(Pickles::All),
        (true, false) => Some(Pickles::First),
        (false, true) => Some(Pickles::OneMemo),
        (true, true) => None,
    }
}

/// The pickles that are read, where these are options for that and go together.
fn pickles_of(options: u32) -> Option<Pickles>
    ensures { result ≡ pickles_of options }
{
    if options <= ALL {
        pickles_by(is_given(options, FIRST), is_given(options, MEMO_KEPT))
    } else {
        None
    }
}

/// The same of an input that is no session's.
fn pickles_of_input(options: u32) -> Option<Pickles>
    ensures { result ≡ pickles_of_input options }
{
    if is_loose(options) {
        None
    } else {
        pickles_of(options)
    }
}

/// How much of an argument is shown.
pub fn detail_of(options: u32) -> Detail
    ensures { result ≡ detail_of options }
{
    if is_given(options, FULL) {
        Detail::Full
    } else {
        Detail::Cut
    }
}

/// What a loader was given besides the bytes, where these are options for that.
pub fn granted_of(options: u32) -> Option<Granted>
    ensures { result ≡ granted_of options }
{
    if options <= ALL_GRANTED {
        Some(Granted {
            extensions: is_given(options, EXTENSIONS),
            persistent: is_given(options, PERSISTENT_IDS),
            buffers: is_given(options, BUFFERS),
        })
    } else {
        None
    }
}

/// The hole that is given.
fn hole_of(given: GivenHole) -> Hole
    ensures { result ≡ hole_of given }
{
    Hole {
        offset: given.offset,
        size: given.size,
    }
}

/// Whether each begins at or behind the end of the one before it, and there are files that are long enough for it.
fn are_in_order(given: &[GivenHole]) -> bool
    ensures { result ≡ stand_from 0 given.now }
{
    let mut from = 0;
    for one in given {
        let hole = hole_of(*one);
        if !hole.may_follow(from) {
            return false;
        }
        from = hole.offset + hole.size;
    }
    true
}

/// The pickles that are read, where the holes are in order.
pub fn pickles_left(options: u32, given: &[GivenHole]) -> Option<Pickles>
    ensures pickles { result ≡ pickles_left options given.now }
    ensures order { result ≢ None → stand_from 0 given.now ≡ true }
{
    if are_in_order(given) {
        pickles_of_input(options)
    } else {
        None
    }
}

/// Adds a hole that may come behind the others.
fn push(holes: &mut Holes, hole: Hole) -> Result<(), AllocError>
    requires { may_follow (end_of 0 holes.old) hole ≡ true }
    ensures added { OnOk result (holes.new ≡ holes.old ++ hole ∷ []) }
    ensures end { OnOk result (end_of 0 holes.new ≡ hole.offset + hole.size) }
{
    holes.push(hole)
}

/// The holes that are given, which are in order.
pub fn holes_of(alloc: Global, given: &[GivenHole]) -> Result<Holes, AllocError>
    requires { stand_from 0 given.now ≡ true }
    ensures { IfOk result (λ holes. holes ≡ holes_of given.now) }
{
    let mut holes = Holes::new(alloc);
    for one in given {
        push(&mut holes, hole_of(*one))?;
    }
    Ok(holes)
}
