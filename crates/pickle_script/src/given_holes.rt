//! Holes that are given as texts.

ghost use Rattle.std.specs.Prelude.{◌≡◌, if◌then◌else◌, map, IfOk, Some, None};
ghost use Rattle.pickle_io.specs.Holes.{end_of, may_follow};
ghost use Rattle.pickle_script.specs.GivenHoles.{before_colon, behind_colon, hole_of, with_hole, holes_of};

use pickle_io::{Hole, Holes};
use pickle_ops::decimal_of;
use std::alloc::{AllocError, Global};

/// How many bytes come before the first colon.
pub(crate) fn before_colon(text: &[u8]) -> usize
    ensures { result ≡ before_colon text.now }
{
    text.iter().take_while(|byte| **byte != b':').count()
}

/// The number behind a colon.
fn behind_colon(text: &[u8]) -> Option<u64>
    ensures { result ≡ behind_colon text.now }
{
    match text.split_first() {
        Some((_, digits)) => decimal_of(digits),
        None => None,
    }
}

/// The hole that a text is: its offset, a colon, and its length, in decimal digits.
fn hole_of(text: &[u8]) -> Option<Hole>
    ensures { result ≡ hole_of text.now }
{
    let (before, after) = text.split_at(before_colon(text));
    let offset = decimal_of(before)?;
    let size = behind_colon(after)?;
    Some(Hole { offset, size })
}

/// Adds the hole that a text is; says whether it is one that may come behind the others.
fn add(holes: &mut Holes, text: &[u8]) -> Result<bool, AllocError>
    ensures ok { IfOk result (λ added. (if added then Some holes.new else None) ≡ with_hole holes.old (hole_of text.now)) }
{
    match hole_of(text) {
        Some(hole) => push_if(holes, hole, hole.may_follow(holes.end())),
        None => Ok(false),
    }
}

/// Adds a hole where it may come behind the others.
fn push_if(holes: &mut Holes, hole: Hole, may: bool) -> Result<bool, AllocError>
    requires { may ≡ may_follow (end_of 0 holes.old) hole }
    ensures ok { IfOk result (λ added. (if added then Some holes.new else None) ≡ with_hole holes.old (Some hole)) }
{
    if may {
        holes.push(hole)?;
    }
    Ok(may)
}

/// The holes that these texts are: each an offset, a colon and a length in decimal digits, in order, none overlapping the one before it. None
/// where a text is no such hole.
pub fn holes_of(alloc: Global, texts: &[&str]) -> Result<Option<Holes>, AllocError>
    ensures { IfOk result (λ holes. holes ≡ holes_of (map (λ t. t.now) texts.now)) }
{
    let mut holes = Holes::new(alloc);
    for text in texts {
        if !add(&mut holes, text.as_bytes())? {
            return Ok(None);
        }
    }
    Ok(Some(holes))
}

/// The first of these texts that is no hole, or does not stand behind those before it.
pub fn first_unfit<'a>(alloc: Global, texts: &[&'a str]) -> Result<Option<&'a str>, AllocError> {
    let mut holes = Holes::new(alloc);
    for text in texts {
        if !add(&mut holes, text.as_bytes())? {
            return Ok(Some(text));
        }
    }
    Ok(None)
}
