//! What a list limits.

ghost use Rattle.std.specs.Prelude.{◌≡◌, IfOk};
ghost use Rattle.pickle_ops.specs.KindRef.{kind_view};
ghost use Rattle.pickle_allow.specs.Arguments.{limit_on, grants, keyword, is_limit, limits_of, limits_name, is_limited, limit_of};

use crate::list::Entry;
use crate::pattern::fits;
use crate::spelling::is_nothing;
use pickle_ops::KindRef;
use std::alloc::{AllocError, Global};

/// What an entry may limit.
#[derive(Clone, Copy)]
pub(crate) enum Limit {
    /// The arguments of a call.
    Call,
    /// The arguments of what is made by `__new__`.
    New,
    /// The state that what a call made gets.
    State,
}

/// The words of an entry with the shapes of this.
pub(crate) fn limit_on<'a>(limit: Limit, entry: &Entry<'a>) -> &'a [u8]
    ensures { result.now ≡ limit_on limit entry.now }
{
    match limit {
        Limit::Call => entry.shapes,
        Limit::New => entry.shapes,
        Limit::State => entry.states,
    }
}

/// Whether an entry grants this.
pub(crate) fn grants(limit: Limit, entry: &Entry<'_>) -> bool
    ensures { result ≡ grants limit entry.now }
{
    match limit {
        Limit::Call => entry.itself.call,
        Limit::New => entry.itself.new,
        Limit::State => entry.made.state,
    }
}

/// The word before its shapes.
pub(crate) fn keyword(limit: Limit) -> &'static [u8]
    ensures { result.now ≡ keyword limit }
{
    match limit {
        Limit::Call => b"call".as_slice(),
        Limit::New => b"call".as_slice(),
        Limit::State => b"then".as_slice(),
    }
}

/// What is limited of an object of a kind.
pub(crate) fn limit_of(kind: KindRef<'_>) -> Limit
    ensures { result ≡ limit_of (kind_view kind.entry) }
{
    match kind {
        KindRef::New => Limit::New,
        KindRef::NewEx => Limit::New,
        _ => Limit::Call,
    }
}

/// Whether an entry limits something.
fn is_limit(entry: &Entry<'_>) -> bool
    ensures { result ≡ is_limit entry.now }
{
    !is_nothing(entry.shapes) || !is_nothing(entry.states)
}

/// The entries of a list that limit something.
pub fn limits_of<'a>(alloc: Global, list: &[Entry<'a>]) -> Result<Vec<Entry<'a>>, AllocError>
    ensures { IfOk result (λ limits. limits.items ≡ limits_of list.now) }
{
    let mut limits = Vec::new(alloc);
    for entry in list {
        if is_limit(entry) {
            limits.push(*entry)?;
        }
    }
    Ok(limits)
}

/// Whether an entry limits this for a name.
fn limits_name(
    limit: Limit,
    entry: &Entry<'_>,
    name: &[u8],
    rests: &mut Vec<bool>,
) -> Result<bool, AllocError>
    ensures { IfOk result (λ found. found ≡ limits_name limit name.now entry.now) }
{
    if is_nothing(limit_on(limit, entry)) {
        return Ok(false);
    }
    fits(entry.pattern, name, rests)
}

/// Whether one of the entries that limit something limits this for a name.
pub(crate) fn is_limited(
    alloc: Global,
    limits: &[Entry<'_>],
    limit: Limit,
    name: &[u8],
) -> Result<bool, AllocError>
    ensures { IfOk result (λ found. found ≡ is_limited limits.now limit name.now) }
{
    let mut rests = Vec::new(alloc);
    for i in 0..limits.len() {
        if limits_name(limit, &limits[i], name, &mut rests)? {
            return Ok(true);
        }
    }
    Ok(false)
}
