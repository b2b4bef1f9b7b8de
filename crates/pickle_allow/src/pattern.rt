//! Whether a pattern stands for a text.

ghost use Rattle.std.specs.Prelude.{◌≡◌, ◌+◌, true, false, length, drop, replicate, codes, IfOk, OnOk};
ghost use Rattle.std.specs.List.{list_any};
ghost use Rattle.std.specs.Str.{bytes_eq};
ghost use Rattle.pickle_allow.specs.Allow.{byte_then, is_star, is_point, begins_with_star, under_star, fits};
ghost use Rattle.pickle_allow.specs.Rests.{in_front, next_rests};

use std::alloc::AllocError;

/// Whether a byte of a pattern is a star.
pub(crate) fn is_star(byte: u8) -> bool
    ensures { result ≡ is_star byte }
{
    byte == b'*'
}

/// Whether a pattern begins with a star.
pub(crate) fn begins_with_star(pattern: &[u8]) -> bool
    ensures { result ≡ begins_with_star pattern.now }
{
    match pattern.split_first() {
        Some((byte, _)) => is_star(*byte),
        None => false,
    }
}

/// Whether a star before this rest of a pattern stands for a byte.
fn is_under_star(pattern: &[u8], byte: u8) -> bool
    ensures { result ≡ under_star pattern.now byte }
{
    begins_with_star(pattern) || byte != b'.'
}

/// Whether a byte and a rest of a pattern stand for another byte and a rest of a text: by whether they stand for the rest of the text (`same`),
/// the rest of the pattern for the rest of the text (`both`), and the rest of the pattern for the text (`star`).
fn in_front(first: u8, pattern: &[u8], byte: u8, same: bool, both: bool, star: bool) -> bool
    ensures { result ≡ in_front first pattern.now byte same both star }
{
    if is_star(first) {
        star || (is_under_star(pattern, byte) && same)
    } else {
        first == byte && both
    }
}

/// Goes on to one byte more of a text, in front of those before: `rests` says of each rest of the pattern whether it stands for the text. `end` is
/// what to say of the empty rest.
fn next_rests(pattern: &[u8], end: bool, byte: u8, rests: &mut Vec<bool>)
    requires { length rests.old.items ≡ length pattern.now + 1 }
    ensures { rests.new.items ≡ next_rests pattern.now end byte rests.old.items }
{
    let mut both = rests[pattern.len()];
    rests[pattern.len()] = end;
    for i in (0..pattern.len()).rev() {
        let same = rests[i];
        let star = rests[i + 1];
        rests[i] = in_front(pattern[i], &pattern[i + 1..], byte, same, both, star);
        both = same;
    }
}

/// Makes room for the rests of a pattern: `count` of them, of which none is known to stand for anything.
fn clear_rests(count: usize, rests: &mut Vec<bool>) -> Result<(), AllocError>
    ensures { OnOk result (rests.new.items ≡ replicate count false) }
{
    rests.clear();
    rests.reserve(count)?;
    while rests.len() < count {
        rests.push(false)?;
    }
    Ok(())
}

/// Whether a pattern stands for a text: each rest of the pattern is asked for each rest of the text, from the end on.
fn fits_by_rests(pattern: &[u8], text: &[u8], rests: &mut Vec<bool>) -> Result<bool, AllocError>
    ensures { IfOk result (λ found. found ≡ fits pattern.now text.now) }
{
    clear_rests(pattern.len() + 1, rests)?;
    next_rests(pattern, true, 0, rests);
    for i in (0..text.len()).rev() {
        next_rests(pattern, false, text[i], rests);
    }
    Ok(rests[0])
}

/// Whether there is a point.
pub(crate) fn has_point(bytes: &[u8]) -> bool
    ensures { result ≡ list_any is_point bytes.now }
{
    bytes.iter().any(|byte| *byte == b'.')
}

/// Whether bytes are one star.
pub(crate) fn is_one_star(bytes: &[u8]) -> bool
    ensures { result ≡ bytes_eq bytes.now (codes "*") }
{
    bytes == b"*".as_slice()
}

/// Whether bytes are two stars.
fn is_two_stars(bytes: &[u8]) -> bool
    ensures { result ≡ bytes_eq bytes.now (codes "**") }
{
    bytes == b"**".as_slice()
}

/// Whether a pattern stands for a text. The commonest ends of patterns need no room.
fn fits_star(pattern: &[u8], text: &[u8], rests: &mut Vec<bool>) -> Result<bool, AllocError>
    ensures { IfOk result (λ found. found ≡ fits pattern.now text.now) }
{
    if is_one_star(pattern) {
        return Ok(!has_point(text));
    }
    if is_two_stars(pattern) {
        return Ok(true);
    }
    fits_by_rests(pattern, text, rests)
}

/// Whether a text has this byte at this place.
fn is_at(text: &[u8], i: usize, byte: u8) -> bool
    ensures { result ≡ byte_then byte (λ _. true) (drop i text.now) }
{
    match text.get(i) {
        Some(found) => byte == *found,
        None => false,
    }
}

/// Whether a text may be one that a pattern stands for, by the last bytes of both. Most entries of a long list are told apart from a name by this.
fn ends_alike(pattern: &[u8], text: &[u8]) -> bool
    ensures { result ≡ false → fits pattern.now text.now ≡ false }
{
    let Some((last, _)) = pattern.split_last() else {
        return true;
    };
    if is_star(*last) {
        return true;
    }
    match text.split_last() {
        Some((byte, _)) => *byte == *last,
        None => false,
    }
}

/// Whether a pattern stands for a text. `rests` is room to work in, which is asked for where the pattern has a star.
pub(crate) fn fits(pattern: &[u8], text: &[u8], rests: &mut Vec<bool>) -> Result<bool, AllocError>
    ensures { IfOk result (λ found. found ≡ fits pattern.now text.now) }
{
    if !ends_alike(pattern, text) {
        return Ok(false);
    }
    for i in 0..pattern.len() {
        if is_star(pattern[i]) {
            return fits_star(&pattern[i..], &text[i..], rests);
        }
        if !is_at(text, i, pattern[i]) {
            return Ok(false);
        }
    }
    Ok(pattern.len() == text.len())
}
