//! The labels of a text, and their keys.

ghost use Rattle.std.specs.Prelude.{◌≡◌, ◌^◌, ◌≤◌, ℕ, List, length, map, IfOk, OnOk};
ghost use Rattle.std.specs.Option.{unwrap_or};
ghost use Rattle.assembly_labels.specs.Labels.{place_in, noted, noted_in, labels_of, raised, first_key, key_of_label};
ghost use Rattle.assembly_labels.specs.Numbering.{IsNumbering, AreNumbers};

use crate::keys::Numbers;
use crate::line::{key_of, label_of};
use std::alloc::{AllocError, Global};
use std::collections::BTreeMap;

/// Notes a label, unless it is there.
fn note<'a>(places: &mut BTreeMap<&'a [u8], u64>, label: &'a [u8]) -> Result<(), AllocError>
    ensures { OnOk result ((names : List (List ℕ)) → IsNumbering names places.old → IsNumbering (noted names label.now) places.new) }
{
    if places.contains_key(label) {
        return Ok(());
    }
    let place = places.len() as u64;
    match places.insert(label, place) {
        Ok(_) => Ok(()),
        Err(_) => Err(AllocError),
    }
}

/// Notes the label of a line, if it has one.
fn note_in<'a>(places: &mut BTreeMap<&'a [u8], u64>, line: &'a [u8]) -> Result<(), AllocError>
    ensures { OnOk result ((names : List (List ℕ)) → IsNumbering names places.old → IsNumbering (noted_in names line.now) places.new) }
{
    match label_of(line) {
        Some(label) => note(places, label),
        None => Ok(()),
    }
}

/// A key above this one and that of a line.
fn raised(key: u128, line: &[u8]) -> u128
    requires { key ≤ 2 ^ 64 }
    ensures value { result ≡ raised key line.now }
    ensures within { result ≤ 2 ^ 64 }
{
    match key_of(line) {
        Some(other) => key.max(other as u128 + 1),
        None => key,
    }
}

/// The labels of lines, each with its place.
pub(crate) fn places_of<'a>(
    alloc: Global,
    lines: &[&'a [u8]],
) -> Result<BTreeMap<&'a [u8], u64>, AllocError>
    ensures { IfOk result (IsNumbering (labels_of (map (λ line. line.now) lines.now))) }
{
    let mut places = BTreeMap::new(alloc);
    for line in lines {
        note_in(&mut places, *line)?;
    }
    Ok(places)
}

/// The least key above those that lines have in digits.
fn first_key(lines: &[&[u8]]) -> u128
    ensures value { result ≡ first_key (map (λ line. line.now) lines.now) }
    ensures within { result ≤ 2 ^ 64 }
{
    let mut key = 0;
    for line in lines {
        key = raised(key, *line);
    }
    key
}

/// The labels of lines, by their places, and their keys.
pub(crate) fn numbers_of<'a>(places: BTreeMap<&'a [u8], u64>, lines: &[&'a [u8]]) -> Numbers<'a>
    requires { IsNumbering (labels_of (map (λ line. line.now) lines.now)) places }
    ensures { AreNumbers (map (λ line. line.now) lines.now) result }
{
    Numbers {
        places,
        first: first_key(lines),
    }
}

/// The place of a label, 0 for one that is not there.
fn place_of(numbers: &Numbers<'_>, label: &[u8]) -> u64
    ensures { (lines : List (List ℕ)) → AreNumbers lines numbers.now → result ≡ unwrap_or (place_in (labels_of lines) label.now) 0 }
{
    match numbers.places.get(label) {
        Some(place) => *place,
        None => 0,
    }
}

/// The key of a label.
pub(crate) fn key_of_label(numbers: &Numbers<'_>, label: &[u8]) -> u128
    ensures { (lines : List (List ℕ)) → AreNumbers lines numbers.now → result ≡ key_of_label lines label.now }
{
    numbers.first + place_of(numbers, label) as u128
}
