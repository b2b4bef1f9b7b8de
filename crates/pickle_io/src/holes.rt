//! The holes of a file, in order.

ghost use Rattle.std.specs.Prelude.{◌≡◌, ℕ, ◌≤◌, length, nat_le, true, false};
ghost use Rattle.std.specs.List.Sorted.{IsNonDecreasingBy, IsPartitionPoint};
ghost use Rattle.pickle_io.specs.Holes.{end_of, left_out, places_from, AreHoles};

use crate::hole::{Hole, MOST};
use std::alloc::{AllocError, Global};
use std::marker::Model;

/// The holes of a file in the order in which they stand there. None overlaps another.
#[derive(Drop, Debug)]
pub struct Holes {
    holes: Vec<Hole>,
    /// Where each of them stands in what is left: at the place of the byte that comes after it.
    places: Vec<u64>,
}

impl Model for Holes {
    ghost use Rattle.std.specs.Prelude.{◌≡◌, List};
    ghost use Rattle.pickle_io.specs.declared.hole.Hole.{Hole};
    ghost use Rattle.pickle_io.specs.Holes.{places_from, AreHoles};

    ghost Value = { List Hole };

    ghost view = { λ h. h.holes.items };

    ghost invariant = { λ h. AreHoles 0 h.holes.items × (h.places.items ≡ places_from 0 h.holes.items) };
}

/// How many bytes the first n of these holes leave out, where this is the place of the last of them.
fn left_out(holes: &[Hole], places: &[u64], count: usize) -> u64
    requires holes { AreHoles 0 holes.now }
    requires places { places.now ≡ places_from 0 holes.now }
    requires count { count ≤ length holes.now }
    ensures { result ≡ left_out 0 count holes.now }
{
    if count == 0 {
        return 0;
    }
    let last = holes[count - 1];
    last.offset + last.size - places[count - 1]
}

/// Where the last of these holes ends; 0 where there is none.
fn end_of(holes: &[Hole]) -> u64
    requires { AreHoles 0 holes.now }
    ensures { result ≡ end_of 0 holes.now }
{
    if holes.is_empty() {
        return 0;
    }
    let last = holes[holes.len() - 1];
    last.offset + last.size
}

/// How many of these places are not behind one.
fn count_to(places: &[u64], place: u64) -> usize
    requires { IsNonDecreasingBy (λ (p : ℕ). p) places.now }
    ensures bound { result ≤ length places.now }
    ensures point { IsPartitionPoint (λ (p : ℕ). nat_le p place ≡ true) (λ (p : ℕ). nat_le p place ≡ false) places.now result }
{
    places.partition_point(|at| *at <= place)
}

impl Holes {
    ghost use Rattle.std.specs.Prelude.{◌≡◌, ◌<◌, ◌≤◌, ◌+◌, ◌^◌, [], ◌∷◌, ◌++◌, length, OnErr, IfOk};
    ghost use Rattle.pickle_io.specs.Holes.{in_file, left_out, end_of, AreHoles, IsBehind};

    /// No hole.
    pub fn new(alloc: Global) -> Holes
        ensures { result ≡ [] }
    {
        Holes {
            holes: Vec::new(alloc),
            places: Vec::new(alloc),
        }
    }

    /// The holes, in order.
    pub fn as_slice(&self) -> &[Hole]
        ensures holes { result.now ≡ self.now }
        ensures apart { AreHoles 0 self.now }
    {
        self.holes.as_slice()
    }

    /// Where the last hole ends, in the file; 0 where there is none.
    pub fn end(&self) -> u64
        ensures { result ≡ end_of 0 self.now }
    {
        end_of(self.holes.as_slice())
    }

    /// How many bytes are left out.
    fn left_out(&self) -> u64
        ensures { result ≡ left_out 0 (length self.now) self.now }
    {
        left_out(
            self.holes.as_slice(),
            self.places.as_slice(),
            self.holes.len(),
        )
    }

    /// Adds a hole that stands behind the others. Without memory nothing changes.
    pub fn push(&mut self, hole: Hole) -> Result<(), AllocError>
        requires { IsBehind self.old hole }
        ensures ok { IfOk result (λ _. self.new ≡ self.old ++ hole ∷ []) }
        ensures err { OnErr result (self.new ≡ self.old) }
    {
        let place = hole.offset - self.left_out();
        self.holes.reserve(1)?;
        self.places.reserve(1)?;
        self.holes.push_reserved(hole);
        self.places.push_reserved(place);
        Ok(())
    }

    /// The offset in the file of the byte at this place of what is left; at its end the offset behind the last byte.
    pub fn in_file(&self, place: u64) -> u64
        ensures { result ≡ in_file self.now place }
    {
        if place >= MOST {
            return place;
        }
        let count = count_to(self.places.as_slice(), place);
        place + left_out(self.holes.as_slice(), self.places.as_slice(), count)
    }
}
