//! What is kept of an object, in two bytes.

ghost use Rattle.std.specs.Prelude.{◌≡◌, ◌<◌, ◌==◌, ◌%◌, ◌/◌, if◌then◌else◌, true};
ghost use Rattle.pickle_gate.specs.Packed.{uses_in};

use pickle_allow::{Grant, Uses};
use std::marker::Model;

/// What is kept of an object.
#[derive(Clone, Copy)]
pub struct Kept {
    /// What the list grants to it.
    pub grant: Grant,
    /// Whether it has its state, or is made of what has one.
    pub ready: bool,
    /// Whether something was made of it.
    pub used: bool,
    /// Whether it may have attributes by its state, or by that of what it is made of.
    pub named: bool,
}

/// What is kept of an object, in two bytes: a flag for each use, and one for each thing that was done.
#[derive(Drop)]
pub struct Packed {
    flags: u8,
    done: u8,
}

impl Model for Packed {
    ghost use Rattle.pickle_gate.specs.declared.packed.Kept.{Kept};
    ghost use Rattle.pickle_gate.specs.Packed.{unpacked};

    ghost Value = { Kept };

    ghost view = { λ p. unpacked p.flags p.done };
}

/// A flag, if something is so.
fn flag(is_so: bool, flag: u8) -> u8
    ensures { result ≡ if is_so then flag else 0 }
{
    if is_so { flag } else { 0 }
}

/// The four flags of uses.
fn flags_of(uses: Uses) -> u8
    ensures value { uses_in result ≡ uses }
    ensures small { result < 16 }
{
    flag(uses.call, 1) + flag(uses.new, 2) + flag(uses.state, 4) + flag(uses.fill, 8)
}

/// The three flags of what was done.
fn done_of(ready: bool, used: bool, named: bool) -> u8
    ensures ready { (result % 2 == 1) ≡ ready }
    ensures used { (result / 2 % 2 == 1) ≡ used }
    ensures named { (result / 4 % 2 == 1) ≡ named }
{
    flag(ready, 1) + flag(used, 2) + flag(named, 4)
}

/// The uses of four flags.
fn uses_in(flags: u8) -> Uses
    ensures { result ≡ uses_in flags }
{
    Uses {
        call: flags % 2 == 1,
        new: flags / 2 % 2 == 1,
        state: flags / 4 % 2 == 1,
        fill: flags / 8 % 2 == 1,
    }
}

impl Packed {
    ghost use Rattle.std.specs.Prelude.{◌≡◌};
    ghost use Rattle.pickle_gate.specs.Kept.{nothing_kept};

    /// Nothing is granted, and nothing was done.
    #[inline(always)]
    pub fn nothing() -> Packed
        ensures { result ≡ nothing_kept }
    {
        Packed { flags: 0, done: 0 }
    }

    /// This is kept.
    pub fn of(kept: Kept) -> Packed
        ensures { result ≡ kept }
    {
        Packed {
            flags: flags_of(kept.grant.now) + 16 * flags_of(kept.grant.made),
            done: done_of(kept.ready, kept.used, kept.named),
        }
    }

    /// What is kept.
    pub fn kept(&self) -> Kept
        ensures { result ≡ self.now }
    {
        Kept {
            grant: Grant {
                now: uses_in(self.flags % 16),
                made: uses_in(self.flags / 16),
            },
            ready: self.done % 2 == 1,
            used: self.done / 2 % 2 == 1,
            named: self.done / 4 % 2 == 1,
        }
    }
}
