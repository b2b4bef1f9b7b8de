//! The memo of a machine that can go back.

ghost use Rattle.pickle_machine.specs.Inside.Slots.{holes_in, IsInOrder};

use pickle_ops::ObjId;
use std::alloc::{AllocError, Global};
use std::collections::BTreeMap;
use std::marker::Model;

/// The entries of a memo: slots for the keys 0, 1, .. that came in order, and a map for all others. An entry that is taken away leaves an
/// empty slot, since to go back must take no memory.
#[derive(Drop)]
pub struct Entries {
    slots: Vec<Option<ObjId>>,
    // how many slots are empty
    holes: usize,
    rest: BTreeMap<u64, ObjId>,
}

impl Model for Entries {
    ghost use Rattle.std.specs.Prelude.{ℕ, List};
    ghost use Rattle.pickle_machine.specs.Kept.{kept};
    ghost use Rattle.pickle_machine.specs.Inside.Slots.{IsInOrder};

    ghost Value = { List (ℕ × ℕ) };

    ghost view = { λ m. kept 0 m.slots.items m.rest.entries };

    ghost invariant = { λ m. IsInOrder m.slots.items m.holes m.rest.entries };
}

#[tactic(auto, using(crate::proofs::Slots::slot_rules))]
impl Entries {
    ghost use Rattle.std.specs.Prelude.{◌≡◌, ◌<◌, ◌^◌, [], length, true, IfOk, IfSome, OnOk, OnErr, None, Some};
    ghost use Rattle.std.specs.List.Sorted.{IsStrictlySortedBy};
    ghost use Rattle.std.specs.Map.{lookup, remove_entry, keys_of};
    ghost use Rattle.std.specs.Ordering.{nat_cmp};
    ghost use Rattle.std.specs.BTreeMap.{insert_entry, is_at};
    ghost use Rattle.pickle_machine.specs.Kept.{kept, AreBelow};

    /// No entries.
    pub(crate) fn new(alloc: Global) -> Entries
        ensures { result ≡ [] }
    {
        Entries {
            slots: Vec::new(alloc),
            holes: 0,
            rest: BTreeMap::new(alloc),
        }
    }

    /// How many entries there are.
    pub fn len(&self) -> usize
        ensures { result ≡ length self.now }
    {
        self.slots.len() - self.holes + self.rest.len()
    }

    /// The object under a key.
    pub fn get(&self, key: u64) -> Option<ObjId>
        ensures { result ≡ lookup (is_at (nat_cmp key)) self.now }
    {
        if key < self.slots.len() as u64 {
            self.slots[key as usize]
        } else {
            self.rest.get(&key).copied()
        }
    }

    /// The slots, and the map of all other keys.
    pub fn parts(&self) -> (&[Option<ObjId>], &BTreeMap<u64, ObjId>)
        ensures { kept 0 result.0.now result.1.now.entries ≡ self.now }
    {
        (self.slots.as_slice(), &self.rest)
    }

    /// Whether each key is below 2^64: it always is, which only `prove!` asks.
    pub fn are_short(&self) -> bool
        ensures always { result ≡ true }
        ensures below { AreBelow (2 ^ 64) self.now }
    {
        let count = self.slots.len();
        match self.rest.last_key_value() {
            None => count <= usize::MAX,
            Some((key, _)) => *key <= u64::MAX && count <= usize::MAX,
        }
    }

    /// Maps a key to an object, and answers the one that it had. An error comes only where memory runs out, and never where it had one.
    #[inline]
    pub(crate) fn insert(&mut self, key: u64, id: ObjId) -> Result<Option<ObjId>, AllocError>
        ensures old { IfOk result (λ old. old ≡ lookup (is_at (nat_cmp key)) self.old) }
        ensures entries { OnOk result (self.new ≡ insert_entry nat_cmp self.old key id) }
        ensures absent { OnErr result (lookup (is_at (nat_cmp key)) self.old ≡ None) }
        ensures err { OnErr result (self.new ≡ self.old) }
        ensures ordered { IsStrictlySortedBy nat_cmp (keys_of self.old) }
    {
        let count = self.slots.len() as u64;
        if key < count {
            let at = key as usize;
            let old = self.slots[at];
            self.slots[at] = Some(id);
            return match old {
                None => {
                    self.holes -= 1;
                    Ok(None)
                }
                Some(old) => Ok(Some(old)),
            };
        }
        if key == count && self.rest.len() == 0 {
            self.slots.push(Some(id))?;
            return Ok(None);
        }
        match self.rest.insert(key, id) {
            Ok(old) => Ok(old),
            Err(_) => Err(AllocError),
        }
    }

    /// Takes the entry of a key away, if there is one. It takes no memory.
    pub(crate) fn remove(&mut self, key: u64)
        ensures { self.new ≡ remove_entry (is_at (nat_cmp key)) self.old }
    {
        if key < self.slots.len() as u64 {
            let at = key as usize;
            if let Some(_) = self.slots[at] {
                self.slots[at] = None;
                self.holes += 1;
            }
        } else {
            let _object = self.rest.remove(&key);
        }
    }
}
