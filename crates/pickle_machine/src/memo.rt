//! A memo whose first keys come in order.

use pickle_ops::ObjId;
use std::alloc::{AllocError, Global};
use std::collections::BTreeMap;
use std::marker::Model;

/// The entries of a memo: a row for the keys 0, 1, .. that came in order, and a map for all others.
#[derive(Drop)]
pub struct Memo {
    row: Vec<ObjId>,
    rest: BTreeMap<u64, ObjId>,
}

impl Model for Memo {
    ghost use Rattle.std.specs.Prelude.{ℕ, List, ◌++◌};
    ghost use Rattle.pickle_machine.specs.Inside.Memo.{entries_from};

    ghost Value = { List (ℕ × ℕ) };

    ghost view = { λ m. entries_from 0 m.row.items ++ m.rest.entries };
}

#[tactic(auto, using(crate::proofs::Memos::memo_rules))]
impl Memo {
    ghost use Rattle.std.specs.Prelude.{◌≡◌, [], length, OnOk};
    ghost use Rattle.std.specs.Map.{lookup};
    ghost use Rattle.std.specs.Ordering.{nat_cmp};
    ghost use Rattle.std.specs.BTreeMap.{insert_entry, is_at};

    /// No entries.
    pub fn new(alloc: Global) -> Memo
        ensures { result ≡ [] }
    {
        Memo {
            row: Vec::new(alloc),
            rest: BTreeMap::new(alloc),
        }
    }

    /// Takes all entries away.
    pub fn clear(&mut self)
        ensures { self.new ≡ [] }
    {
        self.row.clear();
        self.rest.clear();
    }

    /// How many entries there are.
    #[inline]
    pub fn len(&self) -> usize
        ensures { result ≡ length self.now }
    {
        self.row.len() + self.rest.len()
    }

    /// The object under a key.
    #[inline]
    pub fn get(&self, key: u64) -> Option<ObjId>
        ensures { result ≡ lookup (is_at (nat_cmp key)) self.now }
    {
        if key < self.row.len() as u64 {
            Some(self.row[key as usize])
        } else {
            self.rest.get(&key).copied()
        }
    }

    /// Maps a key to an object. An error comes only where memory runs out.
    #[inline]
    pub fn insert(&mut self, key: u64, id: ObjId) -> Result<(), AllocError>
        ensures ok { OnOk result (self.new ≡ insert_entry nat_cmp self.old key id) }
    {
        let count = self.row.len() as u64;
        if key < count {
            self.row[key as usize] = id;
            return Ok(());
        }
        if key == count && self.rest.len() == 0 {
            self.row.push(id)?;
            return Ok(());
        }
        match self.rest.insert(key, id) {
            Ok(_) => Ok(()),
            Err(_) => Err(AllocError),
        }
    }
}
