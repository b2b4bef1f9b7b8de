//! The line of the memo.

ghost use Rattle.std.specs.Prelude.{[], ◌∷◌};
ghost use Rattle.pickle_io.specs.Device.{Writes, each};
ghost use Rattle.pickle_io.specs.Text.{◌⧺◌};
ghost use Rattle.pickle_machine.specs.Kept.{kept};
ghost use Rattle.object_texts.specs.MemoText.{entry_text, memo_text};

use pickle_io::{Failed, Page, write_all, write_decimal};
use pickle_machine::{Entries, Machine};
use pickle_ops::ObjId;
use pickle_text::write_id;
use std::collections::BTreeMap;

/// Writes a key, and the object that it has.
fn write_entry<S: Page>(key: u64, id: ObjId, page: &mut S) -> Result<(), Failed>
    ensures { Writes (S.told page.old) (S.told page.new) result (entry_text (key, id)) }
{
    write_all(page, b" ")?;
    write_decimal(key, page)?;
    write_all(page, b"=")?;
    write_id(u64::from(id), page)
}

/// Writes the entry of a slot, if it has one.
#[tactic(auto, using(crate::proofs::Memos::slot_steps))]
fn write_slot<S: Page>(key: u64, slot: Option<ObjId>, page: &mut S) -> Result<(), Failed>
    ensures { Writes (S.told page.old) (S.told page.new) result (each entry_text (kept key (slot ∷ []) [])) }
{
    match slot {
        Some(id) => write_entry(key, id, page),
        None => Ok(()),
    }
}

/// Writes the entries of slots, whose keys begin at 0.
#[tactic(auto, using(crate::proofs::Memos::slot_steps))]
fn write_slots<S: Page>(slots: &[Option<ObjId>], page: &mut S) -> Result<(), Failed>
    ensures { Writes (S.told page.old) (S.told page.new) result (each entry_text (kept 0 slots.now [])) }
{
    for key in 0..slots.len() {
        write_slot(key as u64, slots[key], page)?;
    }
    Ok(())
}

/// Writes the entries of a map, by rising key.
fn write_map<S: Page>(memo: &BTreeMap<u64, ObjId>, page: &mut S) -> Result<(), Failed>
    ensures { Writes (S.told page.old) (S.told page.new) result (each entry_text memo.now.entries) }
{
    let mut rest = memo.iter();
    while let Some((key, id)) = rest.next() {
        write_entry(*key, *id, page)?;
    }
    Ok(())
}

/// Writes the entries of slots, and then those of a map.
fn write_parts<S: Page>(
    slots: &[Option<ObjId>],
    map: &BTreeMap<u64, ObjId>,
    page: &mut S,
) -> Result<(), Failed>
    ensures { Writes (S.told page.old) (S.told page.new) result (each entry_text (kept 0 slots.now []) ⧺ each entry_text map.now.entries) }
{
    write_slots(slots, page)?;
    write_map(map, page)
}

/// Writes the entries, by rising key.
fn write_entries<S: Page>(memo: &Entries, page: &mut S) -> Result<(), Failed>
    ensures { Writes (S.told page.old) (S.told page.new) result (each entry_text memo.now) }
{
    let (slots, map) = memo.parts();
    write_parts(slots, map, page)
}

/// Writes the memo of a machine: `memo`, and ` key=#n` for each entry, by rising key. It takes no memory. `Failed` where the sink
/// fails; a beginning of the line was written then.
pub fn write_memo<S: Page>(machine: &Machine, page: &mut S) -> Result<(), Failed>
    ensures { Writes (S.told page.old) (S.told page.new) result (memo_text machine.now.state.memo) }
{
    write_all(page, b"memo")?;
    write_entries(machine.memo_map(), page)?;
    write_all(page, b"\n")
}
