//! The line of the memo. `Failed` where the sink fails; a beginning of the text was written then.

ghost use Rattle.std.specs.Prelude.{◌≡◌, true, [], ◌∷◌, IfOk};
ghost use Rattle.pickle_io.specs.Device.{Writes};
ghost use Rattle.pickle_io.specs.Text.{◌⧺◌};
ghost use Rattle.json_lines.specs.Json.{value_text};
ghost use Rattle.json_lines.specs.Line.{fields_text};
ghost use Rattle.pickle_machine.specs.Kept.{kept};
ghost use Rattle.debug_json.specs.Array.{array_json};
ghost use Rattle.debug_json.specs.ShownFields.{entry_fields, entry_value, entry_json, memo_fields, memo_line};
ghost use Rattle.debug_json.specs.Inside.Led.{comma, led, still};

use json_lines::{begin_line, end_line, write_name, write_number_field};
use pickle_io::{Failed, Page, write_all};
use pickle_machine::{Entries, Machine};
use pickle_ops::ObjId;
use std::collections::BTreeMap;

/// Writes a comma, unless nothing was written yet.
#[tactic(auto, using(pickle_io::proofs::Devices::text_steps), unfolding(crate::specs::Inside::Led::comma))]
fn write_comma<P: Page>(first: bool, page: &mut P) -> Result<(), Failed>
    ensures { Writes (P.told page.old) (P.told page.new) result (comma first) }
{
    if first { Ok(()) } else { write_all(page, b",") }
}

/// Writes a key, and the object that the memo has under it.
fn write_entry_fields<P: Page>(key: u64, id: ObjId, page: &mut P) -> Result<(), Failed>
    ensures { Writes (P.told page.old) (P.told page.new) result (fields_text (entry_fields (key, id))) }
{
    write_number_field("memo", key, page)?;
    write_number_field("object", u64::from(id), page)
}

/// Writes an entry.
fn write_entry<P: Page>(key: u64, id: ObjId, page: &mut P) -> Result<(), Failed>
    ensures { Writes (P.told page.old) (P.told page.new) result (value_text (entry_value (key, id))) }
{
    begin_line("entry", page)?;
    write_entry_fields(key, id, page)?;
    write_all(page, b"}")
}

/// Writes an entry behind what was written.
fn write_next<P: Page>(first: bool, key: u64, id: ObjId, page: &mut P) -> Result<(), Failed>
    ensures { Writes (P.told page.old) (P.told page.new) result (comma first ⧺ value_text (entry_value (key, id))) }
{
    write_comma(first, page)?;
    write_entry(key, id, page)
}

/// Writes the entry of a slot, if it has one, and answers whether nothing is written after that.
#[tactic(auto, using(crate::proofs::Memos::slot_steps))]
fn write_slot<P: Page>(
    first: bool,
    key: u64,
    slot: Option<ObjId>,
    page: &mut P,
) -> Result<bool, Failed>
    ensures text { Writes (P.told page.old) (P.told page.new) result (led first (kept key (slot ∷ []) [])) }
    ensures still { IfOk result (λ b. b ≡ still first (kept key (slot ∷ []) [])) }
{
    match slot {
        Some(id) => {
            write_next(first, key, id, page)?;
            Ok(false)
        }
        None => Ok(first),
    }
}

/// Writes the entries of slots, whose keys begin at 0, and answers whether there are none.
fn write_slots<P: Page>(slots: &[Option<ObjId>], page: &mut P) -> Result<bool, Failed>
    ensures text { Writes (P.told page.old) (P.told page.new) result (led true (kept 0 slots.now [])) }
    ensures still { IfOk result (λ b. b ≡ still true (kept 0 slots.now [])) }
{
    let mut first = true;
    for key in 0..slots.len() {
        first = write_slot(first, key as u64, slots[key], page)?;
    }
    Ok(first)
}

/// Writes the entries of a map behind what was written, by rising key.
fn write_map<P: Page>(first: bool, memo: &BTreeMap<u64, ObjId>, page: &mut P) -> Result<(), Failed>
    ensures { Writes (P.told page.old) (P.told page.new) result (led first memo.now.entries) }
{
    let mut first = first;
    let mut rest = memo.iter();
    while let Some((key, id)) = rest.next() {
        write_next(first, *key, *id, page)?;
        first = false;
    }
    Ok(())
}

/// Writes the entries of slots, and then those of a map.
#[tactic(auto, using(crate::proofs::Memos::parts_steps))]
fn write_parts<P: Page>(
    slots: &[Option<ObjId>],
    map: &BTreeMap<u64, ObjId>,
    page: &mut P,
) -> Result<(), Failed>
    ensures { Writes (P.told page.old) (P.told page.new) result (led true (kept 0 slots.now map.now.entries)) }
{
    let first = write_slots(slots, page)?;
    write_map(first, map, page)
}

/// Writes the entries, by rising key.
fn write_entries<P: Page>(memo: &Entries, page: &mut P) -> Result<(), Failed>
    ensures { Writes (P.told page.old) (P.told page.new) result (led true memo.now) }
{
    let (slots, map) = memo.parts();
    write_parts(slots, map, page)
}

/// Writes an array of the entries.
#[tactic(auto, using(crate::proofs::Memos::array_steps))]
fn write_array<P: Page>(memo: &Entries, page: &mut P) -> Result<(), Failed>
    ensures { Writes (P.told page.old) (P.told page.new) result (value_text (array_json entry_json memo.now)) }
{
    write_all(page, b"[")?;
    write_entries(memo, page)?;
    write_all(page, b"]")
}

/// Writes the field of the entries.
fn write_field<P: Page>(memo: &Entries, page: &mut P) -> Result<(), Failed>
    ensures { Writes (P.told page.old) (P.told page.new) result (fields_text (memo_fields memo.now)) }
{
    write_name("entries", page)?;
    write_array(memo, page)
}

/// Writes the line of the memo.
pub(crate) fn write_memo<P: Page>(machine: &Machine, page: &mut P) -> Result<(), Failed>
    ensures { Writes (P.told page.old) (P.told page.new) result (memo_line machine.now.state.memo) }
{
    begin_line("memo", page)?;
    write_field(machine.memo_map(), page)?;
    end_line(page)
}
