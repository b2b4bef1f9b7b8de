//! The record of a step, worked out before the step is done.

ghost use Rattle.std.specs.Prelude.{◌≡◌};

use crate::check::Operands;
use crate::loader::parts_in;
use crate::machine::Core;
use crate::record::{Effect, Section, StepRecord};
use crate::stack::deep;
use pickle_ops::{Demand, Filling, Row};
use std::alloc::{AllocError, Global};

impl Core {
    ghost use Rattle.std.specs.Prelude.{◌≡◌, ◌<◌, length, IfOk, OnErr, None, Some, false};
    ghost use Rattle.pickle_ops.specs.Row.{values_of};
    ghost use Rattle.pickle_machine.specs.State.{top_mark_place};
    ghost use Rattle.pickle_machine.specs.Move.{refusal_of, last_of, cut, deep};
    ghost use Rattle.pickle_machine.specs.Held.{is_free_within};
    ghost use Rattle.pickle_machine.specs.Records.{lost, stored_entry, record_of};
    ghost use Rattle.pickle_machine.specs.Inside.Records.{recorded};

    /// The record of a step of this effect.
    #[inline(always)]
    pub(crate) fn recorded(&self, effect: Effect) -> StepRecord
        ensures { result ≡ recorded effect self.now.state }
    {
        StepRecord {
            effect,
            buffers: self.buffers,
            results: self.results.len(),
        }
    }

    /// The top section with the mark under it, which becomes this many changes.
    fn section(&self, alloc: Global, changes: usize) -> Result<Box<Section>, AllocError>
        requires { 0 < length self.now.state.marked }
        ensures place { IfOk result (λ b. b.value.place ≡ top_mark_place self.now.state.marked) }
        ensures items { IfOk result (λ b. b.value.items.items ≡ self.now.state.top) }
        ensures changes { IfOk result (λ b. b.value.changes ≡ changes) }
    {
        let section = Section {
            place: self.stack.place(),
            items: Vec::from_slice(alloc, self.stack.top())?,
            changes,
        };
        Ok(Box::new(alloc, section)?)
    }

    /// The record where a view is made of the top, unless that is read only already.
    fn view_record(&self) -> StepRecord
        requires { refusal_of Row.ReadOnly self.now.state ≡ None }
        ensures { result ≡ record_of Row.ReadOnly self.now.state }
    {
        let id = deep(self.stack.top(), 0);
        if self.meets(id, Demand::ReadOnly) {
            self.recorded(Effect::Nothing)
        } else {
            self.recorded(Effect::Made)
        }
    }

    /// The record where the last objects of the top section go as a change into the one below them.
    fn fill_record(&self, filling: Filling) -> StepRecord
        requires { values_of filling < length self.now.state.top }
        ensures { result ≡ record_of (Row.Change filling) self.now.state }
    {
        let top = self.stack.top();
        let target = deep(top, filling.values());
        let value = deep(top, 0);
        match filling {
            Filling::SetItem => {
                let pair = [deep(top, 1), value];
                self.recorded(Effect::FilledWithPair(target, pair))
            }
            _ => self.recorded(Effect::Filled(target, [value])),
        }
    }

    /// The record where the objects above the topmost mark go as changes into the one below it.
    #[tactic(auto, using(crate::proofs::Counts::change_count))]
    fn fill_cut_record(&self, alloc: Global, filling: Filling) -> Result<StepRecord, AllocError>
        requires marked { 0 < length self.now.state.marked }
        requires below { 0 < length (cut self.now.state).top }
        ensures { IfOk result (λ r. r ≡ record_of (Row.CutChange filling) self.now.state) }
    {
        let below = self.stack.under();
        let target = below[below.len() - 1];
        let changes = parts_in(filling, self.stack.top().len());
        let section = self.section(alloc, changes)?;
        Ok(self.recorded(Effect::FilledWithSection(target, section)))
    }

    /// The record where the top is taken.
    fn lost_record(&self) -> StepRecord
        requires { 0 < length self.now.state.top }
        ensures { result ≡ lost (last_of 1 self.now.state) None self.now.state }
    {
        self.recorded(Effect::Lost([deep(self.stack.top(), 0)]))
    }

    /// The record where the top is taken, or where the section is empty, the mark under it.
    fn pop_record(&self) -> StepRecord
        requires { refusal_of Row.Pop self.now.state ≡ None }
        ensures { result ≡ record_of Row.Pop self.now.state }
    {
        if self.stack.top().is_empty() {
            self.recorded(Effect::LostMark(self.stack.place()))
        } else {
            self.lost_record()
        }
    }

    /// The record where the topmost mark goes, and what is above it.
    fn lost_section_record(&self, alloc: Global) -> Result<StepRecord, AllocError>
        requires { 0 < length self.now.state.marked }
        ensures { IfOk result (λ r. r ≡ lost self.now.state.top (Some (top_mark_place self.now.state.marked)) self.now.state) }
    {
        let section = self.section(alloc, 0)?;
        Ok(self.recorded(Effect::LostSection(section)))
    }

    /// The record where the memo gets an entry under this key.
    fn stored_record(&self, key: u64) -> StepRecord
        ensures { result ≡ stored_entry key self.now.state }
    {
        match self.memo.get(key) {
            None => self.recorded(Effect::Stored(key)),
            Some(old) => self.recorded(Effect::StoredOver(old, key)),
        }
    }

    /// The record of a row that is not refused, within a pickle. Of a free step it takes no memory.
    #[inline(always)]
    pub(crate) fn record_of(&self, alloc: Global, row: Row) -> Result<StepRecord, AllocError>
        requires { refusal_of row self.now.state ≡ None }
        ensures record { IfOk result (λ r. r ≡ record_of row self.now.state) }
        ensures free { OnErr result (is_free_within row self.now ≡ false) }
    {
        match row {
            Row::Nothing => Ok(self.recorded(Effect::Nothing)),
            Row::Protocol(_) => Ok(self.recorded(Effect::Nothing)),
            Row::Extension(_) => Ok(self.recorded(Effect::Made)),
            Row::Push => Ok(self.recorded(Effect::Made)),
            Row::Buffer => Ok(self.recorded(Effect::Made)),
            Row::ReadOnly => Ok(self.view_record()),
            Row::Take(_) => Ok(self.recorded(Effect::Made)),
            Row::Cut(_) => Ok(self.recorded(Effect::MadeOfSection(self.stack.place()))),
            Row::Change(filling) => Ok(self.fill_record(filling)),
            Row::CutChange(filling) => self.fill_cut_record(alloc, filling),
            Row::Pop => Ok(self.pop_record()),
            Row::PopMark => self.lost_section_record(alloc),
            Row::Dup => Ok(self.recorded(Effect::Repeated)),
            Row::Mark => Ok(self.recorded(Effect::Marked)),
            Row::Get(_) => Ok(self.recorded(Effect::Repeated)),
            Row::Put(key) => Ok(self.stored_record(key)),
            Row::Memoize => Ok(self.stored_record(self.memo_len() as u64)),
            Row::Stop => Ok(self.lost_record()),
        }
    }
}
