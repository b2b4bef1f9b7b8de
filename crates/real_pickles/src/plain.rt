//! A plain list of items, of which each knows whether it is a member of the frame before it. The bytes, and with them the
//! numbers of FRAMEs, are worked out from nothing each time.

use crate::Stop;
use pickle_doc::EditFault;
use std::alloc::Global;

/// How STOP is spelled.
const STOP: &[u8] = b".";

/// Where an item is.
#[derive(Clone, Copy, Debug, PartialEq, Eq)]
pub enum Kind {
    /// In no frame.
    Loose,
    /// In the frame of the nearest FRAME before it.
    Member,
    /// It is a FRAME.
    Frame,
}

/// An item, with the bytes that spell it; those of a FRAME are left out.
#[derive(Clone, Copy, Debug)]
pub struct Part<'a> {
    pub kind: Kind,
    pub bytes: &'a [u8],
}

impl Part<'_> {
    /// Whether it is STOP.
    pub fn is_stop(&self) -> bool {
        self.kind != Kind::Frame && self.bytes == STOP
    }
}

/// The items, how many bytes after them the last frame counts, and these bytes.
#[derive(Drop)]
pub struct Plain<'a> {
    pub parts: Vec<Part<'a>>,
    pub extra: u64,
    pub tail: &'a [u8],
}

/// Why this item may not be taken out or replaced.
fn fault_of(part: Option<&Part<'_>>) -> Option<EditFault> {
    match part {
        None => Some(EditFault::NoSuchItem),
        Some(part) if part.is_stop() => Some(EditFault::StopItem),
        Some(part) if part.kind == Kind::Frame => Some(EditFault::FrameItem),
        Some(_) => None,
    }
}

/// Whether an opcode that is spelled so is a FRAME.
fn is_frame(bytes: &[u8]) -> bool {
    bytes.first() == Some(&0x95)
}

impl<'a> Plain<'a> {
    /// The kind of item k.
    fn kind(&self, k: usize) -> Option<Kind> {
        self.parts.get(k).map(|part| part.kind)
    }

    /// How many items from item k on are members, one after the other.
    fn members(&self, k: usize) -> usize {
        let mut count: usize = 0;
        for j in k..self.parts.len() {
            if self.kind(j) != Some(Kind::Member) {
                return count;
            }
            count = count.saturating_add(1);
        }
        count
    }

    /// Whether the members from item k on are followed by the tail.
    fn reaches_the_end(&self, k: usize) -> bool {
        k.saturating_add(self.members(k)) == self.parts.len()
    }

    /// The number of the FRAME before item k.
    fn number(&self, k: usize) -> u64 {
        let mut number: u64 = 0;
        for j in k..k.saturating_add(self.members(k)) {
            let size = self.parts.get(j).map_or(0, |part| part.bytes.len());
            number = number.saturating_add(size as u64);
        }
        if self.reaches_the_end(k) {
            number.saturating_add(self.extra)
        } else {
            number
        }
    }

    /// The bytes.
    pub fn bytes(&self, alloc: Global) -> Result<Vec<u8>, Stop> {
        let mut bytes = Vec::new(alloc);
        for (k, part) in self.parts.iter().enumerate() {
            if part.kind == Kind::Frame {
                let number = self.number(k.saturating_add(1));
                bytes.extend_from_slice(&[0x95])?;
                bytes.extend_from_slice(&number.to_le_bytes())?;
            } else {
                bytes.extend_from_slice(part.bytes)?;
            }
        }
        bytes.extend_from_slice(self.tail)?;
        Ok(bytes)
    }

    /// Whether the place is after STOP.
    fn is_after_stop(&self, k: usize) -> bool {
        k == self.parts.len() && self.parts.last().is_some_and(|part| part.is_stop())
    }

    /// Puts a part before item k, or last.
    fn put(&mut self, k: usize, part: Part<'a>) -> Result<(), Stop> {
        if k <= self.parts.len() && self.parts.insert(k, part).is_ok() {
            Ok(())
        } else {
            Err(Stop::Room)
        }
    }

    /// Gives items another kind.
    fn set_kinds(&mut self, k: usize, count: usize, kind: Kind) {
        for j in k..k.saturating_add(count) {
            if let Some(part) = self.parts.get_mut(j) {
                part.kind = kind;
            }
        }
    }

    /// Why no opcode that is spelled so can replace item k.
    pub fn replace_fault(&self, k: usize, bytes: &[u8]) -> Option<EditFault> {
        let fault = fault_of(self.parts.get(k));
        if fault == Some(EditFault::NoSuchItem) {
            return fault;
        }
        if bytes == STOP {
            return Some(EditFault::StopItem);
        }
        if fault.is_none() && is_frame(bytes) {
            return Some(EditFault::FrameItem);
        }
        fault
    }

    /// Replaces item k by another opcode.
    pub fn replace(&mut self, k: usize, bytes: &'a [u8]) {
        if let Some(part) = self.parts.get_mut(k) {
            part.bytes = bytes;
        }
    }

    /// Whether an item that is put before item k, or last, joins a frame.
    fn joins(&self, k: usize) -> bool {
        self.kind(k) == Some(Kind::Member) || (k == self.parts.len() && self.extra > 0)
    }

    /// Why no opcode that is spelled so can be put before item k.
    pub fn insert_fault(&self, k: usize, bytes: &[u8]) -> Option<EditFault> {
        if k > self.parts.len() {
            return Some(EditFault::NoSuchItem);
        }
        if bytes == STOP {
            return Some(EditFault::StopItem);
        }
        if is_frame(bytes) {
            return Some(EditFault::FrameItem);
        }
        if self.is_after_stop(k) {
            return Some(EditFault::AfterStop);
        }
        None
    }

    /// Puts an opcode before item k, or last.
    pub fn insert(&mut self, k: usize, bytes: &'a [u8]) -> Result<(), Stop> {
        let kind = if self.joins(k) {
            Kind::Member
        } else {
            Kind::Loose
        };
        self.put(k, Part { kind, bytes })
    }

    /// Why item k cannot be taken out.
    pub fn delete_fault(&self, k: usize) -> Option<EditFault> {
        fault_of(self.parts.get(k))
    }

    /// Takes item k out.
    pub fn delete(&mut self, k: usize) {
        if k < self.parts.len() {
            let _part = self.parts.remove(k);
        }
    }

    /// Why no frame can be put round this many items from item k on.
    pub fn frame_fault(&self, k: usize, count: usize) -> Option<EditFault> {
        if k > self.parts.len() || count > self.parts.len().saturating_sub(k) {
            return Some(EditFault::NoSuchItem);
        }
        let mut is_member = false;
        for j in k..k.saturating_add(count) {
            if self.kind(j) == Some(Kind::Frame) {
                return Some(EditFault::FrameItem);
            }
            is_member |= self.kind(j) == Some(Kind::Member);
        }
        if self.is_after_stop(k) {
            return Some(EditFault::AfterStop);
        }
        if is_member || (count == 0 && self.joins(k)) {
            Some(EditFault::AlreadyFramed)
        } else {
            None
        }
    }

    /// Puts a frame round items.
    pub fn frame(&mut self, k: usize, count: usize) -> Result<(), Stop> {
        self.set_kinds(k, count, Kind::Member);
        let kind = Kind::Frame;
        self.put(k, Part { kind, bytes: &[] })
    }

    /// Why the frame of item k cannot be taken away.
    pub fn unframe_fault(&self, k: usize) -> Option<EditFault> {
        let Some(kind) = self.kind(k) else {
            return Some(EditFault::NoSuchItem);
        };
        if kind != Kind::Frame {
            return Some(EditFault::FrameItem);
        }
        if self.extra > 0 && self.reaches_the_end(k.saturating_add(1)) {
            return Some(EditFault::OpenFrame);
        }
        None
    }

    /// Takes a frame away.
    pub fn unframe(&mut self, k: usize) {
        let behind = k.saturating_add(1);
        let count = self.members(behind);
        self.set_kinds(behind, count, Kind::Loose);
        self.delete(k);
    }
}
