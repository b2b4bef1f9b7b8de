//! The buffer.

ghost use Rattle.std.specs.Prelude.{◌<◌, ◌≤◌, length};

use arrayvec::ArrayVec;
use pickle_io::{Failed, Page, Sink};

/// The longest line that is shown, with its newline.
const MOST: usize = 4_096;

/// How much room there has to be for the next part of a line.
const PART: usize = 256;

/// A page for one line, which fails where the line is longer than it shows.
#[derive(Drop)]
pub struct LineBuffer {
    bytes: ArrayVec<u8, 4352>,
    failures: u64,
    ghost within: { length bytes.items ≤ 4352 },
    ghost full: { 0 < failures → 4096 < length bytes.items },
}

impl LineBuffer {
    ghost use Rattle.std.specs.Prelude.{◌≡◌, ◌<◌, ◌≤◌, ◌+◌, [], ◌++◌, length};
    ghost use Rattle.std.specs.Option.{option_map};
    ghost use Rattle.pickle_io.specs.Device.{HasFailed};
    ghost use Rattle.line_buffer.specs.Line.{line_text, held_by, failures_of};

    /// It holds nothing, and has not failed.
    #[inline(always)]
    pub fn new() -> LineBuffer
        ensures held { held_by result ≡ [] }
        ensures calm { failures_of result ≡ 0 }
    {
        LineBuffer {
            bytes: ArrayVec::new(),
            failures: 0,
        }
    }

    /// The line that it holds without its newline. None where the line is too long.
    #[tactic(auto, unfolding(crate::specs::Line::line_text))]
    #[inline(always)]
    pub fn text(&self) -> Option<&[u8]>
        ensures { option_map (λ s. s.now) result ≡ line_text (held_by self.now) }
    {
        let bytes = self.bytes.as_slice();
        if bytes.len() <= MOST {
            Some(&bytes[..bytes.len().saturating_sub(1)])
        } else {
            None
        }
    }

    /// Takes bytes for which there is room.
    #[inline(always)]
    fn take(&mut self, bytes: &[u8])
        requires { length (held_by self.old) + length bytes.now ≤ 4352 }
        ensures held { held_by self.new ≡ held_by self.old ++ bytes.now }
        ensures calm { failures_of self.new ≡ failures_of self.old }
    {
        let _ = self.bytes.try_extend_from_slice(bytes);
    }

    /// Counts that it had no room.
    fn fail(&mut self) -> Failed
        requires { 4096 < length (held_by self.old) }
        ensures held { held_by self.new ≡ held_by self.old }
        ensures rises { failures_of self.old ≤ failures_of self.new }
        ensures failed { HasFailed (failures_of self.old) (failures_of self.new) }
    {
        self.failures = self.failures.saturating_add(1);
        Failed
    }
}

impl Sink for LineBuffer {
    ghost use Rattle.std.specs.Prelude.{Some};
    ghost use Rattle.line_buffer.specs.Line.{held_by, failures_of};

    ghost told = { λ b. record { taken = Some (held_by b); held = 0; failures = failures_of b } };

    fn write(&mut self, bytes: &[u8]) -> Result<usize, Failed> {
        let room = self.bytes.remaining_capacity();
        if room == 0 {
            return Err(self.fail());
        }
        let n = bytes.len().min(room);
        self.take(&bytes[..n]);
        Ok(n)
    }

    fn flush(&mut self) -> Result<(), Failed> {
        Ok(())
    }
}

impl Page for LineBuffer {
    ghost use Rattle.std.specs.Prelude.{◌-◌, length};
    ghost use Rattle.line_buffer.specs.Line.{held_by};

    ghost room = { λ b. 4352 - length (held_by b) };

    #[inline(always)]
    fn push_front(&mut self, part: &[u8], n: usize) {
        self.take(&part[..n]);
    }

    #[inline(always)]
    fn push_two(&mut self, first: &[u8], m: usize, second: &[u8], n: usize) {
        self.take(&first[..m]);
        self.take(&second[..n]);
    }

    #[inline(always)]
    fn push_three(&mut self, first: &[u8], m: usize, second: &[u8; 2], third: &[u8], n: usize) {
        self.take(&first[..m]);
        self.take(second);
        self.take(&third[..n]);
    }

    #[inline(always)]
    fn push(&mut self, byte: u8) {
        self.bytes.push(byte);
    }

    #[inline(always)]
    fn push_text(&mut self, text: &[u8]) {
        self.take(text);
    }

    #[inline(always)]
    fn make_room(&mut self) -> Result<(), Failed> {
        if self.bytes.remaining_capacity() < PART {
            return Err(self.fail());
        }
        Ok(())
    }
}
