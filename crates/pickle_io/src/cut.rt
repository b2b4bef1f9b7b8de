//! What is left of bytes.

ghost use Rattle.std.specs.Prelude.{◌≡◌, ◌+◌, ◌-◌, ◌≤◌, length};
ghost use Rattle.std.specs.List.{copy_within};

use crate::hole::Hole;
use crate::holes::Holes;

/// Moves the bytes from `start` to `end` to those behind the first `kept`, and answers how many come before their end there.
fn keep(bytes: &mut [u8], start: usize, end: usize, kept: usize) -> usize
    requires order { start ≤ end }
    requires within { end ≤ length bytes.old }
    requires before { kept ≤ start }
    ensures moved { bytes.new ≡ copy_within bytes.old start end kept }
    ensures len { length bytes.new ≡ length bytes.old }
    ensures kept { result ≡ kept + (end - start) }
{
    bytes.copy_within(start..end, kept);
    kept + (end - start)
}

impl Holes {
    ghost use Rattle.std.specs.Prelude.{◌≡◌, ◌≤◌, length, take, None};
    ghost use Rattle.pickle_io.specs.Holes.{first_outside, without};

    /// The first hole that does not lie within so many bytes.
    pub fn first_outside(&self, size: usize) -> Option<Hole>
        ensures { result ≡ first_outside size self.now }
    {
        for hole in self.as_slice() {
            if hole.offset + hole.size > size as u64 {
                return Some(*hole);
            }
        }
        None
    }

    /// Moves what is left of the bytes to their front, in its order, and answers how many bytes that are. The holes lie within the bytes.
    pub fn cut(&self, bytes: &mut [u8]) -> usize
        requires { first_outside (length bytes.old) self.now ≡ None }
        ensures within { result ≤ length bytes.new }
        ensures len { length bytes.new ≡ length bytes.old }
        ensures left { take result bytes.new ≡ without self.now bytes.old }
    {
        let mut kept = 0;
        let mut from = 0;
        for hole in self.as_slice() {
            kept = keep(bytes, from, hole.offset as usize, kept);
            from = (hole.offset + hole.size) as usize;
        }
        keep(bytes, from, bytes.len(), kept)
    }
}
