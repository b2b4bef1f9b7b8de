//! Where texts are put together before they go on.

ghost use Rattle.std.specs.Prelude.{◌≡◌, ℕ, ◌+◌, ◌≤◌, [], ◌∷◌, ◌++◌, length, take, OnOk};
ghost use Rattle.pickle_io.specs.Device.{Wrote, Writes};

use crate::sink::{Failed, Sink};

/// A sink with room for short texts, which it takes without an answer: most of a text is put together there. What it took and has not
/// handed on counts as taken.
pub trait Page: Sink {
    // How many bytes it takes before it has to hand any on.
    ghost room: { Self → ℕ };

    /// Takes the first n bytes of a part. The whole part is copied, since a copy of a known length is no call.
    fn push_front(&mut self, part: &[u8], n: usize)
        requires room { length part.now ≤ room self.old }
        requires within { n ≤ length part.now }
        ensures text { Wrote (Self.told self.old) (Self.told self.new) (take n part.now) }
        ensures room { room self.new + n ≡ room self.old };

    /// Takes the first m bytes of one part and the first n of another: how much it holds is looked up and stored once.
    fn push_two(&mut self, first: &[u8], m: usize, second: &[u8], n: usize)
        requires room { length first.now + length second.now ≤ room self.old }
        requires first { m ≤ length first.now }
        requires second { n ≤ length second.now }
        ensures text { Wrote (Self.told self.old) (Self.told self.new) (take m first.now ++ take n second.now) }
        ensures room { room self.new + m + n ≡ room self.old };

    /// The same of three parts, of which the second is taken whole.
    fn push_three(&mut self, first: &[u8], m: usize, second: &[u8; 2], third: &[u8], n: usize)
        requires room { length first.now + 2 + length third.now ≤ room self.old }
        requires first { m ≤ length first.now }
        requires third { n ≤ length third.now }
        ensures text { Wrote (Self.told self.old) (Self.told self.new) (take m first.now ++ (second.now ++ take n third.now)) }
        ensures room { room self.new + m + 2 + n ≡ room self.old };

    /// Takes a byte.
    fn push(&mut self, byte: u8)
        requires { 1 ≤ room self.old }
        ensures text { Wrote (Self.told self.old) (Self.told self.new) (byte ∷ []) }
        ensures room { room self.new + 1 ≡ room self.old };

    /// Takes a short text.
    fn push_text(&mut self, text: &[u8])
        requires { length text.now ≤ room self.old }
        ensures text { Wrote (Self.told self.old) (Self.told self.new) text.now }
        ensures room { room self.new + length text.now ≡ room self.old };

    /// Hands on what it holds where a line, but for its long parts, may find no room. `Failed` where that fails.
    fn make_room(&mut self) -> Result<(), Failed>
        ensures writes { Writes (Self.told self.old) (Self.told self.new) result [] }
        ensures room { OnOk result (256 ≤ room self.new) };
}
