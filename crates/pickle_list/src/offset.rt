//! The offset of a line.

ghost use Rattle.std.specs.Prelude.{◌≡◌, ◌≤◌, ◌<◌, ◌^◌, ◌+◌, ◌/◌, ◌%◌, ◌∷◌, [], length, take, decimal};
ghost use Rattle.pickle_io.specs.Device.{Wrote};
ghost use Rattle.pickle_io.specs.Text.{◌⧺◌};
ghost use Rattle.pickle_text.specs.Column.{right_aligned};

use itoa::write_digits;
use pickle_io::Page;
use pickle_text::push_right;
use std::marker::Model;

/// The two digits of each number below 100.
static PAIRS: [u8; 200] =
    *b"00010203040506070809101112131415161718192021222324252627282930313233343536373839404142434445464748495051525354555657585960616263646566676869707172737475767778798081828384858687888990919293949596979899";

/// The two digits of a number below 100.
#[tactic(auto, using(crate::proofs::Offsets::offset_steps))]
#[inline(always)]
fn pair_of(n: u64) -> [u8; 2]
    requires { n < 100 }
    ensures { result ≡ (48 + n / 10) ∷ (48 + n % 10) ∷ [] }
{
    let from = n as usize * 2;
    [PAIRS[from], PAIRS[from + 1]]
}

/// An offset that is counted up from line to line. It has the text of its hundreds, so that mostly only two digits are new.
#[derive(Drop)]
pub struct Offset {
    hundreds: u64,
    rest: u64,
    text: [u8; 16],
    len: usize,
}

impl Model for Offset {
    ghost use Rattle.std.specs.Prelude.{◌≡◌, ◌≤◌, ◌<◌, ◌^◌, ◌+◌, ◌*◌, ℕ, decimal, take};
    ghost use Rattle.pickle_text.specs.Column.{right_aligned};

    ghost Value = { ℕ };

    ghost view = { λ o. o.hundreds * 100 + o.rest };

    ghost invariant = { λ o. (o.hundreds < 2 ^ 40) × (o.rest < 100) × (o.len ≤ 16) × (take o.len o.text ≡ right_aligned 3 (decimal o.hundreds)) };
}

impl Offset {
    /// The offset n.
    #[tactic(auto, using(crate::proofs::Offsets::offset_steps))]
    pub fn at(n: u64) -> Offset
        requires { n < 2 ^ 40 }
        ensures { result ≡ n }
    {
        let hundreds = n / 100;
        let mut piece = [b' '; 40];
        let start = write_digits(hundreds, &mut piece, 20);
        let front = start.min(17);
        let mut text = [b' '; 16];
        text.copy_from_slice(&piece[front..front + 16]);
        Offset {
            hundreds,
            rest: n % 100,
            text,
            len: 20 - front,
        }
    }

    /// The offset as a number.
    #[inline(always)]
    pub fn number(&self) -> u64
        ensures value { result ≡ self.now }
    {
        self.hundreds * 100 + self.rest
    }

    /// Counts this many bytes, and answers whether the hundreds are others then.
    #[inline(always)]
    pub fn advance(&mut self, size: u64) -> bool
        requires { self.old + size < 2 ^ 40 }
        ensures { self.new ≡ self.old + size }
    {
        let rest = self.rest + size;
        if rest < 100 {
            self.rest = rest;
            return false;
        }
        self.jump(self.hundreds * 100 + rest);
        true
    }

    /// Goes on to another offset.
    #[inline(never)]
    fn jump(&mut self, n: u64)
        requires { n < 2 ^ 40 }
        ensures { self.new ≡ n }
    {
        *self = Offset::at(n);
    }
}

/// Puts an offset at the right of five places, and then the first n bytes of a part.
#[tactic(auto, using(crate::proofs::Offsets::offset_steps))]
#[inline(always)]
pub fn push_offset<P: Page>(offset: &Offset, part: &[u8], n: usize, page: &mut P)
    requires room { length part.now + 36 ≤ P.room page.old }
    requires within { n ≤ length part.now }
    ensures text { Wrote (P.told page.old) (P.told page.new) (right_aligned 5 (decimal offset.now) ⧺ take n part.now) }
    ensures room { P.room page.old ≤ P.room page.new + 25 + n }
{
    if offset.hundreds == 0 {
        push_right(offset.rest, page);
        page.push_front(part, n);
    } else {
        page.push_three(&offset.text, offset.len, &pair_of(offset.rest), part, n);
    }
}
