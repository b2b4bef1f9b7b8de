//! What the opcodes come to besides their objects: the protocols, the frames, and what the last opcode was.

ghost use Rattle.std.specs.Prelude.{◌≡◌, ◌<◌, ◌≤◌, ◌+◌, ◌-◌, ◌^◌, ◌&&◌, ◌||◌, not, nat_lt, nat_le, length};
ghost use Rattle.pickle_ops.specs.Spelling.{size_of};
ghost use Rattle.pickle_form.specs.Spelled.{or_else, last_protocol};
ghost use Rattle.pickle_form.specs.Run.{is_proto, is_frame, is_stop, is_reduce, is_pop, is_pair, leaves_a_rest, is_filled, first_protocol, is_drop, is_put, is_get, is_kept, is_large};
ghost use Rattle.pickle_form.specs.Inside.{is_turn};

use crate::reason::Reason;
use crate::spelled::unless;
use pickle_ops::{OpRef, Opcode};
use std::marker::Model;

/// What the opcodes before a place come to besides their objects.
#[derive(Drop)]
pub struct Run {
    // the first protocol that the pickle may be of, and the last one
    first: u64,
    last: u64,
    // how many bytes of a frame are left
    left: u64,
    // how many bytes have no frame, since the last frame or large opcode
    loose: u64,
    // whether there is an opcode
    begun: bool,
    // the last one that is no FRAME; while there is none, MARK, which makes, fills and leaves nothing
    before: Opcode,
    // whether something was dropped that is to come back from the memo
    dropping: bool,
    // whether the last opcode was a TUPLE2 below protocol 2, and whether that was the last but one
    pair: bool,
    sets: bool,
    // whether the next opcode may be any of the usual ones
    calm: bool,
}

impl Model for Run {
    ghost use Rattle.std.specs.Prelude.{◌≡◌, true};
    ghost use Rattle.pickle_form.specs.Run.{Run as Past, is_kept, is_filled, leaves_a_rest};
    ghost use Rattle.pickle_form.specs.Inside.{IsCalm};

    ghost Value = { Past };

    ghost view = { λ r. record {
      first = r.first;
      last = r.last;
      begun = r.begun;
      left = r.left;
      loose = r.loose;
      fresh = is_kept r.before;
      filled = is_filled r.before;
      called = leaves_a_rest r.before;
      dropping = r.dropping;
      pair = r.pair;
      sets = r.sets;
    } };

    ghost invariant = { λ r. r.calm ≡ true → IsCalm r.first r.last r.begun r.dropping r.pair r.sets };
}

/// Whether an opcode is PROTO.
fn is_proto(opcode: Opcode) -> bool
    ensures { result ≡ is_proto opcode }
{
    matches!(opcode, Opcode::Proto)
}

/// Whether an opcode is FRAME.
fn is_frame(opcode: Opcode) -> bool
    ensures { result ≡ is_frame opcode }
{
    matches!(opcode, Opcode::Frame)
}

/// Whether an opcode is STOP.
fn is_stop(opcode: Opcode) -> bool
    ensures { result ≡ is_stop opcode }
{
    matches!(opcode, Opcode::Stop)
}

/// Whether an opcode is REDUCE.
pub fn is_reduce(opcode: Opcode) -> bool
    ensures { result ≡ is_reduce opcode }
{
    matches!(opcode, Opcode::Reduce)
}

/// Whether an opcode is POP.
fn is_pop(opcode: Opcode) -> bool
    ensures { result ≡ is_pop opcode }
{
    matches!(opcode, Opcode::Pop)
}

/// Whether an opcode is TUPLE2.
fn is_pair(opcode: Opcode) -> bool
    ensures { result ≡ is_pair opcode }
{
    matches!(opcode, Opcode::Tuple2)
}

/// Whether an opcode leaves an object that picklers drop.
fn leaves_a_rest(opcode: Opcode) -> bool
    ensures { result ≡ leaves_a_rest opcode }
{
    match opcode {
        Opcode::Reduce => true,
        Opcode::SetItem => true,
        Opcode::SetItems => true,
        _ => false,
    }
}

/// Whether an opcode fills an object that torch keeps behind it.
fn is_filled(opcode: Opcode) -> bool
    ensures { result ≡ is_filled opcode }
{
    match opcode {
        Opcode::Build => true,
        Opcode::Appends => true,
        Opcode::SetItems => true,
        _ => false,
    }
}

/// The first protocol in which picklers write an opcode.
fn first_protocol(opcode: Opcode) -> u8
    ensures { result ≡ first_protocol opcode }
{
    if is_pair(opcode) {
        0
    } else {
        opcode.protocol()
    }
}

/// Whether an opcode drops objects.
fn is_drop(opcode: Opcode) -> bool
    ensures { result ≡ is_drop opcode }
{
    match opcode {
        Opcode::Pop => true,
        Opcode::PopMark => true,
        _ => false,
    }
}

/// Whether an opcode keeps the top in the memo.
#[inline(always)]
fn is_put(opcode: Opcode) -> bool
    ensures { result ≡ is_put opcode }
{
    match opcode {
        Opcode::Put => true,
        Opcode::BinPut => true,
        Opcode::LongBinPut => true,
        Opcode::Memoize => true,
        _ => false,
    }
}

/// Whether an opcode takes from the memo.
fn is_get(opcode: Opcode) -> bool
    ensures { result ≡ is_get opcode }
{
    match opcode {
        Opcode::Get => true,
        Opcode::BinGet => true,
        Opcode::LongBinGet => true,
        _ => false,
    }
}

/// Whether picklers keep in the memo what an opcode makes.
#[inline(always)]
fn is_kept(opcode: Opcode) -> bool
    ensures { result ≡ is_kept opcode }
{
    match opcode {
        Opcode::String => true,
        Opcode::BinString => true,
        Opcode::ShortBinString => true,
        Opcode::BinBytes => true,
        Opcode::ShortBinBytes => true,
        Opcode::BinBytes8 => true,
        Opcode::ByteArray8 => true,
        Opcode::Unicode => true,
        Opcode::ShortBinUnicode => true,
        Opcode::BinUnicode => true,
        Opcode::BinUnicode8 => true,
        Opcode::EmptyList => true,
        Opcode::List => true,
        Opcode::Tuple => true,
        Opcode::Tuple1 => true,
        Opcode::Tuple2 => true,
        Opcode::Tuple3 => true,
        Opcode::EmptyDict => true,
        Opcode::Dict => true,
        Opcode::EmptySet => true,
        Opcode::FrozenSet => true,
        Opcode::Global => true,
        Opcode::StackGlobal => true,
        Opcode::Reduce => true,
        Opcode::NewObj => true,
        Opcode::NewObjEx => true,
        Opcode::Inst => true,
        Opcode::Obj => true,
        Opcode::BinPersId => true,
        _ => false,
    }
}

/// Whether an opcode asks for more than usual ones, or changes what may follow.
#[inline(always)]
fn is_turn(opcode: Opcode) -> bool
    ensures { result ≡ is_turn opcode }
{
    match opcode {
        Opcode::Proto => true,
        Opcode::Frame => true,
        Opcode::Stop => true,
        Opcode::Pop => true,
        Opcode::PopMark => true,
        Opcode::Tuple2 => true,
        _ => false,
    }
}

/// Whether the framer writes so many bytes without a frame round them.
fn is_large(size: u64) -> bool
    ensures { result ≡ is_large size }
{
    65_536 < size
}

impl Run {
    ghost use Rattle.std.specs.Prelude.{◌≡◌, ◌<◌, ◌≤◌, ◌+◌, ◌^◌, ◌||◌, nat_lt, if◌then◌else◌, true, None};
    ghost use Rattle.pickle_ops.specs.Spelling.{size_of};
    ghost use Rattle.pickle_form.specs.Spelled.{or_else, last_protocol};
    ghost use Rattle.pickle_form.specs.Inside.{IsUsual};
    ghost use Rattle.pickle_form.specs.Run.{is_frame, is_proto, is_large, begin_run, first_here, last_here, left_after, loose_after, other_frame, other_drop, other_proto, other_setter, other_put, other_run, drops_after, after_run};

    /// Nothing was read.
    pub fn begin() -> Run
        ensures { result ≡ begin_run }
    {
        Run {
            first: 0,
            last: 1,
            left: 0,
            loose: 0,
            begun: false,
            before: Opcode::Mark,
            dropping: false,
            pair: false,
            sets: false,
            calm: false,
        }
    }

    /// The first protocol that the pickle may be of.
    pub fn first(&self) -> u64
        ensures { result ≡ self.now.first }
    {
        self.first
    }

    /// The first protocol that the pickle may be of, with this opcode.
    fn first_here(&self, op: &OpRef<'_>) -> u64
        ensures { result ≡ first_here op.now self.now }
    {
        if is_proto(op.opcode()) {
            op.number()
        } else {
            self.first.max(u64::from(first_protocol(op.opcode())))
        }
    }

    /// The last protocol that the pickle may be of, with this opcode, of which this is the last.
    fn last_here(&self, op: &OpRef<'_>, last: u64) -> u64
        requires { last ≡ last_protocol op.now.opcode op.now.arg }
        ensures { result ≡ last_here op.now self.now }
    {
        if is_proto(op.opcode()) {
            op.number()
        } else {
            self.last.min(last)
        }
    }

    /// How many bytes of the frame are left behind the opcode.
    fn left_after(&self, op: &OpRef<'_>) -> u64
        ensures { result ≡ left_after op.now self.now }
    {
        if is_frame(op.opcode()) {
            op.number()
        } else {
            self.left.saturating_sub(op.size() as u64)
        }
    }

    /// Whether the bytes of the opcode, of which there are so many, belong to a frame, or need none.
    fn is_framed(&self, opcode: Opcode, size: u64) -> bool
        ensures { result ≡ (is_frame opcode || is_proto opcode || is_large size || nat_lt 0 self.now.left) }
    {
        is_frame(opcode) || is_proto(opcode) || is_large(size) || 0 < self.left
    }

    /// How many bytes have no frame behind the opcode.
    fn loose_after(&self, op: &OpRef<'_>) -> u64
        requires { self.now.loose + size_of op.now < 2 ^ 63 }
        ensures { result ≡ loose_after op.now self.now }
    {
        let size = op.size() as u64;
        if self.is_framed(op.opcode(), size) {
            0
        } else {
            self.loose + size
        }
    }

    /// Why the opcode has no frame that it should have, or STOP does not end its frame. These are the first protocol and the bytes without a
    /// frame behind it.
    fn other_frame(&self, op: &OpRef<'_>, first: u64, loose: u64) -> Option<Reason>
        requires first { first ≡ first_here op.now self.now }
        requires loose { loose ≡ loose_after op.now self.now }
        ensures { result ≡ other_frame op.now self.now }
    {
        if 4 <= first && 4 <= loose {
            return Some(Reason::NoFrame);
        }
        if is_stop(op.opcode()) && 1 < self.left {
            return Some(Reason::StopInFrame);
        }
        None
    }

    /// Why what was dropped does not come back.
    fn other_drop(&self, op: &OpRef<'_>) -> Option<Reason>
        ensures { result ≡ other_drop op.now self.now }
    {
        if !self.dropping {
            return None;
        }
        if is_drop(op.opcode()) {
            return None;
        }
        unless(is_get(op.opcode()), Reason::Dropped)
    }

    /// Why PROTO does not stand here.
    fn other_proto(&self, op: &OpRef<'_>) -> Option<Reason>
        ensures { result ≡ other_proto op.now self.now }
    {
        if is_proto(op.opcode()) {
            unless(!self.begun, Reason::SecondProtocol)
        } else {
            None
        }
    }

    /// Why a TUPLE2 below protocol 2 does not stand here.
    fn other_setter(&self, op: &OpRef<'_>) -> Option<Reason>
        ensures { result ≡ other_setter op.now self.now }
    {
        if self.pair && !is_reduce(op.opcode()) {
            return Some(Reason::OtherProtocol);
        }
        if self.sets && !is_pop(op.opcode()) {
            return Some(Reason::OtherProtocol);
        }
        None
    }

    /// Why the top is not kept here, in a pickle of at least this protocol.
    fn other_put(&self, op: &OpRef<'_>, first: u64) -> Option<Reason>
        requires { first ≡ first_here op.now self.now }
        ensures { result ≡ other_put op.now self.now }
    {
        if !is_put(op.opcode()) {
            return None;
        }
        if is_kept(self.before) {
            return None;
        }
        unless(is_filled(self.before) && first == 2, Reason::NotMade)
    }

    /// Why no pickler writes the opcode behind what was dropped, and behind the last two. Few opcodes ask for one behind them.
    fn other_behind(&self, op: &OpRef<'_>, first: u64) -> Option<Reason>
        requires { first ≡ first_here op.now self.now }
        ensures { result ≡ or_else (other_drop op.now self.now) (or_else (other_setter op.now self.now) (other_put op.now self.now)) }
    {
        if !self.dropping && !self.pair && !self.sets {
            return self.other_put(op, first);
        }
        if let Some(why) = self.other_drop(op) {
            return Some(why);
        }
        if let Some(why) = self.other_setter(op) {
            return Some(why);
        }
        self.other_put(op, first)
    }

    /// Why no pickler writes the opcode behind these. These are the first and the last protocol, and the bytes without a frame behind it.
    fn other(&self, op: &OpRef<'_>, first: u64, last: u64, loose: u64) -> Option<Reason>
        requires first { first ≡ first_here op.now self.now }
        requires last { last ≡ last_here op.now self.now }
        requires loose { loose ≡ loose_after op.now self.now }
        ensures why { result ≡ other_run op.now self.now }
        ensures order { result ≡ None → first ≤ last }
    {
        if let Some(why) = self.other_proto(op) {
            return Some(why);
        }
        if last < first {
            return Some(Reason::OtherProtocol);
        }
        if let Some(why) = self.other_frame(op, first, loose) {
            return Some(why);
        }
        self.other_behind(op, first)
    }

    /// Whether something is dropped behind the opcode that is to come back.
    fn drops_after(&self, op: &OpRef<'_>) -> bool
        ensures { result ≡ drops_after op.now self.now }
    {
        is_drop(op.opcode()) && (self.dropping || !leaves_a_rest(self.before))
    }

    /// With this opcode. These are the first and the last protocol, and the bytes without a frame behind it.
    fn after(&self, op: &OpRef<'_>, first: u64, last: u64, loose: u64) -> Run
        requires first { first ≡ first_here op.now self.now }
        requires last { last ≡ last_here op.now self.now }
        requires loose { loose ≡ loose_after op.now self.now }
        requires good { first ≤ last }
        ensures { result ≡ after_run op.now self.now }
    {
        let frame = is_frame(op.opcode());
        let dropping = if frame {
            self.dropping
        } else {
            self.drops_after(op)
        };
        let pair = is_pair(op.opcode()) && last < 2;
        let sets = self.pair;
        Run {
            first,
            last,
            left: self.left_after(op),
            loose,
            begun: true,
            before: if frame { self.before } else { op.opcode() },
            dropping,
            pair,
            sets,
            calm: !dropping && !pair && !sets,
        }
    }

    /// Reads an opcode, of which this is the last protocol: why no pickler writes it behind these, if none does. Else it counts among them.
    #[inline(never)]
    fn take_any(&mut self, op: &OpRef<'_>, last: u64) -> Option<Reason>
        requires last { last ≡ last_protocol op.now.opcode op.now.arg }
        requires small { self.old.loose + size_of op.now < 2 ^ 63 }
        ensures why { result ≡ other_run op.now self.old }
        ensures next { result ≡ None → self.new ≡ after_run op.now self.old }
    {
        let first = self.first_here(op);
        let last = self.last_here(op, last);
        let loose = self.loose_after(op);
        if let Some(why) = self.other(op, first, last, loose) {
            return Some(why);
        }
        *self = self.after(op, first, last, loose);
        None
    }

    /// Whether an opcode, of which this is the last protocol, is a usual one, which changes nothing but the bytes of frames.
    #[inline(always)]
    fn is_usual(&self, op: &OpRef<'_>, last: u64) -> bool
        requires last { last ≡ last_protocol op.now.opcode op.now.arg }
        ensures { result ≡ true → IsUsual op.now self.now }
    {
        if !self.calm {
            return false;
        }
        if is_turn(op.opcode()) {
            return false;
        }
        if self.first < u64::from(op.opcode().protocol()) {
            return false;
        }
        if last < self.last {
            return false;
        }
        !is_put(op.opcode()) || is_kept(self.before)
    }

    /// How many bytes have no frame behind so many more, outside of frames.
    fn loose_outside(&self, size: u64) -> u64
        requires { self.now.loose + size < 2 ^ 63 }
        ensures { result ≡ if is_large size then 0 else self.now.loose + size }
    {
        if is_large(size) { 0 } else { self.loose + size }
    }

    /// Reads a usual opcode, behind which so many bytes of a frame are left, and so many have none.
    #[inline(always)]
    fn pass(&mut self, op: &OpRef<'_>, left: u64, loose: u64)
        requires usual { IsUsual op.now self.old }
        requires left { left ≡ left_after op.now self.old }
        requires loose { loose ≡ loose_after op.now self.old }
        ensures { self.new ≡ after_run op.now self.old }
    {
        self.left = left;
        self.loose = loose;
        self.before = op.opcode();
    }

    /// Reads an opcode, of which this is the last protocol: why no pickler writes it behind these, if none does. Else it counts among them.
    /// A usual opcode is read with few looks: in a frame, or before protocol 4.
    #[inline(always)]
    pub fn take(&mut self, op: &OpRef<'_>, last: u64) -> Option<Reason>
        requires last { last ≡ last_protocol op.now.opcode op.now.arg }
        requires small { self.old.loose + size_of op.now < 2 ^ 63 }
        ensures why { result ≡ other_run op.now self.old }
        ensures next { result ≡ None → self.new ≡ after_run op.now self.old }
    {
        if !self.is_usual(op, last) {
            return self.take_any(&op.again(), last);
        }
        let size = op.size() as u64;
        if 0 < self.left {
            let left = self.left.saturating_sub(size);
            self.pass(op, left, 0);
            return None;
        }
        if 4 <= self.first {
            return self.take_any(&op.again(), last);
        }
        let loose = self.loose_outside(size);
        self.pass(op, 0, loose);
        None
    }
}
