//! A sink that hands on what it takes in blocks.

ghost use Rattle.std.specs.Prelude.{◌≡◌, ◌+◌, ◌≤◌, [], ◌++◌, length, take, drop, OnOk};
ghost use Rattle.pickle_io.specs.Device.{Writes, holding, held_in};

use crate::page::Page;
use crate::sink::{Failed, Sink};
use std::alloc::{AllocError, Global};

/// How many bytes it has room for.
const ROOM: usize = 65_536;

/// The least room: that of a line, but for its long parts.
const LINE: usize = 256;

/// Hands a text on from a place. Answers the place after what was taken.
fn hand_on<S: Sink>(sink: &mut S, text: &[u8], from: usize) -> (usize, Result<(), Failed>)
    requires { from ≤ length text.now }
    ensures within { result.0 ≤ length text.now }
    ensures all { OnOk result.1 (result.0 ≡ length text.now) }
    ensures told { Writes (holding (S.told sink.old) (drop from text.now)) (holding (S.told sink.new) (drop result.0 text.now)) result.1 [] }
{
    let mut place = from;
    while place < text.len() {
        match sink.write(&text[place..]) {
            Ok(n) => place += n,
            Err(failed) => return (place, Err(failed)),
        }
    }
    (place, Ok(()))
}

/// Copies a block of N bytes over as many.
#[inline(always)]
fn copy_array<const N: usize>(text: &mut [u8], block: &[u8])
    requires text { length text.old ≡ N }
    requires block { length block.now ≡ N }
    ensures { text.new ≡ block.now }
{
    if let Some(bytes) = block.as_array::<N>() {
        if let Some(place) = text.as_mut_array::<N>() {
            *place = *bytes;
        }
    }
}

/// Copies a block over as many bytes. Where the caller's block has a known length, it is an array, which one or two stores copy; a
/// slice would first be tested for overlap.
#[inline(always)]
fn copy_block(text: &mut [u8], block: &[u8])
    requires { length text.old ≡ length block.now }
    ensures { text.new ≡ block.now }
{
    match block.len() {
        1 => copy_array::<1>(text, block),
        2 => copy_array::<2>(text, block),
        8 => copy_array::<8>(text, block),
        16 => copy_array::<16>(text, block),
        20 => copy_array::<20>(text, block),
        _ => text.copy_from_slice(block),
    }
}

/// Copies a part to this place of a text. Answers the place after its first n bytes.
#[inline(always)]
fn copy_at(text: &mut [u8], at: usize, part: &[u8], n: usize) -> usize
    requires room { at + length part.now ≤ length text.old }
    requires within { n ≤ length part.now }
    ensures text { take (at + n) text.new ≡ take at text.old ++ take n part.now }
    ensures len { length text.new ≡ length text.old }
    ensures place { result ≡ at + n }
{
    let end = at + part.len();
    copy_block(&mut text[at..end], part);
    at + n
}

/// Copies a text to this place of another. Answers the place after it.
#[inline(always)]
fn copy_text(text: &mut [u8], at: usize, part: &[u8]) -> usize
    requires room { at + length part.now ≤ length text.old }
    ensures text { take (at + length part.now) text.new ≡ take at text.old ++ part.now }
    ensures len { length text.new ≡ length text.old }
    ensures place { result ≡ at + length part.now }
{
    let end = at + part.len();
    text[at..end].copy_from_slice(part);
    end
}

/// A sink that hands on what it takes in blocks, since a call of a device for each text would take most of the time. What it has
/// not handed on it still holds, also after a failure, and reports as taken. Dropped, it writes nothing.
#[derive(Drop)]
pub struct Buffered<S> {
    sink: S,
    // its length is the room, and never changes
    text: Vec<u8>,
    // what is before this place was handed on
    start: usize,
    // what is held ends here
    len: usize,
    ghost started: { start ≤ len },
    ghost within: { len ≤ length text.items },
    ghost line: { 256 ≤ length text.items },
}

impl<S: Sink + Drop> Buffered<S> {
    ghost use Rattle.std.specs.Prelude.{◌≡◌, ◌≤◌, ◌+◌, ◌-◌, [], length, IfOk, OnOk};
    ghost use Rattle.pickle_io.specs.Device.{Writes, holding, held_in};

    /// It holds nothing. An error comes only where memory runs out.
    pub fn new(alloc: Global, sink: S) -> Result<Buffered<S>, AllocError>
        ensures sink { IfOk result (λ b. b.sink ≡ sink) }
        ensures held { IfOk result (λ b. held_in b.text.items b.start b.len ≡ []) }
        ensures none { IfOk result (λ b. (holding (S.told b.sink) (held_in b.text.items b.start b.len)).held ≡ (S.told sink).held) }
    {
        Buffered::with_room(alloc, sink, ROOM)
    }

    /// The same with room for this many bytes, or for a line where that is more. An error comes only where memory runs out.
    pub fn with_room(alloc: Global, sink: S, room: usize) -> Result<Buffered<S>, AllocError>
        ensures sink { IfOk result (λ b. b.sink ≡ sink) }
        ensures room { IfOk result (λ b. room ≤ length b.text.items) }
        ensures held { IfOk result (λ b. held_in b.text.items b.start b.len ≡ []) }
        ensures none { IfOk result (λ b. (holding (S.told b.sink) (held_in b.text.items b.start b.len)).held ≡ (S.told sink).held) }
    {
        let mut text = Vec::new(alloc);
        text.resize(room.max(LINE), 0)?;
        Ok(Buffered {
            sink,
            text,
            start: 0,
            len: 0,
        })
    }

    /// The sink.
    pub fn get_ref(&self) -> &S
        ensures { result.now ≡ self.now.sink }
    {
        &self.sink
    }

    /// The sink. What was not handed on is lost.
    pub fn into_inner(self) -> S
        ensures { result ≡ self.sink }
    {
        let Buffered {
            sink,
            text: _,
            start: _,
            len: _,
        } = self;
        sink
    }

    /// Hands on all that it holds. `Failed` comes from its sink; what was not taken it holds still.
    #[inline(never)]
    fn empty(&mut self) -> Result<(), Failed>
        ensures told { Writes (holding (S.told self.old.sink) (held_in self.old.text.items self.old.start self.old.len))
            (holding (S.told self.new.sink) (held_in self.new.text.items self.new.start self.new.len)) result [] }
        ensures held { OnOk result (held_in self.new.text.items self.new.start self.new.len ≡ []) }
        ensures none { OnOk result ((self.new.len ≡ 0) × (self.new.start ≡ 0)) }
        ensures room { length self.new.text.items ≡ length self.old.text.items }
    {
        let held = &self.text[..self.len];
        let (place, handed) = hand_on(&mut self.sink, held, self.start);
        self.start = place;
        handed?;
        self.start = 0;
        self.len = 0;
        Ok(())
    }
}

impl<S: Sink + Drop> Sink for Buffered<S> {
    ghost told = { λ b. holding (S.told b.sink) (held_in b.text.items b.start b.len) };

    fn write(&mut self, bytes: &[u8]) -> Result<usize, Failed> {
        if self.len == self.text.len() {
            self.empty()?;
        }
        let n = bytes.len().min(self.text.len() - self.len);
        self.len = copy_text(self.text.as_mut_slice(), self.len, &bytes[..n]);
        Ok(n)
    }

    fn flush(&mut self) -> Result<(), Failed> {
        self.empty()?;
        self.sink.flush()
    }
}

impl<S: Sink + Drop> Page for Buffered<S> {
    ghost use Rattle.std.specs.Prelude.{◌-◌};

    ghost room = { λ b. length b.text.items - b.len };

    #[inline(always)]
    fn push_front(&mut self, part: &[u8], n: usize) {
        self.len = copy_at(self.text.as_mut_slice(), self.len, part, n);
    }

    #[inline(always)]
    fn push_two(&mut self, first: &[u8], m: usize, second: &[u8], n: usize) {
        let text = self.text.as_mut_slice();
        let at = copy_at(text, self.len, first, m);
        self.len = copy_at(text, at, second, n);
    }

    #[inline(always)]
    fn push_three(&mut self, first: &[u8], m: usize, second: &[u8; 2], third: &[u8], n: usize) {
        let text = self.text.as_mut_slice();
        let at = copy_at(text, self.len, first, m);
        let at = copy_at(text, at, second, 2);
        self.len = copy_at(text, at, third, n);
    }

    #[inline(always)]
    fn push(&mut self, byte: u8) {
        self.text[self.len] = byte;
        self.len += 1;
    }

    #[inline(always)]
    fn push_text(&mut self, text: &[u8]) {
        self.len = copy_text(self.text.as_mut_slice(), self.len, text);
    }

    #[inline(always)]
    fn make_room(&mut self) -> Result<(), Failed> {
        if self.text.len() - self.len < LINE {
            self.empty()?;
        }
        Ok(())
    }
}
