//! A machine that reads its objects again from the bytes.

ghost use Rattle.std.specs.Prelude.{◌≡◌, ◌<◌, ◌≤◌, ◌-◌, ◌^◌, ◌++◌, length, drop, slice_get, OnOk, IfOk, None, Some};
ghost use Rattle.std.specs.Option.{option_map};
ghost use Rattle.std.specs.List.{between};
ghost use Rattle.pickle_ops.specs.Object.{Object};
ghost use Rattle.pickle_ops.specs.KindRef.{kind_view, look_shown};
ghost use Rattle.pickle_ops.specs.Row.{row_of, kind_of};
ghost use Rattle.pickle_machine.specs.Move.{refusal_of, next_of, fresh};
ghost use Rattle.pickle_machine.specs.Outline.{outline, sample};
ghost use Rattle.pickle_machine.specs.Inside.Origins.{kept_kind, if_parted, kept_of, makes, more_parts, more_origins, more_buffers, fresh_buffers, start_of, IsKept};
ghost use Rattle.pickle_machine.specs.Reading.{reading};

use crate::again::Again;
use crate::check::{Operands, first_refusal};
use crate::inspect::Inspect;
use crate::lean::Lean;
use crate::machine::Machine;
use crate::refusal::Refusal;
use crate::stack::deep;
use pickle_ops::{Class, Demand, KindRef, Look, ObjId, OpRef, Row, peek_op};
use std::alloc::{AllocError, Global};
use std::marker::Model;

/// Where an object comes from: the offset of its opcode, and where the numbers end that are kept of it. They begin where those of the
/// object before it end.
#[derive(Clone, Copy)]
pub struct Origin {
    offset: u32,
    end: u32,
}

const _: () = prove!(size_of::<Origin>() == 8);

/// How many numbers these are, in 32 bits. More cannot be kept, as if there were no memory.
fn count_kept(kept: &[ObjId]) -> Result<u32, AllocError>
    ensures { IfOk result (λ n. n ≡ length kept.now) }
{
    match u32::try_from(kept.len()) {
        Ok(count) => Ok(count),
        Err(_) => Err(AllocError),
    }
}

/// The parts of an object of this class that is made of what is above a mark, where they may be shown.
fn if_parted(class: Class, parts: &[ObjId]) -> &[ObjId]
    ensures { result.now ≡ if_parted class parts.now }
{
    match class {
        Class::Tuple | Class::Opaque | Class::ReadOnly => parts,
        _ => &[],
    }
}

/// The kind of the object that an operation makes of which these numbers are kept.
fn kind_kept<'a>(op: &OpRef<'a>, kept: &[ObjId]) -> KindRef<'a>
    ensures { kind_view result ≡ kept_kind (row_of op.now) (kind_of op.now) kept.now }
{
    match Row::of_ref(op) {
        Row::Buffer => KindRef::Buffer(match kept.get(0) {
            Some(number) => u64::from(*number),
            None => 0,
        }),
        Row::ReadOnly => KindRef::ReadOnly,
        _ => KindRef::of(op),
    }
}

/// Whether a row makes an object.
#[inline(always)]
fn makes(row: Row, lean: &Lean) -> bool
    requires { refusal_of row lean.now ≡ None }
    ensures { result ≡ makes row lean.now }
{
    match row {
        Row::Push => true,
        Row::Extension(_) => true,
        Row::Buffer => true,
        Row::ReadOnly => !lean.meets(deep(lean.top(), 0), Demand::ReadOnly),
        Row::Take(_) => true,
        Row::Cut(_) => true,
        _ => false,
    }
}

/// The last n of these.
#[inline(always)]
fn last_of(n: usize, top: &[ObjId]) -> &[ObjId]
    requires { n ≤ length top.now }
    ensures { result.now ≡ drop (length top.now - n) top.now }
{
    &top[top.len() - n..]
}

/// Keeps the numbers of the object that a row makes.
#[inline(always)]
fn keep_parts(
    row: Row,
    class: Class,
    buffers: u32,
    lean: &Lean,
    parts: &mut Vec<ObjId>,
) -> Result<(), AllocError>
    requires { refusal_of row lean.now ≡ None }
    ensures { OnOk result (parts.new.items ≡ parts.old.items ++ kept_of row class buffers lean.now) }
{
    match row {
        Row::Buffer => {
            parts.push(buffers)?;
            Ok(())
        }
        Row::ReadOnly => parts.extend_from_slice(last_of(1, lean.top())),
        Row::Take(taking) => parts.extend_from_slice(last_of(taking.count(), lean.top())),
        Row::Cut(_) => parts.extend_from_slice(if_parted(class, lean.top())),
        _ => Ok(()),
    }
}

/// Keeps what the object that a row makes, if it makes one, is read again from.
#[inline(always)]
fn keep(
    row: Row,
    class: Class,
    offset: u32,
    buffers: u32,
    lean: &Lean,
    origins: &mut Vec<Origin>,
    parts: &mut Vec<ObjId>,
) -> Result<(), AllocError>
    requires { refusal_of row lean.now ≡ None }
    ensures parts { OnOk result (parts.new.items ≡ more_parts row class buffers lean.now parts.old.items) }
    ensures origins { OnOk result (origins.new.items ≡ more_origins row lean.now offset (length parts.new.items) origins.old.items) }
{
    if !makes(row, lean) {
        return Ok(());
    }
    keep_parts(row, class, buffers, lean, parts)?;
    let end = count_kept(parts.as_slice())?;
    origins.push(Origin { offset, end })?;
    Ok(())
}

/// How many buffers there are after a row.
#[inline(always)]
fn more_buffers(row: Row, buffers: u32) -> Result<u32, AllocError>
    ensures { IfOk result (λ n. n ≡ more_buffers row buffers) }
{
    match row {
        Row::Buffer => match buffers.checked_add(1) {
            Some(more) => Ok(more),
            None => Err(AllocError),
        },
        _ => Ok(buffers),
    }
}

/// Moves the lean machine by a row that is not refused, and keeps what the object is read again from that it makes.
#[inline(always)]
fn move_on(
    row: Row,
    class: Class,
    offset: u32,
    place: usize,
    buffers: &mut u32,
    lean: &mut Lean,
    origins: &mut Vec<Origin>,
    parts: &mut Vec<ObjId>,
) -> Result<(), AllocError>
    requires heap { length lean.old.heap < 2 ^ 32 - 1 }
    requires good { refusal_of row lean.old ≡ None }
    ensures lean { OnOk result (lean.new ≡ outline (next_of row (sample class) place lean.old)) }
    ensures parts { OnOk result (parts.new.items ≡ more_parts row class buffers.old lean.old parts.old.items) }
    ensures origins { OnOk result (origins.new.items ≡ more_origins row lean.old offset (length parts.new.items) origins.old.items) }
    ensures buffers { OnOk result (buffers.new ≡ more_buffers row buffers.old) }
{
    keep(row, class, offset, *buffers, lean, origins, parts)?;
    *buffers = more_buffers(row, *buffers)?;
    lean.perform(row, class, place)
}

/// Makes ready for the next move: after STOP a further pickle begins, with no buffer counted.
#[inline(always)]
fn go_on_fresh(buffers: &mut u32, lean: &mut Lean)
    ensures lean { lean.new ≡ outline (fresh lean.old) }
    ensures buffers { buffers.new ≡ fresh_buffers lean.old.stopped buffers.old }
{
    if lean.has_stopped() {
        *buffers = 0;
    }
    lean.refresh();
}

/// A machine that keeps of its objects what an opcode may ask of them, and where their opcodes are in the bytes that it runs: of an
/// object it shows what it reads there, and its parts where they are shown. What was put into an object is not kept.
#[derive(Drop)]
pub struct Slim<'a> {
    bytes: Again<'a>,
    many: bool,
    offset: u32,
    place: usize,
    buffers: u32,
    lean: Lean,
    origins: Vec<Origin>,
    parts: Vec<ObjId>,
}

impl<'a> Model for Slim<'a> {
    ghost use Rattle.pickle_machine.specs.Reading.{Reading, reading};
    ghost use Rattle.pickle_machine.specs.Inside.Origins.{Keeps};

    ghost Value = { Reading };

    ghost view = { λ m. reading m.many m.bytes m.place };

    ghost invariant = { λ m. Keeps m.bytes m.offset m.place m.lean m.buffers m.origins.items m.parts.items (reading m.many m.bytes m.place) };
}

impl<'a> Slim<'a> {
    ghost use Rattle.std.specs.Prelude.{◌≡◌, ◌≢◌, ◌+◌, ◌<◌, ◌-◌, ◌^◌, List, ℕ, ◌++◌, length, drop, IfSome, IfOk, IfErr, OnOk, None, Some, Ok};
    ghost use Rattle.pickle_ops.specs.Spelling.{spelling, size_of};
    ghost use Rattle.pickle_ops.specs.Row.{row_of};
    ghost use Rattle.pickle_machine.specs.State.{start};
    ghost use Rattle.pickle_machine.specs.Move.{refusal_of, refusal_at, fresh, move};
    ghost use Rattle.pickle_machine.specs.Reading.{reading, read_op};

    /// The machine that has done nothing, for several pickles or for one, over these bytes.
    pub fn new(alloc: Global, many: bool, bytes: &'a [u8]) -> Slim<'a>
        requires { length bytes.now < 2 ^ 32 }
        ensures { result ≡ record { state = start many; rest = bytes.now; place = 0 } }
    {
        Slim {
            bytes: Again::new(alloc, bytes),
            many,
            offset: 0,
            place: 0,
            buffers: 0,
            lean: Lean::new(alloc, many),
            origins: Vec::new(alloc),
            parts: Vec::new(alloc),
        }
    }

    /// The refusal of a row, if it has one. It takes no memory.
    #[inline(always)]
    pub fn refusal(&self, row: Row) -> Option<Refusal>
        ensures first { result ≡ refusal_of row (fresh self.now.state) }
        ensures named { IfSome result (λ e. e ≢ Refusal.Memory) }
    {
        let lean = &self.lean;
        if lean.has_stopped() {
            first_refusal(row)
        } else {
            lean.refusal(row)
        }
    }

    /// A row that is not refused, of the opcode that is next. An error comes only where memory runs out; the machine then stands at the
    /// start.
    #[inline(always)]
    fn perform(&mut self, alloc: Global, row: Row, op: &OpRef<'_>) -> Result<(), AllocError>
        requires heap { length self.old.state.heap < 2 ^ 32 - 1 }
        requires row { row ≡ row_of op.now }
        requires good { refusal_of row (fresh self.old.state) ≡ None }
        requires next { (rest : List ℕ) × (self.old.rest ≡ spelling op.now ++ rest) }
        ensures { OnOk result (self.new ≡ read_op op.now self.old) }
    {
        let class = Class::of(op.opcode());
        let offset = self.offset;
        let place = self.place;
        let arg = op.arg();
        let size = (arg.len() + 1) as u32;
        // Without memory for it, its end is searched for wherever it is shown.
        let _ = self.bytes.keep(offset, op);
        go_on_fresh(&mut self.buffers, &mut self.lean);
        let moved = move_on(
            row,
            class,
            offset,
            place,
            &mut self.buffers,
            &mut self.lean,
            &mut self.origins,
            &mut self.parts,
        );
        match moved {
            Ok(()) => {
                self.offset = offset + size;
                self.place = place + 1;
                Ok(())
            }
            Err(error) => {
                let start = Slim::new(alloc, self.many, self.bytes.bytes());
                *self = start;
                Err(error)
            }
        }
    }

    /// One step forwards over the opcode that is next, whose row this is. It is refused as the move of the opcode says, and changes
    /// nothing then. Where memory runs out (M), the machine stands at the start.
    #[inline(always)]
    pub fn step(&mut self, alloc: Global, row: Row, op: &OpRef<'_>) -> Result<(), Refusal>
        requires heap { length self.old.state.heap < 2 ^ 32 - 1 }
        requires row { row ≡ row_of op.now }
        requires next { (rest : List ℕ) × (self.old.rest ≡ spelling op.now ++ rest) }
        ensures ok { OnOk result (move op.now self.old.place self.old.state ≡ Ok self.new.state) }
        ensures rest { OnOk result (self.new.rest ≡ drop (size_of op.now) self.old.rest) }
        ensures place { OnOk result (self.new.place ≡ self.old.place + 1) }
        ensures refused { IfErr result (λ e. e ≢ Refusal.Memory → refusal_at op.now self.old.state ≡ Some e) }
        ensures same { IfErr result (λ e. e ≢ Refusal.Memory → self.new ≡ self.old) }
    {
        if let Some(refusal) = self.refusal(row) {
            return Err(refusal);
        }
        self.perform(alloc, row, op)?;
        Ok(())
    }

    /// What it ran, and how many opcodes of it. All that it kept is given up.
    fn into_run(self) -> (bool, &'a [u8], usize)
        ensures { self.entry ≡ reading result.0 result.1.now result.2 }
    {
        (self.many, self.bytes.bytes(), self.place)
    }

    /// The whole machine in this state, in place of this one: it runs the opcodes again, from the first on. An error comes only where
    /// memory runs out.
    pub fn into_whole(self, alloc: Global) -> Result<Machine, AllocError>
        ensures { IfOk result (λ m. m.state ≡ self.entry.state) }
    {
        // The two are not there at once.
        let (many, bytes, place) = self.into_run();
        run_first(alloc, many, bytes, place)
    }
}

/// Runs the first opcodes of bytes, this many. No opcode is refused or missing that was run before; it would be answered as if there were no
/// memory.
fn run_first(alloc: Global, many: bool, bytes: &[u8], count: usize) -> Result<Machine, AllocError>
    ensures { IfOk result (λ m. m.state ≡ (reading many bytes.now count).state) }
{
    let mut machine = Machine::start(alloc, many);
    let mut rest = bytes;
    'opcodes: for place in 0..count {
        let Ok(op) = peek_op(rest) else {
            return Err(AllocError);
        };
        if machine.objects() >= u32::MAX as usize {
            return Err(AllocError);
        }
        let row = Row::of_ref(&op);
        if let Err(_) = machine.step_as(alloc, row, &op, place) {
            return Err(AllocError);
        }
        rest = &rest[op.size()..];
    }
    Ok(machine)
}

/// What is shown of an object that the opcode at this offset made, of which these numbers are kept.
fn look_at<'a>(bytes: &'a Again<'_>, offset: u32, kept: &'a [ObjId]) -> Option<Look<'a>>
    requires { (o : Object) × IsKept bytes.now kept.now offset o }
    ensures { (o : Object) → IsKept bytes.now kept.now offset o → option_map look_shown result ≡ Some o }
{
    match bytes.op_at(offset) {
        Ok(op) => Some(Look {
            kind: kind_kept(&op, kept),
            parts: kept,
        }),
        Err(_) => None,
    }
}

/// Where the object of this number comes from, if there is one.
fn origin_at(origins: &[Origin], id: usize) -> Option<Origin>
    ensures { result ≡ slice_get origins.now id }
{
    match origins.get(id) {
        Some(origin) => Some(*origin),
        None => None,
    }
}

/// Where the numbers begin that are kept of the object of this number, which is there.
fn start_at(origins: &[Origin], id: usize) -> u32
    requires { id < length origins.now }
    ensures { result ≡ start_of 0 origins.now id }
{
    if id == 0 {
        return 0;
    }
    match origin_at(origins, id - 1) {
        Some(origin) => origin.end,
        None => 0,
    }
}

/// The numbers that are kept of the object of this number, which is there.
fn kept_at<'a>(origins: &[Origin], parts: &'a [ObjId], id: usize, end: u32) -> &'a [ObjId]
    requires there { id < length origins.now }
    requires from { start_of 0 origins.now id ≤ end }
    requires within { end ≤ length parts.now }
    ensures { result.now ≡ between (start_of 0 origins.now id) end parts.now }
{
    let from = start_at(origins, id);
    &parts[from as usize..end as usize]
}

impl<'a> Inspect for Slim<'a> {
    ghost state = { λ m. m.state };

    fn objects(&self) -> usize {
        let lean = &self.lean;
        lean.objects()
    }

    fn class_at(&self, id: ObjId) -> Option<Class> {
        let lean = &self.lean;
        lean.class_at(id)
    }

    fn look(&self, id: ObjId) -> Option<Look<'_>> {
        let origins = self.origins.as_slice();
        match origin_at(origins, id as usize) {
            Some(origin) => {
                let kept = kept_at(origins, self.parts.as_slice(), id as usize, origin.end);
                look_at(&self.bytes, origin.offset, kept)
            }
            None => None,
        }
    }

    fn stack_len(&self) -> usize {
        let lean = &self.lean;
        lean.stack_len()
    }

    fn stack_at(&self, i: usize) -> Option<ObjId> {
        let lean = &self.lean;
        lean.stack_at(i)
    }
}
