//! The whole state of a machine as a text, by all of its readers: its objects, the stack with its marks, the memo, the
//! count of buffers and the results. What is empty is left out, but for the stack.

ghost use Rattle.std.specs.Prelude.{◌≡◌};

use pickle_io::{
    Failed, Page, Sink, write_all, write_decimal, write_hex, write_quoted, write_signed,
};
use pickle_machine::Machine;
use pickle_ops::{Change, Kind, ObjId, Object, Payload};

/// Writes signs and the number of an object after them.
fn write_id<S: Page>(signs: &str, id: ObjId, page: &mut S) -> Result<(), Failed> {
    write_all(page, signs.as_bytes())?;
    write_decimal(u64::from(id), page)
}

/// The word of a kind, after a blank.
fn word_of(kind: &Kind) -> &'static str {
    match kind {
        Kind::None => " none",
        Kind::True => " true",
        Kind::False => " false",
        Kind::Int(_) => " int",
        Kind::Long(_) => " long",
        Kind::IntLine(_) => " int-line",
        Kind::LongLine(_) => " long-line",
        Kind::FloatLine(_) => " float-line",
        Kind::Float(_) => " float",
        Kind::LegacyString(_) => " string",
        Kind::LegacyLine(_) => " string-line",
        Kind::Text(_) => " text",
        Kind::TextLine(_) => " text-line",
        Kind::Bytes(_) => " bytes",
        Kind::ByteArray(_) => " bytearray",
        Kind::Tuple => " tuple",
        Kind::List => " list",
        Kind::Set => " set",
        Kind::FrozenSet => " frozenset",
        Kind::Dict => " dict",
        Kind::Global(_) => " global",
        Kind::StackGlobal => " stack-global",
        Kind::Call => " call",
        Kind::New => " new",
        Kind::NewEx => " new-ex",
        Kind::Inst(_) => " inst",
        Kind::Obj => " obj",
        Kind::PersistentLine(_) => " persistent",
        Kind::Persistent => " persistent",
        Kind::Ext(_) => " ext",
        Kind::Buffer(_) => " buffer",
        Kind::ReadOnly => " readonly",
    }
}

/// Writes a text in quotes, after a blank.
fn write_text<S: Page>(text: &[u8], page: &mut S) -> Result<(), Failed> {
    write_all(page, b" ")?;
    write_quoted(text, page)
}

/// Writes a payload in quotes, after a blank.
fn write_payload<S: Page>(payload: &Payload, page: &mut S) -> Result<(), Failed> {
    write_text(payload.as_slice(), page)
}

/// Writes the bytes of a number in hexadecimal digits, after a blank and an `x`.
fn write_bytes<S: Page>(payload: &Payload, page: &mut S) -> Result<(), Failed> {
    write_all(page, b" x")?;
    write_hex(payload.as_slice(), page)
}

/// Writes what a kind holds.
fn write_content<S: Page>(kind: &Kind, page: &mut S) -> Result<(), Failed> {
    match kind {
        Kind::Int(number) | Kind::Ext(number) => {
            write_all(page, b" ")?;
            write_signed(i128::from(*number), page)
        }
        Kind::Buffer(number) => {
            write_all(page, b" ")?;
            write_decimal(*number, page)
        }
        Kind::Long(bytes) | Kind::Float(bytes) => write_bytes(bytes, page),
        Kind::IntLine(text) | Kind::LongLine(text) | Kind::FloatLine(text) => {
            write_payload(text, page)
        }
        Kind::LegacyString(text) | Kind::LegacyLine(text) => write_payload(text, page),
        Kind::Text(text) | Kind::TextLine(text) => write_payload(text, page),
        Kind::Bytes(text) | Kind::ByteArray(text) => write_payload(text, page),
        Kind::PersistentLine(text) => write_payload(text, page),
        Kind::Global(texts) | Kind::Inst(texts) => {
            write_text(texts.first(), page)?;
            write_text(texts.second(), page)
        }
        _ => Ok(()),
    }
}

/// Writes what was done to an object.
fn write_change<S: Page>(change: Change, page: &mut S) -> Result<(), Failed> {
    match change {
        Change::Append(id) => write_id(" +#", id, page),
        Change::SetItem(key, value) => {
            write_id(" [#", key, page)?;
            write_id("]=#", value, page)
        }
        Change::Add(id) => write_id(" &#", id, page),
        Change::Build(id) => write_id(" !#", id, page),
    }
}

/// Writes an object: its kind, its parts, and what was done to it.
fn write_object<S: Page>(object: &Object, page: &mut S) -> Result<(), Failed> {
    write_all(page, word_of(object.kind()).as_bytes())?;
    write_content(object.kind(), page)?;
    for (k, part) in object.parts().iter().enumerate() {
        write_id(if k == 0 { " (#" } else { " #" }, *part, page)?;
    }
    if !object.parts().is_empty() {
        write_all(page, b")")?;
    }
    for change in object.changes() {
        write_change(*change, page)?;
    }
    Ok(())
}

/// Writes all objects.
fn write_objects<S: Page>(machine: &Machine, page: &mut S) -> Result<(), Failed> {
    for k in 0..machine.objects() {
        let id = u32::try_from(k).unwrap_or(u32::MAX);
        write_id(if k == 0 { "#" } else { "; #" }, id, page)?;
        match machine.object(id) {
            Some(object) => write_object(object, page)?,
            None => write_all(page, b" is not there")?,
        }
    }
    if machine.objects() > 0 {
        write_all(page, b"; ")?;
    }
    Ok(())
}

/// Writes the marks from one on that have this many objects below them, and answers which is the next.
fn write_marks<S: Page>(
    machine: &Machine,
    from: usize,
    height: usize,
    page: &mut S,
) -> Result<usize, Failed> {
    for k in from..machine.marks_len() {
        match machine.mark(k) {
            Some((place, below)) if below == height => {
                write_all(page, b" (")?;
                write_decimal(place as u64, page)?;
            }
            _ => return Ok(k),
        }
    }
    Ok(machine.marks_len().max(from))
}

/// Writes the stack from the bottom, with each mark by its place.
fn write_stack<S: Page>(machine: &Machine, page: &mut S) -> Result<(), Failed> {
    write_all(page, b"stack")?;
    let mut mark = write_marks(machine, 0, 0, page)?;
    for k in 0..machine.stack_len() {
        match machine.stack_at(k) {
            Some(id) => write_id(" #", id, page)?,
            None => write_all(page, b" is not there")?,
        }
        mark = write_marks(machine, mark, k.saturating_add(1), page)?;
    }
    if mark < machine.marks_len() {
        write_all(page, b" and marks out of order")?;
    }
    Ok(())
}

/// Writes a key of the memo and its object.
fn write_entry<S: Page>(
    machine: &Machine,
    key: u64,
    id: ObjId,
    page: &mut S,
) -> Result<(), Failed> {
    write_all(page, b" ")?;
    write_decimal(key, page)?;
    write_id("=#", id, page)?;
    if machine.memo(key) != Some(id) {
        write_all(page, b" by one reader alone")?;
    }
    Ok(())
}

/// Writes the memo by rising key.
fn write_memo<S: Page>(machine: &Machine, page: &mut S) -> Result<(), Failed> {
    if machine.memo_len() > 0 {
        write_all(page, b"; memo")?;
    }
    let (slots, map) = machine.memo_map().parts();
    for key in 0..slots.len() {
        if let Some(id) = slots[key] {
            write_entry(machine, key as u64, id, page)?;
        }
    }
    for (key, id) in map {
        write_entry(machine, *key, *id, page)?;
    }
    Ok(())
}

/// Writes the latest result, and where there are several, all of them.
fn write_results<S: Page>(machine: &Machine, page: &mut S) -> Result<(), Failed> {
    if let Some(id) = machine.result() {
        write_id("; result #", id, page)?;
    }
    if machine.results().len() > 1 {
        write_all(page, b"; results")?;
        for id in machine.results() {
            write_id(" #", *id, page)?;
        }
    }
    if machine.results().last().copied() != machine.result() {
        write_all(page, b"; and another is the latest")?;
    }
    Ok(())
}

/// Whether the readers answer nothing past what they count.
fn ends(machine: &Machine) -> bool {
    let past = u32::try_from(machine.objects()).unwrap_or(u32::MAX);
    machine.object(past).is_none()
        && machine.stack_at(machine.stack_len()).is_none()
        && machine.mark(machine.marks_len()).is_none()
        && machine.memo_map().len() == machine.memo_len()
        && machine.memo(u64::MAX).is_none()
}

/// Writes the whole state of a machine.
pub fn write_state<S: Page>(machine: &Machine, page: &mut S) -> Result<(), Failed> {
    write_objects(machine, page)?;
    write_stack(machine, page)?;
    write_memo(machine, page)?;
    if machine.buffers() > 0 {
        write_all(page, b"; buffers ")?;
        write_decimal(machine.buffers(), page)?;
    }
    write_results(machine, page)?;
    if !ends(machine) {
        write_all(page, b"; and readers past the end")?;
    }
    Ok(())
}

/// The room that is made for what needs no answer.
const ROOM: usize = 4096;

/// Compares what it is written with a text. It takes no memory and never fails.
#[derive(Drop)]
pub struct Comparison<'a> {
    rest: &'a [u8],
    is_same: bool,
    room: usize,
}

impl<'a> Comparison<'a> {
    /// Nothing is written yet.
    pub fn new(text: &'a [u8]) -> Comparison<'a> {
        Comparison {
            rest: text,
            is_same: true,
            room: 0,
        }
    }

    /// Whether just the text was written, from its start to its end.
    pub fn is_whole(&self) -> bool {
        self.is_same && self.rest.is_empty()
    }

    /// Compares the next bytes.
    fn compare(&mut self, bytes: &[u8])
        ensures { self.new.room ≡ self.old.room }
    {
        if self.rest.starts_with(bytes) {
            self.rest = self.rest.get(bytes.len()..).unwrap_or_default();
        } else {
            self.is_same = false;
        }
    }
}

impl Sink for Comparison<'_> {
    ghost use Rattle.std.specs.Prelude.{None};

    ghost told = { λ _. record { taken = None; held = 0; failures = 0 } };

    fn write(&mut self, bytes: &[u8]) -> Result<usize, Failed> {
        self.compare(bytes);
        Ok(bytes.len())
    }

    fn flush(&mut self) -> Result<(), Failed> {
        Ok(())
    }
}

impl Page for Comparison<'_> {
    ghost room = { λ b. b.room };

    fn push_front(&mut self, part: &[u8], n: usize) {
        self.compare(&part[..n]);
        self.room -= n;
    }

    fn push_two(&mut self, first: &[u8], m: usize, second: &[u8], n: usize) {
        self.push_front(first, m);
        self.push_front(second, n);
    }

    fn push_three(&mut self, first: &[u8], m: usize, second: &[u8; 2], third: &[u8], n: usize) {
        self.push_front(first, m);
        self.push_front(second, 2);
        self.push_front(third, n);
    }

    fn push(&mut self, byte: u8) {
        self.push_front(&[byte], 1);
    }

    fn push_text(&mut self, text: &[u8]) {
        self.push_front(text, text.len());
    }

    fn make_room(&mut self) -> Result<(), Failed> {
        self.room = ROOM;
        Ok(())
    }
}

/// Whether the text is the whole state of a machine. It takes no memory.
pub fn shows_state(machine: &Machine, text: &[u8]) -> bool {
    let mut compared = Comparison::new(text);
    write_state(machine, &mut compared).is_ok() && compared.is_whole()
}
