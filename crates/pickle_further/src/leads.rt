//! Which imports lead to the unpickler that loads the pickle.

ghost use Rattle.std.specs.Prelude.{◌≡◌, ◌<◌, ◌≤◌, ◌^◌, ◌||◌, length, slice_get};
ghost use Rattle.std.specs.List.{list_all, list_any};
ghost use Rattle.std.specs.Option.{option_map};
ghost use Rattle.pickle_io.specs.Device.{Writes};
ghost use Rattle.pickle_ops.specs.KindRef.{kind_view};
ghost use Rattle.pickle_calls.specs.Naming.{inner};
ghost use Rattle.pickle_further.specs.Leads.{is_point, ends_part, begins, begins_behind, has_parts, rest_begins, begins_over, row_leads, names_lead, is_no_backslash, if_plain, if_read, and_read, name_of, name_at, pair_leads, coded_lead, lines_lead, is_by_parts, parts_lead, kind_leads, leads_at, or_first, if_leads, first_leading, event_leads, warning_words, leads_words, warning_line, warning_text, warned_status};

use pickle_calls::Event;
use pickle_io::{Failed, Page, write_all};
use pickle_machine::Inspect;
use pickle_names::{Coding, read};
use pickle_ops::{KindRef, ObjId};
use pickle_text::write_id;

/// What leads to the unpickler: parts that stand side by side in the dotted name of a module or of its member, or with which both names together begin.
/// The names are those that a pickle says, which Python 3 may take for those of Python 2. Modules have other names in modules that import them.
static LEADING: [&str; 92] = [
    // The unpickler: its modules, its classes, what is made of them, and other libraries' own ones.
    "pickle",
    "cPickle",
    "_pickle.load",
    "_pickle.loads",
    "Unpickler",
    "_Unpickler",
    "_Unframer",
    "UnpicklerMemoProxy",
    "NumpyUnpickler",
    "ZipNumpyUnpickler",
    "StockUnpickler",
    "pickle_compat",
    "_weights_only_unpickler",
    // Any object, or any class, that there is.
    "gc",
    "__subclasses__",
    // The frames of its caller, or what is called in them.
    "_getframe",
    "_current_frames",
    "_current_exceptions",
    "settrace",
    "setprofile",
    "settrace_all_threads",
    "setprofile_all_threads",
    "_settraceallthreads",
    "_setprofileallthreads",
    "sys.monitoring",
    "_sys.monitoring",
    "signal.signal",
    "_signal.signal",
    "currentframe",
    "walk_stack",
    "inspect.stack",
    "inspect.trace",
    "getouterframes",
    "getinnerframes",
    "exc_info",
    "f_locals",
    "f_globals",
    "f_builtins",
    "f_back",
    "gi_frame",
    "cr_frame",
    "ag_frame",
    "tb_frame",
    // What EXT imports.
    "_extension_registry",
    "_inverted_registry",
    "_extension_cache",
    "add_extension",
    // What names come to.
    "sys.modules",
    "_sys.modules",
    "sys.path",
    "_sys.path",
    "meta_path",
    "path_hooks",
    "path_importer_cache",
    "_compat_pickle",
    "__dict__",
    "__globals__",
    "__builtins__",
    "__self__",
    // How names are read that are no text, or by another encoding.
    "register_error",
    "codecs.register",
    "_codecs.register",
    // The file that is loaded, by its number.
    "lseek",
    "dup2",
    "set_blocking",
    "closerange",
    "os.close",
    "_os.close",
    "posix.close",
    "nt.close",
    "os.read",
    "_os.read",
    "posix.read",
    "nt.read",
    "readv",
    "sendfile",
    "fdopen",
    "FileIO",
    "builtins.open",
    "__builtin__.open",
    "_builtins.open",
    "bltns.open",
    "_builtin_open",
    "bltn_open",
    "io.open",
    "_io.open",
    "_pyio.open",
    "codecs.open",
    "StringIO.open",
    "cStringIO.open",
    // Memory.
    "ctypes",
    "_ctypes",
];

/// Whether a part of a name ends before these bytes.
fn ends_part(rest: &[u8]) -> bool
    ensures { result ≡ ends_part rest.now }
{
    match rest.split_first() {
        Some((byte, _)) => *byte == b'.',
        None => true,
    }
}

/// Whether a dotted name begins with these parts.
fn begins(parts: &[u8], name: &[u8]) -> bool
    ensures { result ≡ begins parts.now name.now }
{
    if name.len() < parts.len() {
        return false;
    }
    let (front, rest) = name.split_at(parts.len());
    front == parts && ends_part(rest)
}

/// Whether a rest of it does that stands behind a point.
fn begins_behind(parts: &[u8], name: &[u8]) -> bool
    ensures { result ≡ begins_behind parts.now name.now }
{
    for i in 0..name.len() {
        if name[i] == b'.' && begins(parts, &name[i + 1..]) {
            return true;
        }
    }
    false
}

/// Whether these parts stand in it side by side.
fn has_parts(parts: &[u8], name: &[u8]) -> bool
    ensures { result ≡ has_parts parts.now name.now }
{
    begins(parts, name) || begins_behind(parts, name)
}

/// Whether the parts behind a point begin a dotted name.
fn rest_begins(rest: &[u8], name: &[u8]) -> bool
    ensures { result ≡ rest_begins rest.now name.now }
{
    match rest.split_first() {
        Some((byte, parts)) => *byte == b'.' && begins(parts, name),
        None => false,
    }
}

/// Whether the first of these parts are a whole module, and the others begin the name of its member.
fn begins_over(parts: &[u8], from: &[u8], name: &[u8]) -> bool
    ensures { result ≡ begins_over parts.now from.now name.now }
{
    if parts.len() < from.len() {
        return false;
    }
    let (front, rest) = parts.split_at(from.len());
    front == from && rest_begins(rest, name)
}

/// Whether names lead to the unpickler by a row of these parts.
fn row_leads(parts: &[u8], from: &[u8], name: &[u8]) -> bool
    ensures { result ≡ row_leads parts.now from.now name.now }
{
    has_parts(parts, from) || has_parts(parts, name) || begins_over(parts, from, name)
}

/// Whether they do by one of these rows.
fn rows_lead(rows: &[&'static str], from: &[u8], name: &[u8]) -> bool
    ensures { result ≡ list_any (λ r. row_leads r.now from.now name.now) rows.now }
{
    for row in rows {
        if row_leads(row.as_bytes(), from, name) {
            return true;
        }
    }
    false
}

/// Whether the names of a module and of its member lead to the unpickler.
#[tactic(auto, unfolding(crate::specs::Leads::names_lead))]
fn names_lead(from: &[u8], name: &[u8]) -> bool
    ensures { result ≡ names_lead from.now name.now }
{
    rows_lead(&LEADING, from, name)
}

/// Whether this is no backslash.
fn is_no_backslash(byte: u8) -> bool
    ensures { result ≡ is_no_backslash byte }
{
    byte != b'\\'
}

/// Whether a text has no escapes.
fn lacks_backslash(text: &[u8]) -> bool
    ensures { result ≡ list_all is_no_backslash text.now }
{
    text.iter().all(|byte| is_no_backslash(*byte))
}

/// A text, if it has none.
fn if_plain(text: &[u8]) -> Option<&[u8]>
    ensures { option_map (λ t. t.now) result ≡ if_plain text.now }
{
    if lacks_backslash(text) {
        Some(text)
    } else {
        None
    }
}

/// A text, if it can be read.
fn if_read(coding: Coding, text: &[u8]) -> Option<&[u8]>
    ensures { option_map (λ t. t.now) result ≡ if_read coding text.now }
{
    if read(coding, text.len(), text).good {
        Some(text)
    } else {
        None
    }
}

/// The same of a text that there may be.
fn and_read(coding: Coding, text: Option<&[u8]>) -> Option<&[u8]>
    ensures { option_map (λ t. t.now) result ≡ and_read coding (option_map (λ t. t.now) text.entry) }
{
    match text {
        Some(text) => if_read(coding, text),
        None => None,
    }
}

/// What is between the quotes of a line.
fn inner(line: &[u8]) -> &[u8]
    ensures { result.now ≡ inner line.now }
{
    match line.split_first() {
        None => line,
        Some((_, rest)) => &rest[..line.len().saturating_sub(2)],
    }
}

/// The name that an object of this kind is.
fn name_of<'a>(kind: KindRef<'a>) -> Option<&'a [u8]>
    ensures { option_map (λ t. t.now) result ≡ name_of (kind_view kind.entry) }
{
    match kind {
        KindRef::Text(text) => if_read(Coding::AnyUtf8, text),
        KindRef::TextLine(text) => if_plain(text),
        KindRef::LegacyString(text) => if_read(Coding::Ascii, text),
        KindRef::LegacyLine(line) => and_read(Coding::Ascii, if_plain(inner(line))),
        _ => None,
    }
}

/// The name that the object of this number is.
#[tactic(auto, using(crate::proofs::Leading::lead_rules))]
fn name_there<'a, M: Inspect>(machine: &'a M, id: ObjId) -> Option<&'a [u8]>
    ensures { option_map (λ t. t.now) result ≡ name_at (M.state machine.now).heap (Some id) }
{
    match machine.look(id) {
        Some(look) => name_of(look.kind),
        None => None,
    }
}

/// The name that a part is.
fn name_at<'a, M: Inspect>(machine: &'a M, parts: &[ObjId], i: usize) -> Option<&'a [u8]>
    ensures { option_map (λ t. t.now) result ≡ name_at (M.state machine.now).heap (slice_get parts.now i) }
{
    match parts.get(i) {
        Some(id) => name_there(machine, *id),
        None => None,
    }
}

/// Whether an import by these names leads to the unpickler.
fn pair_leads(from: Option<&[u8]>, name: Option<&[u8]>) -> bool
    ensures { result ≡ pair_leads (option_map (λ t. t.now) from.entry) (option_map (λ t. t.now) name.entry) }
{
    match from {
        Some(from) => match name {
            Some(name) => names_lead(from, name),
            None => true,
        },
        None => true,
    }
}

/// Whether an import by two lines of this coding does.
fn coded_lead(coding: Coding, from: &[u8], name: &[u8]) -> bool
    ensures { result ≡ coded_lead coding from.now name.now }
{
    pair_leads(if_read(coding, from), if_read(coding, name))
}

/// Whether an object of this kind is an import by two lines that does.
fn lines_lead(kind: KindRef<'_>) -> bool
    ensures { result ≡ lines_lead (kind_view kind.entry) }
{
    match kind {
        KindRef::Global(names) => coded_lead(Coding::Utf8, names.first(), names.second()),
        KindRef::Inst(names) => coded_lead(Coding::Ascii, names.first(), names.second()),
        _ => false,
    }
}

/// Whether its names are parts.
fn is_by_parts(kind: KindRef<'_>) -> bool
    ensures { result ≡ is_by_parts (kind_view kind.entry) }
{
    match kind {
        KindRef::StackGlobal => true,
        _ => false,
    }
}

/// Whether an import by these parts does.
fn parts_lead<M: Inspect>(machine: &M, parts: &[ObjId]) -> bool
    ensures { result ≡ parts_lead (M.state machine.now).heap parts.now }
{
    let from = name_at(machine, parts, 0);
    let name = name_at(machine, parts, 1);
    pair_leads(from, name)
}

/// Whether an object of this kind with these parts is an import that does.
fn kind_leads<M: Inspect>(machine: &M, kind: KindRef<'_>, parts: &[ObjId]) -> bool
    ensures { result ≡ kind_leads (M.state machine.now).heap (kind_view kind.entry) parts.now }
{
    let by_lines = lines_lead(kind);
    let by_parts = is_by_parts(kind);
    by_lines || (by_parts && parts_lead(machine, parts))
}

/// Whether the object of this number is an import that does, by a look at it.
#[tactic(auto, using(crate::proofs::Leading::lead_rules))]
fn looked_leads<M: Inspect>(machine: &M, id: ObjId) -> bool
    ensures { result ≡ leads_at (M.state machine.now).heap id }
{
    match machine.look(id) {
        Some(look) => kind_leads(machine, look.kind, look.parts),
        None => false,
    }
}

/// Whether the object of this number is an import that does. Most objects are none by their class.
#[tactic(auto, using(crate::proofs::Leading::class_rules))]
fn leads_at<M: Inspect>(machine: &M, id: ObjId) -> bool
    ensures { result ≡ leads_at (M.state machine.now).heap id }
{
    match machine.class_at(id) {
        Some(class) => class.is_opaque() && looked_leads(machine, id),
        None => false,
    }
}

/// The first import that leads to the unpickler.
pub fn first_leading<M: Inspect>(machine: &M) -> Option<ObjId>
    requires { length (M.state machine.now).heap < 2 ^ 32 }
    ensures { result ≡ first_leading (M.state machine.now).heap }
{
    for id in 0..machine.objects() {
        if leads_at(machine, id as ObjId) {
            return Some(id as ObjId);
        }
    }
    None
}

/// The object that an event makes, if it is an import that leads there.
pub fn event_leads<M: Inspect>(machine: &M, event: Option<Event>) -> Option<ObjId>
    ensures { result ≡ event_leads (M.state machine.now).heap event }
{
    match event {
        Some(Event::Made(id)) => {
            if leads_at(machine, id) {
                Some(id)
            } else {
                None
            }
        }
        _ => None,
    }
}

/// What was found first, or else what is found now.
pub fn or_first(found: Option<ObjId>, next: Option<ObjId>) -> Option<ObjId>
    ensures { result ≡ or_first found next }
{
    match found {
        Some(id) => Some(id),
        None => next,
    }
}

/// The words before the object.
#[tactic(auto, unfolding(crate::specs::Leads::warning_words))]
pub fn warning_words() -> &'static str
    ensures { result.now ≡ warning_words }
{
    "warning: "
}

/// The words behind it.
#[tactic(auto, unfolding(crate::specs::Leads::leads_words))]
fn leads_words() -> &'static str
    ensures { result.now ≡ leads_words }
{
    " leads to the unpickler"
}

/// Writes that this object leads to the unpickler.
pub fn write_warning_line<S: Page>(id: ObjId, page: &mut S) -> Result<(), Failed>
    ensures { Writes (S.told page.old) (S.told page.new) result (warning_line id) }
{
    write_all(page, warning_words().as_bytes())?;
    write_id(u64::from(id), page)?;
    write_all(page, leads_words().as_bytes())?;
    write_all(page, b"\n")
}

/// Writes it, if an import does.
pub fn write_warning<S: Page>(leads: Option<ObjId>, page: &mut S) -> Result<(), Failed>
    ensures { Writes (S.told page.old) (S.told page.new) result (warning_text leads) }
{
    match leads {
        Some(id) => write_warning_line(id, page),
        None => Ok(()),
    }
}

/// The status of such a text.
pub fn warned_status(leads: Option<ObjId>, status: u8) -> u8
    ensures { result ≡ warned_status leads status }
{
    match leads {
        None => status,
        Some(_) => 1,
    }
}
