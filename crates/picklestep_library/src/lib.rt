//! The library for other languages: what the program prints of an input, in memory of the caller. A caller gives bytes and memory for the
//! text; nothing else is read or written. `picklestep.h` says the same to a reader of C.
//!
//! Each function answers 0 where the whole text is at the start of `out`, 1 where memory ran out, 2 where the input has more than 1,073,741,824
//! bytes, and 3 where the text has no room in `out`: `written` has its size then. One that takes options answers 4 where they are not its own, or do not go together, or where a hole begins before the
//! end of the one before it, or ends behind 2^62. Where it is not 0, `out` stays as it was; where it is, what is
//! behind the text does.
//!
//! A session stays open in a handle from call to call, until it is closed. Its functions answer 4 where none is open, and that which opens one
//! where one is. To a line 1 is answered where memory ran out before the line was obeyed, and 5 where it was obeyed and memory ran out for its
//! text; the session goes on after both.
#![tactic(auto)]

ghost use Rattle.pickle_further.specs.declared.way.Pickles.TheVariants as pickles;
ghost use Rattle.pickle_calls.specs.declared.naming.Detail.TheVariants as detail;
ghost use Rattle.pickle_script.specs.declared.texts.written.Text.TheVariants as asked_text;
ghost use Rattle.json_script.specs.declared.lines.Lines.TheVariants as asked_lines;
ghost use Rattle.std.specs.Prelude.{◌≡◌, false, None};
ghost use Rattle.library_answers.specs.Asked.{is_many, is_loose, pickles_left, detail_of, granted_of, holes_of};
ghost use Rattle.library_answers.specs.Answer.{IsTextOf, IsLinesOf, IsCallsOf, IsCallsLinesOf, IsGateOf, IsGateLineOf, IsMembersOf, IsMembersLinesOf, IsAssemblyOf, IsComparisonOf, IsComparisonLineOf, longer, IsTalkOf, Fills, FillsIn, FillsOf};
ghost use Rattle.library_answers.specs.Handle.{Opens, Asks, AsksJson, AsksAgain, AsksBytes};

use json_script::Lines;
use library_answers::{
    GivenHole, Handle, Written, assembled, calls_lines, compared, gate, lines, members, session,
    talk, texts,
};
use pickle_calls::Detail;
use pickle_further::Pickles;
use pickle_script::Text;
use std::alloc::Global;

/// The listing of a pickle, or where `many` holds of several that follow one another.
#[unsafe(no_mangle)]
pub extern "C" fn picklestep_list(
    alloc: Global,
    many: bool,
    bytes: &[u8],
    out: &mut [u8],
    written: &mut Written,
) -> u8
    ensures { Fills (IsTextOf asked_text.Listing many false bytes.now) bytes.now out.old out.new written.new result }
{
    texts::fill(alloc, Text::Listing, many, false, bytes, out, written)
}

/// The report of the objects that a pickle makes, or where `many` holds of several that follow one another.
#[unsafe(no_mangle)]
pub extern "C" fn picklestep_objects(
    alloc: Global,
    many: bool,
    bytes: &[u8],
    out: &mut [u8],
    written: &mut Written,
) -> u8
    ensures { Fills (IsTextOf asked_text.Objects many false bytes.now) bytes.now out.old out.new written.new result }
{
    texts::fill(alloc, Text::Objects, many, false, bytes, out, written)
}

/// What pickles that follow one another would import and call.
#[unsafe(no_mangle)]
pub extern "C" fn picklestep_calls(
    alloc: Global,
    bytes: &[u8],
    out: &mut [u8],
    written: &mut Written,
) -> u8
    ensures { Fills (IsTextOf (asked_text.Calls pickles.All detail.Cut) false false bytes.now) bytes.now out.old out.new written.new result }
{
    let text = Text::Calls(Pickles::All, Detail::Cut);
    texts::fill(alloc, text, false, false, bytes, out, written)
}

/// What the first pickle alone would import and call.
#[unsafe(no_mangle)]
pub extern "C" fn picklestep_calls_first(
    alloc: Global,
    bytes: &[u8],
    out: &mut [u8],
    written: &mut Written,
) -> u8
    ensures { Fills (IsTextOf (asked_text.Calls pickles.First detail.Cut) false false bytes.now) bytes.now out.old out.new written.new result }
{
    let text = Text::Calls(Pickles::First, Detail::Cut);
    texts::fill(alloc, text, false, false, bytes, out, written)
}

/// What pickles that follow one another would import and call, read by one unpickler that keeps its memo.
#[unsafe(no_mangle)]
pub extern "C" fn picklestep_calls_one_memo(
    alloc: Global,
    bytes: &[u8],
    out: &mut [u8],
    written: &mut Written,
) -> u8
    ensures { Fills (IsTextOf (asked_text.Calls pickles.OneMemo detail.Cut) false false bytes.now) bytes.now out.old out.new written.new result }
{
    let text = Text::Calls(Pickles::OneMemo, Detail::Cut);
    texts::fill(alloc, text, false, false, bytes, out, written)
}

/// Whether the bytes are one pickle in the form that picklers write, or the first place at which they are not, and why.
#[unsafe(no_mangle)]
pub extern "C" fn picklestep_form(
    alloc: Global,
    bytes: &[u8],
    out: &mut [u8],
    written: &mut Written,
) -> u8
    ensures { Fills (IsTextOf asked_text.Form false false bytes.now) bytes.now out.old out.new written.new result }
{
    texts::fill(alloc, Text::Form, false, false, bytes, out, written)
}

/// The same as a line of JSON.
#[unsafe(no_mangle)]
pub extern "C" fn picklestep_form_json(
    alloc: Global,
    bytes: &[u8],
    out: &mut [u8],
    written: &mut Written,
) -> u8
    ensures { Fills (IsLinesOf asked_lines.Form false false bytes.now) bytes.now out.old out.new written.new result }
{
    lines::fill_lines(alloc, Lines::Form, false, false, bytes, out, written)
}

/// Whether the bytes are one pickle that passes a list, or the first place at which they do not, and why. `written` has status 2 where a line of
/// the list is no entry, and the text says which.
#[unsafe(no_mangle)]
pub extern "C" fn picklestep_gate(
    alloc: Global,
    list: &[u8],
    bytes: &[u8],
    out: &mut [u8],
    written: &mut Written,
) -> u8
    ensures { Fills (IsGateOf list.now bytes.now) bytes.now out.old out.new written.new result }
{
    gate::fill_gate(alloc, list, bytes, out, written)
}

/// The same as a line of JSON. `written` has status 2 where a line of the list is no entry, and the line of JSON says which.
#[unsafe(no_mangle)]
pub extern "C" fn picklestep_gate_json(
    alloc: Global,
    list: &[u8],
    bytes: &[u8],
    out: &mut [u8],
    written: &mut Written,
) -> u8
    ensures { Fills (IsGateLineOf list.now bytes.now) bytes.now out.old out.new written.new result }
{
    gate::fill_gate_line(alloc, list, bytes, out, written)
}

/// Whether a loader of the bytes reaches something, or by which opcode first, whatever it does with frames. `granted` is the sum of what it was
/// given besides: 1 extension codes, 2 a `persistent_load`, 4 buffers.
#[unsafe(no_mangle)]
pub extern "C" fn picklestep_reach(
    alloc: Global,
    granted: u32,
    bytes: &[u8],
    out: &mut [u8],
    written: &mut Written,
) -> u8
    ensures { FillsOf (granted_of granted) (λ g. IsTextOf (asked_text.Reach g) false false bytes.now) bytes.now out.old out.new written.new result }
{
    texts::fill_reach(alloc, granted, bytes, out, written)
}

/// The same as a line of JSON.
#[unsafe(no_mangle)]
pub extern "C" fn picklestep_reach_json(
    alloc: Global,
    granted: u32,
    bytes: &[u8],
    out: &mut [u8],
    written: &mut Written,
) -> u8
    ensures { FillsOf (granted_of granted) (λ g. IsLinesOf (asked_lines.Reach g) false false bytes.now) bytes.now out.old out.new written.new result }
{
    lines::fill_reach_lines(alloc, granted, bytes, out, written)
}

/// The members of the zip archive or tar archive in writers' form that the bytes are, or the first rule that they break, and where.
#[unsafe(no_mangle)]
pub extern "C" fn picklestep_members(
    alloc: Global,
    bytes: &[u8],
    out: &mut [u8],
    written: &mut Written,
) -> u8
    ensures { Fills (IsMembersOf bytes.now) bytes.now out.old out.new written.new result }
{
    members::fill_members(alloc, bytes, out, written)
}

/// The same as lines of JSON.
#[unsafe(no_mangle)]
pub extern "C" fn picklestep_members_json(
    alloc: Global,
    bytes: &[u8],
    out: &mut [u8],
    written: &mut Written,
) -> u8
    ensures { Fills (IsMembersLinesOf bytes.now) bytes.now out.old out.new written.new result }
{
    members::fill_members_lines(alloc, bytes, out, written)
}

/// The bytes that a text of opcodes is assembled to. `written` has status 1 where a line gives none: its number and the reason are put there
/// then.
#[unsafe(no_mangle)]
pub extern "C" fn picklestep_assemble(
    alloc: Global,
    text: &[u8],
    out: &mut [u8],
    written: &mut Written,
) -> u8
    ensures { Fills (IsAssemblyOf text.now) text.now out.old out.new written.new result }
{
    assembled::fill_assembled(alloc, text, out, written)
}

/// Whether two pickles, or where `many` holds several in each input that follow one another, make the same objects in the same order, or how they
/// differ; 2 is answered where either has too many bytes.
#[unsafe(no_mangle)]
pub extern "C" fn picklestep_same(
    alloc: Global,
    many: bool,
    one: &[u8],
    other: &[u8],
    out: &mut [u8],
    written: &mut Written,
) -> u8
    ensures { Fills (IsComparisonOf many one.now other.now) (longer one.now other.now) out.old out.new written.new result }
{
    compared::fill_comparison(alloc, many, one, other, out, written)
}

/// The same as a line of JSON.
#[unsafe(no_mangle)]
pub extern "C" fn picklestep_same_json(
    alloc: Global,
    many: bool,
    one: &[u8],
    other: &[u8],
    out: &mut [u8],
    written: &mut Written,
) -> u8
    ensures { Fills (IsComparisonLineOf many one.now other.now) (longer one.now other.now) out.old out.new written.new result }
{
    compared::fill_comparison_line(alloc, many, one, other, out, written)
}

/// The answers of a conversation: those to all lines of a script, in a session of a pickle, or where `many` holds of several. `written` has
/// status 1 where a line was refused.
#[unsafe(no_mangle)]
pub extern "C" fn picklestep_debug(
    alloc: Global,
    many: bool,
    bytes: &[u8],
    script: &[u8],
    out: &mut [u8],
    written: &mut Written,
) -> u8
    ensures { Fills (IsTalkOf many false bytes.now script.now) bytes.now out.old out.new written.new result }
{
    talk::fill_talk(alloc, many, false, bytes, script, out, written)
}

// ---- with options

/// The listing of an input that is read as the options say.
#[unsafe(no_mangle)]
pub extern "C" fn picklestep_list_with(
    alloc: Global,
    options: u32,
    bytes: &[u8],
    out: &mut [u8],
    written: &mut Written,
) -> u8
    ensures { FillsIn options (IsTextOf asked_text.Listing (is_many options) (is_loose options) bytes.now) bytes.now out.old out.new written.new result }
{
    texts::fill_in(alloc, Text::Listing, options, bytes, out, written)
}

/// The same listing as JSON Lines.
#[unsafe(no_mangle)]
pub extern "C" fn picklestep_list_json(
    alloc: Global,
    options: u32,
    bytes: &[u8],
    out: &mut [u8],
    written: &mut Written,
) -> u8
    ensures { FillsIn options (IsLinesOf asked_lines.Listing (is_many options) (is_loose options) bytes.now) bytes.now out.old out.new written.new result }
{
    lines::fill_lines_in(alloc, Lines::Listing, options, bytes, out, written)
}

/// The report of the objects that it makes.
#[unsafe(no_mangle)]
pub extern "C" fn picklestep_objects_with(
    alloc: Global,
    options: u32,
    bytes: &[u8],
    out: &mut [u8],
    written: &mut Written,
) -> u8
    ensures { FillsIn options (IsTextOf asked_text.Objects (is_many options) (is_loose options) bytes.now) bytes.now out.old out.new written.new result }
{
    texts::fill_in(alloc, Text::Objects, options, bytes, out, written)
}

/// The same report as JSON Lines.
#[unsafe(no_mangle)]
pub extern "C" fn picklestep_objects_json(
    alloc: Global,
    options: u32,
    bytes: &[u8],
    out: &mut [u8],
    written: &mut Written,
) -> u8
    ensures { FillsIn options (IsLinesOf asked_lines.Objects (is_many options) (is_loose options) bytes.now) bytes.now out.old out.new written.new result }
{
    lines::fill_lines_in(alloc, Lines::Objects, options, bytes, out, written)
}

/// What is imported and called by what is left of an input without holes, as the options ask for it. The offsets are those in the input. Each
/// hole stands behind those before it.
#[unsafe(no_mangle)]
pub extern "C" fn picklestep_calls_with(
    alloc: Global,
    options: u32,
    holes: &[GivenHole],
    bytes: &[u8],
    out: &mut [u8],
    written: &mut Written,
) -> u8
    ensures { FillsOf (pickles_left options holes.now) (λ p. IsCallsOf (detail_of options)
        (holes_of holes.now) p bytes.now) bytes.now out.old out.new written.new result }
{
    texts::fill_left(alloc, options, holes, bytes, out, written)
}

/// The same as JSON Lines.
#[unsafe(no_mangle)]
pub extern "C" fn picklestep_calls_json(
    alloc: Global,
    options: u32,
    holes: &[GivenHole],
    bytes: &[u8],
    out: &mut [u8],
    written: &mut Written,
) -> u8
    ensures { FillsOf (pickles_left options holes.now) (λ p. IsCallsLinesOf (detail_of options)
        (holes_of holes.now) p bytes.now) bytes.now out.old out.new written.new result }
{
    calls_lines::fill_left(alloc, options, holes, bytes, out, written)
}

/// The answers of a conversation, as `picklestep_debug` gives them, in a session of an input that is read as the options say.
#[unsafe(no_mangle)]
pub extern "C" fn picklestep_debug_with(
    alloc: Global,
    options: u32,
    bytes: &[u8],
    script: &[u8],
    out: &mut [u8],
    written: &mut Written,
) -> u8
    ensures { FillsIn options (IsTalkOf (is_many options) (is_loose options) bytes.now script.now) bytes.now out.old out.new written.new result }
{
    talk::fill_talk_in(alloc, options, bytes, script, out, written)
}

// ---- sessions by handle

/// Opens a session of an input that is read as the options say, in a handle in which none is open. It remembers the latest `window` steps, of
/// 1,000,000 at most, or all where `window` is 0.
#[unsafe(no_mangle)]
pub extern "C" fn picklestep_open(
    alloc: Global,
    options: u32,
    window: usize,
    bytes: &[u8],
    handle: &mut Handle,
) -> u8
    ensures { Opens options window bytes.now handle.old.talk handle.new.talk result }
{
    session::open(alloc, options, window, bytes, handle)
}

/// Obeys a line, given without its newline, and puts its text there. The session keeps the text, for `picklestep_again`, until the next line is
/// obeyed.
#[unsafe(no_mangle)]
pub extern "C" fn picklestep_ask(
    alloc: Global,
    handle: &mut Handle,
    line: &[u8],
    out: &mut [u8],
    written: &mut Written,
) -> u8
    ensures { Asks line.now handle.old.talk handle.new.talk out.old out.new written.new result }
{
    session::ask(alloc, handle, line, out, written)
}

/// Obeys a line, given without its newline, and puts the line of JSON that answers it there, which tells what its text tells. The session keeps
/// it, for `picklestep_again`, until the next line is obeyed.
#[unsafe(no_mangle)]
pub extern "C" fn picklestep_ask_json(
    alloc: Global,
    handle: &mut Handle,
    line: &[u8],
    out: &mut [u8],
    written: &mut Written,
) -> u8
    ensures { AsksJson line.now handle.old.talk handle.new.talk out.old out.new written.new result }
{
    session::ask_json(alloc, handle, line, out, written)
}

/// The text of the latest line once more: for a caller whose room was too small.
#[unsafe(no_mangle)]
pub extern "C" fn picklestep_again(
    alloc: Global,
    handle: &mut Handle,
    out: &mut [u8],
    written: &mut Written,
) -> u8
    ensures { AsksAgain handle.old.talk handle.new.talk out.old out.new written.new result }
{
    session::ask_again(alloc, handle, out, written)
}

/// The bytes of the pickle as it is, edits and all.
#[unsafe(no_mangle)]
pub extern "C" fn picklestep_bytes(
    alloc: Global,
    handle: &mut Handle,
    out: &mut [u8],
    written: &mut Written,
) -> u8
    ensures { AsksBytes handle.old.talk handle.new.talk out.old out.new written.new result }
{
    session::ask_bytes(alloc, handle, out, written)
}

/// Closes the session that is open in a handle, if there is one, and gives back all its memory.
#[unsafe(no_mangle)]
pub extern "C" fn picklestep_close(alloc: Global, handle: &mut Handle) -> u8
    ensures closed { handle.new.talk ≡ None }
    ensures done { result ≡ 0 }
{
    session::close(alloc, handle)
}
