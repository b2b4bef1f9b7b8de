//! Laws of sessions and of what they show. The functions without arguments do nothing: what they ensure is the law.

ghost use Rattle.std.specs.Prelude.{◌≡◌, None, OnOk};
ghost use Rattle.pickle_doc.specs.Edit.{edit_fault, edit_place};
ghost use Rattle.session_laws.specs.Edits.{ShowSame};
ghost use Rattle.session_laws.specs.Lines.{PiecesAreLines, TextsAreLines, LinesApart, ItemLineSays, ObjectLineSays};
ghost use Rattle.session_laws.specs.Reached.{ShowsReached};
ghost use Rattle.session_laws.specs.Saved.{IsSavedWhole};
ghost use Rattle.session_laws.specs.Transcripts.{OneTranscript, OneOpening};

use pickle_doc::{Document, Edit, EditRecord, one_document};
use pickle_ops::Op;
use pickle_session::{Past, Session};
use std::alloc::AllocError;

/// Lines of a script are answered alike whatever is kept of the past, all of it, a window or nothing, unless memory runs out.
pub fn one_transcript()
    ensures { OneTranscript }
{}

/// The same bytes are opened as the same session.
pub fn one_opening()
    ensures { OneOpening }
{
    one_document();
}

/// The bytes that a session saves read as its document. Opened, they give the same machine at the same place.
pub fn saved_whole<P: Past>(session: &Session<P>)
    ensures { IsSavedWhole session.now }
{
    let _total = session.document().total();
    let _machine = session.machine();
}

/// Makes an edit that is not refused, as `Document::apply` does. What is shown of the items before its place stays, but for the number of one
/// FRAME, of the frame that its place is in.
pub fn edit_and_lines(document: &mut Document, edit: Edit<Op>) -> Result<EditRecord, AllocError>
    requires { edit_fault edit document.old.contents ≡ None }
    ensures { OnOk result (ShowSame (edit_place edit) document.old.contents document.new.contents) }
{
    let _total = document.total();
    document.apply(edit)
}

/// Each line of a listing and of a report is one line of its text, whatever names and texts the pickle has.
pub fn pieces_are_lines()
    ensures { PiecesAreLines }
{}

/// Cut behind its newlines, a listing is the line of each item and of what STOP left, in order, and its closing lines. A report is the line of
/// each object, in order, and of each result, and its closing line.
pub fn texts_are_lines()
    ensures { TextsAreLines }
{}

/// No line of an item or of an object begins with a letter. Each other line of a listing or a report does, and so is none of theirs.
pub fn lines_apart()
    ensures { LinesApart }
{}

/// Of two opcodes with the same line in a listing the opcode is the same, and so are the text of its argument and the offset.
pub fn item_line_says()
    ensures { ItemLineSays }
{}

/// The line of an object says its number, its kind, its parts and what was done to it.
pub fn object_line_says()
    ensures { ObjectLineSays }
{}

/// What `show` prints of an object is its outline, the only one there is: each object that can be reached from it, in full on the first of
/// its lines, and under that, one deeper, its parts and then what was put into it, in order. The other lines are short, with nothing under them.
pub fn shows_reached()
    ensures { ShowsReached }
{}
