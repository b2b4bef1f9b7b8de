//! What the line of an opcode says besides it and its argument.

ghost use Rattle.std.specs.Prelude.{◌≡◌};
ghost use Rattle.pickle_ops.specs.Row.{row_of};
ghost use Rattle.pickle_list.specs.Inside.Marks.{last_element};
ghost use Rattle.pickle_json.specs.Listing.{note_with};

use pickle_machine::Lean;
use pickle_ops::{OpRef, Opcode, Row};

/// What the line of an opcode says besides it and its argument.
#[derive(Clone, Copy, Debug, PartialEq, Eq)]
pub enum Note {
    /// The opcode takes the mark that was set at this offset, in bytes.
    MarkAt(u64),
    /// The opcode stores the top in the memo under this key, the count of the memo's entries.
    As(u64),
}

/// The note of an operation that is not refused; `opened` has the offsets of the open marks, the topmost last.
pub fn note_of(op: &OpRef<'_>, row: Row, lean: &Lean, opened: &Vec<u64>) -> Option<Note>
    requires { row ≡ row_of op.now }
    ensures { result ≡ note_with op.now lean.now (last_element opened.now.items) }
{
    if lean.takes_mark(row) {
        match opened.as_slice().last() {
            Some(offset) => Some(Note::MarkAt(*offset)),
            None => None,
        }
    } else if matches!(op.opcode(), Opcode::Memoize) {
        Some(Note::As(lean.memo_len() as u64))
    } else {
        None
    }
}
