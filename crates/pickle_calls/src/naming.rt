//! How the names of what is imported are read, how much of an argument is shown, and what is left of a frame: these go along with the items.

ghost use Rattle.std.specs.Prelude.{◌≡◌, ◌&&◌, false, nat_lt};
ghost use Rattle.pickle_doc.specs.DocUnit.{is_stop, is_frame, frame_number};
ghost use Rattle.pickle_doc.specs.Fitting.{left_behind};
ghost use Rattle.pickle_calls.specs.Naming.{turns};

use pickle_ops::{ObjId, OpRef, Opcode, Row};

/// How much of an argument is shown.
#[derive(Clone, Copy, Debug, PartialEq, Eq)]
pub enum Detail {
    /// The first 64 characters of a text, the first 64 bytes of other payloads, the first 16 parts of a tuple, and how many more there
    /// are.
    Cut,
    /// All of a text, of a payload, and of the parts of a tuple.
    Full,
}

/// How objects are shown in a line: how much of them, whether names are read as those of Python 2, and how many objects there were when
/// that began: of older ones it is not known.
#[derive(Clone, Copy)]
pub struct Naming {
    /// How much of an argument is shown.
    pub detail: Detail,
    /// Below protocol 3 names are read as those of Python 2.
    pub old: bool,
    /// The number of the first object since then.
    pub since: ObjId,
}

impl Naming {
    ghost use Rattle.std.specs.Prelude.{◌≡◌};
    ghost use Rattle.pickle_calls.specs.Naming.{begin, turned, naming_after};

    /// A pickle begins, when there are this many objects.
    pub fn begin(detail: Detail, objects: ObjId) -> Naming
        ensures { result ≡ begin detail objects }
    {
        Naming {
            detail,
            old: true,
            since: objects,
        }
    }

    /// PROTO says how names are read.
    fn turned(self, old: bool, objects: ObjId) -> Naming
        ensures { result ≡ turned old objects self }
    {
        if old == self.old {
            self
        } else {
            Naming {
                detail: self.detail,
                old,
                since: objects,
            }
        }
    }

    /// After an item of this row, when there are this many objects.
    pub fn after(self, row: Row, objects: ObjId) -> Naming
        ensures { result ≡ naming_after row objects self }
    {
        match row {
            Row::Protocol(protocol) => self.turned(protocol < 3, objects),
            Row::Stop => Naming::begin(self.detail, objects),
            _ => self,
        }
    }
}

/// Whether an item of this row may change how names are read.
#[inline(always)]
pub(crate) fn turns(row: Row) -> bool
    ensures { result ≡ turns row }
{
    matches!(row, Row::Protocol(_) | Row::Stop)
}

/// How many bytes are left of a frame after an opcode.
pub fn left_behind(op: &OpRef<'_>, left: u64) -> u64
    ensures { result ≡ left_behind false left op.now }
{
    if matches!(op.opcode(), Opcode::Frame) {
        op.number()
    } else {
        left.saturating_sub(op.size() as u64)
    }
}

/// Whether STOP leaves a frame unfinished.
pub fn leaves_frame(opcode: Opcode, left: u64) -> bool
    ensures { result ≡ (is_stop opcode && nat_lt 0 left) }
{
    matches!(opcode, Opcode::Stop) && left > 0
}
