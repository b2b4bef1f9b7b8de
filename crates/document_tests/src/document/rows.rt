//! Edits and what they lead to. The expected values are worked out from units: a FRAME's number is the sum of its members'
//! sizes and of the bytes of the tail that it counts.

use crate::document::shown::{FRAME, NONE, Row, Shown, Spelled};
use pickle_doc::Edit;
use pickle_ops::Opcode;

/// Opcodes in a frame are replaced, taken out and put in.
pub const IN_FRAMES: [Row; 5] = [
    // replace inside a frame
    (
        b"\x80\x04\x95\x06\0\0\0\0\0\0\0]\x94K\x01a.",
        "0 PROTO #0; 2 FRAME #1; 11 EMPTY_LIST #2 in 1; 12 MEMOIZE #3 in 1; 13 BININT1 #4 in 1; 15 APPEND #5 in 1; 16 STOP #6 in 1; 17 stopped",
        Edit::Replace(4, (Opcode::BinInt2, b"\x01\0")),
        b"\x80\x04\x95\x07\0\0\0\0\0\0\0]\x94M\x01\0a.",
        "0 PROTO #0; 2 FRAME #1; 11 EMPTY_LIST #2 in 1; 12 MEMOIZE #3 in 1; 13 BININT2 #4 in 1; 16 APPEND #5 in 1; 17 STOP #6 in 1; 18 stopped",
    ),
    // deletion at a frame's end
    (
        b"\x80\x04\x95\x04\0\0\0\0\0\0\0N0N0N.",
        "0 PROTO #0; 2 FRAME #1; 11 NONE #2 in 1; 12 POP #3 in 1; 13 NONE #4 in 1; 14 POP #5 in 1; 15 NONE #6; 16 STOP #7; 17 stopped",
        Edit::Delete(5),
        b"\x80\x04\x95\x03\0\0\0\0\0\0\0N0NN.",
        "0 PROTO #0; 2 FRAME #1; 11 NONE #2 in 1; 12 POP #3 in 1; 13 NONE #4 in 1; 14 NONE #6; 15 STOP #7; 16 stopped",
    ),
    // and an opcode in its place, which is a member again
    (
        b"\x80\x04\x95\x04\0\0\0\0\0\0\0N0N0N.",
        "0 PROTO #0; 2 FRAME #1; 11 NONE #2 in 1; 12 POP #3 in 1; 13 NONE #4 in 1; 14 POP #5 in 1; 15 NONE #6; 16 STOP #7; 17 stopped",
        Edit::Replace(5, (Opcode::BinInt1, b"\x07")),
        b"\x80\x04\x95\x05\0\0\0\0\0\0\0N0NK\x07N.",
        "0 PROTO #0; 2 FRAME #1; 11 NONE #2 in 1; 12 POP #3 in 1; 13 NONE #4 in 1; 14 BININT1 #5 in 1; 16 NONE #6; 17 STOP #7; 18 stopped",
    ),
    // a member of a frame that reaches past STOP goes
    (
        b"\x95\x03\0\0\0\0\0\0\0N.X",
        "0 FRAME #0; 9 NONE #1 in 0; 10 STOP #2 in 0; 11 stopped",
        Edit::Delete(1),
        b"\x95\x02\0\0\0\0\0\0\0.X",
        "0 FRAME #0; 9 STOP #2 in 0; 10 stopped",
    ),
    // and an opcode before it
    (
        b"\x95\x03\0\0\0\0\0\0\0N.X",
        "0 FRAME #0; 9 NONE #1 in 0; 10 STOP #2 in 0; 11 stopped",
        Edit::Insert(1, (Opcode::BinInt1, b"\x05")),
        b"\x95\x05\0\0\0\0\0\0\0K\x05N.X",
        "0 FRAME #0; 9 BININT1 #3 in 0; 11 NONE #1 in 0; 12 STOP #2 in 0; 13 stopped",
    ),
];

/// Opcodes next to a frame, and the only one in a frame.
pub const BESIDE_FRAMES: [Row; 4] = [
    // after the last member of a frame
    (
        b"\x95\x01\0\0\0\0\0\0\0N0N.",
        "0 FRAME #0; 9 NONE #1 in 0; 10 POP #2; 11 NONE #3; 12 STOP #4; 13 stopped",
        Edit::Insert(2, NONE),
        b"\x95\x01\0\0\0\0\0\0\0NN0N.",
        "0 FRAME #0; 9 NONE #1 in 0; 10 NONE #5; 11 POP #2; 12 NONE #3; 13 STOP #4; 14 stopped",
    ),
    // before the first member of a frame
    (
        b"\x95\x01\0\0\0\0\0\0\0N0N.",
        "0 FRAME #0; 9 NONE #1 in 0; 10 POP #2; 11 NONE #3; 12 STOP #4; 13 stopped",
        Edit::Insert(1, NONE),
        b"\x95\x02\0\0\0\0\0\0\0NN0N.",
        "0 FRAME #0; 9 NONE #5 in 0; 10 NONE #1 in 0; 11 POP #2; 12 NONE #3; 13 STOP #4; 14 stopped",
    ),
    // before a frame
    (
        b"\x95\x01\0\0\0\0\0\0\0N0N.",
        "0 FRAME #0; 9 NONE #1 in 0; 10 POP #2; 11 NONE #3; 12 STOP #4; 13 stopped",
        Edit::Insert(0, NONE),
        b"N\x95\x01\0\0\0\0\0\0\0N0N.",
        "0 NONE #5; 1 FRAME #0; 10 NONE #1 in 1; 11 POP #2; 12 NONE #3; 13 STOP #4; 14 stopped",
    ),
    // the only member of a frame goes
    (
        b"\x95\x01\0\0\0\0\0\0\0N.",
        "0 FRAME #0; 9 NONE #1 in 0; 10 STOP #2; 11 stopped",
        Edit::Delete(1),
        b"\x95\0\0\0\0\0\0\0\0.",
        "0 FRAME #0; 9 STOP #2; 10 stopped",
    ),
];

/// Opcodes next to frames that lie.
pub const FRAMES_THAT_LIE: [Row; 4] = [
    // frames that lie: before a frame past the end
    (
        b"\x95\x09\0\0\0\0\0\0\0N.",
        "0 F7 at 0",
        Edit::Insert(0, NONE),
        b"N\x95\x09\0\0\0\0\0\0\0N.",
        "0 NONE #0; 1 F7 at 1",
    ),
    // frames that lie: the member before a frame in a frame
    (
        b"\x95\x0b\0\0\0\0\0\0\0N\x95\0\0\0\0\0\0\0\0.",
        "0 FRAME #0; 9 NONE #1 in 0; 10 F6 at 10",
        Edit::Delete(1),
        b"\x95\n\0\0\0\0\0\0\0\x95\0\0\0\0\0\0\0\0.",
        "0 FRAME #0; 9 F6 at 9",
    ),
    // frames that lie: after the last member of a frame that is crossed
    (
        b"\x95\x02\0\0\0\0\0\0\0NK\x01.",
        "0 FRAME #0; 9 NONE #1 in 0; 10 F8 at 10",
        Edit::Insert(2, NONE),
        b"\x95\x03\0\0\0\0\0\0\0NNK\x01.",
        "0 FRAME #0; 9 NONE #1 in 0; 10 NONE #2 in 0; 11 F8 at 11",
    ),
    // frames that lie: before that member
    (
        b"\x95\x02\0\0\0\0\0\0\0NK\x01.",
        "0 FRAME #0; 9 NONE #1 in 0; 10 F8 at 10",
        Edit::Insert(1, (Opcode::BinInt1, b"\x05")),
        b"\x95\x04\0\0\0\0\0\0\0K\x05NK\x01.",
        "0 FRAME #0; 9 BININT1 #2 in 0; 11 NONE #1 in 0; 12 F8 at 12",
    ),
];

/// Frames are put round items and taken away.
pub const FRAMES: [Row; 4] = [
    // frame and unframe: a frame round all, STOP too
    (
        b"N0N.",
        "0 NONE #0; 1 POP #1; 2 NONE #2; 3 STOP #3; 4 stopped",
        Edit::Frame(0, 4),
        b"\x95\x04\0\0\0\0\0\0\0N0N.",
        "0 FRAME #4; 9 NONE #0 in 0; 10 POP #1 in 0; 11 NONE #2 in 0; 12 STOP #3 in 0; 13 stopped",
    ),
    // frame and unframe: the members are loose again
    (
        b"\x95\x04\0\0\0\0\0\0\0N0N.",
        "0 FRAME #0; 9 NONE #1 in 0; 10 POP #2 in 0; 11 NONE #3 in 0; 12 STOP #4 in 0; 13 stopped",
        Edit::Unframe(0),
        b"N0N.",
        "0 NONE #1; 1 POP #2; 2 NONE #3; 3 STOP #4; 4 stopped",
    ),
    // an empty frame after a frame
    (
        b"\x95\x02\0\0\0\0\0\0\0NN.",
        "0 FRAME #0; 9 NONE #1 in 0; 10 NONE #2 in 0; 11 STOP #3; 12 stopped",
        Edit::Frame(3, 0),
        b"\x95\x02\0\0\0\0\0\0\0NN\x95\0\0\0\0\0\0\0\0.",
        "0 FRAME #0; 9 NONE #1 in 0; 10 NONE #2 in 0; 11 FRAME #4; 20 STOP #3; 21 stopped",
    ),
    // a frame after a frame
    (
        b"\x95\x02\0\0\0\0\0\0\0NN.",
        "0 FRAME #0; 9 NONE #1 in 0; 10 NONE #2 in 0; 11 STOP #3; 12 stopped",
        Edit::Frame(3, 1),
        b"\x95\x02\0\0\0\0\0\0\0NN\x95\x01\0\0\0\0\0\0\0.",
        "0 FRAME #0; 9 NONE #1 in 0; 10 NONE #2 in 0; 11 FRAME #4; 20 STOP #3 in 3; 21 stopped",
    ),
];

/// Frames with no item.
pub const EMPTY_FRAMES: [Row; 4] = [
    // an empty frame before a frame
    (
        b"\x95\x04\0\0\0\0\0\0\0N0N.",
        "0 FRAME #0; 9 NONE #1 in 0; 10 POP #2 in 0; 11 NONE #3 in 0; 12 STOP #4 in 0; 13 stopped",
        Edit::Frame(0, 0),
        b"\x95\0\0\0\0\0\0\0\0\x95\x04\0\0\0\0\0\0\0N0N.",
        "0 FRAME #5; 9 FRAME #0; 18 NONE #1 in 1; 19 POP #2 in 1; 20 NONE #3 in 1; 21 STOP #4 in 1; 22 stopped",
    ),
    // empty frame before stop
    (
        b".",
        "0 STOP #0; 1 stopped",
        Edit::Frame(0, 0),
        b"\x95\0\0\0\0\0\0\0\0.",
        "0 FRAME #1; 9 STOP #0; 10 stopped",
    ),
    // an empty frame before an empty frame
    (
        b"\x95\0\0\0\0\0\0\0\0.",
        "0 FRAME #0; 9 STOP #1; 10 stopped",
        Edit::Frame(0, 0),
        b"\x95\0\0\0\0\0\0\0\0\x95\0\0\0\0\0\0\0\0.",
        "0 FRAME #2; 9 FRAME #0; 18 STOP #1; 19 stopped",
    ),
    // an empty frame is taken away
    (
        b"\x95\0\0\0\0\0\0\0\0.",
        "0 FRAME #0; 9 STOP #1; 10 stopped",
        Edit::Unframe(0),
        b".",
        "0 STOP #1; 1 stopped",
    ),
];

/// Documents with no frame, or with no item.
pub const NO_FRAMES: [Row; 3] = [
    // no item: one is put in before the tail
    (
        b"",
        "0 F1 at 0",
        Edit::Insert(0, NONE),
        b"N",
        "0 NONE #0; 1 F1 at 1",
    ),
    // no item: an empty frame
    (
        b"",
        "0 F1 at 0",
        Edit::Frame(0, 0),
        b"\x95\0\0\0\0\0\0\0\0",
        "0 FRAME #0; 9 F1 at 9",
    ),
    // bytes after STOP stay
    (
        b"N.XY",
        "0 NONE #0; 1 STOP #1; 2 stopped",
        Edit::Replace(0, (Opcode::BinInt2, b"\x01\x02")),
        b"M\x01\x02.XY",
        "0 BININT2 #0; 3 STOP #1; 4 stopped",
    ),
];

/// Bytes with many pickles, and what they read as. The end is STOP only where STOP is the last item and no byte is left.
pub const MANY: [Shown; 9] = [
    (b"", "0 F1 at 0"),
    // two pickles
    (
        b"N.K\x01.",
        "0 NONE #0; 1 STOP #1; 2 BININT1 #2; 4 STOP #3; 5 stopped",
    ),
    // a byte after STOP that is no opcode
    (b"N.\xff", "0 NONE #0; 1 STOP #1; 2 F2 of 255 at 2"),
    // the second pickle has no STOP
    (b"N.N", "0 NONE #0; 1 STOP #1; 2 NONE #2; 3 F1 at 3"),
    // STOP inside a frame, which goes on in the second pickle
    (
        b"\x95\x03\0\0\0\0\0\0\0N.N.",
        "0 FRAME #0; 9 NONE #1 in 0; 10 STOP #2 in 0; 11 NONE #3 in 0; 12 STOP #4; 13 stopped",
    ),
    // a frame that reaches from STOP into the tail
    (
        b"\x95\x03\0\0\0\0\0\0\0.X\x05",
        "0 FRAME #0; 9 STOP #1 in 0; 10 F3 at 10",
    ),
    // a frame after STOP that ends past the bytes
    (b".\x95\x02\0\0\0\0\0\0\0N", "0 STOP #0; 1 F7 at 1"),
    // an opcode after STOP that crosses the end of the frame
    (
        b"\x95\x02\0\0\0\0\0\0\0.K\x01",
        "0 FRAME #0; 9 STOP #1 in 0; 10 F8 at 10",
    ),
    // an empty frame after STOP
    (
        b".\x95\0\0\0\0\0\0\0\0",
        "0 STOP #0; 1 FRAME #1; 10 F1 at 10",
    ),
];

/// Edits of many pickles, some of which change how the document ends.
pub const MANY_EDITS: [Row; 6] = [
    // what is after the last STOP goes
    (
        b"N.N",
        "0 NONE #0; 1 STOP #1; 2 NONE #2; 3 F1 at 3",
        Edit::Delete(2),
        b"N.",
        "0 NONE #0; 1 STOP #1; 2 stopped",
    ),
    // the same in a frame
    (
        b"\x95\x02\0\0\0\0\0\0\0.N",
        "0 FRAME #0; 9 STOP #1 in 0; 10 NONE #2 in 0; 11 F1 at 11",
        Edit::Delete(2),
        b"\x95\x01\0\0\0\0\0\0\0.",
        "0 FRAME #0; 9 STOP #1 in 0; 10 stopped",
    ),
    // an empty frame after the last STOP goes
    (
        b".\x95\0\0\0\0\0\0\0\0",
        "0 STOP #0; 1 FRAME #1; 10 F1 at 10",
        Edit::Unframe(1),
        b".",
        "0 STOP #0; 1 stopped",
    ),
    // the second pickle begins with another opcode
    (
        b"N.N.",
        "0 NONE #0; 1 STOP #1; 2 NONE #2; 3 STOP #3; 4 stopped",
        Edit::Insert(2, (Opcode::BinInt1, b"\x07")),
        b"N.K\x07N.",
        "0 NONE #0; 1 STOP #1; 2 BININT1 #4; 4 NONE #2; 5 STOP #3; 6 stopped",
    ),
    // a frame round two pickles
    (
        b"N.N.",
        "0 NONE #0; 1 STOP #1; 2 NONE #2; 3 STOP #3; 4 stopped",
        Edit::Frame(0, 4),
        b"\x95\x04\0\0\0\0\0\0\0N.N.",
        "0 FRAME #4; 9 NONE #0 in 0; 10 STOP #1 in 0; 11 NONE #2 in 0; 12 STOP #3 in 0; 13 stopped",
    ),
    // one opcode more after the last one, which is not STOP
    (
        b"N.N",
        "0 NONE #0; 1 STOP #1; 2 NONE #2; 3 F1 at 3",
        Edit::Insert(3, (Opcode::Pop, b"")),
        b"N.N0",
        "0 NONE #0; 1 STOP #1; 2 NONE #2; 3 POP #3; 4 F1 at 4",
    ),
];
