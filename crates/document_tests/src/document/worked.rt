//! Worked documents, each also written back byte for byte. The expected values are worked out by hand from the table of
//! opcodes and the rules for frames.

use crate::document::shown::{Shown, has_bytes_left, shows};
use pickle_doc::Document;
use std::test::Fail;

/// Bytes, and what they read as.
const ROWS: [Shown; 19] = [
    // the usual dump of a list
    (
        b"\x80\x04\x95\x06\0\0\0\0\0\0\0]\x94K\x01a.",
        "0 PROTO #0; 2 FRAME #1; 11 EMPTY_LIST #2 in 1; 12 MEMOIZE #3 in 1; 13 BININT1 #4 in 1; 15 APPEND #5 in 1; 16 STOP #6 in 1; 17 stopped",
    ),
    // no bytes
    (b"", "0 F1 at 0"),
    // a frame that reaches past STOP
    (
        b"\x95\x03\0\0\0\0\0\0\0N.X",
        "0 FRAME #0; 9 NONE #1 in 0; 10 STOP #2 in 0; 11 stopped",
    ),
    // a frame without members
    (
        b"\x95\0\0\0\0\0\0\0\0.",
        "0 FRAME #0; 9 STOP #1; 10 stopped",
    ),
    // no STOP
    (
        b"\x95\x01\0\0\0\0\0\0\0N",
        "0 FRAME #0; 9 NONE #1 in 0; 10 F1 at 10",
    ),
    // a frame one byte past the end
    (b"\x95\x02\0\0\0\0\0\0\0N", "0 F7 at 0"),
    // no opcode in a frame
    (
        b"\x95\x02\0\0\0\0\0\0\0N\xff",
        "0 FRAME #0; 9 NONE #1 in 0; 10 F2 of 255 at 10",
    ),
    // cut short, and no crossing
    (
        b"\x95\x02\0\0\0\0\0\0\0NX",
        "0 FRAME #0; 9 NONE #1 in 0; 10 F3 at 10",
    ),
    // a frame in a frame, though cut short
    (
        b"\x95\x02\0\0\0\0\0\0\0N\x95",
        "0 FRAME #0; 9 NONE #1 in 0; 10 F6 at 10",
    ),
    // a frame far past the end
    (b"\x95\x09\0\0\0\0\0\0\0N.", "0 F7 at 0"),
    // a frame in a frame
    (
        b"\x95\x0b\0\0\0\0\0\0\0N\x95\0\0\0\0\0\0\0\0.",
        "0 FRAME #0; 9 NONE #1 in 0; 10 F6 at 10",
    ),
    // crossed by one byte
    (
        b"\x95\x02\0\0\0\0\0\0\0NK\x01.",
        "0 FRAME #0; 9 NONE #1 in 0; 10 F8 at 10",
    ),
    // a negative length before a crossing
    (
        b"\x95\x01\0\0\0\0\0\0\0\x8b\xff\xff\xff\xff",
        "0 FRAME #0; 9 F4 at 9",
    ),
    // a bad line before a crossing
    (b"\x95\x01\0\0\0\0\0\0\0gx\n", "0 FRAME #0; 9 F5 at 9"),
    // one frame after another
    (
        b"\x95\x01\0\0\0\0\0\0\0N\x95\x01\0\0\0\0\0\0\0.",
        "0 FRAME #0; 9 NONE #1 in 0; 10 FRAME #2; 19 STOP #3 in 2; 20 stopped",
    ),
    // a frame cut short outside all frames
    (b"\x95\x01", "0 F3 at 0"),
    // an argument cut short
    (b"X\x05\0\0\0ab", "0 F3 at 0"),
    // leading zeros
    (b"g007\n.", "0 GET #0; 5 STOP #1; 6 stopped"),
    // bytes after STOP
    (b"N.XY", "0 NONE #0; 1 STOP #1; 2 stopped"),
];

#[test]
fn worked_documents(rt: HostRuntime) -> Result<(), Fail> {
    for (k, want) in ROWS.iter().enumerate() {
        let document = Document::read(rt.alloc(), want.0)?;
        assert_eq!(rt; shows(rt.alloc(), &document, *want), Ok(()), "row {k}");
    }
    Ok(())
}

/// Read as many pickles they show the same, but where bytes follow STOP.
#[test]
fn worked_documents_as_many(rt: HostRuntime) -> Result<(), Fail> {
    for (k, want) in ROWS.iter().enumerate() {
        if !has_bytes_left(rt.alloc(), want.0)? {
            let document = Document::read_many(rt.alloc(), want.0)?;
            assert_eq!(rt; shows(rt.alloc(), &document, *want), Ok(()), "row {k}");
        }
    }
    Ok(())
}
