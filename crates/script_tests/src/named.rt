//! The calls that write the text of bytes or of a document, and those that no program has a use for, each once with ample memory. What
//! they are to write is the specification's, and was not taken from here.

use object_texts::write_document_report;
use pickle_doc::{DocFault, Document};
use pickle_io::FromRead;
use pickle_list::write_listing;
use pickle_script::{Stop, converse, line_of, list, list_many, objects, objects_many};
use pickle_session::{Session, Whole};
use std::alloc::Global;
use std::test::Fail;
use test_equipment::{paper, taken};

/// Whether bytes are several pickles, the bytes, what is written of them, and the status.
type Row = (bool, &'static [u8], &'static [u8], u8);

const LISTINGS: [Row; 5] = [
    // the usual dump of a list with the number 1
    (
        false,
        b"\x80\x04\x95\x06\x00\x00\x00\x00\x00\x00\x00]\x94K\x01a.",
        b"    0: \\x80 PROTO      4\n    2: \\x95 FRAME      6\n   11: ]    EMPTY_LIST\n   12: \\x94 MEMOIZE    (as 0)\n   13: K    BININT1    1\n   15: a    APPEND\n   16: .    STOP\nhighest protocol among opcodes = 4\n",
        0,
    ),
    // no byte
    (false, b"", b"fault: F1 ended at 0\n", 1),
    // two numbers in a tuple that is memoized
    (
        false,
        b"K\x01K\x02\x86q\x00.",
        b"    0: K    BININT1    1\n    2: K    BININT1    2\n    4: \\x86 TUPLE2\n    5: q    BINPUT     0\n    7: .    STOP\nhighest protocol among opcodes = 2\n",
        0,
    ),
    // a memo entry that is not there
    (
        false,
        b"g007\n.",
        b"    0: g    GET        7\nrefused: S3 no memo entry 7\nhighest protocol among opcodes = 0\n",
        1,
    ),
    // a mark that the first of two pickles leaves
    (
        true,
        b"(N.N.",
        b"    0: (    MARK\n    1: N        NONE\n    2: .        STOP\nleft: 0 objects, 1 marks\n    3: N    NONE\n    4: .    STOP\nhighest protocol among opcodes = 0\n",
        0,
    ),
];

const REPORTS: [Row; 4] = [
    // the usual dump of a list with the number 1
    (
        false,
        b"\x80\x04\x95\x06\x00\x00\x00\x00\x00\x00\x00]\x94K\x01a.",
        b"#0 list +#1\n#1 int 1\nresult #0\n",
        0,
    ),
    // a call
    (
        false,
        b"cos\ngetcwd\n)R.",
        b"#0 global 'os' 'getcwd'\n#1 tuple\n#2 call (#0 #1)\nresult #2\n",
        0,
    ),
    // an object of each of two pickles
    (
        true,
        b"N.K\x01.",
        b"#0 none\n#1 int 1\nresult #0\nresult #1\n",
        0,
    ),
    // bytes that are no opcode behind a pickle
    (
        true,
        b"N.\xff",
        b"#0 none\nresult #0\nfault: F2 unknown opcode 0xff at 2\n",
        1,
    ),
];

/// What was written, and the status.
#[derive(Drop)]
struct Written {
    text: Vec<u8>,
    status: u8,
}

impl Written {
    /// Whether this was written, and the status is this.
    fn agrees(&self, text: &[u8], status: u8) -> bool {
        self.text.as_slice() == text && self.status == status
    }
}

/// The listing of bytes.
fn listed(alloc: Global, many: bool, bytes: &[u8]) -> Result<Written, Fail> {
    let mut page = paper(alloc)?;
    let status = if many {
        list_many(alloc, bytes, &mut page)?
    } else {
        list(alloc, bytes, &mut page)?
    };
    let text = taken(page)?;
    Ok(Written { text, status })
}

/// The report of the objects of bytes.
fn reported(alloc: Global, many: bool, bytes: &[u8]) -> Result<Written, Fail> {
    let mut page = paper(alloc)?;
    let status = if many {
        objects_many(alloc, bytes, &mut page)?
    } else {
        objects(alloc, bytes, &mut page)?
    };
    let text = taken(page)?;
    Ok(Written { text, status })
}

/// The document of bytes.
fn document_of(alloc: Global, many: bool, bytes: &[u8]) -> Result<Document, DocFault> {
    if many {
        Document::read_many(alloc, bytes)
    } else {
        Document::read(alloc, bytes)
    }
}

/// The listing of a document.
fn listed_document(alloc: Global, many: bool, bytes: &[u8]) -> Result<Written, Fail> {
    let document = document_of(alloc, many, bytes)?;
    let mut page = paper(alloc)?;
    let status = write_listing(alloc, &document, &mut page)?;
    let text = taken(page)?;
    Ok(Written { text, status })
}

/// The report of the objects of a document.
fn reported_document(alloc: Global, many: bool, bytes: &[u8]) -> Result<Written, Fail> {
    let document = document_of(alloc, many, bytes)?;
    let mut page = paper(alloc)?;
    let status = write_document_report(alloc, &document, &mut page)?;
    let text = taken(page)?;
    Ok(Written { text, status })
}

#[test]
fn listings(rt: HostRuntime) -> Result<(), Fail> {
    for row in &LISTINGS {
        let (many, bytes, text, status) = *row;
        let by_bytes = listed(rt.alloc(), many, bytes)?;
        assert!(rt; by_bytes.agrees(text, status), "{bytes:?}");
        let by_document = listed_document(rt.alloc(), many, bytes)?;
        assert!(rt; by_document.agrees(text, status), "document of {bytes:?}");
    }
    Ok(())
}

#[test]
fn reports(rt: HostRuntime) -> Result<(), Fail> {
    for row in &REPORTS {
        let (many, bytes, text, status) = *row;
        let by_bytes = reported(rt.alloc(), many, bytes)?;
        assert!(rt; by_bytes.agrees(text, status), "{bytes:?}");
        let by_document = reported_document(rt.alloc(), many, bytes)?;
        assert!(rt; by_document.agrees(text, status), "document of {bytes:?}");
    }
    Ok(())
}

/// No entry of the memo is left where the second pickle begins.
#[test]
fn several_pickles(rt: HostRuntime) -> Result<(), Fail> {
    let past = Whole::new(rt.alloc());
    let mut session = Session::open_many(rt.alloc(), past, b"Nq\x00.h\x00.")?;
    let lines: &[u8] = b"run\nmemo\nwhere\n";
    let mut page = paper(rt.alloc())?;
    let status = converse(
        rt.alloc(),
        &mut session,
        &mut FromRead::new(lines),
        &mut page,
    )?;
    let text: &[u8] =
        b"at 3: refused, S3 no memo entry 0\nmemo 0=#0\nat 3 of 5, offset 4, buffers 0, result #0, end stopped\n";
    assert_eq!(rt; taken(page)?.as_slice(), text);
    assert_eq!(rt; status, 0);
    Ok(())
}

#[test]
fn words_of_stops(rt: HostRuntime) {
    let stops = [
        (Stop::Read, "cannot read"),
        (Stop::Write, "cannot write"),
        (Stop::TooLarge, "too large"),
        (Stop::Memory, "out of memory"),
    ];
    for (stop, words) in &stops {
        assert_eq!(rt; line_of(stop), *words);
    }
}
