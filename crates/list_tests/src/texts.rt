//! Which texts are lists.

use pickle_allow::{Listing, read_list};
use std::alloc::{AllocError, Global};
use std::test::Fail;

/// Texts of lists, and how many entries they have.
const LISTS: [(&[u8], usize); 16] = [
    (b"", 0),
    (b"\n \t\r\n# a note\n   # another\n", 0),
    (b"a.b", 1),
    (b"a.b\na.b\n", 2),
    (
        b"a.b:call new state fill made-call made-new made-state made-fill made",
        1,
    ),
    (b"ext 12\next *\npersistent\nbuffer: state", 4),
    (b"*\n**\na**b\n*.b\na.*\n1*.b", 6),
    (b"__main__.C\nos._wrap_close\n_a1.b2", 3),
    (b"m\xc3\xbcller.Stra\xc3\x9fe", 1),
    (b"a.b#c d", 1),
    (b"a.b # call(text)", 1),
    (b"a.b.c.d: call call\r\n", 1),
    (b"_codecs.encode: call(text 'latin1')  # bytes", 1),
    (
        b"a.b: call(text|short fraction) new then( 3  -3|none ) made-state\na.b: call(class|new|any a.b.c) call\n",
        2,
    ),
    (
        b"a.b: call(bytes number small bool held alone\t'a+b-c.d_1'|0)",
        1,
    ),
    (b"a.b: call then(any)", 1),
];

/// Texts that are no lists, and the first line that is none.
const WRONG: [(&[u8], usize); 39] = [
    (b"os", 1),
    (b"a.b\nos\nsys", 2),
    (b"a.b\n\n# x\ninclude numpy", 4),
    (b"a*", 1),
    (b"a b.c", 1),
    (b"a..b", 1),
    (b".a", 1),
    (b"a.", 1),
    (b"a.1b", 1),
    (b"a.b-c", 1),
    (b"a.b: run", 1),
    (b"a.b: call(text", 1),
    (b"a.b: call text)", 1),
    (b"a.b: call)", 1),
    (b"a.b: (text)", 1),
    (b"a.b: new(text)", 1),
    (b"a.b: made-call(text)", 1),
    (b"a.b: recall(text)", 1),
    (b"a.b: call(texts)", 1),
    (b"a.b: call(text|)", 1),
    (b"a.b: call(|text)", 1),
    (b"a.b: call(text || text)", 1),
    (b"a.b: call('')", 1),
    (b"a.b: call('a b')", 1),
    (b"a.b: call('a'b')", 1),
    (b"a.b: call(--3)", 1),
    (b"a.b: call(a.*)", 1),
    (b"a.b: call(call(text))", 1),
    (b"a.b: call (text)", 1),
    (b"a.b: call: new", 1),
    (b"a.b call", 1),
    (b": call", 1),
    (b"'os ' 'x'", 1),
    (b"extension", 1),
    (b"ext", 1),
    (b"ext  1", 1),
    (b"ext **", 1),
    (b"ext 1x", 1),
    (b"Persistent", 1),
];

/// How many entries a text has, or the number of its first line that is wrong.
fn listed(alloc: Global, text: &[u8]) -> Result<(bool, usize), AllocError> {
    match read_list(alloc, text)? {
        Listing::Entries(entries) => Ok((true, entries.len())),
        Listing::Wrong(line) => Ok((false, line)),
    }
}

#[test]
fn lists(rt: HostRuntime) -> Result<(), Fail> {
    for (text, count) in &LISTS {
        let (good, found) = listed(rt.alloc(), text)?;
        assert!(rt; good);
        assert_eq!(rt; found, *count);
    }
    Ok(())
}

#[test]
fn wrong_lines(rt: HostRuntime) -> Result<(), Fail> {
    for (text, line) in &WRONG {
        let (good, found) = listed(rt.alloc(), text)?;
        assert!(rt; !good);
        assert_eq!(rt; found, *line);
    }
    Ok(())
}
