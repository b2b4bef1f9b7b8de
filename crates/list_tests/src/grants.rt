//! What lists grant to names.

use pickle_allow::{Grant, Listing, Uses, extension_word, grant_of, line_text, read_list};
use std::alloc::{AllocError, Global};
use std::process::Abort;
use std::test::Fail;

/// A list, a name, and what is granted to it: what may be done with it, and with what its calls make. Nothing where no entry has the name.
type Row = (&'static [u8], &'static [u8], &'static [u8]);

/// Names and patterns.
const NAMES: [Row; 16] = [
    (
        b"collections.OrderedDict",
        b"collections.OrderedDict",
        b"call new state fill/call new state fill",
    ),
    (b"collections.OrderedDict", b"collections.OrderedDict2", b""),
    (b"collections.OrderedDict", b"collections.OrderedDic", b""),
    (
        b"torch.*Storage",
        b"torch.FloatStorage",
        b"call new state fill/call new state fill",
    ),
    (b"torch.*Storage", b"torch.os.Storage", b""),
    (
        b"torch.**Storage",
        b"torch.os.Storage",
        b"call new state fill/call new state fill",
    ),
    (
        b"torch.***Storage",
        b"torch.os.Storage",
        b"call new state fill/call new state fill",
    ),
    (
        b"a.**.b*",
        b"a.x.y.b1.b2",
        b"call new state fill/call new state fill",
    ),
    (b"a.**.b*", b"a.x.y.b1.c2", b""),
    (
        b"**",
        b"posix.system",
        b"call new state fill/call new state fill",
    ),
    (
        b"**",
        b"persistent",
        b"call new state fill/call new state fill",
    ),
    (b"*", b"posix.system", b""),
    (
        b"*.system",
        b"posix.system",
        b"call new state fill/call new state fill",
    ),
    (
        b"persistent",
        b"persistent",
        b"call new state fill/call new state fill",
    ),
    (
        b"ext *",
        b"ext 12",
        b"call new state fill/call new state fill",
    ),
    (b"", b"posix.system", b""),
];

/// Words.
const WORDS: [Row; 14] = [
    (b"a.b:", b"a.b", b"/call new state fill"),
    (b"a.b: call", b"a.b", b"call new/call new state fill"),
    (b"a.b: new", b"a.b", b"new/call new state fill"),
    (
        b"a.b: state fill",
        b"a.b",
        b"state fill/call new state fill",
    ),
    (b"a.b: made", b"a.b", b"/"),
    (b"a.b: call made", b"a.b", b"call new/"),
    (b"a.b: call made-state", b"a.b", b"call new/state"),
    (b"a.b: made-call made-fill", b"a.b", b"/call new fill"),
    (b"a.b: made-new made", b"a.b", b"/new"),
    (b"a.b: call made\na.b: fill made", b"a.b", b"call new fill/"),
    (
        b"a.b: call made\n# a note\na.*: made-state\na.c",
        b"a.b",
        b"call new/state",
    ),
    (b"a.b: call(text)", b"a.b", b"call new/call new state fill"),
    (
        b"a.b: fill call() then(none) made",
        b"a.b",
        b"call new fill/",
    ),
    (
        b" \ta.b :\tcall  made-fill # all of it\r\n",
        b"a.b",
        b"call new/fill",
    ),
];

/// Adds a word behind the others.
fn add(text: &mut Vec<u8>, start: usize, is: bool, word: &[u8]) -> Result<(), AllocError> {
    if is {
        if text.len() > start {
            text.push(b' ')?;
        }
        text.extend_from_slice(word)?;
    }
    Ok(())
}

/// Adds what may be done, in words.
fn add_uses(text: &mut Vec<u8>, uses: Uses) -> Result<(), AllocError> {
    let start = text.len();
    add(text, start, uses.call, b"call")?;
    add(text, start, uses.new, b"new")?;
    add(text, start, uses.state, b"state")?;
    add(text, start, uses.fill, b"fill")
}

/// What is granted, in words.
fn words_of(alloc: Global, grant: Option<Grant>) -> Result<Vec<u8>, AllocError> {
    let mut text = Vec::new(alloc);
    if let Some(grant) = grant {
        add_uses(&mut text, grant.now)?;
        text.push(b'/')?;
        add_uses(&mut text, grant.made)?;
    }
    Ok(text)
}

/// What a list grants to a name, in words.
fn granted(alloc: Global, list: &[u8], name: &[u8]) -> Result<Vec<u8>, AllocError> {
    match read_list(alloc, list)? {
        Listing::Entries(entries) => words_of(alloc, grant_of(alloc, entries.as_slice(), name)?),
        Listing::Wrong(_) => Vec::from_slice(alloc, b"no list"),
    }
}

/// Each list grants what is wanted.
fn check(alloc: Global, rows: &[Row], rt: &impl Abort) -> Result<(), Fail> {
    for (list, name, wanted) in rows {
        let found = granted(alloc, list, name)?;
        assert!(rt; found.as_slice() == *wanted);
    }
    Ok(())
}

#[test]
fn names(rt: HostRuntime) -> Result<(), Fail> {
    check(rt.alloc(), &NAMES, &rt)
}

#[test]
fn words(rt: HostRuntime) -> Result<(), Fail> {
    check(rt.alloc(), &WORDS, &rt)
}

/// The code of an extension is in its word.
#[test]
fn extensions(rt: HostRuntime) -> Result<(), Fail> {
    let alloc = rt.alloc();
    let word = extension_word(alloc, 12)?;
    assert!(rt; word.as_slice() == b"ext 12".as_slice());
    let granted_one = granted(alloc, b"ext 12: call", word.as_slice())?;
    assert!(rt; !granted_one.is_empty());
    let granted_other = granted(alloc, b"ext 1", word.as_slice())?;
    assert!(rt; granted_other.is_empty());
    Ok(())
}

/// A name of a megabyte takes no long time.
#[test]
fn long_name(rt: HostRuntime) -> Result<(), Fail> {
    let alloc = rt.alloc();
    let mut name = Vec::from_slice(alloc, b"a")?;
    for _ in 0..100_000 {
        name.extend_from_slice(b".b.bb.bbb")?;
    }
    let some = granted(alloc, b"a.**.b*.**b*", name.as_slice())?;
    assert!(rt; !some.is_empty());
    let none = granted(alloc, b"a.**.b*.**c*", name.as_slice())?;
    assert!(rt; none.is_empty());
    Ok(())
}

/// A half of a name has at most 1,024 bytes.
#[test]
fn longest_half(rt: HostRuntime) -> Result<(), Fail> {
    let short = [b'a'; 1024];
    let long = [b'a'; 1025];
    assert!(rt; line_text(short.as_slice())?.is_some());
    assert!(rt; line_text(long.as_slice())?.is_none());
    Ok(())
}
