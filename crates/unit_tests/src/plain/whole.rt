//! Sources that are read whole.

use pickle_io::{FromRead, ReadStop, Source, read_limited};
use std::io::Cursor;
use test_equipment::Drip;

/// A limit, how many calls a source answers that gives the six bytes `abcdef` and at most four a call, what comes of it, and
/// what the source has yet to give then.
const READS: [(usize, u64, Result<&[u8], ReadStop>, &[u8]); 9] = [
    (6, 9, Ok(b"abcdef"), b""),
    (7, 9, Ok(b"abcdef"), b""),
    (usize::MAX, 9, Ok(b"abcdef"), b""),
    (5, 9, Err(ReadStop::TooLarge), b""),
    (3, 9, Err(ReadStop::TooLarge), b"ef"),
    (2, 9, Err(ReadStop::TooLarge), b"def"),
    (0, 9, Err(ReadStop::TooLarge), b"bcdef"),
    (6, 2, Err(ReadStop::Failed), b""),
    (6, 0, Err(ReadStop::Failed), b"abcdef"),
];

/// Whether a read came to this.
fn came_to(read: Result<Vec<u8>, ReadStop>, wanted: Result<&[u8], ReadStop>) -> bool {
    match read {
        Ok(bytes) => wanted == Ok(bytes.as_slice()),
        Err(stop) => wanted == Err(stop),
    }
}

#[test]
fn sources(rt: HostRuntime) {
    for (limit, calls, wanted, rest) in &READS {
        let mut source = Drip::new(b"abcdef", 4, *calls);
        let read = read_limited(rt.alloc(), &mut source, *limit);
        assert!(rt; came_to(read, *wanted));
        let failed = source.failures() > 0;
        assert_eq!(rt; failed, *wanted == Err(ReadStop::Failed));
        if !failed {
            let more = read_limited(rt.alloc(), &mut source, 6);
            assert!(rt; came_to(more, Ok(*rest)));
        }
    }
}

/// What a reader of the standard library gives, in more than one block.
#[test]
fn readers(rt: HostRuntime) {
    let bytes = [7u8; 100_000];
    let whole = read_limited(rt.alloc(), &mut FromRead::new(Cursor::new(bytes)), 100_000);
    assert!(rt; came_to(whole, Ok(bytes.as_slice())));
    let more = read_limited(rt.alloc(), &mut FromRead::new(Cursor::new(bytes)), 99_999);
    assert!(rt; came_to(more, Err(ReadStop::TooLarge)));
    let empty = read_limited(rt.alloc(), &mut FromRead::new(Cursor::new([0u8; 0])), 0);
    assert!(rt; came_to(empty, Ok(b"")));
}

/// With each allocation refused in turn: memory runs out only after a source has given its bytes, and never where it
/// has none.
#[test]
fn refused_memory(rt: HostRuntime) {
    let empty = read_limited(rt.alloc(), &mut Drip::new(b"", 4, 9), 6);
    assert!(rt; came_to(empty, Ok(b"")));
    let mut source = Drip::new(b"abc", 4, 9);
    match read_limited(rt.alloc(), &mut source, 6) {
        Ok(bytes) => assert_eq!(rt; bytes.as_slice(), b"abc".as_slice()),
        Err(stop) => assert_eq!(rt; stop, ReadStop::Memory),
    }
    assert_eq!(rt; source.failures(), 0);
    let again = read_limited(rt.alloc(), &mut source, 6);
    assert!(rt; came_to(again, Ok(b"")));
}
