//! What is written of bytes over sinks that fail and with requests for memory refused. It is compared with what is written of them over a
//! good sink with ample memory, which is tried from outside.

use pickle_calls::Detail;
use pickle_further::Pickles;
use pickle_io::Page;
use pickle_script::{Stop, Text, write_text};
use std::alloc::{AllocError, Global};
use std::test::Fail;
use test_equipment::{Sip, insist_on_paper, page_over, paper, taken, written_out};

/// Pickles that are listed, and whose objects are reported.
const ONE: [&[u8]; 23] = [
    b"K\x01K\x02\x86q\x00.",
    b"\x80\x04\x95\x06\x00\x00\x00\x00\x00\x00\x00]\x94K\x01a.",
    b"",
    b"0.",
    b"K",
    b"N.XY",
    b"(K\x01.XY",
    b"N\x7f",
    b")2\x86.",
    b"K\x01K\x02.",
    b"(N.",
    b"]q\x00(h\x00h\x00e.",
    b"N(0.",
    b"\x97\x98.",
    b"K\x01q\x00K\x02q\x00h\x07.",
    b"X\x05\x00\x00\x00ab",
    b"\x95\x09\x00\x00\x00\x00\x00\x00\x00N.",
    b"\x95\x0b\x00\x00\x00\x00\x00\x00\x00N\x95\x00\x00\x00\x00\x00\x00\x00\x00.",
    b"\x95\x02\x00\x00\x00\x00\x00\x00\x00NK\x01.",
    b"g007\n.",
    b"cos\ngetcwd\n)R.",
    b"ccollections\nOrderedDict\n)R(K\x01K\x02u.",
    // objects of every kind, with changes of every kind
    b"N\x88\x89J\xff\xff\xff\xffI12\n\x8a\x02\xff\x00\x8a\x11\x01\x00\x00\x00\x00\x00\x00\x00\x00\x00\x00\x00\x00\x00\x00\x00\x00L5L\nF1.5\nG?\xf0\x00\x00\x00\x00\x00\x00U\x02'\\S'a'\n\x8c\x02h\nVz\nC\x01\x80\x96\x01\x00\x00\x00\x00\x00\x00\x00b0000000000000000)NN\x87]Na(NNe0\x8f(NN\x900(NN\x910}NNs(NNu0cm\nf\n)RNb0\x8c\x01m\x8c\x01n\x93)\x810cm\nf\n)}\x920(Nim\nf\n0(cm\nf\nNo0Pid\n0NQ0\x82\x050\x97\x98.",
];

/// Several pickles, of which both are written.
const SEVERAL: [&[u8]; 18] = [
    b"N.K\x01.",
    b"\x97.\x97.",
    b"Nq\x00.h\x00.",
    b"(N.N.",
    b"(N.N(0.",
    b"NN.(N.",
    b"NN.(N.0",
    b"NN.0",
    b".N.",
    b"K\x01.]N.0",
    b"N.\xff",
    b"(N.\xff",
    b"N.N",
    b"N\x94.N\x94.",
    b"N\x94.]\x94(h\x00h\x00e.",
    b"]q\x00(h\x00h\x00e.]q\x00(h\x00h\x00e.",
    b"\x95\x04\x00\x00\x00\x00\x00\x00\x00N.N.",
    b"",
];

/// Which pickles of bytes are read, whether arguments are cut, and the bytes.
const CALLS: [(Pickles, Detail, &[u8]); 4] = [
    (
        Pickles::First,
        Detail::Cut,
        b"cposix\nsystem\n(X\x02\x00\x00\x00idtR.",
    ),
    (
        Pickles::First,
        Detail::Cut,
        b"(im\nn\n(VaaaaaaaaaabbbbbbbbbbccccccccccddddddddddeeeeeeeeeeffffffffffGGGGGGGG\nNtbNa(NNu(N\x900R",
    ),
    (
        Pickles::First,
        Detail::Full,
        b"(im\nn\n(VaaaaaaaaaabbbbbbbbbbccccccccccddddddddddeeeeeeeeeeffffffffffGGGGGGGG\nNtbNa(NNu(N\x900R",
    ),
    (
        Pickles::All,
        Detail::Cut,
        b"cm\nn\n)R.\x8c\x01m\x8c\x01n\x93\x97\x86Q.",
    ),
];

/// A text of bytes, read as several pickles or as one.
type Row = (Text, bool, &'static [u8]);

/// All texts.
fn rows(alloc: Global) -> Result<Vec<Row>, AllocError> {
    let mut rows = Vec::new(alloc);
    for bytes in &ONE {
        rows.push((Text::Listing, false, *bytes))?;
        rows.push((Text::Objects, false, *bytes))?;
    }
    for bytes in &SEVERAL {
        rows.push((Text::Listing, true, *bytes))?;
        rows.push((Text::Whole, true, *bytes))?;
        rows.push((Text::Objects, true, *bytes))?;
    }
    for (pickles, detail, bytes) in &CALLS {
        rows.push((Text::Calls(*pickles, *detail), false, *bytes))?;
    }
    Ok(rows)
}

/// Writes the text of a row's bytes.
fn write_row<S: Page>(alloc: Global, row: &Row, page: &mut S) -> Result<u8, Stop> {
    let (text, many, bytes) = *row;
    write_text(alloc, text, many, false, bytes, page)
}

/// What is written of a row, and its status.
#[derive(Drop)]
struct Written {
    text: Vec<u8>,
    status: u8,
}

/// What is written over a good sink, or nothing where a request for memory is refused.
fn try_text(alloc: Global, row: &Row) -> Option<Written> {
    let mut page = paper(alloc).ok()?;
    let status = write_row(alloc, row, &mut page).ok()?;
    let text = taken(page).ok()?;
    Some(Written { text, status })
}

/// What is written of the bytes over a good sink with ample memory. Where one request may be refused it is asked again.
fn text_of(alloc: Global, row: &Row) -> Result<Written, Stop> {
    match try_text(alloc, row) {
        Some(written) => Ok(written),
        None => try_text(alloc, row).ok_or(Stop::Memory),
    }
}

/// Writes a text to a sink that takes at most this many bytes a call and fails after so many: whether it took a beginning, and all of
/// it where it did not fail, and was not called again.
fn breaks_right(
    alloc: Global,
    row: &Row,
    wanted: &Written,
    most: usize,
    calls: u64,
) -> Result<bool, AllocError> {
    let mut page = page_over(alloc, Sip::new(alloc, most.max(1), calls))?;
    let answer = write_row(alloc, row, &mut page);
    let answer = written_out(&mut page, answer);
    let taken = page.get_ref().taken();
    let ending = if taken.len() == wanted.text.len() {
        (Ok(wanted.status), 0)
    } else {
        (Err(Stop::Write), 1)
    };
    Ok(
        (answer, page.get_ref().failures()) == ending
            && wanted.text.starts_with(taken)
            && (most > 1 || taken.len() as u64 == calls),
    )
}

/// The first sink that is left otherwise, by how many bytes it takes at most a call and after how many calls it fails.
fn first_wrong(alloc: Global, row: &Row) -> Result<Option<(usize, u64)>, Stop> {
    let wanted = text_of(alloc, row)?;
    for most in [1, 2, 7] {
        for calls in 0..=wanted.text.len() as u64 {
            if !breaks_right(alloc, row, &wanted, most, calls)? {
                return Ok(Some((most, calls)));
            }
        }
    }
    Ok(None)
}

#[test]
fn failing_sinks(rt: HostRuntime) -> Result<(), Fail> {
    for (k, row) in rows(rt.alloc())?.iter().enumerate() {
        assert_eq!(rt; first_wrong(rt.alloc(), row)?, None, "row {k}");
    }
    Ok(())
}

/// Whether the same is written once more.
fn is_written(alloc: Global, row: &Row, wanted: &Written) -> bool {
    match try_text(alloc, row) {
        Some(found) => {
            found.text.as_slice() == wanted.text.as_slice() && found.status == wanted.status
        }
        None => false,
    }
}

/// Whether a text is written where one request for memory may be refused: all of it, or a beginning, and all once it is asked for
/// again. A report is not begun without memory for all of it.
fn insists(alloc: Global, row: &Row) -> Result<bool, Stop> {
    let wanted = text_of(alloc, row)?;
    let mut page = insist_on_paper(alloc)?;
    let answer = write_row(alloc, row, &mut page);
    let answer = written_out(&mut page, answer);
    let written = page.into_inner().into_inner();
    let is_whole = written.as_slice() == wanted.text.as_slice();
    let is_begun = wanted.text.starts_with(written.as_slice());
    let is_free = row.0 != Text::Objects || written.is_empty();
    match answer {
        Ok(status) => Ok(is_whole && status == wanted.status),
        Err(Stop::Write) => Ok(is_begun && is_written(alloc, row, &wanted)),
        Err(Stop::Memory) => { Ok(is_begun && is_free && is_written(alloc, row, &wanted)) }
        Err(_) => Ok(false),
    }
}

/// Run with each request for memory refused in turn.
#[test]
fn refused_memory(rt: HostRuntime) -> Result<(), Fail> {
    let rows = match rows(rt.alloc()) {
        Ok(rows) => rows,
        Err(_) => rows(rt.alloc())?,
    };
    for (k, row) in rows.iter().enumerate() {
        assert!(rt; insists(rt.alloc(), row)?, "row {k}");
    }
    Ok(())
}
