//! Texts of machines where requests for memory are refused, and large texts. What the others are is judged from
//! outside, by the rows of equipment/conversations.txt.

use object_texts::write_show;
use pickle_doc::{DocFault, Document};
use pickle_machine::Machine;
use pickle_ops::Op;
use pickle_text::TextStop;
use std::alloc::Global;
use std::test::Fail;
use test_equipment::{insist_on_paper, paper, taken, written_out};

/// A list appended to itself by way of the memo.
const BY_MEMO: &[u8] = b"]q\x00(h\x00h\x00e.";

const CALL: &[u8] = b"cos\ngetcwd\n)R.";

const ORDERED: &[u8] = b"ccollections\nOrderedDict\n)R(K\x01K\x02u.";

/// Objects that are shown after this many opcodes.
const SHOWN: [(&[u8], usize, u32); 5] = [
    (BY_MEMO, 6, 0),
    (CALL, 4, 2),
    // a dictionary that has a key twice, and itself as a value
    (b"(K\x01K\x02tq\x010}q\x00h\x01K\x03s(h\x01h\x00u.", 15, 3),
    (b"N2\x86.", 3, 1),
    (ORDERED, 7, 2),
];

/// Steps over an opcode, of a machine whose objects are few. Nothing is answered where memory is refused.
fn try_step(machine: &mut Machine, alloc: Global, op: &Op, place: usize) -> Option<()> {
    if machine.objects() >= 1_000_000 {
        return None;
    }
    match machine.step(alloc, op, place) {
        Ok(_) => Some(()),
        Err(_) => None,
    }
}

/// The machine after this many opcodes of a pickle, or nothing where memory is refused.
fn try_machine(alloc: Global, bytes: &[u8], count: usize) -> Option<Machine> {
    let document = Document::read(alloc, bytes).ok()?;
    let mut machine = Machine::new(alloc);
    for place in 0..count {
        try_step(&mut machine, alloc, document.item(place)?, place)?;
    }
    Some(machine)
}

/// The machine after this many opcodes of a pickle.
fn machine_of(alloc: Global, bytes: &[u8], count: usize) -> Result<Machine, DocFault> {
    try_machine(alloc, bytes, count).ok_or(DocFault::Memory)
}

/// A tuple in a tuple, and so on: each is one line, the innermost the last.
#[test]
fn deep_object(rt: HostRuntime) -> Result<(), Fail> {
    let mut bytes = Vec::new(rt.alloc());
    bytes.push(b')')?;
    bytes.resize(100_001, 0x85)?;
    let machine = machine_of(rt.alloc(), &bytes, 100_001)?;
    let mut page = paper(rt.alloc())?;
    write_show(rt.alloc(), &machine, 100_000, &mut page)?;
    let shown = taken(page)?;
    assert!(rt;
        shown
            .as_slice()
            .starts_with(b"0 #100000 tuple (#99999)\n1 #99999 tuple (#99998)\n")
    );
    assert!(rt;
        shown
            .as_slice()
            .ends_with(b"\n99999 #1 tuple (#0)\n100000 #0 tuple\n")
    );
    let lines = shown.iter().filter(|byte| **byte == b'\n').count();
    assert_eq!(rt; lines, 100_001);
    Ok(())
}

/// A machine after this many opcodes, where one request for memory may be refused.
fn insist_on_running(alloc: Global, bytes: &[u8], count: usize) -> Result<Machine, DocFault> {
    match try_machine(alloc, bytes, count) {
        Some(machine) => Ok(machine),
        None => machine_of(alloc, bytes, count),
    }
}

/// What was taken of a text that may meet one refused request: all of it, or a beginning where the sink's own growth was
/// refused, or nothing.
fn is_answer(taken: &[u8], text: &[u8], answer: Result<(), TextStop>) -> bool {
    match answer {
        Ok(()) => taken == text,
        Err(TextStop::Failed) => text.starts_with(taken),
        Err(TextStop::Memory) => taken.is_empty(),
    }
}

/// What an object shows, with a good sink and ample memory.
fn text_of(alloc: Global, machine: &Machine, id: u32) -> Result<Vec<u8>, TextStop> {
    let mut page = paper(alloc)?;
    write_show(alloc, machine, id, &mut page)?;
    Ok(taken(page)?)
}

/// What an object shows, where one request for memory may be refused, and asked for again then.
fn show_with_little(alloc: Global, machine: &Machine, id: u32) -> Result<bool, Fail> {
    let text = match text_of(alloc, machine, id) {
        Ok(text) => text,
        Err(_) => text_of(alloc, machine, id)?,
    };
    let mut page = insist_on_paper(alloc)?;
    let answer = write_show(alloc, machine, id, &mut page);
    let answer = written_out(&mut page, answer);
    let written = page.into_inner().into_inner();
    if !is_answer(&written, &text, answer) {
        return Ok(false);
    }
    let mut again = insist_on_paper(alloc)?;
    let second = write_show(alloc, machine, id, &mut again);
    match written_out(&mut again, second) {
        Ok(()) => Ok(again.into_inner().into_inner().as_slice() == text.as_slice()),
        // (the only refused request is that of the sink here)
        Err(_) => Ok(answer.is_ok()),
    }
}

/// Run with each request for memory refused in turn.
#[test]
fn refused_memory(rt: HostRuntime) -> Result<(), Fail> {
    for (bytes, count, id) in &SHOWN {
        let machine = insist_on_running(rt.alloc(), bytes, *count)?;
        let is_right = show_with_little(rt.alloc(), &machine, *id)?;
        assert!(rt; is_right, "object of {bytes:?}");
    }
    Ok(())
}

/// Forty pairs, each of the one before twice: what is shown is as many lines as there are pairs and second places.
#[test]
fn forty_doublings(rt: HostRuntime) -> Result<(), Fail> {
    let mut bytes = Vec::new(rt.alloc());
    bytes.push(b')')?;
    for _ in 0..40 {
        bytes.extend_from_slice(b"2\x86")?;
    }
    let machine = machine_of(rt.alloc(), &bytes, bytes.len())?;
    let mut page = paper(rt.alloc())?;
    write_show(rt.alloc(), &machine, 40, &mut page)?;
    let shown = taken(page)?;
    let lines = shown.iter().filter(|byte| **byte == b'\n').count();
    assert_eq!(rt; lines, 81);
    assert!(rt;
        shown
            .as_slice()
            .starts_with(b"0 #40 tuple (#39 #39)\n1 #39 tuple (#38 #38)\n")
    );
    assert!(rt;
        shown.as_slice().ends_with(
            b"\n40 #0 tuple\n40 #0\n39 #1\n38 #2\n37 #3\n36 #4\n35 #5\n34 #6\n33 #7\n32 #8\n31 #9\n30 #10\n29 #11\n28 #12\n27 #13\n26 #14\n25 #15\n24 #16\n23 #17\n22 #18\n21 #19\n20 #20\n19 #21\n18 #22\n17 #23\n16 #24\n15 #25\n14 #26\n13 #27\n12 #28\n11 #29\n10 #30\n9 #31\n8 #32\n7 #33\n6 #34\n5 #35\n4 #36\n3 #37\n2 #38\n1 #39\n"
        )
    );
    Ok(())
}
