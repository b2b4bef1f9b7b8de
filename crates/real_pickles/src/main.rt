//! Reads files as documents and prints what it finds of each: its name, the offset and the name of every item, how reading
//! ended, and whether the document writes back the bytes that it was read from. Then each document is edited together with a plain
//! list, and the edits are taken back; and each beginning of the bytes is read and written back. Test equipment.
#![tactic(auto)]

mod edits;
mod plain;

use crate::edits::edit_by_chance;
use pickle_doc::{DocFault, Document, EditFault, End, LIMIT};
use pickle_io::{Failed, ToWrite};
use std::alloc::{AllocError, AllocFailed, Global};
use std::fs::File;
use std::io::Read;
use std::process::ExitCode;
use std::{env, io};
use test_equipment::{Chance, code_of};

/// Why a file was not read, or nothing printed of it.
#[derive(Debug, Drop)]
pub enum Stop {
    /// A file or a word could not be read, or a line not printed.
    Device,
    /// The file is too large, or there was no memory.
    Room,
    /// A document and a plain list are not the same after an edit.
    Edits,
    /// The first bytes, this many, are written back otherwise.
    Cut(usize),
}

impl From<io::Error> for Stop {
    fn from(_error: io::Error) -> Stop {
        Stop::Device
    }
}

impl From<DocFault> for Stop {
    fn from(_fault: DocFault) -> Stop {
        Stop::Room
    }
}

impl From<EditFault> for Stop {
    fn from(_fault: EditFault) -> Stop {
        Stop::Edits
    }
}

impl From<AllocError> for Stop {
    fn from(_error: AllocError) -> Stop {
        Stop::Room
    }
}

impl<T: Drop> From<AllocFailed<T>> for Stop {
    fn from(_error: AllocFailed<T>) -> Stop {
        Stop::Room
    }
}

impl From<Failed> for Stop {
    fn from(_failed: Failed) -> Stop {
        Stop::Room
    }
}

/// Prints the offset and the name of each item. Offsets are added up, since `Document::offset` goes over the items
/// from the place of the last edit to each.
fn print_items(rt: &HostRuntime, document: &Document) -> Result<(), Stop> {
    let mut offset: u64 = 0;
    for k in 0..document.len() {
        if let Some(op) = document.item(k) {
            println!(rt; "{} {}", offset, op.opcode().name())?;
            offset = offset.saturating_add(op.size() as u64);
        }
    }
    Ok(())
}

/// Prints how reading ended.
fn print_end(rt: &HostRuntime, document: &Document) -> Result<(), Stop> {
    match document.end() {
        End::Stopped => println!(rt; "stopped")?,
        End::Fault(fault, offset) => println!(rt; "not stopped: {} at {}", code_of(fault), offset)?,
    }
    Ok(())
}

/// The bytes that a document writes.
pub fn written(alloc: Global, document: &Document) -> Result<Vec<u8>, Stop> {
    let mut sink = ToWrite::new(Vec::new(alloc));
    document.write_bytes(&mut sink)?;
    Ok(sink.into_inner())
}

/// At how many bytes each file is cut, at most.
const CUTS: usize = 2000;

/// Reads each beginning of some bytes, and compares what is written back with it.
fn cut_everywhere(alloc: Global, bytes: &[u8]) -> Result<(), Stop> {
    for len in 0..bytes.len().min(CUTS) {
        let front = bytes.get(..len).unwrap_or_default();
        let document = Document::read(alloc, front)?;
        if written(alloc, &document)?.as_slice() != front {
            return Err(Stop::Cut(len));
        }
    }
    Ok(())
}

/// How many edits are made of each document.
const EDITS: usize = 24;

/// Prints what is found in one file, and edits the document.
fn print_file(rt: &HostRuntime, path: &str, chance: &mut Chance) -> Result<(), Stop> {
    let mut bytes = Vec::new(rt.alloc());
    File::open(rt, path)?
        .take(LIMIT as u64 + 1)
        .read_to_end(&mut bytes)?;
    let mut document = Document::read(rt.alloc(), &bytes)?;
    println!(rt; "{path}")?;
    print_items(rt, &document)?;
    print_end(rt, &document)?;
    if written(rt.alloc(), &document)?.as_slice() == bytes.as_slice() {
        println!(rt; "same")?;
    } else {
        println!(rt; "different")?;
    }
    cut_everywhere(rt.alloc(), &bytes)?;
    edit_by_chance(rt.alloc(), &mut document, &bytes, chance, EDITS)
}

/// Prints what is found in each file that the words of the command line name, and that the edits and the cuts of all were the same.
fn print_files(rt: &HostRuntime) -> Result<(), Stop> {
    let mut chance = Chance::new(11);
    for path in env::args(rt)?.skip(1) {
        print_file(rt, &path, &mut chance)?;
    }
    println!(rt; "edits: same")?;
    println!(rt; "cuts: same")?;
    Ok(())
}

fn main(rt: HostRuntime) -> ExitCode {
    match print_files(&rt) {
        Ok(()) => ExitCode::SUCCESS,
        Err(stop) => {
            let _ = eprintln!(rt; "real_pickles: {:?}", stop);
            ExitCode::FAILURE
        }
    }
}
