//! What is said of a file.

use archive_gate::Fault;
use packed_stream::Packing;
use pickle_gate::Verdict;
use zip_archive::Refusal;

/// What is said of a file that is neither packed nor a zip archive. Each line is that of `calls` for the item that is not allowed.
#[derive(Drop)]
pub enum Single {
    /// What the gate says of a pickle.
    Pickle(Verdict, Vec<u8>),
    /// It is an array of raw numbers.
    Numbers,
    /// It begins as an array does, and is none in the form in which numpy writes.
    NoArray(npy_form::Refusal),
    /// What the gate says of the pickle behind the header of an array.
    Behind(Verdict, Vec<u8>),
    /// It is a container itself.
    Nested,
    /// It is a tar archive, each member of which passes.
    Tar,
    /// It begins as a tar archive does, and is none in the form in which usual writers write.
    NoTar(tar_archive::Refusal),
    /// It is a tar archive, of which two names may mean one file, or one leads elsewhere.
    Unclear,
    /// It is a tar archive, and a loader may take it for something else.
    TwoKinds,
    /// It is a tar archive, and the first member that does not pass has this name.
    Member(Vec<u8>, Fault, Vec<u8>),
}

/// Whether a file passes a list, or why it does not.
#[derive(Drop)]
pub enum Judged<'a> {
    /// It is a pickle, an array or a tar archive.
    Single(Single),
    /// It is packed, and this is said of what it opens to.
    Packed(Packing, Single),
    /// It begins as a packed file does, and is none in the form in which usual writers write, or unpacks to more bytes than a file may have.
    NoPacked(packed_stream::Refusal),
    /// It is a zip archive, each member of which passes.
    Archive,
    /// It begins as a zip archive does, and is none in the form that writers write.
    NoArchive(Refusal),
    /// It is a zip archive, of which two members have names that differ in the case of letters alone.
    SameNames,
    /// It is a zip archive, whose packed members unpack to more bytes than a file may have.
    TooLarge,
    /// It is a zip archive, and the first member that does not pass has this name.
    Member(&'a [u8], Fault, Vec<u8>),
}
