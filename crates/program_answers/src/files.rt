//! The files of the program, by their names.

ghost use Rattle.std.specs.Prelude.{◌≡◌, ◌≢◌, ℕ, [], List, Bool, IsTrue, Option, IfOk, IfErr, OnOk, OnErr};
ghost use Rattle.std.specs.IoError.{error_kind};
ghost use Rattle.pickle_io.specs.Device.{Told, Wrote, Broke};
ghost use Rattle.pickle_doc.specs.Document.{document_bytes};
ghost use Rattle.pickle_script.specs.declared.stop.Stop.{Stop};
ghost use Rattle.program_answers.specs.Files.{Kind, HasAtLeast, IsShut, IsUnread, IsRead, reports};

use crate::stored::Stored;
use pickle_doc::{Document, LIMIT};
use pickle_io::{Page, Source, read_limited};
use pickle_script::Stop;
use std::alloc::Global;
use std::io;
use std::io::{Error, ErrorKind};

/// The files that a pickle is read from and saved to.
pub trait Files {
    /// A file that is open, to be read from its first byte on.
    type Opened: Source + Drop;

    // The bytes of the file of a name, where they are reported.
    ghost bytes_of: { Self → List ℕ → Option (List ℕ) };

    // Whether opening the file of a name may fail with an error of a kind.
    ghost refuses: { Self → List ℕ → Kind → Bool };

    // What the file of a name has taken, where it reports it.
    ghost took: { Self → List ℕ → Told };

    // Whether saving to the file of a name may fail so.
    ghost loses: { Self → List ℕ → Stop → Bool };

    /// Opens the file of a name. The number is one of bytes that the file has at least: 0 where the system says none.
    fn open(&self, path: &str) -> io::Result<(Self::Opened, u64)>
        ensures opened { IfOk result (λ r. Self.Opened.remaining r.0 ≡ bytes_of self.now path.now) }
        ensures least { IfOk result (λ r. HasAtLeast (bytes_of self.now path.now) r.1) }
        ensures refused { IfErr result (λ e. IsTrue (refuses self.now path.now (error_kind e))) };

    /// Saves all bytes of a document to the file of a name, and to no other. After an error the file may have taken a beginning of them,
    /// or it is as it was.
    fn save<'d>(&mut self, path: &str, document: &'d Document) -> Result<Stored<'d>, Stop>
        ensures stored { IfOk result (λ s. s.document.now ≡ document.now) }
        ensures takes { OnOk result (Wrote (took self.old path.now) (took self.new path.now) (document_bytes document.now.contents)) }
        ensures others { (name : List ℕ) → name ≢ path.now → took self.new name ≡ took self.old name }
        ensures lost { IfErr result (λ e. IsTrue (loses self.old path.now e)) };
}

/// The stop of an error: `Stop::Memory` where memory runs out, else this one.
pub fn stop_for(error: &Error, other: Stop) -> Stop
    ensures memory { error_kind error.now ≡ ErrorKind.OutOfMemory → result ≡ Stop.Memory }
    ensures other { error_kind error.now ≢ ErrorKind.OutOfMemory → result ≡ other }
{
    if error.kind() == ErrorKind::OutOfMemory {
        Stop::Memory
    } else {
        other
    }
}

/// The file of a name, opened. `Stop::Read` where it cannot be opened, `Stop::Memory` where there is no memory for that, and
/// `Stop::TooLarge` where the system says that there are more bytes than `LIMIT`: none of them is read then.
pub fn open_file<F: Files>(files: &F, path: &str) -> Result<F::Opened, Stop>
    ensures opened { IfOk result (λ file. F.Opened.remaining file ≡ F.bytes_of files.now path.now) }
    ensures shut { IfErr result (IsShut (reports F.bytes_of F.refuses F.Opened.remaining F.Opened.failures F.took F.loses) files.now path.now) }
{
    match files.open(path) {
        Ok((file, least)) => {
            if least > LIMIT as u64 {
                Err(Stop::TooLarge)
            } else {
                Ok(file)
            }
        }
        Err(error) => Err(stop_for(&error, Stop::Read)),
    }
}

/// Reads the file of a name whole. The stops are those of `open_file`, `Stop::Read` where the file fails, `Stop::TooLarge` where there
/// are more bytes than `LIMIT`, and `Stop::Memory` where there is no room for them.
pub fn read_file<F: Files>(alloc: Global, files: &F, path: &str) -> Result<Vec<u8>, Stop>
    ensures read { IfOk result (λ bytes. IsRead (F.bytes_of files.now path.now) bytes.items) }
    ensures unread { IfErr result (IsUnread (reports F.bytes_of F.refuses F.Opened.remaining F.Opened.failures F.took F.loses) files.now path.now) }
{
    let mut file = open_file(files, path)?;
    Ok(read_limited(alloc, &mut file, LIMIT)?)
}

/// Writes all bytes of a document to a page, and hands them on. `Stop::Write` where the page fails, which took a beginning of them then.
#[tactic(auto, using(crate::proofs::AtDevice::handing_steps))]
pub fn write_document<K: Page>(document: &Document, page: &mut K) -> Result<(), Stop>
    ensures writes { OnOk result ((between : Told) × Wrote (K.told page.old) between (document_bytes document.now.contents)
        × Wrote between (K.told page.new) []) }
    ensures handed { OnOk result ((K.told page.new).held ≡ 0) }
    ensures stop { IfErr result (λ e. e ≡ Stop.Write) }
    ensures failed { OnErr result (Broke (K.told page.old) (K.told page.new) (document_bytes document.now.contents)) }
{
    document.write_bytes(page)?;
    page.flush()?;
    Ok(())
}
