//! What shows that some writer took all bytes of a document. A save answers it, so none that wrote them nowhere is answered Ok.

ghost use Rattle.std.specs.Prelude.{◌≡◌, IfOk, IfErr, IsTrue};
ghost use Rattle.std.specs.Io.KnownBytes.{Appends};
ghost use Rattle.pickle_doc.specs.Document.{document_bytes};
ghost use Rattle.program_answers.specs.Files.{is_loss};

use crate::files::write_document;
use pickle_doc::Document;
use pickle_io::{Buffered, ToWrite};
use pickle_script::Stop;
use std::alloc::Global;
use std::io::Write;

/// A writer that has taken all bytes of a document. Only `write_to` makes one.
#[derive(Drop)]
pub struct Filled<'d, W> {
    writer: W,
    document: &'d Document,
}

/// That a writer has taken all bytes of this document. Only `Filled` makes one.
#[derive(Drop)]
pub struct Stored<'d> {
    document: &'d Document,
}

impl<'d, W: Drop> Filled<'d, W> {
    /// The writer.
    pub fn writer(&self) -> &W
        ensures { result.now ≡ self.now.writer }
    {
        &self.writer
    }

    /// Lets the writer go.
    pub fn into_stored(self) -> Stored<'d>
        ensures { result.document.now ≡ self.entry.document.now }
    {
        Stored {
            document: self.document,
        }
    }
}

/// Writes the bytes of a document to a writer. A file reports none, so this is said of any writer.
pub fn write_to<'d, W: Write + Drop>(
    alloc: Global,
    document: &'d Document,
    writer: W,
) -> Result<Filled<'d, W>, Stop>
    ensures all { IfOk result (λ filled. Appends (W.contents writer) (W.contents filled.writer) (document_bytes document.now.contents)) }
    ensures of { IfOk result (λ filled. filled.document.now ≡ document.now) }
    ensures loss { IfErr result (λ e. IsTrue (is_loss e)) }
{
    let mut page = Buffered::new(alloc, ToWrite::new(writer))?;
    write_document(document, &mut page)?;
    let writer = page.into_inner().into_inner();
    Ok(Filled { writer, document })
}
