//! The bytes of the document of a session, edits and all.

ghost use Rattle.std.specs.Prelude.{◌≡◌, IfOk, IfErr};
ghost use Rattle.pickle_doc.specs.Document.{document_bytes};

use crate::stop::Stop;
use pickle_doc::Document;
use pickle_io::{Buffered, Sink, ToWrite};
use std::alloc::Global;

/// The bytes of a document. It fails only where memory runs out.
pub fn document_bytes(alloc: Global, document: &Document) -> Result<Vec<u8>, Stop>
    ensures bytes { IfOk result (λ bytes. bytes.items ≡ document_bytes document.now.contents) }
    ensures memory { IfErr result (λ e. e ≡ Stop.Memory) }
{
    let mut page = match Buffered::new(alloc, ToWrite::new(Vec::new(alloc))) {
        Ok(page) => page,
        Err(_) => return Err(Stop::Memory),
    };
    if document.write_bytes(&mut page).is_err() || page.flush().is_err() {
        return Err(Stop::Memory);
    }
    Ok(page.into_inner().into_inner())
}
