//! Pages of tests, and what was written on them.

ghost use Rattle.std.specs.Prelude.{◌≡◌, IfOk};

use pickle_io::{Buffered, Failed, Sink, ToWrite};
use std::alloc::{AllocError, Global};

/// The room of a page: little, so that it hands on early.
const ROOM: usize = 256;

/// A page over a sink.
pub fn page_over<S: Sink + Drop>(alloc: Global, sink: S) -> Result<Buffered<S>, AllocError>
    ensures { IfOk result (λ page. (⟦<Buffered<S> as Sink>⟧.told page).held ≡ (S.told sink).held) }
{
    Buffered::with_room(alloc, sink, ROOM)
}

/// A page whose text is kept in memory.
pub fn paper(alloc: Global) -> Result<Buffered<ToWrite<Vec<u8>>>, AllocError>
    ensures { IfOk result (λ page. (⟦<Buffered<ToWrite<Vec<u8>>> as Sink>⟧.told page).held ≡ 0) }
{
    page_over(alloc, ToWrite::new(Vec::new(alloc)))
}

/// The same where one request for memory may be refused.
pub fn insist_on_paper(alloc: Global) -> Result<Buffered<ToWrite<Vec<u8>>>, AllocError>
    ensures { IfOk result (λ page. (⟦<Buffered<ToWrite<Vec<u8>>> as Sink>⟧.told page).held ≡ 0) }
{
    match paper(alloc) {
        Ok(page) => Ok(page),
        Err(_) => paper(alloc),
    }
}

/// All that was written on a page.
pub fn taken(page: Buffered<ToWrite<Vec<u8>>>) -> Result<Vec<u8>, Failed> {
    let mut page = page;
    page.flush()?;
    Ok(page.into_inner().into_inner())
}

/// Writes out what a page holds, as the program does at its end, and passes the answer on; a write that fails here is one that failed.
/// After a write that failed nothing is tried again.
pub fn written_out<S: Sink + Drop, T: Drop, E: From<Failed> + PartialEq + Drop>(
    page: &mut Buffered<S>,
    answer: Result<T, E>,
) -> Result<T, E> {
    match answer {
        Ok(value) => {
            page.flush()?;
            Ok(value)
        }
        Err(stop) => {
            if stop != E::from(Failed) {
                page.flush()?;
            }
            Err(stop)
        }
    }
}
