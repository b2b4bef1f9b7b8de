//! A conversation in JSON: the lines of a source, obeyed one by one, and the lines that answer them, written to a sink.

ghost use Rattle.std.specs.Prelude.{◌≡◌, ◌≢◌, ◌∷◌, [], false, IfOk, OnOk, Ok, Err};
ghost use Rattle.pickle_io.specs.Device.{HasFailed};
ghost use Rattle.json_conversation.specs.Transcript.{asks_quit};
ghost use Rattle.json_conversation.specs.Conversation.{Finishes, StopsReading, StopsWriting};
ghost use Rattle.json_conversation.specs.Inside.Progress.{WritesSome, Feeds, Ends};

use crate::pending::Pending;
use debug_json::{Asked, answer_json};
use pickle_io::{Asker, Failed, Page};
use pickle_script::{Line, Stop, Syntax};
use pickle_session::{Past, Session};
use std::alloc::Global;

/// The most bytes that are read at once.
const BLOCK: usize = 65_536;

/// Whether a script goes on after the bytes that were taken.
#[derive(Clone, Copy, Debug, PartialEq, Eq)]
pub enum Flow {
    /// The next byte is taken.
    GoesOn,
    /// A line said `quit`: nothing after it is obeyed.
    Quits,
}

/// Whether nothing after a line is obeyed.
fn asks_quit(says: &Result<Asked, Syntax>) -> bool
    ensures { result ≡ asks_quit says.now }
{
    match says {
        Ok(Asked::Line(Line::Quit)) => true,
        Ok(Asked::Line(Line::Nothing)) => false,
        Ok(Asked::Line(Line::Command(_))) => false,
        Ok(Asked::Line(Line::At(_, _))) => false,
        Ok(Asked::Line(Line::Query(_))) => false,
        Ok(Asked::Own(_)) => false,
        Err(_) => false,
    }
}

/// Obeys the line that ends here.
fn end_line<P: Past, K: Page>(
    alloc: Global,
    session: &mut Session<P>,
    pending: &mut Pending,
    page: &mut K,
) -> Result<Flow, Failed>
    ensures feeds { Feeds (10 ∷ []) session.old (K.told page.old) pending.old session.new (K.told page.new) pending.new result }
    ensures writes { WritesSome (K.told page.old) (K.told page.new) result }
{
    let says = pending.says(alloc);
    let quits = asks_quit(&says);
    let refused = answer_json(alloc, session, says, page)?;
    pending.end_line(refused);
    if quits {
        Ok(Flow::Quits)
    } else {
        Ok(Flow::GoesOn)
    }
}

/// Takes a byte of the script.
fn feed_byte<P: Past, K: Page>(
    alloc: Global,
    session: &mut Session<P>,
    pending: &mut Pending,
    byte: u8,
    page: &mut K,
) -> Result<Flow, Failed>
    ensures feeds { Feeds (byte ∷ []) session.old (K.told page.old) pending.old session.new (K.told page.new) pending.new result }
    ensures writes { WritesSome (K.told page.old) (K.told page.new) result }
    ensures calm { byte ≢ 10 → page.new ≡ page.old }
{
    if byte == b'\n' {
        return end_line(alloc, session, pending, page);
    }
    pending.push(byte);
    Ok(Flow::GoesOn)
}

/// Takes bytes of the script: obeys each line that ends in them, up to one that quits, and lets the sink hand on what it holds of
/// their texts. Without such a line they have none.
fn feed<P: Past, K: Page>(
    alloc: Global,
    session: &mut Session<P>,
    pending: &mut Pending,
    bytes: &[u8],
    page: &mut K,
) -> Result<Flow, Failed>
    ensures feeds { Feeds bytes.now session.old (K.told page.old) pending.old session.new (K.told page.new) pending.new result }
    ensures writes { WritesSome (K.told page.old) (K.told page.new) result }
    ensures handed { OnOk result ((K.told page.old).held ≡ 0 → (K.told page.new).held ≡ 0) }
{
    for byte in bytes {
        match feed_byte(alloc, session, pending, *byte, page)? {
            Flow::GoesOn => {}
            Flow::Quits => {
                page.flush()?;
                return Ok(Flow::Quits);
            }
        }
    }
    if !bytes.contains(&b'\n') {
        return Ok(Flow::GoesOn);
    }
    page.flush()?;
    Ok(Flow::GoesOn)
}

/// Obeys the last line, if it has a byte, and answers the status. The texts of the lines before it are handed on already.
fn finish<P: Past, K: Page>(
    alloc: Global,
    session: &mut Session<P>,
    pending: &mut Pending,
    page: &mut K,
) -> Result<u8, Failed>
    ensures ends { Ends session.old (K.told page.old) pending.old session.new (K.told page.new) result }
    ensures writes { WritesSome (K.told page.old) (K.told page.new) result }
    ensures handed { OnOk result ((K.told page.old).held ≡ 0 → (K.told page.new).held ≡ 0) }
{
    if pending.is_empty() {
        return Ok(pending.status());
    }
    let refused = answer_json(alloc, session, pending.says(alloc), page)?;
    pending.end_line(refused);
    page.flush()?;
    Ok(pending.status())
}

/// Goes on until a line quits, the source ends or a device fails.
fn go_on<P: Past, S: Asker<K>, K: Page>(
    alloc: Global,
    session: &mut Session<P>,
    pending: &mut Pending,
    source: &mut S,
    page: &mut K,
) -> Result<u8, Stop>
    requires pending { pending.old ≡ record { line = []; refused = false } }
    requires handed { (K.told page.old).held ≡ 0 }
    ensures finishes { IfOk result (λ status. Finishes session.old session.new status (S.remaining source.old) (S.remaining source.new)
        (K.told page.old) (K.told page.new)) }
    ensures reading { result ≡ Err Stop.Read → StopsReading session.old session.new (S.remaining source.old) (S.remaining source.new)
        (K.told page.old) (K.told page.new) }
    ensures read { result ≡ Err Stop.Read → HasFailed (S.failures source.old) (S.failures source.new) }
    ensures calm { result ≢ Err Stop.Read → S.failures source.new ≡ S.failures source.old }
    ensures writing { result ≡ Err Stop.Write → StopsWriting session.old session.new (S.remaining source.old) (S.remaining source.new)
        (K.told page.old) (K.told page.new) }
    ensures others { (result ≢ Err Stop.Memory) × (result ≢ Err Stop.TooLarge) }
    ensures handed { result ≢ Err Stop.Write → (K.told page.new).held ≡ 0 }
{
    let mut block = [0u8; BLOCK];
    'turns: loop {
        let Ok(count) = source.read_after(page, &mut block) else {
            return Err(Stop::Read);
        };
        if count == 0 {
            return Ok(finish(alloc, session, pending, page)?);
        }
        match feed(alloc, session, pending, &block[..count], page)? {
            Flow::GoesOn => {}
            // What this block has after `quit` is lost: a source cannot take it back.
            Flow::Quits => return Ok(pending.status()),
        }
    }
}

/// Reads commands from the source and obeys them one by one, until one quits or the source ends, and answers the status: 1 where a line
/// was refused, else 0. Each line is answered by one line of JSON, which is written before the next line is obeyed. More is read only once the sink has handed on
/// all answers so far: reading requires that it holds nothing. At the end it holds nothing either.
///
/// `Memory` comes only before anything was read. `Read` and `Write` come where the source or the sink fails: the
/// session is that of the lines obeyed so far, a line of which only a part was read is not among them, and of the text
/// of the last line alone a part may be missing from what the sink took. Of that it may hold back a part, but of no answer that was whole
/// before the last read.
pub fn converse_json<P: Past, S: Asker<K>, K: Page>(
    alloc: Global,
    session: &mut Session<P>,
    source: &mut S,
    page: &mut K,
) -> Result<u8, Stop>
    requires handed { (K.told page.old).held ≡ 0 }
    ensures finishes { IfOk result (λ status. Finishes session.old session.new status (S.remaining source.old) (S.remaining source.new)
        (K.told page.old) (K.told page.new)) }

    // Read and Write come only where that device has failed.
    ensures reading { result ≡ Err Stop.Read → StopsReading session.old session.new (S.remaining source.old) (S.remaining source.new)
        (K.told page.old) (K.told page.new) }
    ensures read { result ≡ Err Stop.Read → HasFailed (S.failures source.old) (S.failures source.new) }
    ensures calm { result ≢ Err Stop.Read → S.failures source.new ≡ S.failures source.old }
    ensures writing { result ≡ Err Stop.Write → StopsWriting session.old session.new (S.remaining source.old) (S.remaining source.new)
        (K.told page.old) (K.told page.new) }

    // Without memory nothing is read, obeyed or written.
    ensures memory { result ≡ Err Stop.Memory → (session.new ≡ session.old) × (source.new ≡ source.old) × (page.new ≡ page.old) }
    ensures no_other { result ≢ Err Stop.TooLarge }

    // At the end nothing is held back.
    ensures handed { result ≢ Err Stop.Write → (K.told page.new).held ≡ 0 }
{
    let mut pending = Pending::new(alloc)?;
    go_on(alloc, session, &mut pending, source, page)
}
