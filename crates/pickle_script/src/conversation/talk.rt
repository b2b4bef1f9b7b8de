//! A conversation: the lines of a source, obeyed one by one, and their texts, written to a sink.

ghost use Rattle.std.specs.Prelude.{◌≡◌, ◌≢◌, ◌∷◌, [], false, IfOk, OnOk, Ok, Err};
ghost use Rattle.pickle_io.specs.Device.{HasFailed};
ghost use Rattle.pickle_doc.specs.declared.fault.End.{End};
ghost use Rattle.pickle_script.specs.ReplyText.{reply_text};
ghost use Rattle.pickle_script.specs.Transcript.{is_refusal, quits};
ghost use Rattle.pickle_script.specs.Conversation.{Finishes, StopsReading, StopsWriting, AnswersLine};
ghost use Rattle.pickle_script.specs.Inside.Progress.{WritesLine, WritesSome, Feeds, Ends, was_refused};

use crate::conversation::grammar::read_command;
use crate::conversation::line::{Action, Line, Place, Syntax};
use crate::conversation::outcome::{Flow, Outcome};
use crate::conversation::pending::Pending;
use crate::conversation::query::write_query;
use crate::conversation::reply::write_reply;
use crate::conversation::syntax::{write_no_item_at, write_syntax};
use crate::stop::Stop;
use pickle_io::{Asker, Failed, Page};
use pickle_session::{Command, Past, Reply, Session};
use std::alloc::Global;

/// The most bytes that are read at once.
const BLOCK: usize = 65_536;

/// Writes why a line says nothing.
fn refuse<P: Past, K: Page>(
    session: &Session<P>,
    syntax: Syntax,
    page: &mut K,
) -> Result<Outcome, Failed>
    ensures { WritesLine (Err syntax) session.now session.now (K.told page.old) (K.told page.new) result }
{
    write_syntax(syntax, page)?;
    Ok(Outcome::Refused)
}

/// What a reply says became of its line.
#[tactic(auto, using(crate::proofs::Refusals::refusal_steps))]
fn outcome_of(reply: Reply) -> Outcome
    ensures { (e : End) → was_refused result ≡ is_refusal (reply_text e reply) }
{
    match reply {
        Reply::At(_) => Outcome::Accepted,
        Reply::Ran(_, _) => Outcome::Accepted,
        Reply::Broke(_) => Outcome::Accepted,
        Reply::Cleared(_) => Outcome::Accepted,
        Reply::Edited(_) => Outcome::Accepted,
        Reply::Undone(_) => Outcome::Accepted,
        Reply::Redone(_) => Outcome::Accepted,
        Reply::Refused(_) => Outcome::Refused,
    }
}

/// Obeys a command and writes the reply.
fn obey_command<P: Past, K: Page>(
    alloc: Global,
    session: &mut Session<P>,
    command: &Command,
    page: &mut K,
) -> Result<Outcome, Failed>
    ensures { WritesLine (Ok (Line.Command command.now)) session.old session.new (K.told page.old) (K.told page.new) result }
{
    let reply = session.obey(alloc, command);
    write_reply(session.document().end(), reply, page)?;
    Ok(outcome_of(reply))
}

/// Obeys a command at the place that a line names and writes the reply, or that there is none.
#[tactic(auto, using(crate::proofs::Places::placing_steps))]
fn obey_at<P: Past, K: Page>(
    alloc: Global,
    session: &mut Session<P>,
    place: Place,
    action: Action,
    page: &mut K,
) -> Result<Outcome, Failed>
    ensures { WritesLine (Ok (Line.At place action)) session.old session.new (K.told page.old) (K.told page.new) result }
{
    let k = match place {
        Place::Number(k) => k,
        Place::Offset(offset) => match session.place_at(offset) {
            Some(k) => k,
            None => {
                write_no_item_at(offset, page)?;
                return Ok(Outcome::Refused);
            }
        },
    };
    obey_command(alloc, session, &action.at(k), page)
}

/// Obeys a line and writes its text.
fn obey_line<P: Past, K: Page>(
    alloc: Global,
    session: &mut Session<P>,
    says: Result<Line, Syntax>,
    page: &mut K,
) -> Result<Outcome, Failed>
    ensures { WritesLine says session.old session.new (K.told page.old) (K.told page.new) result }
{
    match says {
        Ok(Line::Nothing) => Ok(Outcome::Accepted),
        Ok(Line::Command(command)) => obey_command(alloc, session, &command, page),
        Ok(Line::At(place, action)) => obey_at(alloc, session, place, action, page),
        Ok(Line::Query(query)) => write_query(alloc, session, query, page),
        Ok(Line::Quit) => Ok(Outcome::Accepted),
        Err(syntax) => refuse(session, syntax, page),
    }
}

/// Obeys one line, given without its newline, and writes its text, as `converse` does with a line of a script. Answers whether the text is a
/// refusal. The line `quit` has no text and changes nothing. `Failed` where the sink fails: the line is obeyed then, too.
pub fn answer_line<P: Past, K: Page>(
    alloc: Global,
    session: &mut Session<P>,
    line: &[u8],
    page: &mut K,
) -> Result<bool, Failed>
    ensures { AnswersLine line.now session.old session.new (K.told page.old) (K.told page.new) result }
{
    let says = read_command(alloc, line);
    let outcome = obey_line(alloc, session, says, page)?;
    Ok(outcome.is_refused())
}

/// Whether nothing after a line is obeyed.
fn quits(says: &Result<Line, Syntax>) -> bool
    ensures { result ≡ quits says.now }
{
    match says {
        Ok(Line::Quit) => true,
        Ok(Line::Nothing) => false,
        Ok(Line::Command(_)) => false,
        Ok(Line::At(_, _)) => false,
        Ok(Line::Query(_)) => false,
        Err(_) => false,
    }
}

/// Obeys the line that ends here.
fn end_line<P: Past, K: Page>(
    alloc: Global,
    session: &mut Session<P>,
    pending: &mut Pending,
    page: &mut K,
) -> Result<Flow, Failed>
    ensures feeds { Feeds (10 ∷ []) session.old (K.told page.old) pending.old session.new (K.told page.new) pending.new result }
    ensures writes { WritesSome (K.told page.old) (K.told page.new) result }
{
    let says = pending.says(alloc);
    if quits(&says) {
        return Ok(Flow::Quits);
    }
    let outcome = obey_line(alloc, session, says, page)?;
    pending.end_line(outcome);
    Ok(Flow::GoesOn)
}

/// Takes a byte of the script.
fn feed_byte<P: Past, K: Page>(
    alloc: Global,
    session: &mut Session<P>,
    pending: &mut Pending,
    byte: u8,
    page: &mut K,
) -> Result<Flow, Failed>
    ensures feeds { Feeds (byte ∷ []) session.old (K.told page.old) pending.old session.new (K.told page.new) pending.new result }
    ensures writes { WritesSome (K.told page.old) (K.told page.new) result }
    ensures calm { byte ≢ 10 → page.new ≡ page.old }
{
    if byte == b'\n' {
        return end_line(alloc, session, pending, page);
    }
    pending.push(byte);
    Ok(Flow::GoesOn)
}

/// Takes bytes of the script: obeys each line that ends in them, up to one that quits, and lets the sink hand on what it holds of
/// their texts. Without such a line they have none.
fn feed<P: Past, K: Page>(
    alloc: Global,
    session: &mut Session<P>,
    pending: &mut Pending,
    bytes: &[u8],
    page: &mut K,
) -> Result<Flow, Failed>
    ensures feeds { Feeds bytes.now session.old (K.told page.old) pending.old session.new (K.told page.new) pending.new result }
    ensures writes { WritesSome (K.told page.old) (K.told page.new) result }
    ensures handed { OnOk result ((K.told page.old).held ≡ 0 → (K.told page.new).held ≡ 0) }
{
    for byte in bytes {
        match feed_byte(alloc, session, pending, *byte, page)? {
            Flow::GoesOn => {}
            Flow::Quits => {
                page.flush()?;
                return Ok(Flow::Quits);
            }
        }
    }
    if !bytes.contains(&b'\n') {
        return Ok(Flow::GoesOn);
    }
    page.flush()?;
    Ok(Flow::GoesOn)
}

/// Obeys the last line, if it has a byte, and answers the status. The texts of the lines before it are handed on already.
fn finish<P: Past, K: Page>(
    alloc: Global,
    session: &mut Session<P>,
    pending: &mut Pending,
    page: &mut K,
) -> Result<u8, Failed>
    ensures ends { Ends session.old (K.told page.old) pending.old session.new (K.told page.new) result }
    ensures writes { WritesSome (K.told page.old) (K.told page.new) result }
    ensures handed { OnOk result ((K.told page.old).held ≡ 0 → (K.told page.new).held ≡ 0) }
{
    if pending.is_empty() {
        return Ok(pending.status());
    }
    let outcome = obey_line(alloc, session, pending.says(alloc), page)?;
    pending.end_line(outcome);
    page.flush()?;
    Ok(pending.status())
}

/// Goes on until a line quits, the source ends or a device fails.
fn go_on<P: Past, S: Asker<K>, K: Page>(
    alloc: Global,
    session: &mut Session<P>,
    pending: &mut Pending,
    source: &mut S,
    page: &mut K,
) -> Result<u8, Stop>
    requires pending { pending.old ≡ record { line = []; refused = false } }
    requires handed { (K.told page.old).held ≡ 0 }
    ensures finishes { IfOk result (λ status. Finishes session.old session.new status (S.remaining source.old) (S.remaining source.new)
        (K.told page.old) (K.told page.new)) }
    ensures reading { result ≡ Err Stop.Read → StopsReading session.old session.new (S.remaining source.old) (S.remaining source.new)
        (K.told page.old) (K.told page.new) }
    ensures read { result ≡ Err Stop.Read → HasFailed (S.failures source.old) (S.failures source.new) }
    ensures calm { result ≢ Err Stop.Read → S.failures source.new ≡ S.failures source.old }
    ensures writing { result ≡ Err Stop.Write → StopsWriting session.old session.new (S.remaining source.old) (S.remaining source.new)
        (K.told page.old) (K.told page.new) }
    ensures others { (result ≢ Err Stop.Memory) × (result ≢ Err Stop.TooLarge) }
    ensures handed { result ≢ Err Stop.Write → (K.told page.new).held ≡ 0 }
{
    let mut block = [0u8; BLOCK];
    'turns: loop {
        let Ok(count) = source.read_after(page, &mut block) else {
            return Err(Stop::Read);
        };
        if count == 0 {
            return Ok(finish(alloc, session, pending, page)?);
        }
        match feed(alloc, session, pending, &block[..count], page)? {
            Flow::GoesOn => {}
            // What this block has after `quit` is lost: a source cannot take it back.
            Flow::Quits => return Ok(pending.status()),
        }
    }
}

/// Reads commands from the source and obeys them one by one, until one quits or the source ends, and answers the status: 1 where a line
/// was refused, else 0. The text of each line is written before the next line is obeyed. More is read only once the sink has handed on
/// all answers so far: reading requires that it holds nothing. At the end it holds nothing either.
///
/// `Memory` comes only before anything was read. `Read` and `Write` come where the source or the sink fails: the
/// session is that of the lines obeyed so far, a line of which only a part was read is not among them, and of the text
/// of the last line alone a part may be missing from what the sink took. Of that it may hold back a part, but of no answer that was whole
/// before the last read.
pub fn converse<P: Past, S: Asker<K>, K: Page>(
    alloc: Global,
    session: &mut Session<P>,
    source: &mut S,
    page: &mut K,
) -> Result<u8, Stop>
    requires handed { (K.told page.old).held ≡ 0 }
    ensures finishes { IfOk result (λ status. Finishes session.old session.new status (S.remaining source.old) (S.remaining source.new)
        (K.told page.old) (K.told page.new)) }

    // Read and Write come only where that device has failed.
    ensures reading { result ≡ Err Stop.Read → StopsReading session.old session.new (S.remaining source.old) (S.remaining source.new)
        (K.told page.old) (K.told page.new) }
    ensures read { result ≡ Err Stop.Read → HasFailed (S.failures source.old) (S.failures source.new) }
    ensures calm { result ≢ Err Stop.Read → S.failures source.new ≡ S.failures source.old }
    ensures writing { result ≡ Err Stop.Write → StopsWriting session.old session.new (S.remaining source.old) (S.remaining source.new)
        (K.told page.old) (K.told page.new) }

    // Without memory nothing is read, obeyed or written.
    ensures memory { result ≡ Err Stop.Memory → (session.new ≡ session.old) × (source.new ≡ source.old) × (page.new ≡ page.old) }
    ensures no_other { result ≢ Err Stop.TooLarge }

    // At the end nothing is held back.
    ensures handed { result ≢ Err Stop.Write → (K.told page.new).held ≡ 0 }
{
    let mut pending = Pending::new(alloc)?;
    go_on(alloc, session, &mut pending, source, page)
}
