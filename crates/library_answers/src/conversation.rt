//! A session that is kept between calls: it is asked line by line, and holds the text of the latest line.

ghost use Rattle.std.specs.Prelude.{◌≡◌, ◌≤◌, ◌<◌, ◌↔◌, ℕ, List, [], length, IfOk, Ok, Err};
ghost use Rattle.pickle_doc.specs.Document.{size_limit, document_bytes};
ghost use Rattle.pickle_session.specs.Opening.{IsOpenedIn};
ghost use Rattle.pickle_script.specs.Conversation.{AnswersLine};
ghost use Rattle.pickle_script.specs.Transcript.{Prints};
ghost use Rattle.debug_json.specs.Answered.{AnswersJsonLine};
ghost use Rattle.debug_json.specs.Answer.{Answer};
ghost use Rattle.debug_json.specs.Says as in_json;
ghost use Rattle.pickle_script.specs.declared.stop.Stop.TheVariants as stops;
ghost use Rattle.library_answers.specs.Answer.{took};
ghost use Rattle.library_answers.specs.Kept.{state_of, limit_of};

use crate::fill::ROOM;
use debug_json::answer_json_line;
use pickle_doc::LIMIT;
use pickle_io::{Buffered, Failed, Sink, ToWrite};
use pickle_script::{Stop, answer_line, document_bytes};
use pickle_session::{Past, Session, Whole, Window};
use std::alloc::{AllocError, Global};
use std::marker::Model;

/// What there was no memory for.
#[derive(Clone, Copy, Debug, PartialEq, Eq)]
pub enum Lack {
    /// What each text needs at first: the line was not obeyed.
    Room,
    /// The text: the line was obeyed.
    Text,
}

impl From<AllocError> for Lack {
    ghost use Rattle.library_answers.specs.declared.conversation.Lack.TheVariants.{Room};

    ghost from_gives = { λ _ e. e ≡ Room };

    fn from(_error: AllocError) -> Lack {
        Lack::Room
    }
}

impl From<Failed> for Lack {
    ghost use Rattle.library_answers.specs.declared.conversation.Lack.TheVariants.{Text};

    ghost from_gives = { λ _ e. e ≡ Text };

    fn from(_error: Failed) -> Lack {
        Lack::Text
    }
}

/// The text of a line in a session, and whether it is a refusal.
fn answer_of<P: Past>(
    alloc: Global,
    session: &mut Session<P>,
    line: &[u8],
) -> Result<(Vec<u8>, bool), Lack>
    ensures answers { IfOk result (λ r. AnswersLine line.now session.old session.new (took []) (took r.0.items) (Ok r.1)) }
    ensures room { result ≡ Err Lack.Room → session.new ≡ session.old }
    ensures lost { result ≡ Err Lack.Text → (text : List ℕ) × Prints session.old line.now text session.new }
{
    let mut page = Buffered::with_room(alloc, ToWrite::new(Vec::new(alloc)), ROOM)?;
    let refused = answer_line(alloc, session, line, &mut page)?;
    page.flush()?;
    Ok((page.into_inner().into_inner(), refused))
}

/// The line of JSON that a line is answered with in a session, and whether it is a refusal.
fn json_of<P: Past>(
    alloc: Global,
    session: &mut Session<P>,
    line: &[u8],
) -> Result<(Vec<u8>, bool), Lack>
    ensures answers { IfOk result (λ r. AnswersJsonLine line.now session.old session.new (took []) (took r.0.items) (Ok r.1)) }
    ensures room { result ≡ Err Lack.Room → session.new ≡ session.old }
    ensures lost { result ≡ Err Lack.Text → (answer : Answer) × in_json.Says session.old line.now answer session.new }
{
    let mut page = Buffered::with_room(alloc, ToWrite::new(Vec::new(alloc)), ROOM)?;
    let refused = answer_json_line(alloc, session, line, &mut page)?;
    page.flush()?;
    Ok((page.into_inner().into_inner(), refused))
}

/// A session, with the records that it keeps.
#[derive(Drop)]
enum Kept {
    /// Those of all steps.
    Whole(Session<Whole>),
    /// Those of the latest steps.
    Window(Session<Window>),
}

/// The text of a line in it, and whether it is a refusal.
fn answer_in(alloc: Global, kept: &mut Kept, line: &[u8]) -> Result<(Vec<u8>, bool), Lack>
    ensures answers { IfOk result (λ r. AnswersLine line.now (state_of kept.old) (state_of kept.new) (took []) (took r.0.items) (Ok r.1)) }
    ensures room { result ≡ Err Lack.Room → state_of kept.new ≡ state_of kept.old }
    ensures lost { result ≡ Err Lack.Text → (text : List ℕ) × Prints (state_of kept.old) line.now text (state_of kept.new) }
{
    match kept {
        Kept::Whole(session) => answer_of(alloc, session, line),
        Kept::Window(session) => answer_of(alloc, session, line),
    }
}

/// The line of JSON that a line is answered with in it, and whether it is a refusal.
fn json_in(alloc: Global, kept: &mut Kept, line: &[u8]) -> Result<(Vec<u8>, bool), Lack>
    ensures answers { IfOk result (λ r. AnswersJsonLine line.now (state_of kept.old) (state_of kept.new) (took []) (took r.0.items) (Ok r.1)) }
    ensures room { result ≡ Err Lack.Room → state_of kept.new ≡ state_of kept.old }
    ensures lost { result ≡ Err Lack.Text → (answer : Answer) × in_json.Says (state_of kept.old) line.now answer (state_of kept.new) }
{
    match kept {
        Kept::Whole(session) => json_of(alloc, session, line),
        Kept::Window(session) => json_of(alloc, session, line),
    }
}

/// The bytes of its document. It fails only where memory runs out.
fn bytes_of(alloc: Global, kept: &Kept) -> Result<Vec<u8>, Stop>
    ensures { IfOk result (λ bytes. bytes.items ≡ document_bytes (state_of kept.now).session.document) }
{
    match kept {
        Kept::Whole(session) => document_bytes(alloc, session.document()),
        Kept::Window(session) => document_bytes(alloc, session.document()),
    }
}

/// A session of an input that remembers so many steps, or all where no count is given.
fn open_kept(
    alloc: Global,
    window: usize,
    many: bool,
    loose: bool,
    bytes: &[u8],
) -> Result<Kept, Stop>
    requires few { window ≤ 1000000 }
    ensures opened { IfOk result (λ k. IsOpenedIn many loose bytes.now (state_of k)) }
    ensures limit { IfOk result (λ k. (state_of k).past.limit ≡ limit_of window) }
    ensures large { (result ≡ Err stops.TooLarge) ↔ (size_limit < length bytes.now) }
{
    if bytes.len() > LIMIT {
        return Err(Stop::TooLarge);
    }
    if window == 0 {
        let past = Whole::new(alloc);
        let session = Session::open_in(alloc, past, many, loose, bytes)?;
        return Ok(Kept::Whole(session));
    }
    let past = Window::new(alloc, window)?;
    let session = Session::open_in(alloc, past, many, loose, bytes)?;
    Ok(Kept::Window(session))
}

/// A session, and the text and the status of the latest line.
#[derive(Drop)]
pub struct Conversation {
    kept: Kept,
    text: Vec<u8>,
    status: u8,
}

impl Model for Conversation {
    ghost use Rattle.library_answers.specs.Talk.{Talk};

    ghost Value = { Talk };

    ghost use Rattle.library_answers.specs.Kept.{state_of};

    ghost view = { λ c. record { state = state_of c.kept; text = c.text.items; status = c.status } };
}

impl Conversation {
    ghost use Rattle.std.specs.Prelude.{◌≡◌, ◌≤◌, ◌<◌, ◌↔◌, [], length, IfOk, Err};
    ghost use Rattle.pickle_doc.specs.Document.{size_limit, document_bytes};
    ghost use Rattle.pickle_session.specs.Opening.{IsOpenedIn};
    ghost use Rattle.pickle_script.specs.declared.stop.Stop.TheVariants as stops;
    ghost use Rattle.library_answers.specs.Kept.{limit_of};
    ghost use Rattle.library_answers.specs.Talk.{Says, Loses, SaysJson, LosesJson};

    /// A session of an input, of which no line was asked. It remembers so many steps, or all where no count is given.
    pub fn open(
        alloc: Global,
        window: usize,
        many: bool,
        loose: bool,
        bytes: &[u8],
    ) -> Result<Conversation, Stop>
        requires few { window ≤ 1000000 }
        ensures opened { IfOk result (λ c. IsOpenedIn many loose bytes.now c.state) }
        ensures limit { IfOk result (λ c. c.state.past.limit ≡ limit_of window) }
        ensures text { IfOk result (λ c. (c.text ≡ []) × (c.status ≡ 0)) }
        ensures large { (result ≡ Err stops.TooLarge) ↔ (size_limit < length bytes.now) }
    {
        let kept = open_kept(alloc, window, many, loose, bytes)?;
        Ok(Conversation {
            kept,
            text: Vec::new(alloc),
            status: 0,
        })
    }

    /// Obeys a line, given without its newline, and keeps its text until the next one is obeyed.
    pub fn ask(&mut self, alloc: Global, line: &[u8]) -> Result<(), Lack>
        ensures says { IfOk result (λ _. Says line.now self.old self.new) }
        ensures room { result ≡ Err Lack.Room → self.new ≡ self.old }
        ensures lost { result ≡ Err Lack.Text → Loses line.now self.old self.new }
    {
        match answer_in(alloc, &mut self.kept, line) {
            Ok((text, refused)) => {
                self.text = text;
                self.status = u8::from(refused);
                Ok(())
            }
            Err(Lack::Room) => Err(Lack::Room),
            Err(Lack::Text) => {
                self.text.clear();
                self.status = 0;
                Err(Lack::Text)
            }
        }
    }

    /// Obeys a line, given without its newline, and keeps the line of JSON that answers it until the next one is obeyed.
    pub fn ask_json(&mut self, alloc: Global, line: &[u8]) -> Result<(), Lack>
        ensures says { IfOk result (λ _. SaysJson line.now self.old self.new) }
        ensures room { result ≡ Err Lack.Room → self.new ≡ self.old }
        ensures lost { result ≡ Err Lack.Text → LosesJson line.now self.old self.new }
    {
        match json_in(alloc, &mut self.kept, line) {
            Ok((text, refused)) => {
                self.text = text;
                self.status = u8::from(refused);
                Ok(())
            }
            Err(Lack::Room) => Err(Lack::Room),
            Err(Lack::Text) => {
                self.text.clear();
                self.status = 0;
                Err(Lack::Text)
            }
        }
    }

    /// The text of the latest line.
    pub fn text(&self) -> &[u8]
        ensures { result.now ≡ self.now.text }
    {
        self.text.as_slice()
    }

    /// Its status: 1 where it is a refusal, else 0.
    pub fn status(&self) -> u8
        ensures { result ≡ self.now.status }
    {
        self.status
    }

    /// The bytes of the document as it is. It fails only where memory runs out.
    pub fn bytes(&self, alloc: Global) -> Result<Vec<u8>, Stop>
        ensures { IfOk result (λ bytes. bytes.items ≡ document_bytes self.now.state.session.document) }
    {
        bytes_of(alloc, &self.kept)
    }
}
