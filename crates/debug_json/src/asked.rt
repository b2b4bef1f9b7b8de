//! What a line asks for: what a line of the texts for people says, and the words that are answered in JSON alone.

ghost use Rattle.std.specs.Prelude.{◌≡◌};
ghost use Rattle.pickle_script.specs.Grammar.{words_of};
ghost use Rattle.debug_json.specs.Asked.{at_end, items_says, objects_says, made_says, items_asked, objects_asked, word_asks, line_asks, as_own, as_line, IsAsked};

use crate::words::{first_word, number_first};
use pickle_script::{LONGEST_LINE, Line, Syntax, read_command};
use std::alloc::Global;

/// What is asked about a session in JSON alone; it changes nothing.
#[derive(Clone, Copy, Debug, PartialEq, Eq)]
pub enum Own {
    /// `breaks`: the places of the items that have a breakpoint.
    Breaks,
    /// `items A B`: the items from place A on, and before place B.
    Items(usize, usize),
    /// `objects A B`: the objects from number A on, and before number B.
    Objects(usize, usize),
    /// `trace`: what the step over the item before the cursor did.
    Trace,
    /// `made N`: the item that made object N, and the items that changed it.
    Made(u64),
}

/// What a line asks for.
#[derive(Debug, Drop)]
pub enum Asked {
    /// What it says in a text too.
    Line(Line),
    /// What is answered in JSON alone.
    Own(Own),
}

/// What a line asks for whose words are all read, unless one comes after them.
fn at_end(says: Own, rest: &[u8]) -> Result<Own, Syntax>
    ensures { result ≡ at_end says (words_of rest.now) }
{
    match first_word(rest) {
        None => Ok(says),
        Some(_) => Err(Syntax::ExtraWord),
    }
}

/// What a line asks for by two places.
fn read_items(rest: &[u8]) -> Result<Own, Syntax>
    ensures { result ≡ items_says (words_of rest.now) }
{
    let (from, rest) = number_first(rest)?;
    let (to, rest) = number_first(rest)?;
    at_end(Own::Items(from as usize, to as usize), rest)
}

/// What a line asks for by two numbers of objects.
fn read_objects(rest: &[u8]) -> Result<Own, Syntax>
    ensures { result ≡ objects_says (words_of rest.now) }
{
    let (from, rest) = number_first(rest)?;
    let (to, rest) = number_first(rest)?;
    at_end(Own::Objects(from as usize, to as usize), rest)
}

/// What a line asks for by the number of an object.
fn read_made(rest: &[u8]) -> Result<Own, Syntax>
    ensures { result ≡ made_says (words_of rest.now) }
{
    let (number, rest) = number_first(rest)?;
    at_end(Own::Made(number), rest)
}

/// The same where a word comes after the first. Without one the line is of the texts.
#[tactic(auto, using(crate::proofs::Askings::range_steps))]
fn items_asked(rest: &[u8]) -> Option<Result<Own, Syntax>>
    ensures { result ≡ items_asked (words_of rest.now) }
{
    match first_word(rest) {
        None => None,
        Some(_) => Some(read_items(rest)),
    }
}

/// The same of objects.
#[tactic(auto, using(crate::proofs::Askings::range_steps))]
fn objects_asked(rest: &[u8]) -> Option<Result<Own, Syntax>>
    ensures { result ≡ objects_asked (words_of rest.now) }
{
    match first_word(rest) {
        None => None,
        Some(_) => Some(read_objects(rest)),
    }
}

/// What is asked in JSON alone by a first word and what comes after it, or the first fault. None where it is a line of the texts.
fn read_own(word: &[u8], rest: &[u8]) -> Option<Result<Own, Syntax>>
    ensures { result ≡ word_asks word.now (words_of rest.now) }
{
    if word == b"breaks".as_slice() {
        return Some(at_end(Own::Breaks, rest));
    }
    if word == b"items".as_slice() {
        return items_asked(rest);
    }
    if word == b"objects".as_slice() {
        return objects_asked(rest);
    }
    if word == b"trace".as_slice() {
        return Some(at_end(Own::Trace, rest));
    }
    if word == b"made".as_slice() {
        return Some(read_made(rest));
    }
    None
}

/// The same of a whole line.
#[tactic(auto, unfolding(crate::specs::Asked::line_asks))]
fn line_asks(bytes: &[u8]) -> Option<Result<Own, Syntax>>
    ensures { result ≡ line_asks bytes.now }
{
    if bytes.len() > LONGEST_LINE {
        return None;
    }
    match first_word(bytes) {
        None => None,
        Some((word, rest)) => read_own(word, rest),
    }
}

/// What a line asks for in JSON alone.
fn as_own(own: Result<Own, Syntax>) -> Result<Asked, Syntax>
    ensures { result ≡ as_own own }
{
    match own {
        Ok(own) => Ok(Asked::Own(own)),
        Err(syntax) => Err(syntax),
    }
}

/// What a line asks for in a text too.
fn as_line(says: Result<Line, Syntax>) -> Result<Asked, Syntax>
    ensures { result ≡ as_line says }
{
    match says {
        Ok(line) => Ok(Asked::Line(line)),
        Err(syntax) => Err(syntax),
    }
}

/// What a line asks for, given without its newline, or the first fault that applies. The words that are answered in JSON alone have the
/// faults `MissingWord`, `BadNumber` and `ExtraWord`, in the order of their words; what else a line says, and `LineTooLong`, is as
/// `read_command` reads it.
#[tactic(auto, using(crate::proofs::Askings::asking_steps))]
pub fn read_asked(alloc: Global, bytes: &[u8]) -> Result<Asked, Syntax>
    ensures { IsAsked bytes.now result }
{
    match line_asks(bytes) {
        Some(own) => as_own(own),
        None => as_line(read_command(alloc, bytes)),
    }
}
