//! The lines that a line of a script is answered with where nothing can be done for it. Each writer writes its text; where the
//! sink fails, a beginning of it was written.

ghost use Rattle.std.specs.Prelude.{◌≡◌};
ghost use Rattle.pickle_io.specs.Device.{Writes};
ghost use Rattle.pickle_script.specs.ReplyText.{syntax_words, syntax_rest, syntax_line, no_object_line, no_item_words, no_item_line};

use crate::conversation::fault_text::write_op_fault;
use crate::conversation::line::Syntax;
use pickle_io::{Failed, Page, write_all, write_decimal};

/// Why a line says nothing.
#[tactic(auto, unfolding(crate::specs::ReplyText::syntax_words))]
fn words_of_syntax(syntax: Syntax) -> &'static str
    ensures { result.now ≡ syntax_words syntax }
{
    match syntax {
        Syntax::UnknownWord => "X1 unknown word",
        Syntax::MissingWord => "X2 missing word",
        Syntax::BadNumber => "X3 bad number",
        Syntax::UnknownOpcodeName => "X4 unknown opcode name",
        Syntax::BadHex => "X5 bad hex",
        Syntax::ExtraWord => "X6 extra word",
        Syntax::LineTooLong => "X7 line too long",
        Syntax::BadOp(_) => "X8 ",
        Syntax::Memory => "M out of memory",
    }
}

/// Writes the fault of an opcode after the words.
#[tactic(auto, using(pickle_io::proofs::Devices::text_steps), unfolding(crate::specs::ReplyText::syntax_rest))]
fn write_syntax_rest<S: Page>(syntax: Syntax, page: &mut S) -> Result<(), Failed>
    ensures { Writes (S.told page.old) (S.told page.new) result (syntax_rest syntax) }
{
    match syntax {
        Syntax::BadOp(fault) => write_op_fault(fault, page),
        _ => Ok(()),
    }
}

/// Writes the line that a line is answered with which says nothing. It takes no memory. Where the sink fails, a beginning of the
/// line was written.
pub fn write_syntax<S: Page>(syntax: Syntax, page: &mut S) -> Result<(), Failed>
    ensures { Writes (S.told page.old) (S.told page.new) result (syntax_line syntax) }
{
    write_all(page, b"refused: ")?;
    write_all(page, words_of_syntax(syntax).as_bytes())?;
    write_syntax_rest(syntax, page)?;
    write_all(page, b"\n")
}

/// What `show` is answered with where there is no such object.
#[tactic(auto, unfolding(crate::specs::ReplyText::no_object_line))]
fn no_such_object() -> &'static str
    ensures { result.now ≡ no_object_line }
{
    "refused: V1 no such object\n"
}

/// Writes the line that `show` is answered with where there is no such object. It takes no memory. Where the sink fails, a
/// beginning of the line was written.
pub fn write_no_such_object<S: Page>(page: &mut S) -> Result<(), Failed>
    ensures { Writes (S.told page.old) (S.told page.new) result no_object_line }
{
    write_all(page, no_such_object().as_bytes())
}

/// What comes before an offset that no place has.
#[tactic(auto, unfolding(crate::specs::ReplyText::no_item_words))]
fn no_item_words() -> &'static str
    ensures { result.now ≡ no_item_words }
{
    "V2 no item at offset "
}

/// Writes the line that a command is answered with whose place is named by an offset that no place has. It takes no memory. Where
/// the sink fails, a beginning of the line was written.
pub fn write_no_item_at<S: Page>(offset: u64, page: &mut S) -> Result<(), Failed>
    ensures { Writes (S.told page.old) (S.told page.new) result (no_item_line offset) }
{
    write_all(page, b"refused: ")?;
    write_all(page, no_item_words().as_bytes())?;
    write_decimal(offset, page)?;
    write_all(page, b"\n")
}
