//! Texts: literals, and what a decoder or a loader is asked for. `Failed` where the sink fails; a beginning of the text was written then.

ghost use Rattle.std.specs.Prelude.{◌≡◌};
ghost use Rattle.pickle_io.specs.Device.{Writes};
ghost use Rattle.pickle_names.specs.Value.{decode_all};
ghost use Rattle.source_literals.specs.Spelling.{line_end, line_call, string_front, decoder, decoded, is_plain, are_plain, text_value, line_value, string_value, spelled};

use pickle_calls::inner;
use pickle_io::{Failed, Page, write_all};
use pickle_names::{Coding, read};
use python_literals::{write_bytes, write_str};

/// Words of an expression.
#[tactic(auto, unfolding(crate::specs::Spelling::line_end))]
fn line_end() -> &'static str
    ensures { result.now ≡ line_end }
{
    " + b'\\n.')"
}

/// Words of an expression.
#[tactic(auto, unfolding(crate::specs::Spelling::string_front))]
fn string_front() -> &'static str
    ensures { result.now ≡ string_front }
{
    "unpickle(b'S' + "
}

/// Writes what a loader is asked for: to load the opcode of these words with this line.
pub(crate) fn write_line_call<S: Page>(front: &str, line: &[u8], page: &mut S) -> Result<(), Failed>
    ensures { Writes (S.told page.old) (S.told page.new) result (line_call front.now line.now) }
{
    write_all(page, front.as_bytes())?;
    write_bytes(line, page)?;
    write_all(page, line_end().as_bytes())
}

/// What decodes bytes that are spelled so.
#[tactic(auto, unfolding(crate::specs::Spelling::decoder))]
fn decoder(coding: Coding) -> &'static str
    ensures { result.now ≡ decoder coding }
{
    match coding {
        Coding::Ascii => ".decode('ascii')",
        Coding::Utf8 => ".decode('utf-8')",
        Coding::AnyUtf8 => ".decode('utf-8', 'surrogatepass')",
        Coding::RawEscape => ".decode('raw-unicode-escape')",
        Coding::StringEscape => ".decode('ascii')",
    }
}

/// Writes what Python's decoder is asked for.
fn write_decoded<S: Page>(coding: Coding, bytes: &[u8], page: &mut S) -> Result<(), Failed>
    ensures { Writes (S.told page.old) (S.told page.new) result (decoded coding bytes.now) }
{
    write_bytes(bytes, page)?;
    write_all(page, decoder(coding).as_bytes())
}

/// Whether a byte stands for itself, however a text is read.
fn is_plain(byte: u8) -> bool
    ensures { result ≡ is_plain byte }
{
    (32 <= byte && byte <= 126) && byte != b'\\'
}

/// Whether each byte stands for itself, however the text is read.
fn are_plain(bytes: &[u8]) -> bool
    ensures { result ≡ are_plain bytes.now }
{
    bytes.iter().all(|byte| is_plain(*byte))
}

/// Whether a text can be read.
fn is_good(coding: Coding, bytes: &[u8]) -> bool
    ensures { result ≡ (decode_all coding bytes.now).good }
{
    read(coding, bytes.len(), bytes).good
}

/// Writes a text that has no escapes.
#[tactic(auto, unfolding(crate::specs::Spelling::text_value))]
pub(crate) fn write_plain_text<S: Page>(
    coding: Coding,
    bytes: &[u8],
    page: &mut S,
) -> Result<(), Failed>
    ensures { Writes (S.told page.old) (S.told page.new) result (text_value coding bytes.now) }
{
    if is_good(coding, bytes) {
        write_str(bytes, page)
    } else {
        write_decoded(coding, bytes, page)
    }
}

/// Writes a text in a line, which may have escapes.
#[tactic(auto, unfolding(crate::specs::Spelling::line_value))]
pub(crate) fn write_line<S: Page>(line: &[u8], page: &mut S) -> Result<(), Failed>
    ensures { Writes (S.told page.old) (S.told page.new) result (line_value line.now) }
{
    if are_plain(line) {
        write_str(line, page)
    } else {
        write_decoded(Coding::RawEscape, line, page)
    }
}

/// Writes a string of Python 2 in a line, between quotes.
#[tactic(auto, unfolding(crate::specs::Spelling::string_value))]
pub(crate) fn write_string<S: Page>(line: &[u8], page: &mut S) -> Result<(), Failed>
    ensures { Writes (S.told page.old) (S.told page.new) result (string_value line.now) }
{
    let text = inner(line);
    if are_plain(text) {
        write_str(text, page)
    } else {
        write_line_call(string_front(), line, page)
    }
}

/// Writes a text that is spelled so.
#[tactic(auto, unfolding(crate::specs::Spelling::spelled))]
pub(crate) fn write_spelled<S: Page>(
    coding: Coding,
    bytes: &[u8],
    page: &mut S,
) -> Result<(), Failed>
    ensures { Writes (S.told page.old) (S.told page.new) result (spelled coding bytes.now) }
{
    match coding {
        Coding::RawEscape => write_line(bytes, page),
        Coding::StringEscape => write_decoded(coding, bytes, page),
        Coding::Ascii => write_plain_text(coding, bytes, page),
        Coding::Utf8 => write_plain_text(coding, bytes, page),
        Coding::AnyUtf8 => write_plain_text(coding, bytes, page),
    }
}
