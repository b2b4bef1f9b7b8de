//! Which lines and texts may import something.

ghost use Rattle.std.specs.Prelude.{◌≡◌, length};
ghost use Rattle.std.specs.List.{list_all};
ghost use Rattle.pickle_reach.specs.Names.{is_sign, is_bracket, is_fine, is_no_backslash, ends_head, head_is_fine, holds_storage, line_names, text_names, lines_import};

use pickle_names::{Coding, read};

/// What is in the names of torch's storages.
const STORAGE: &[u8] = b"Storage";

/// Whether this is one of the signs `"`, `&` to `*` and `,`.
fn is_sign(byte: u8) -> bool
    ensures { result ≡ is_sign byte }
{
    byte == 34 || ((38 <= byte && byte <= 42) || byte == 44)
}

/// Whether this is one of the signs `:` to `?`, brackets, braces and `|`.
fn is_bracket(byte: u8) -> bool
    ensures { result ≡ is_bracket byte }
{
    (58 <= byte && byte <= 63) || (byte == 91 || (byte == 93 || (123 <= byte && byte <= 125)))
}

/// Whether this may be in the name of a module.
fn is_fine(byte: u8) -> bool
    ensures { result ≡ is_fine byte }
{
    let sign = is_sign(byte);
    let bracket = is_bracket(byte);
    32 < byte && (byte != 127 && (!sign && !bracket))
}

/// Whether what is imported first ends before it.
fn ends_head(byte: u8) -> bool
    ensures { result ≡ ends_head byte }
{
    let fine = is_fine(byte);
    byte == 46 || !fine
}

/// Whether what is imported first may be a module: all that stands before the first point.
#[tactic(auto, unfolding(crate::specs::Names::head_is_fine))]
fn head_is_fine(bytes: &[u8]) -> bool
    ensures { result ≡ head_is_fine bytes.now }
{
    for byte in bytes {
        if ends_head(*byte) {
            return *byte == 46;
        }
    }
    true
}

/// Whether this is no backslash.
fn is_no_backslash(byte: u8) -> bool
    ensures { result ≡ is_no_backslash byte }
{
    byte != 92
}

/// Whether there is no backslash.
fn lack_backslash(bytes: &[u8]) -> bool
    ensures { result ≡ list_all is_no_backslash bytes.now }
{
    for byte in bytes {
        if !is_no_backslash(*byte) {
            return false;
        }
    }
    true
}

/// Whether `Storage` stands somewhere in a name: a loader may have an answer for it, whatever its module is called.
#[tactic(auto, unfolding(crate::specs::Names::holds_storage))]
fn holds_storage(name: &[u8]) -> bool
    ensures { result ≡ holds_storage name.now }
{
    let mut left = name;
    while let Some((_, rest)) = left.split_first() {
        if left.starts_with(STORAGE) {
            return true;
        }
        left = rest;
    }
    false
}

/// Whether a text may be the name of a module, or begin with one, or be a name that has an answer anyhow.
pub(crate) fn text_names(text: &[u8]) -> bool
    ensures { result ≡ text_names text.now }
{
    if text.is_empty() {
        return false;
    }
    if !lack_backslash(text) {
        return true;
    }
    head_is_fine(text) || holds_storage(text)
}

/// Whether a line may be the name of a module, or begin with one.
fn line_names(line: &[u8]) -> bool
    ensures { result ≡ line_names line.now }
{
    if line.is_empty() {
        return false;
    }
    if !head_is_fine(line) {
        return false;
    }
    read(Coding::Utf8, line.len(), line).good
}

/// Whether two lines may import something: the first names a module, or the second what a loader has an answer for anyhow.
pub(crate) fn lines_import(module_line: &[u8], member_line: &[u8]) -> bool
    ensures { result ≡ lines_import module_line.now member_line.now }
{
    line_names(module_line) || holds_storage(member_line)
}
