//! The words that a list has for what is no import.

ghost use Rattle.std.specs.Prelude.{◌≡◌, IfOk};
ghost use Rattle.pickle_allow.specs.Source.{extension_word};

use itoa::Buffer;
use std::alloc::{AllocError, Global};

/// The word of the extension that has this code.
pub fn extension_word(alloc: Global, code: i64) -> Result<Vec<u8>, AllocError>
    ensures { IfOk result (λ word. word.items ≡ extension_word code) }
{
    let mut digits = Buffer::new();
    let mut word = Vec::from_slice(alloc, b"ext ")?;
    word.extend_from_slice(digits.format(code).as_bytes())?;
    Ok(word)
}
