//! Bytes in hexadecimal digits.

ghost use Rattle.std.specs.Prelude.{◌≡◌, ◌⊎◌, MatchResult, Ok, Err};
ghost use Rattle.hex.specs.Hex.{decode_of};
ghost use Rattle.opcode_assembler.specs.Numbers.{hex_first};
ghost use Rattle.opcode_assembler.specs.Reading.{Fails};

use crate::fault::{Fault, Reason};
use crate::words::cut;
use hex::FromHexError;
use std::alloc::Global;

/// The bytes of the word in front, of two digits each, and what comes after it.
pub(crate) fn hex_first(alloc: Global, text: &[u8]) -> Result<(Vec<u8>, &[u8]), Fault>
    ensures { MatchResult result (λ p. hex_first text.now ≡ Ok (p.0.items, p.1.now)) (λ f. Fails (hex_first text.now) f) }
{
    let first = cut(text);
    match hex::decode(alloc, first.word) {
        Ok(bytes) => Ok((bytes, first.rest)),
        Err(FromHexError::OutOfMemory) => Err(Fault::Memory),
        Err(_) => Err(Fault::Wrong(Reason::NoHex)),
    }
}
