//! Whole numbers with a sign, in two's complement.

ghost use Rattle.std.specs.Prelude.{◌≡◌, ◌≤◌, ◌⊎◌, length, IfOk, IfErr, MatchResult, Ok, Err, nat_lt, ◌<◌};
ghost use Rattle.byteorder.specs.Endian.{little_bytes};
ghost use Rattle.opcode_assembler.specs.Words.{word, after_word};
ghost use Rattle.opcode_assembler.specs.Arguments.{signed_first, shortened, long_first};
ghost use Rattle.opcode_assembler.specs.Numbers.{twos_of, signed_bytes, signed_word, least_len, says_no_more, shortest};
ghost use Rattle.opcode_assembler.specs.Reading.{Fails};

use crate::buffer::copied;
use crate::digits::hex_first;
use crate::fault::{Fault, Reason};
use crate::number::{has_minus, unsigned, wide_of};
use crate::words::{behind, cut, trimmed};
use std::alloc::Global;

/// The number that stands for this one in four bytes, if there is one.
fn twos_of_four(minus: bool, number: u128) -> Option<u128>
    ensures { result ≡ twos_of 4 minus number }
{
    if !minus {
        return if number < 0x8000_0000 {
            Some(number)
        } else {
            None
        };
    }
    if number > 0x8000_0000 {
        return None;
    }
    if number == 0 {
        Some(0)
    } else {
        Some(0x1_0000_0000 - number)
    }
}

/// The greatest number of 127 bits, and one.
const HALF: u128 = 0x8000_0000_0000_0000_0000_0000_0000_0000;

/// The number that stands for this one in sixteen bytes, if there is one.
fn twos_of_sixteen(minus: bool, number: u128) -> Option<u128>
    ensures { result ≡ twos_of 16 minus number }
{
    if !minus {
        return if number < HALF { Some(number) } else { None };
    }
    if number > HALF {
        return None;
    }
    if number == 0 {
        Some(0)
    } else {
        Some(HALF - number + HALF)
    }
}

/// A number of four bytes, the lowest first, by a word.
fn word_of_four(word: &[u8]) -> Result<[u8; 4], Reason>
    ensures { MatchResult result (λ b. signed_word 4 word.now ≡ Ok b) (λ r. signed_word 4 word.now ≡ Err r) }
{
    let Some(number) = wide_of(unsigned(word)) else {
        return Err(Reason::NoNumber);
    };
    match twos_of_four(has_minus(word), number) {
        Some(twos) => Ok((twos as u32).to_le_bytes()),
        None => Err(Reason::NumberTooLarge),
    }
}

/// A number of sixteen bytes, the lowest first, by a word.
fn word_of_sixteen(word: &[u8]) -> Result<[u8; 16], Reason>
    ensures { MatchResult result (λ b. signed_word 16 word.now ≡ Ok b) (λ r. signed_word 16 word.now ≡ Err r) }
{
    let Some(number) = wide_of(unsigned(word)) else {
        return Err(Reason::NoNumber);
    };
    match twos_of_sixteen(has_minus(word), number) {
        Some(twos) => Ok(twos.to_le_bytes()),
        None => Err(Reason::NumberTooLarge),
    }
}

/// The number with a sign in front, in four bytes, and what comes after it.
pub(crate) fn signed_first(alloc: Global, text: &[u8]) -> Result<(Vec<u8>, &[u8]), Fault>
    ensures { MatchResult result (λ p. signed_first text.now ≡ Ok (p.0.items, p.1.now)) (λ f. Fails (signed_first text.now) f) }
{
    let first = cut(text);
    match word_of_four(first.word) {
        Ok(bytes) => Ok((copied(alloc, &bytes)?, first.rest)),
        Err(reason) => Err(Fault::Wrong(reason)),
    }
}

/// Whether byte n says no more than the bytes before it.
pub(crate) fn says_no_more(bytes: &[u8], n: usize) -> bool
    requires { n < length bytes.now }
    ensures { result ≡ says_no_more bytes.now n }
{
    let byte = bytes[n];
    if n == 0 {
        return byte == 0;
    }
    let before = bytes[n - 1];
    (byte == 0 && before < 128) || (byte == 255 && before >= 128)
}

/// How many of the first bytes of a number say as much as all.
fn least_len(bytes: &[u8]) -> usize
    requires { length bytes.now ≡ 16 }
    ensures value { result ≡ least_len bytes.now 16 }
    ensures within { result ≤ 16 }
{
    let mut count = 16;
    while count > 0 {
        let last = count - 1;
        if !says_no_more(bytes, last) {
            return count;
        }
        count = last;
    }
    count
}

/// A number in decimal digits, in the fewest bytes.
fn decimal_first(alloc: Global, text: &[u8]) -> Result<(Vec<u8>, &[u8]), Fault>
    ensures { MatchResult result (λ p. shortened (signed_word 16 (word text.now)) (after_word text.now) ≡ Ok (p.0.items, p.1.now))
        (λ f. Fails (shortened (signed_word 16 (word text.now)) (after_word text.now)) f) }
{
    let first = cut(text);
    match word_of_sixteen(first.word) {
        Ok(bytes) => Ok((copied(alloc, &bytes[..least_len(&bytes)])?, first.rest)),
        Err(reason) => Err(Fault::Wrong(reason)),
    }
}

/// The bytes of the long number in front, and what comes after it.
pub(crate) fn long_first(alloc: Global, text: &[u8]) -> Result<(Vec<u8>, &[u8]), Fault>
    ensures { MatchResult result (λ p. long_first text.now ≡ Ok (p.0.items, p.1.now)) (λ f. Fails (long_first text.now) f) }
{
    match behind(b"le:", trimmed(text)) {
        Some(digits) => hex_first(alloc, digits),
        None => decimal_first(alloc, text),
    }
}
