//! A text with keys in digits in place of its labels.

ghost use Rattle.std.specs.Prelude.{◌≡◌, ◌∷◌, ◌++◌, ℕ, List, map, decimal, IfOk, OnOk};
ghost use Rattle.assembly_labels.specs.Labelled.{with_key, in_digits, ended, digits_text};
ghost use Rattle.assembly_labels.specs.Numbering.{AreNumbers};

use crate::keys::Numbers;
use crate::line::{label_of, opcode_in};
use crate::numbers::key_of_label;
use crate::words::{cut, trimmed, unplaced};
use itoa::Buffer;
use std::alloc::{AllocError, Global};

/// Adds an opcode with this key, and what stands behind it.
fn put_key(out: &mut Vec<u8>, name: &[u8], key: u128, rest: &[u8]) -> Result<(), AllocError>
    ensures { OnOk result (out.new.items ≡ out.old.items ++ (name.now ++ 32 ∷ (decimal key ++ rest.now))) }
{
    out.extend_from_slice(name)?;
    out.extend_from_slice(b" ")?;
    out.extend_from_slice(Buffer::new().format(key).as_bytes())?;
    out.extend_from_slice(rest)?;
    Ok(())
}

/// Adds a line with this key in place of its label.
fn put_with_key(out: &mut Vec<u8>, key: u128, line: &[u8]) -> Result<(), AllocError>
    ensures { OnOk result (out.new.items ≡ out.old.items ++ with_key key line.now) }
{
    match opcode_in(line) {
        Some((_, rest)) => put_key(out, cut(unplaced(trimmed(line))).word, key, cut(rest).rest),
        None => {
            out.extend_from_slice(line)?;
            Ok(())
        }
    }
}

/// Adds a line with the key of its label, if it has one.
fn put_in_digits(out: &mut Vec<u8>, numbers: &Numbers<'_>, line: &[u8]) -> Result<(), AllocError>
    ensures { OnOk result ((lines : List (List ℕ)) → AreNumbers lines numbers.now → out.new.items ≡ out.old.items ++ in_digits lines line.now) }
{
    match label_of(line) {
        Some(label) => put_with_key(out, key_of_label(numbers, label), line),
        None => {
            out.extend_from_slice(line)?;
            Ok(())
        }
    }
}

/// Adds it with its newline.
fn put_line(out: &mut Vec<u8>, numbers: &Numbers<'_>, line: &[u8]) -> Result<(), AllocError>
    ensures { OnOk result ((lines : List (List ℕ)) → AreNumbers lines numbers.now → out.new.items ≡ out.old.items ++ ended (in_digits lines line.now)) }
{
    put_in_digits(out, numbers, line)?;
    out.extend_from_slice(b"\n")?;
    Ok(())
}

/// The text of lines, with the keys of their labels.
pub(crate) fn digits_text(
    alloc: Global,
    numbers: &Numbers<'_>,
    lines: &[&[u8]],
) -> Result<Vec<u8>, AllocError>
    requires { AreNumbers (map (λ line. line.now) lines.now) numbers.now }
    ensures { IfOk result (λ text. text.items ≡ digits_text (map (λ line. line.now) lines.now)) }
{
    let mut text = Vec::new(alloc);
    for line in lines {
        put_line(&mut text, numbers, *line)?;
    }
    Ok(text)
}
