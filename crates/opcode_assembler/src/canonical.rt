//! Which arguments have a text that is read back to the same bytes.

ghost use Rattle.std.specs.Prelude.{◌≡◌};
ghost use Rattle.pickle_ops.specs.Table.{form_of};
ghost use Rattle.opcode_assembler.specs.Canonical.{has_plain_digits, has_last_byte, has_one_number, is_canonical};

use crate::long::says_no_more;
use itoa::Buffer;
use pickle_ops::{Form, OpRef};

/// Whether a line of digits is the one that a listing prints.
fn has_plain_digits(op: &OpRef<'_>) -> bool
    ensures { result ≡ has_plain_digits (form_of op.now.opcode) op.now.arg }
{
    match op.form() {
        Form::Decimal => op.payload() == Buffer::new().format(op.number()).as_bytes(),
        _ => true,
    }
}

/// Whether the last byte of a long number says something.
fn has_last_byte(bytes: &[u8]) -> bool
    ensures { result ≡ has_last_byte bytes.now }
{
    let count = bytes.len();
    count == 0 || !says_no_more(bytes, count - 1)
}

/// Whether the text of a long number stands for these bytes alone.
fn has_one_number(bytes: &[u8]) -> bool
    ensures { result ≡ has_one_number bytes.now }
{
    16 < bytes.len() || has_last_byte(bytes)
}

/// Whether the text that a listing has of an argument is read back to the same bytes.
#[tactic(auto, unfolding(crate::specs::Canonical::is_canonical))]
pub fn is_canonical(op: &OpRef<'_>) -> bool
    ensures { result ≡ is_canonical op.now }
{
    if op.is_long() {
        has_one_number(op.payload())
    } else {
        has_plain_digits(op)
    }
}
