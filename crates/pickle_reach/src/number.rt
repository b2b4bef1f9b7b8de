//! How a line begins that is a number.

ghost use Rattle.std.specs.Prelude.{◌≡◌};
ghost use Rattle.pickle_reach.specs.Numbers.{is_before, is_digit_like, is_float_like, begins_integer, begins_float};

/// Whether this may come before the first digit: a blank or a sign.
fn is_before(byte: u8) -> bool
    ensures { result ≡ is_before byte }
{
    (1 <= byte && byte <= 32) || (byte == 43 || byte == 45)
}

/// Whether an integer may begin with it, or end before it.
fn is_digit_like(byte: u8) -> bool
    ensures { result ≡ is_digit_like byte }
{
    byte == 0 || ((48 <= byte && byte <= 57) || 128 <= byte)
}

/// Whether a float may begin with it.
fn is_float_like(byte: u8) -> bool
    ensures { result ≡ is_float_like byte }
{
    let digit = is_digit_like(byte);
    digit || (byte == 46 || (byte == 73 || (byte == 78 || (byte == 105 || byte == 110))))
}

/// Whether a line begins as an integer does.
#[tactic(auto, unfolding(crate::specs::Numbers::begins_integer))]
pub(crate) fn begins_integer(line: &[u8]) -> bool
    ensures { result ≡ begins_integer line.now }
{
    for byte in line {
        if !is_before(*byte) {
            return is_digit_like(*byte);
        }
    }
    false
}

/// Whether a line begins as a float does.
#[tactic(auto, unfolding(crate::specs::Numbers::begins_float))]
pub(crate) fn begins_float(line: &[u8]) -> bool
    ensures { result ≡ begins_float line.now }
{
    for byte in line {
        if !is_before(*byte) {
            return is_float_like(*byte);
        }
    }
    false
}
