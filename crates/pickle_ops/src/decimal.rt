//! Numbers in decimal digits.

ghost use Rattle.std.specs.Prelude.{◌≡◌, true};
ghost use Rattle.pickle_ops.specs.Shape.{is_decimal, value_of, decimal_of};

/// The number of a text of one or more ASCII digits, any zeros in front; none where the text is no such digits, or their
/// number is above 18,446,744,073,709,551,615.
pub fn decimal_of(text: &[u8]) -> Option<u64>
    ensures { result ≡ decimal_of text.now }
{
    if text.is_empty() {
        return None;
    }
    let mut value: u64 = 0;
    for b in text {
        if *b < b'0' || *b > b'9' {
            return None;
        }
        let Some(ten) = value.checked_mul(10) else {
            return None;
        };
        let Some(next) = ten.checked_add((*b - b'0') as u64) else {
            return None;
        };
        value = next;
    }
    Some(value)
}

/// The value of decimal digits.
pub(crate) fn decimal_value(text: &[u8]) -> u64
    requires { is_decimal text.now ≡ true }
    ensures { result ≡ value_of text.now }
{
    match decimal_of(text) {
        Some(value) => value,
        None => unreachable!(),
    }
}
