//! The texts of numbers.

ghost use Rattle.std.specs.Prelude.{◌≡◌, ◌||◌, ◌&&◌, ◌<◌, ◌≤◌, position, length, IfSome};
ghost use Rattle.std.specs.List.{list_all};
ghost use Rattle.pickle_ops.specs.Shape.{is_digit};
ghost use Rattle.pickle_form.specs.Numeral.{starts_with, is_natural, unsigned, is_integer, is_truth, is_int_line, is_long_line, is_point, is_letter_e, are_digits, is_one_zero, ends_in_zero, is_no_zero, is_small, fits, is_point_between, is_plain, is_first_digit, is_mantissa, is_exponent, is_far, is_finite, is_float_line};

use crate::name::is_digit;

/// Whether a text begins with a byte.
fn starts_with(byte: u8, text: &[u8]) -> bool
    ensures { result ≡ starts_with byte text.now }
{
    match text.first() {
        Some(first) => *first == byte,
        None => false,
    }
}

/// Whether all bytes are digits.
fn all_digits(text: &[u8]) -> bool
    ensures { result ≡ list_all is_digit text.now }
{
    for byte in text {
        if !is_digit(*byte) {
            return false;
        }
    }
    true
}

/// Whether a text is digits without a zero in front.
pub(crate) fn is_natural(text: &[u8]) -> bool
    ensures { result ≡ is_natural text.now }
{
    if text.is_empty() {
        return false;
    }
    if text.len() != 1 && text[0] == b'0' {
        return false;
    }
    all_digits(text)
}

/// A text without a minus in front.
pub(crate) fn unsigned(text: &[u8]) -> &[u8]
    ensures { result.now ≡ unsigned text.now }
{
    if starts_with(b'-', text) {
        &text[1..]
    } else {
        text
    }
}

/// Whether a text is a decimal number.
fn is_integer(text: &[u8]) -> bool
    ensures { result ≡ is_integer text.now }
{
    is_natural(unsigned(text)) && text != b"-0".as_slice()
}

/// Whether the line of INT is a truth value.
pub(crate) fn is_truth(text: &[u8]) -> bool
    ensures { result ≡ is_truth text.now }
{
    text == b"00".as_slice() || text == b"01".as_slice()
}

/// Whether a text is the line of INT.
pub(crate) fn is_int_line(text: &[u8]) -> bool
    ensures { result ≡ is_int_line text.now }
{
    is_truth(text) || (is_integer(text) && unsigned(text).len() <= 19)
}

/// Whether a text is the line of LONG.
pub(crate) fn is_long_line(text: &[u8]) -> bool
    ensures { result ≡ is_long_line text.now }
{
    match text.split_last() {
        Some((last, number)) => is_integer(number) && *last == b'L',
        None => false,
    }
}

/// Whether a text is one or more digits.
fn are_digits(text: &[u8]) -> bool
    ensures { result ≡ are_digits text.now }
{
    !text.is_empty() && all_digits(text)
}

/// Where the first point is.
fn point(text: &[u8]) -> Option<usize>
    ensures at { result ≡ position is_point text.now }
    ensures within { IfSome result (λ n. n < length text.now) }
{
    text.iter().position(|b| *b == b'.')
}

/// Where the first `e` is.
fn letter_e(text: &[u8]) -> Option<usize>
    ensures at { result ≡ position is_letter_e text.now }
    ensures within { IfSome result (λ n. n < length text.now) }
{
    text.iter().position(|b| *b == b'e')
}

/// Whether a text is a zero.
fn is_one_zero(text: &[u8]) -> bool
    ensures { result ≡ is_one_zero text.now }
{
    text == b"0".as_slice()
}

/// Whether a zero is at the end.
fn ends_in_zero(text: &[u8]) -> bool
    ensures { result ≡ ends_in_zero text.now }
{
    match text.last() {
        Some(last) => *last == b'0',
        None => false,
    }
}

/// Where the first byte is that is no zero.
fn no_zero(text: &[u8]) -> Option<usize>
    ensures at { result ≡ position is_no_zero text.now }
    ensures within { IfSome result (λ n. n < length text.now) }
{
    text.iter().position(|b| *b != b'0')
}

/// Whether digits behind `0.` need no exponent.
fn is_small(text: &[u8]) -> bool
    ensures { result ≡ is_small text.now }
{
    match no_zero(text) {
        None => true,
        Some(n) => n <= 3 && text.len() - n <= 17,
    }
}

/// Whether there are not too many digits before and behind a point.
fn fits(whole: &[u8], rest: &[u8]) -> bool
    ensures { result ≡ fits whole.now rest.now }
{
    if is_one_zero(whole) {
        return is_small(rest);
    }
    whole.len() <= 17 && rest.len() <= 17 && whole.len() + rest.len() <= 17
}

/// Whether texts before and behind a point are a number.
fn is_point_between(whole: &[u8], rest: &[u8]) -> bool
    ensures { result ≡ is_point_between whole.now rest.now }
{
    if !is_natural(whole) {
        return false;
    }
    if !are_digits(rest) {
        return false;
    }
    if !is_one_zero(rest) && ends_in_zero(rest) {
        return false;
    }
    fits(whole, rest)
}

/// Whether a text is a number without an exponent.
fn is_plain(text: &[u8]) -> bool
    ensures { result ≡ is_plain text.now }
{
    match point(text) {
        None => is_natural(text) && text.len() <= 17,
        Some(n) => is_point_between(&text[..n], &text[n + 1..]),
    }
}

/// Whether a text is one digit, and no zero.
fn is_first_digit(text: &[u8]) -> bool
    ensures { result ≡ is_first_digit text.now }
{
    text.len() == 1 && are_digits(text) && !is_one_zero(text)
}

/// Whether a text is a number before an exponent.
fn is_mantissa(text: &[u8]) -> bool
    ensures { result ≡ is_mantissa text.now }
{
    match point(text) {
        None => is_first_digit(text),
        Some(n) => {
            if !is_first_digit(&text[..n]) {
                return false;
            }
            if !are_digits(&text[n + 1..]) {
                return false;
            }
            !ends_in_zero(text) && text.len() <= 18
        }
    }
}

/// Whether a text has a sign in front.
fn is_signed(text: &[u8]) -> bool
    ensures { result ≡ (starts_with 43 text.now || starts_with 45 text.now) }
{
    starts_with(b'+', text) || starts_with(b'-', text)
}

/// Whether a text is an exponent.
fn is_exponent(text: &[u8]) -> bool
    ensures { result ≡ is_exponent text.now }
{
    if !is_signed(text) {
        return false;
    }
    if text.len() < 3 {
        return false;
    }
    if text.len() > 4 {
        return false;
    }
    if text.len() != 3 && text[1] == b'0' {
        return false;
    }
    all_digits(&text[1..])
}

/// Whether a number with this exponent has one.
fn is_far(text: &[u8]) -> bool
    requires { 3 ≤ length text.now }
    ensures { result ≡ is_far text.now }
{
    if text.len() == 4 {
        return true;
    }
    let tens = text[1];
    let ones = text[2];
    if starts_with(b'+', text) {
        b'1' < tens || (tens == b'1' && b'6' <= ones)
    } else {
        b'0' < tens || b'5' <= ones
    }
}

/// Whether a text is an exponent of a number that has one.
fn is_far_exponent(text: &[u8]) -> bool
    ensures { result ≡ (is_exponent text.now && is_far text.now) }
{
    if text.len() < 3 {
        return false;
    }
    is_exponent(text) && is_far(text)
}

/// Whether a text is a float without a sign that is finite.
fn is_finite(text: &[u8]) -> bool
    ensures { result ≡ is_finite text.now }
{
    match letter_e(text) {
        None => is_plain(text),
        Some(n) => is_mantissa(&text[..n]) && is_far_exponent(&text[n + 1..]),
    }
}

/// Whether a text is the line of FLOAT.
pub(crate) fn is_float_line(text: &[u8]) -> bool
    ensures { result ≡ is_float_line text.now }
{
    if text == b"nan".as_slice() {
        return true;
    }
    let size = unsigned(text);
    size == b"inf".as_slice() || is_finite(size)
}
