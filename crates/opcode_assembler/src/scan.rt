//! What each byte of a text in quotes says.

ghost use Rattle.std.specs.Prelude.{◌≡◌, ◌<◌, IfSome};
ghost use Rattle.hex.specs.Hex.{hex_digit_value};
ghost use Rattle.opcode_assembler.specs.Quotes.{escape_of, step_of};

/// Where in a text its next byte stands.
#[derive(Clone, Copy, PartialEq, Eq)]
pub(crate) enum Mode {
    /// Between escapes.
    Plain,
    /// Behind a backslash.
    Escape,
    /// Behind `\x`.
    High,
    /// Behind `\x` and the digit of this value.
    Low(u8),
}

/// What a byte says.
#[derive(Clone, Copy, PartialEq, Eq)]
pub(crate) enum Step {
    /// The text ends.
    End,
    /// The byte may not stand here.
    Wrong,
    /// An escape goes on.
    Goes(Mode),
    /// The text has this byte.
    Byte(u8),
}

/// The value of a hexadecimal digit of either case.
fn digit_of(byte: u8) -> Option<u8>
    ensures value { result ≡ hex_digit_value byte }
    ensures small { IfSome result (λ v. v < 16) }
{
    match byte {
        b'A'..=b'F' => Some(byte - 55),
        b'a'..=b'f' => Some(byte - 87),
        b'0'..=b'9' => Some(byte - 48),
        _ => None,
    }
}

/// A byte behind a backslash.
fn escape_of(byte: u8) -> Step
    ensures { result ≡ escape_of byte }
{
    if byte == b'\\' || byte == b'\'' || byte == b'"' {
        Step::Byte(byte)
    } else if byte == b'x' {
        Step::Goes(Mode::High)
    } else if byte == b'n' {
        Step::Byte(b'\n')
    } else if byte == b'r' {
        Step::Byte(b'\r')
    } else if byte == b't' {
        Step::Byte(b'\t')
    } else {
        Step::Wrong
    }
}

/// The first digit of an escape.
fn high_step(byte: u8) -> Step
    ensures { result ≡ step_of 0 Mode.High byte }
{
    match digit_of(byte) {
        Some(_) => Step::Goes(Mode::Low(byte)),
        None => Step::Wrong,
    }
}

/// The second digit of an escape, behind the first.
fn low_step(first: u8, byte: u8) -> Step
    ensures { result ≡ step_of 0 (Mode.Low first) byte }
{
    match digit_of(first) {
        None => Step::Wrong,
        Some(high) => match digit_of(byte) {
            None => Step::Wrong,
            Some(low) => Step::Byte(16 * high + low),
        },
    }
}

/// A byte between escapes, in a text that this quote ends.
fn plain_step(quote: u8, byte: u8) -> Step
    ensures { result ≡ step_of quote Mode.Plain byte }
{
    if byte == quote {
        Step::End
    } else if byte == b'\\' {
        Step::Goes(Mode::Escape)
    } else {
        Step::Byte(byte)
    }
}

/// What the next byte of a text says that this quote ends.
pub(crate) fn step_of(quote: u8, mode: Mode, byte: u8) -> Step
    ensures { result ≡ step_of quote mode byte }
{
    match mode {
        Mode::Plain => plain_step(quote, byte),
        Mode::Escape => escape_of(byte),
        Mode::High => high_step(byte),
        Mode::Low(first) => low_step(first, byte),
    }
}
