//! The lines of UNICODE and STRING.

ghost use Rattle.std.specs.Prelude.{◌≡◌, ◌==◌, ◌&&◌, ◌||◌, ◌-◌, ◌<◌, not, nat_le, get_or, length, take, drop, fold, IfSome};
ghost use Rattle.std.specs.List.{list_all};
ghost use Rattle.pickle_form.specs.Inside.{is_no_slash};
ghost use Rattle.pickle_form.specs.Escape.{hex_digit, is_escaped_byte, may_be_spelled, raw_begin, raw_part, raw_digits, raw_after_slash, raw_plain, is_raw_text, ends_plain, has_number, quoted_begin, quoted_after, between, ends_quoted, is_repr};

/// What of a line was read.
#[derive(Clone, Copy, Debug, PartialEq, Eq)]
pub enum Part {
    /// Bytes of the text.
    Plain,
    /// A backslash.
    Slash,
    /// Digits of an escape.
    Digits,
    /// Something that no pickler writes.
    Wrong,
}

/// How far the line of a UNICODE is read.
#[derive(Clone, Copy)]
pub struct RawText {
    /// What was read last.
    pub part: Part,
    /// How many digits are to come.
    pub left: u8,
    /// Whether the escape has eight digits.
    pub wide: bool,
    /// The number of the digits so far.
    pub number: u32,
}

/// How far the line of a STRING is read.
#[derive(Clone, Copy)]
pub struct Quoted {
    /// Its quote.
    pub quote: u8,
    /// What was read last.
    pub part: Part,
    /// How many digits are to come.
    pub left: u8,
    /// The number of the digits so far.
    pub number: u32,
    /// Whether a single quote was read.
    pub single: bool,
    /// Whether a double quote was read.
    pub double: bool,
}

/// The number of a hexadecimal digit in small letters.
fn hex_digit(byte: u8) -> Option<u8>
    ensures value { result ≡ hex_digit byte }
    ensures small { IfSome result (λ digit. digit < 16) }
{
    if 48 <= byte && byte <= 57 {
        Some(byte - 48)
    } else if 97 <= byte && byte <= 102 {
        Some(byte - 87)
    } else {
        None
    }
}

/// Whether a byte of a UNICODE is escaped although a byte stands for it.
fn is_escaped_byte(number: u32) -> bool
    ensures { result ≡ is_escaped_byte number }
{
    match number {
        0 => true,
        10 => true,
        13 => true,
        26 => true,
        92 => true,
        _ => false,
    }
}

/// Whether a character may be spelled by four digits, or by eight.
fn may_be_spelled(wide: bool, number: u32) -> bool
    ensures { result ≡ may_be_spelled wide number }
{
    if wide {
        65_536 <= number && number <= 1_114_111
    } else {
        256 <= number || is_escaped_byte(number)
    }
}

/// Nothing but this was read last.
fn raw_part(part: Part) -> RawText
    ensures { result ≡ raw_part part }
{
    RawText {
        part,
        left: 0,
        wide: false,
        number: 0,
    }
}

/// So many digits follow.
fn raw_digits(wide: bool, left: u8) -> RawText
    ensures { result ≡ raw_digits wide left }
{
    RawText {
        part: Part::Digits,
        left,
        wide,
        number: 0,
    }
}

/// After a byte behind a backslash.
fn raw_after_slash(byte: u8) -> RawText
    ensures { result ≡ raw_after_slash byte }
{
    if byte == b'u' {
        raw_digits(false, 4)
    } else if byte == b'U' {
        raw_digits(true, 8)
    } else {
        raw_part(Part::Wrong)
    }
}

/// After a byte of the text.
fn raw_plain(byte: u8) -> RawText
    ensures { result ≡ raw_plain byte }
{
    if byte == b'\\' {
        raw_part(Part::Slash)
    } else {
        raw_part(Part::Plain)
    }
}

impl RawText {
    ghost use Rattle.std.specs.Prelude.{◌≡◌, ◌<◌};
    ghost use Rattle.pickle_form.specs.Escape.{raw_numbered, raw_with_digit, raw_after, hex_digit};

    /// After a digit that makes this number.
    fn numbered(self, number: u32) -> RawText
        ensures { result ≡ raw_numbered self number }
    {
        if 1 < self.left {
            RawText {
                part: Part::Digits,
                left: self.left - 1,
                wide: self.wide,
                number,
            }
        } else if may_be_spelled(self.wide, number) {
            raw_part(Part::Plain)
        } else {
            raw_part(Part::Wrong)
        }
    }

    /// With a digit more.
    fn with_digit(self, byte: u8) -> RawText
        ensures { result ≡ raw_with_digit self (hex_digit byte) }
    {
        let Some(digit) = hex_digit(byte) else {
            return raw_part(Part::Wrong);
        };
        let Some(sixteen) = self.number.checked_mul(16) else {
            return raw_part(Part::Wrong);
        };
        match sixteen.checked_add(u32::from(digit)) {
            Some(number) => self.numbered(number),
            None => raw_part(Part::Wrong),
        }
    }

    /// After a byte.
    fn after(self, byte: u8) -> RawText
        ensures { result ≡ raw_after self byte }
    {
        match self.part {
            Part::Plain => raw_plain(byte),
            Part::Slash => raw_after_slash(byte),
            Part::Digits => self.with_digit(byte),
            Part::Wrong => raw_part(Part::Wrong),
        }
    }
}

/// Whether a line may end so.
fn ends_plain(part: Part) -> bool
    ensures { result ≡ ends_plain part }
{
    matches!(part, Part::Plain)
}

/// Whether there is no backslash.
fn has_no_slash(text: &[u8]) -> bool
    ensures { result ≡ list_all is_no_slash text.now }
{
    for byte in text {
        if *byte == b'\\' {
            return false;
        }
    }
    true
}

/// Whether a text is escaped as picklers escape the line of UNICODE. Most texts have no escapes.
pub(crate) fn is_raw_text(text: &[u8]) -> bool
    ensures { result ≡ is_raw_text text.now }
{
    if has_no_slash(text) {
        return true;
    }
    let mut state = raw_part(Part::Plain);
    for byte in text {
        state = state.after(*byte);
    }
    ends_plain(state.part)
}

/// Whether `repr` of Python 2 writes a byte by its number.
fn has_number(number: u32) -> bool
    ensures { result ≡ has_number number }
{
    match number {
        9 => false,
        10 => false,
        13 => false,
        _ => 127 <= number || number < 32,
    }
}

/// Nothing was read behind the quote.
fn quoted_begin(quote: u8) -> Quoted
    ensures { result ≡ quoted_begin quote }
{
    Quoted {
        quote,
        part: Part::Plain,
        left: 0,
        number: 0,
        single: false,
        double: false,
    }
}

/// Whether the letter of an escape stands for a byte, or a backslash for itself.
fn is_short(byte: u8) -> bool
    ensures { result ≡ (byte == 92 || byte == 110 || byte == 114 || byte == 116) }
{
    match byte {
        b'\\' => true,
        b'n' => true,
        b'r' => true,
        b't' => true,
        _ => false,
    }
}

impl Quoted {
    ghost use Rattle.std.specs.Prelude.{◌≡◌, ◌<◌};
    ghost use Rattle.pickle_form.specs.Escape.{at_part, with_byte, quoted_plain, quoted_after_slash, quoted_numbered, quoted_with_digit, quoted_after, hex_digit, has_right_quotes, ends_quoted};

    /// The same, but for what was read last.
    fn at_part(self, part: Part) -> Quoted
        ensures { result ≡ at_part self part }
    {
        Quoted {
            quote: self.quote,
            part,
            left: 0,
            number: 0,
            single: self.single,
            double: self.double,
        }
    }

    /// With a byte of the text.
    fn with_byte(self, byte: u8) -> Quoted
        ensures { result ≡ with_byte self byte }
    {
        Quoted {
            quote: self.quote,
            part: Part::Plain,
            left: 0,
            number: 0,
            single: self.single || byte == b'\'',
            double: self.double || byte == b'"',
        }
    }

    /// After a byte of the text.
    fn after_plain(self, byte: u8) -> Quoted
        ensures { result ≡ quoted_plain self byte }
    {
        if byte == b'\\' {
            self.at_part(Part::Slash)
        } else if byte == self.quote {
            self.at_part(Part::Wrong)
        } else if 32 <= byte && byte <= 126 {
            self.with_byte(byte)
        } else {
            self.at_part(Part::Wrong)
        }
    }

    /// So many digits are to come behind this number.
    fn digits(self, left: u8, number: u32) -> Quoted
        ensures { result ≡ record { quote = self.quote; part = Part.Digits; left = left; number = number; single = self.single; double = self.double } }
    {
        Quoted {
            quote: self.quote,
            part: Part::Digits,
            left,
            number,
            single: self.single,
            double: self.double,
        }
    }

    /// After a byte behind a backslash.
    fn after_slash(self, byte: u8) -> Quoted
        ensures { result ≡ quoted_after_slash self byte }
    {
        if is_short(byte) {
            self.at_part(Part::Plain)
        } else if byte == b'\'' && self.quote == b'\'' {
            self.with_byte(byte)
        } else if byte == b'x' {
            self.digits(2, 0)
        } else {
            self.at_part(Part::Wrong)
        }
    }

    /// After a digit that makes this number.
    fn numbered(self, number: u32) -> Quoted
        ensures { result ≡ quoted_numbered self number }
    {
        if 1 < self.left {
            self.digits(1, number)
        } else if has_number(number) {
            self.at_part(Part::Plain)
        } else {
            self.at_part(Part::Wrong)
        }
    }

    /// With a digit more.
    fn with_digit(self, byte: u8) -> Quoted
        ensures { result ≡ quoted_with_digit self (hex_digit byte) }
    {
        let Some(digit) = hex_digit(byte) else {
            return self.at_part(Part::Wrong);
        };
        if self.number < 16 {
            self.numbered(16 * self.number + u32::from(digit))
        } else {
            self.at_part(Part::Wrong)
        }
    }

    /// After a byte.
    fn after(self, byte: u8) -> Quoted
        ensures { result ≡ quoted_after self byte }
    {
        match self.part {
            Part::Plain => self.after_plain(byte),
            Part::Slash => self.after_slash(byte),
            Part::Digits => self.with_digit(byte),
            Part::Wrong => self.at_part(Part::Wrong),
        }
    }

    /// Whether there are double quotes only where they save escapes.
    fn has_right_quotes(self) -> bool
        ensures { result ≡ has_right_quotes self }
    {
        if self.quote == b'\'' {
            !self.single || self.double
        } else {
            self.single
        }
    }

    /// Whether the text may end so.
    fn ends(self) -> bool
        ensures { result ≡ ends_quoted self }
    {
        ends_plain(self.part) && self.has_right_quotes()
    }
}

/// What is between the quotes of a line.
fn between(text: &[u8]) -> &[u8]
    ensures { result.now ≡ between text.now }
{
    if text.len() < 2 {
        &[]
    } else {
        &text[1..text.len() - 1]
    }
}

/// What of a text behind a quote was read.
fn read_quoted(quote: u8, text: &[u8]) -> Quoted
    ensures { result ≡ fold quoted_after (quoted_begin quote) text.now }
{
    let mut state = quoted_begin(quote);
    for byte in text {
        state = state.after(*byte);
    }
    state
}

/// Whether a line is what `repr` of Python 2 writes.
pub(crate) fn is_repr(text: &[u8]) -> bool
    ensures { result ≡ is_repr text.now }
{
    match text.first() {
        Some(quote) => read_quoted(*quote, between(text)).ends(),
        None => read_quoted(0, &[]).ends(),
    }
}
