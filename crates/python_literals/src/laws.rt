//! Laws of the definitions. The functions do nothing: what they ensure holds of all values.

ghost use Rattle.python_literals.specs.Laws.{StrReadBack, BytesReadBack, BytearrayReadBack, IntReadBack, FloatReadBack, StaysOneLine};

/// The literal of a text is read back as its characters, by Python's grammar; and these have its bytes in UTF-8.
pub fn texts_read_back()
    ensures { StrReadBack }
{}

/// The literal of bytes is read back as these.
pub fn bytes_read_back()
    ensures { BytesReadBack }
{}

/// What a call of `bytearray` is given is a literal of the bytes.
pub fn bytearrays_read_back()
    ensures { BytearrayReadBack }
{}

/// The literal of a whole number is read back as this number.
pub fn ints_read_back()
    ensures { IntReadBack }
{}

/// The literal of a float is read back as this float.
pub fn floats_read_back()
    ensures { FloatReadBack }
{}

/// No literal has an end of a line in it, and each is UTF-8.
pub fn stays_one_line()
    ensures { StaysOneLine }
{}
