//! A law of the definitions. The function does nothing: what it ensures holds of all lines.

ghost use Rattle.opcode_lines.specs.Readable.{EntryLinesReadBack};

/// Each line of the table is read back as its object.
pub fn entry_lines_read_back()
    ensures { EntryLinesReadBack }
{}
