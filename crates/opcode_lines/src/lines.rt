//! The lines of the table. `Failed` where the sink fails; a beginning of the text was written then.

ghost use Rattle.std.specs.Prelude.{◌≡◌};
ghost use Rattle.pickle_io.specs.Device.{Writes, each};
ghost use Rattle.json_lines.specs.Line.{fields_text};
ghost use Rattle.opcode_lines.specs.EntryFields.{spelling_fields, row_fields, deed_fields, entry_fields, entry_line, table_text};

use crate::form::form_name;
use crate::row::{makes_object, object_of, row_name};
use crate::words::{argument_of, leaves_of, sentence_of, takes_of};
use json_lines::{begin_line, end_line, write_bool_field, write_number_field, write_text_field};
use pickle_io::{Failed, Page};
use pickle_ops::{Opcode, opcodes};

macro_rules! one {
    ($op:ident) => { 1 };
}

macro_rules! count {
    ($($op:ident $record:tt)*) => { 0 $(+ one!($op))* };
}

macro_rules! all {
    ($($op:ident $record:tt)*) => { [$(Opcode::$op),*] };
}

/// How many opcodes there are.
const COUNT: usize = opcodes!([count]);

/// Every opcode, in the order of the table.
pub const ALL: [Opcode; COUNT] = opcodes!([all]);

/// Writes how an opcode is written.
fn write_spelling<P: Page>(opcode: Opcode, page: &mut P) -> Result<(), Failed>
    ensures { Writes (P.told page.old) (P.told page.new) result (fields_text (spelling_fields opcode)) }
{
    write_text_field("name", opcode.name(), page)?;
    write_number_field("code", u64::from(opcode.code()), page)?;
    write_number_field("protocol", u64::from(opcode.protocol()), page)?;
    write_text_field("form", form_name(opcode.form()), page)?;
    write_text_field("argument", argument_of(opcode), page)
}

/// Writes what the machine does for an opcode.
fn write_row<P: Page>(opcode: Opcode, page: &mut P) -> Result<(), Failed>
    ensures { Writes (P.told page.old) (P.told page.new) result (fields_text (row_fields opcode)) }
{
    write_text_field("row", row_name(opcode), page)?;
    write_bool_field("makes", makes_object(opcode), page)?;
    write_text_field("object_is", object_of(opcode), page)
}

/// Writes what an opcode does.
fn write_deed<P: Page>(opcode: Opcode, page: &mut P) -> Result<(), Failed>
    ensures { Writes (P.told page.old) (P.told page.new) result (fields_text (deed_fields opcode)) }
{
    write_text_field("takes", takes_of(opcode), page)?;
    write_text_field("leaves", leaves_of(opcode), page)?;
    write_text_field("sentence", sentence_of(opcode), page)
}

/// Writes the fields of an opcode.
fn write_fields<P: Page>(opcode: Opcode, page: &mut P) -> Result<(), Failed>
    ensures { Writes (P.told page.old) (P.told page.new) result (fields_text (entry_fields opcode)) }
{
    write_spelling(opcode, page)?;
    write_row(opcode, page)?;
    write_deed(opcode, page)
}

/// Writes the line of an opcode.
fn write_entry<P: Page>(opcode: Opcode, page: &mut P) -> Result<(), Failed>
    ensures { Writes (P.told page.old) (P.told page.new) result (entry_line opcode) }
{
    begin_line("entry", page)?;
    write_fields(opcode, page)?;
    end_line(page)
}

/// Writes the lines of opcodes.
#[tactic(auto, using(pickle_io::proofs::Devices::each_steps))]
fn write_entries<P: Page>(opcodes: &[Opcode], page: &mut P) -> Result<(), Failed>
    ensures { Writes (P.told page.old) (P.told page.new) result (each entry_line opcodes.now) }
{
    for opcode in opcodes {
        write_entry(*opcode, page)?;
    }
    Ok(())
}

/// Writes the table: a line of JSON for each opcode, in the order of `pickletools.opcodes`. `Failed` where the sink fails; a beginning of
/// the table was written then.
pub fn write_opcodes<P: Page>(page: &mut P) -> Result<(), Failed>
    ensures { Writes (P.told page.old) (P.told page.new) result table_text }
{
    write_entries(&ALL, page)
}
