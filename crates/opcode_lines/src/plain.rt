//! The table for people: what each opcode does, in a sentence. `Failed` where the sink fails; a beginning of the text was written then.

ghost use Rattle.std.specs.Prelude.{◌≡◌};
ghost use Rattle.pickle_io.specs.Device.{Writes, each};
ghost use Rattle.opcode_lines.specs.EntryFields.{plain_line, plain_text};

use crate::lines::ALL;
use crate::words::sentence_of;
use pickle_io::{Failed, Page, write_all};
use pickle_ops::Opcode;

/// Writes the line of an opcode.
#[tactic(auto, using(pickle_io::proofs::Devices::text_steps), unfolding(crate::specs::EntryFields::plain_line))]
fn write_plain_line<P: Page>(opcode: Opcode, page: &mut P) -> Result<(), Failed>
    ensures { Writes (P.told page.old) (P.told page.new) result (plain_line opcode) }
{
    write_all(page, opcode.name().as_bytes())?;
    write_all(page, b": ")?;
    write_all(page, sentence_of(opcode).as_bytes())?;
    write_all(page, b"\n")
}

/// Writes the lines of opcodes.
#[tactic(auto, using(pickle_io::proofs::Devices::each_steps))]
fn write_plain_lines<P: Page>(opcodes: &[Opcode], page: &mut P) -> Result<(), Failed>
    ensures { Writes (P.told page.old) (P.told page.new) result (each plain_line opcodes.now) }
{
    for opcode in opcodes {
        write_plain_line(*opcode, page)?;
    }
    Ok(())
}

/// Writes the table for people: a line for each opcode, in the order of `pickletools.opcodes`. `Failed` where the sink fails; a beginning of
/// the table was written then.
pub fn write_sentences<P: Page>(page: &mut P) -> Result<(), Failed>
    ensures { Writes (P.told page.old) (P.told page.new) result plain_text }
{
    write_plain_lines(&ALL, page)
}
