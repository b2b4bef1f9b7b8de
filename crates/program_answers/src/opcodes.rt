//! The table of opcodes, over any device.

ghost use Rattle.std.specs.Prelude.{◌≡◌, ◌≢◌, Ok, Err, MatchResult};
ghost use Rattle.pickle_io.specs.Device.{Writes};
ghost use Rattle.program_answers.specs.Device.{device_of};
ghost use Rattle.program_answers.specs.Opcodes.{opcodes_text, TookOpcodes};

use crate::output::write_out;
use crate::task::Format;
use opcode_lines::{write_opcodes, write_sentences};
use pickle_io::{Buffered, Failed, Page, Sink};
use pickle_script::Stop;

/// Writes the table, for people or for programs.
fn write_table<P: Page>(format: Format, page: &mut P) -> Result<(), Failed>
    ensures { Writes (P.told page.old) (P.told page.new) result (opcodes_text format) }
{
    match format {
        Format::Text => write_sentences(page),
        Format::Json => write_opcodes(page),
    }
}

/// The answer of a table that was written, or not: its status is 0.
fn answer_of(written: Result<(), Failed>) -> Result<u8, Stop>
    ensures { MatchResult written (λ _. result ≡ Ok 0) (λ _. result ≡ Err Stop.Write) }
{
    match written {
        Ok(()) => Ok(0),
        Err(_) => Err(Stop::Write),
    }
}

/// Writes the table of opcodes, hands all of it on, and answers the status, which is 0. `Stop::Write` where the device fails: there is no
/// other stop.
pub fn answer_opcodes<K: Sink + Drop>(format: Format, page: &mut Buffered<K>) -> Result<u8, Stop>
    requires { (⟦<Buffered<K> as Sink>⟧.told page.old).held ≡ 0 }
    ensures took { TookOpcodes format (K.told (device_of page.old)) (K.told (device_of page.new)) result }
    ensures handed { result ≢ Err Stop.Write → (⟦<Buffered<K> as Sink>⟧.told page.new).held ≡ 0 }
{
    let written = answer_of(write_table(format, page));
    write_out(page, written)
}
