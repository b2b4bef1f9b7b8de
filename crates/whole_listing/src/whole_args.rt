//! The texts of arguments that are read back to the same bytes.

ghost use Rattle.std.specs.Prelude.{◌≡◌, ◌≤◌, OnOk};
ghost use Rattle.pickle_io.specs.Device.{Writes};
ghost use Rattle.opcode_assembler.specs.Canonical.{hex_text};
ghost use Rattle.whole_listing.specs.WholeArgs.{whole_args};

use opcode_assembler::is_canonical;
use pickle_io::{Failed, Page, write_hex};
use pickle_list::ArgWriter;
use pickle_ops::{OpRef, write_arg};

/// Writes all bytes of an argument.
#[tactic(auto, using(pickle_io::proofs::Devices::page_steps), unfolding(opcode_assembler::specs::Canonical::hex_text))]
fn write_hex_text<P: Page>(arg: &[u8], page: &mut P) -> Result<(), Failed>
    ensures text { Writes (P.told page.old) (P.told page.new) result (hex_text arg.now) }
    ensures room { OnOk result (60 ≤ P.room page.new) }
{
    page.make_room()?;
    page.push_text(b"hex:");
    write_hex(arg, page)
}

/// Each argument by a text that is read back to the same bytes: its own, if that is.
pub struct WholeArgs;

impl ArgWriter for WholeArgs {
    ghost texts = { whole_args };

    #[tactic(auto, using(crate::proofs::Texts::own_text, crate::proofs::Texts::all_bytes))]
    fn write_text<P: Page>(op: &OpRef<'_>, page: &mut P) -> Result<(), Failed> {
        if is_canonical(op) {
            write_arg(op, page)
        } else {
            write_hex_text(op.arg(), page)
        }
    }
}
