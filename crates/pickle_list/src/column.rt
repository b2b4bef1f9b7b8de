//! Codes in a column.

ghost use Rattle.std.specs.Prelude.{◌≡◌};
ghost use Rattle.pickle_ops.specs.Table.{code_of};
ghost use Rattle.pickle_list.specs.ListingColumn.{code_cells};

use pickle_ops::{Opcode, opcodes};

macro_rules! code_cells {
    (() { $code:literal $name:literal $protocol:literal $form:ident $row:tt $kind:tt $cells:literal $($rest:tt)* }) => { $cells };
}

/// A colon and a blank, the code of an opcode at the left of a column of four, the character itself where it is visible, and two
/// blanks.
#[tactic(auto, unfolding(hex::specs::Hex::encode_with))]
#[inline(always)]
pub fn code_block(opcode: Opcode) -> &'static [u8; 8]
    ensures { result.now ≡ code_cells (code_of opcode) }
{
    opcodes!(match opcode => code_cells!())
}
