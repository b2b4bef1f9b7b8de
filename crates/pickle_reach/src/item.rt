//! What an opcode may do to a loader that holds nothing from elsewhere.

ghost use Rattle.std.specs.Prelude.{◌≡◌};
ghost use Rattle.pickle_ops.specs.Table.{form_of};
ghost use Rattle.pickle_ops.specs.Argument.{first_text, second_text};
ghost use Rattle.pickle_reach.specs.Names.{lines_import};
ghost use Rattle.pickle_reach.specs.Item.{reaches, ends, names, is_unread};

use crate::granted::Granted;
use crate::name::{lines_import, text_names};
use crate::number::{begins_float, begins_integer};
use pickle_ops::{Form, OpRef, Opcode};

/// Whether the two lines of an operation may import something.
fn lines_reach(op: &OpRef<'_>) -> bool
    requires { form_of op.now.opcode ≡ Form.Two }
    ensures { result ≡ lines_import (first_text op.now.arg) (second_text op.now.arg) }
{
    let (module_line, member_line) = op.texts();
    lines_import(module_line, member_line)
}

/// Whether something is reached, by a loader that holds a text which may name something, or that does not.
#[tactic(auto, unfolding(crate::specs::Item::reaches))]
pub(crate) fn reaches(granted: Granted, named: bool, op: &OpRef<'_>) -> bool
    ensures { result ≡ reaches granted named op.now }
{
    match op.opcode() {
        Opcode::Global => lines_reach(op),
        Opcode::Inst => lines_reach(op),
        Opcode::StackGlobal => named,
        Opcode::Ext1 => granted.extensions,
        Opcode::Ext2 => granted.extensions,
        Opcode::Ext4 => granted.extensions,
        Opcode::PersId => granted.persistent,
        Opcode::BinPersId => granted.persistent,
        Opcode::NextBuffer => granted.buffers,
        _ => false,
    }
}

/// Whether no number is in its line.
fn is_unread(op: &OpRef<'_>) -> bool
    ensures { result ≡ is_unread op.now.opcode op.now.arg }
{
    match op.opcode() {
        Opcode::Int => !begins_integer(op.payload()),
        Opcode::Long => !begins_integer(op.payload()),
        Opcode::Float => !begins_float(op.payload()),
        _ => false,
    }
}

/// Whether each loader ends there, if nothing is reached.
#[tactic(auto, unfolding(crate::specs::Item::ends))]
pub(crate) fn ends(op: &OpRef<'_>) -> bool
    ensures { result ≡ ends op.now }
{
    match op.opcode() {
        Opcode::Global => true,
        Opcode::Inst => true,
        Opcode::StackGlobal => true,
        Opcode::Ext1 => true,
        Opcode::Ext2 => true,
        Opcode::Ext4 => true,
        Opcode::PersId => true,
        Opcode::BinPersId => true,
        Opcode::NextBuffer => true,
        Opcode::Reduce => true,
        Opcode::NewObj => true,
        Opcode::NewObjEx => true,
        Opcode::Obj => true,
        _ => is_unread(op),
    }
}

/// Whether a text is made that may name a module, or what is in one.
#[tactic(auto, unfolding(crate::specs::Item::names))]
pub(crate) fn names(op: &OpRef<'_>) -> bool
    ensures { result ≡ names op.now }
{
    match op.opcode() {
        Opcode::String => true,
        Opcode::BinString => text_names(op.payload()),
        Opcode::ShortBinString => text_names(op.payload()),
        Opcode::Unicode => text_names(op.payload()),
        Opcode::BinUnicode => text_names(op.payload()),
        Opcode::ShortBinUnicode => text_names(op.payload()),
        Opcode::BinUnicode8 => text_names(op.payload()),
        _ => false,
    }
}
