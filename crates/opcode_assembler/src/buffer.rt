//! Bytes in memory of their own.

ghost use Rattle.std.specs.Prelude.{◌≡◌, ◌∷◌, ◌++◌, [], IfOk, IfErr, OnOk};
ghost use Rattle.opcode_assembler.specs.declared.fault.Fault.TheVariants.{Memory};

use crate::fault::Fault;
use std::alloc::Global;

/// Bytes behind others.
pub(crate) fn append(bytes: &mut Vec<u8>, more: &[u8]) -> Result<(), Fault>
    ensures ok { OnOk result (bytes.new.items ≡ bytes.old.items ++ more.now) }
    ensures err { IfErr result (λ f. f ≡ Memory) }
{
    match bytes.extend_from_slice(more) {
        Ok(()) => Ok(()),
        Err(_) => Err(Fault::Memory),
    }
}

/// A byte behind others.
pub(crate) fn push(bytes: &mut Vec<u8>, byte: u8) -> Result<(), Fault>
    ensures ok { OnOk result (bytes.new.items ≡ bytes.old.items ++ byte ∷ []) }
    ensures err { IfErr result (λ f. f ≡ Memory) }
{
    append(bytes, &[byte])
}

/// Bytes of a slice, in memory of their own.
pub(crate) fn copied(alloc: Global, bytes: &[u8]) -> Result<Vec<u8>, Fault>
    ensures ok { IfOk result (λ v. v.items ≡ bytes.now) }
    ensures err { IfErr result (λ f. f ≡ Memory) }
{
    let mut copy = Vec::new(alloc);
    append(&mut copy, bytes)?;
    Ok(copy)
}
