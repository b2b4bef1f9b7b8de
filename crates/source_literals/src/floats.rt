//! The texts of floats. A float has more than one literal; which of them is written is kept, so that a float is spelled alike wherever it is.

ghost use Rattle.std.specs.Prelude.{◌≡◌, OnOk, IfOk};
ghost use Rattle.source_literals.specs.Floats.{text_in, AreRead};

use arrayvec::ArrayVec;
use pickle_machine::Machine;
use pickle_ops::Kind;
use python_literals::{bits_of, float_text};
use std::alloc::{AllocError, Global};
use std::collections::BTreeMap;

/// The text of a float.
pub struct FloatText {
    /// Its bytes.
    pub bytes: ArrayVec<u8, 40>,
}

impl Drop for FloatText {
    fn drop(self) {
        let FloatText { bytes: _bytes } = self;
    }
}

/// Keeps the text of a float, unless it is there.
fn keep(texts: &mut BTreeMap<u64, FloatText>, bits: u64) -> Result<(), AllocError>
    ensures { OnOk result (AreRead texts.old → AreRead texts.new) }
{
    if texts.contains_key(&bits) {
        return Ok(());
    }
    let text = FloatText {
        bytes: float_text(bits),
    };
    match texts.insert(bits, text) {
        Ok(_) => Ok(()),
        Err(_) => Err(AllocError),
    }
}

/// Keeps the text of an object, if it is a float.
fn keep_of(texts: &mut BTreeMap<u64, FloatText>, kind: &Kind) -> Result<(), AllocError>
    ensures { OnOk result (AreRead texts.old → AreRead texts.new) }
{
    match kind {
        Kind::Float(bytes) => keep(texts, bits_of(bytes.as_slice())),
        _ => Ok(()),
    }
}

/// The texts of all floats that a machine has, by their bits.
pub(crate) fn texts_of(
    alloc: Global,
    machine: &Machine,
) -> Result<BTreeMap<u64, FloatText>, AllocError>
    ensures { IfOk result AreRead }
{
    let mut texts = BTreeMap::new(alloc);
    for object in machine.heap() {
        keep_of(&mut texts, object.kind())?;
    }
    Ok(texts)
}
