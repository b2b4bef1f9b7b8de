//! Literals as Python's `repr` spells them.

ghost use Rattle.std.specs.Prelude.{◌≡◌, IfOk};
ghost use Rattle.pickle_io.specs.Device.{Writes};
ghost use Rattle.source_literals.specs.Floats.{text_in, AreRead};
ghost use Rattle.source_literals.specs.Spelling.{spelled, value_text};
ghost use Rattle.source_literals.specs.Naming.{is_name as names, is_module as modules};

use crate::floats::{FloatText, texts_of};
use crate::name::{is_module, is_name};
use crate::text::write_spelled;
use crate::value::write_value;
use pickle_io::{Failed, Page};
use pickle_machine::Machine;
use pickle_names::Coding;
use pickle_ops::Kind;
use source_texts::Literals;
use std::alloc::{AllocError, Global};
use std::collections::BTreeMap;

/// Who spells literals as Python's `repr` does.
pub struct Python {
    /// The texts of floats, by their bits.
    pub texts: BTreeMap<u64, FloatText>,
}

impl Drop for Python {
    fn drop(self) {
        let Python { texts: _texts } = self;
    }
}

impl Python {
    /// Who spells the literals of what a machine has. An error where there is no memory for the texts of its floats.
    pub fn of(alloc: Global, machine: &Machine) -> Result<Python, AllocError>
        ensures { IfOk result (λ p. AreRead p.texts) }
    {
        let texts = texts_of(alloc, machine)?;
        Ok(Python { texts })
    }
}

impl Literals for Python {
    ghost value = { λ s k. value_text (text_in s.texts) k };

    ghost text = { λ s c bytes. spelled c bytes };

    ghost names = { λ s bytes. names bytes };

    ghost modules = { λ s bytes. modules bytes };

    fn write_value<S: Page>(&self, kind: &Kind, page: &mut S) -> Result<(), Failed> {
        write_value(&self.texts, kind, page)
    }

    fn write_text<S: Page>(
        &self,
        coding: Coding,
        bytes: &[u8],
        page: &mut S,
    ) -> Result<(), Failed> {
        write_spelled(coding, bytes, page)
    }

    fn is_name(&self, bytes: &[u8]) -> bool {
        is_name(bytes)
    }

    fn is_module(&self, bytes: &[u8]) -> bool {
        is_module(bytes)
    }
}
