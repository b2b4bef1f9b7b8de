//! How literals are spelled.

use pickle_io::{Failed, Page};
use pickle_names::Coding;
use pickle_ops::Kind;

/// Who spells literals.
pub trait Literals {
    ghost use Rattle.std.specs.Prelude.{◌≡◌, ℕ, List, Bool};
    ghost use Rattle.pickle_io.specs.Device.{Writes};
    ghost use Rattle.pickle_ops.specs.declared.kind.Kind.{Kind as KindData};
    ghost use Rattle.pickle_names.specs.declared.coding.Coding.{Coding as CodingData};

    // The literal of a plain value or of a byte array; of a value that no literal spells, an expression that gives it.
    ghost value: { Self → KindData → List ℕ };

    // A text, by its bytes and how they are read.
    ghost text: { Self → CodingData → List ℕ → List ℕ };

    // It is a name in Python.
    ghost names: { Self → List ℕ → Bool };

    // It is the name of a module that a statement can import from: names with dots between them.
    ghost modules: { Self → List ℕ → Bool };

    /// Writes a plain value or a byte array. `Failed` where the sink fails; a beginning of the literal was written then.
    fn write_value<S: Page>(&self, kind: &Kind, page: &mut S) -> Result<(), Failed>
        ensures { Writes (S.told page.old) (S.told page.new) result (value self.now kind.now) };

    /// Writes a text that is spelled so. `Failed` where the sink fails; a beginning of the literal was written then.
    fn write_text<S: Page>(&self, coding: Coding, bytes: &[u8], page: &mut S) -> Result<(), Failed>
        ensures { Writes (S.told page.old) (S.told page.new) result (text self.now coding bytes.now) };

    /// Whether a text is a name in Python.
    fn is_name(&self, bytes: &[u8]) -> bool
        ensures { result ≡ names self.now bytes.now };

    /// Whether a text is the name of a module that a statement can import from.
    fn is_module(&self, bytes: &[u8]) -> bool
        ensures { result ≡ modules self.now bytes.now };
}
