//! Names that the source has as they are.

ghost use Rattle.std.specs.Prelude.{◌≡◌};
ghost use Rattle.std.specs.List.{list_all, slice_split};
ghost use Rattle.python_literals.specs.Names.{is_identifier as is_word};
ghost use Rattle.source_literals.specs.Naming.{result_word, future_word, is_name, is_point, is_module};

use python_literals::is_identifier;

/// What a result is called.
#[tactic(auto, unfolding(crate::specs::Naming::result_word))]
fn result_word() -> &'static str
    ensures { result.now ≡ result_word }
{
    "result"
}

/// The module from which nothing is imported.
#[tactic(auto, unfolding(crate::specs::Naming::future_word))]
fn future_word() -> &'static str
    ensures { result.now ≡ future_word }
{
    "__future__"
}

/// Whether a text is a name in Python, and no result is called so.
#[tactic(auto, unfolding(crate::specs::Naming::is_name))]
pub(crate) fn is_name(bytes: &[u8]) -> bool
    ensures { result ≡ is_name bytes.now }
{
    is_identifier(bytes) && bytes != result_word().as_bytes()
}

/// Whether names stand in a text, with points between them.
fn are_names(bytes: &[u8]) -> bool
    ensures { result ≡ list_all is_word (slice_split is_point bytes.now) }
{
    bytes
        .split(|byte| *byte == b'.')
        .all(|name| is_identifier(name))
}

/// Whether a text is the name of a module that a statement can import from.
#[tactic(auto, unfolding(crate::specs::Naming::is_module))]
pub(crate) fn is_module(bytes: &[u8]) -> bool
    ensures { result ≡ is_module bytes.now }
{
    are_names(bytes) && bytes != future_word().as_bytes()
}
