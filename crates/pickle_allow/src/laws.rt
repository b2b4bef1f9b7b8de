//! Laws of lists. These functions do nothing: what they ensure holds of all lists.

ghost use Rattle.pickle_allow.specs.Together.{ListsTogether};
ghost use Rattle.pickle_allow.specs.Words.{NoWordIsAnImport};

/// No entry for extensions, persistent ids or buffers has the name of an import.
pub fn no_word_is_an_import()
    ensures { NoWordIsAnImport }
{}

/// A list, a newline and another list are a list, which has the entries of both.
pub fn lists_together()
    ensures { ListsTogether }
{}
