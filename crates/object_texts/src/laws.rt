//! Laws of the definitions. The functions do nothing: what they ensure holds of all documents.

ghost use Rattle.object_texts.specs.Report.{OneReport};

/// A document has just one report, with just one status.
pub fn one_report()
    ensures { OneReport }
{}
