//! Laws of the verdicts. The functions do nothing: what they ensure holds of all lists and all bytes.

ghost use Rattle.pickle_gate.specs.Verdict.{VerdictsAreTrue, OneVerdict};

/// The verdict is `Passes` exactly where the bytes pass.
pub fn verdicts_are_true()
    ensures { VerdictsAreTrue }
{}

/// Bytes have one verdict and no other.
pub fn one_verdict()
    ensures { OneVerdict }
{}
