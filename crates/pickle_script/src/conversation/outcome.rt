//! What becomes of the lines of a script.

/// What became of a line that was obeyed.
#[derive(Clone, Copy, Debug, PartialEq, Eq)]
pub enum Outcome {
    /// Its text is no refusal; it may be empty.
    Accepted,
    /// Its text begins with `refused: `.
    Refused,
}

impl Outcome {
    ghost use Rattle.std.specs.Prelude.{◌≡◌};
    ghost use Rattle.pickle_script.specs.Inside.Progress.{was_refused};

    /// Whether it is a refusal.
    pub fn is_refused(self) -> bool
        ensures { result ≡ was_refused self }
    {
        match self {
            Outcome::Accepted => false,
            Outcome::Refused => true,
        }
    }
}

/// Whether a script goes on after the bytes that were taken.
#[derive(Clone, Copy, Debug, PartialEq, Eq)]
pub enum Flow {
    /// The next byte is taken.
    GoesOn,
    /// A line said `quit`: nothing after it is obeyed.
    Quits,
}
