//! Why no pickler writes a pickle so.

/// Why no pickler writes an opcode where it stands.
#[derive(Clone, Copy, Debug, PartialEq, Eq)]
pub enum Reason {
    /// No opcode can be read.
    Unreadable,
    /// A FRAME is inside a frame.
    FrameInFrame,
    /// A frame ends behind the last byte.
    FramePastEnd,
    /// An opcode begins inside a frame and ends behind it.
    FrameCrossed,
    /// A frame has no bytes.
    EmptyFrame,
    /// Four bytes or more have no frame, in protocol 4 or 5.
    NoFrame,
    /// STOP does not end its frame.
    StopInFrame,
    /// PROTO has another number than 2 to 5.
    Protocol,
    /// PROTO does not stand first.
    SecondProtocol,
    /// No pickler writes the opcode.
    NeverWritten,
    /// Picklers write the opcode, or its argument, in other protocols only.
    OtherProtocol,
    /// A number has a shorter form.
    LongNumber,
    /// A length has a shorter form.
    LongLength,
    /// A key of the memo has a shorter form.
    LongKey,
    /// The line of a number is not spelled as picklers spell it.
    NumberText,
    /// The line of a text is not escaped as picklers escape it.
    TextSpelling,
    /// A text is not UTF-8, surrogates allowed.
    NotUtf8,
    /// A name of an import is no plain name.
    Name,
    /// The line of a persistent id is not ASCII.
    PersistentId,
    /// A key of the memo is not the next one.
    KeyOrder,
    /// The memo keeps what was not made right before, or what picklers do not keep.
    NotMade,
    /// Nothing is kept under a key of the memo.
    NoKey,
    /// No mark is open.
    NoMark,
    /// The stack has too few objects above the topmost mark.
    TooFew,
    /// A tuple of up to three objects stands behind a mark.
    TupleSize,
    /// Items go into an object in another number than picklers give at once.
    BatchSize,
    /// A key has no value.
    OddItems,
    /// What is called is no import, nothing that a call made, and nothing from outside.
    NotCallable,
    /// Arguments are no tuple, or keywords no dictionary.
    NotArguments,
    /// Items or a state go into what picklers give none.
    WrongTarget,
    /// BUILD gives None.
    NoState,
    /// READONLY_BUFFER finds no buffer.
    NotBuffer,
    /// Objects are dropped, and nothing comes back from the memo.
    Dropped,
    /// STOP leaves something on the stack, or has nothing.
    LeftOver,
    /// Bytes are behind STOP.
    Behind,
}

impl Reason {
    ghost use Rattle.std.specs.Prelude.{◌≡◌};
    ghost use Rattle.pickle_form.specs.Sentence.{sentence_of};

    /// What it says.
    #[tactic(auto, unfolding(crate::specs::Sentence::sentence_of))]
    pub fn sentence(self) -> &'static str
        ensures { result.now ≡ sentence_of self }
    {
        match self {
            Reason::Unreadable => "no opcode can be read",
            Reason::FrameInFrame => "a frame within a frame",
            Reason::FramePastEnd => "a frame that ends behind the last byte",
            Reason::FrameCrossed => "an opcode that ends behind its frame",
            Reason::EmptyFrame => "a frame of no bytes",
            Reason::NoFrame => "four bytes or more without a frame",
            Reason::StopInFrame => "STOP before the end of its frame",
            Reason::Protocol => "PROTO of another number than 2 to 5",
            Reason::SecondProtocol => "PROTO that does not stand first",
            Reason::NeverWritten => "an opcode that no pickler writes",
            Reason::OtherProtocol => "an opcode or argument of another protocol",
            Reason::LongNumber => "a number that has a shorter form",
            Reason::LongLength => "a length that has a shorter form",
            Reason::LongKey => "a memo key that has a shorter form",
            Reason::NumberText => "a number that no pickler spells so",
            Reason::TextSpelling => "a text that no pickler spells so",
            Reason::NotUtf8 => "a text that is not UTF-8",
            Reason::Name => "an import whose names are not plain",
            Reason::PersistentId => "a persistent id that is not ASCII",
            Reason::KeyOrder => "a memo key that is not the next one",
            Reason::NotMade => "the memo keeps what was not just made",
            Reason::NoKey => "a memo key under which nothing is kept",
            Reason::NoMark => "no mark is open",
            Reason::TooFew => "too few objects above the topmost mark",
            Reason::TupleSize => "a tuple that has a shorter form",
            Reason::BatchSize => "items that picklers give in another number at once",
            Reason::OddItems => "a key without a value",
            Reason::NotCallable => "a call of what picklers do not call",
            Reason::NotArguments => "arguments that picklers do not give",
            Reason::WrongTarget => "items or a state for what picklers give none",
            Reason::NoState => "a state that is None",
            Reason::NotBuffer => "READONLY_BUFFER of what is no buffer",
            Reason::Dropped => "objects are dropped that no pickler drops",
            Reason::LeftOver => "STOP where the stack has not one object",
            Reason::Behind => "bytes behind STOP",
        }
    }
}

/// The first place at which a pickle is in no pickler's form.
#[derive(Clone, Copy, Debug, PartialEq, Eq)]
pub struct Other {
    /// How many opcodes are before it.
    pub place: usize,
    /// How many bytes are before it.
    pub offset: u64,
    /// Why no pickler writes this.
    pub reason: Reason,
}
