//! What a conversation holds between two bytes.

use debug_json::{Asked, read_asked};
use pickle_script::{LONGEST_LINE, Syntax};
use std::alloc::{AllocError, Global};
use std::marker::Model;

/// The line that has begun, and whether a line was refused. Of a line that is too long no more is held than shows that it is.
#[derive(Drop)]
pub struct Pending {
    line: Vec<u8>,
    refused: bool,
}

impl Model for Pending {
    ghost use Rattle.std.specs.Prelude.{◌<◌, vec_capacity};
    ghost use Rattle.pickle_script.specs.Grammar.{longest};
    ghost use Rattle.pickle_script.specs.Inside.Progress.{Pending};

    ghost Value = { Pending };

    ghost view = { λ p. record { line = p.line.items; refused = p.refused } };

    ghost invariant = { λ p. longest < vec_capacity p.line };
}

impl Pending {
    ghost use Rattle.std.specs.Prelude.{◌≡◌, ◌↔◌, ◌||◌, [], IfOk, IsTrue, false, if◌then◌else◌};
    ghost use Rattle.debug_json.specs.Asked.{IsAsked};
    ghost use Rattle.pickle_script.specs.Inside.Progress.{longer};

    /// No byte of a line, and no line refused. All the room that is ever needed is made here; it fails
    /// only where memory runs out.
    pub fn new(alloc: Global) -> Result<Pending, AllocError>
        ensures { IfOk result (λ p. p ≡ record { line = []; refused = false }) }
    {
        Ok(Pending {
            line: Vec::with_capacity(alloc, LONGEST_LINE + 1)?,
            refused: false,
        })
    }

    /// Adds a byte to the line.
    #[tactic(auto, unfolding(pickle_script::specs::Inside::Progress::longer))]
    pub fn push(&mut self, byte: u8)
        ensures { self.new ≡ record self.old { line = longer self.old.line byte } }
    {
        if self.line.len() <= LONGEST_LINE {
            self.line.push_reserved(byte);
        }
    }

    /// Whether the line has no byte.
    pub fn is_empty(&self) -> bool
        ensures { IsTrue result ↔ (self.now.line ≡ []) }
    {
        self.line.is_empty()
    }

    /// What the line asks for. The bytes of an opcode are read into memory; where there is none the line says `Syntax::Memory`.
    pub fn says(&self, alloc: Global) -> Result<Asked, Syntax>
        ensures { IsAsked self.now.line result }
    {
        read_asked(alloc, self.line.as_slice())
    }

    /// Begins another line; the one that ends may have been refused.
    pub fn end_line(&mut self, refused: bool)
        ensures { self.new ≡ record { line = []; refused = (self.old.refused || refused) } }
    {
        self.line.clear();
        self.refused = self.refused || refused;
    }

    /// The status: 1 where a line was refused, else 0.
    pub fn status(&self) -> u8
        ensures { result ≡ (if self.now.refused then 1 else 0) }
    {
        u8::from(self.refused)
    }
}
