//! What the opcodes come to that were read.

use crate::held::Held;
use crate::reason::Reason;
use crate::run::{Run, is_reduce};
use crate::spelled::spelling_of;
use pickle_ops::{OpRef, Row};
use std::alloc::{AllocError, Global};
use std::marker::Model;

/// What the opcodes of a pickle come to that were read, all of them being as picklers write them.
#[derive(Drop)]
pub struct FormSoFar {
    run: Run,
    held: Held,
}

impl Model for FormSoFar {
    ghost use Rattle.pickle_form.specs.Form.{Before};
    ghost use Rattle.pickle_form.specs.Inside.{before};

    ghost Value = { Before };

    ghost view = { λ f. before f.run f.held };
}

impl FormSoFar {
    ghost use Rattle.std.specs.Prelude.{◌≡◌, ◌+◌, ◌<◌, ◌^◌, IfOk, None};
    ghost use Rattle.pickle_ops.specs.Spelling.{size_of};
    ghost use Rattle.pickle_ops.specs.Row.{row_of};
    ghost use Rattle.pickle_form.specs.Form.{begin, reason_of, after};

    /// Nothing was read.
    pub fn begin(alloc: Global) -> FormSoFar
        ensures { result ≡ begin }
    {
        FormSoFar {
            run: Run::begin(),
            held: Held::new(alloc),
        }
    }

    /// Reads the next opcode, whose row this is: why no pickler writes it here, if none does. Else it counts among those that were read. It
    /// fails only where memory runs out.
    #[inline(always)]
    pub fn take(&mut self, op: &OpRef<'_>, row: Row) -> Result<Option<Reason>, AllocError>
        requires row { row ≡ row_of op.now }
        requires small { self.old.run.loose + size_of op.now < 2 ^ 63 }
        ensures first { IfOk result (λ why. why ≡ reason_of op.now self.old) }
        ensures next { IfOk result (λ why. why ≡ None → self.new ≡ after op.now self.old) }
    {
        let spelled = spelling_of(op);
        if let Some(why) = spelled.why {
            return Ok(Some(why));
        }
        if let Some(why) = self.run.take(op, spelled.last) {
            return Ok(Some(why));
        }
        if let Some(why) = self.held.other_behind_two(is_reduce(op.opcode())) {
            return Ok(Some(why));
        }
        if let Some(why) = self.held.take(self.run.first(), row, spelled.role)? {
            return Ok(Some(why));
        }
        Ok(None)
    }
}
