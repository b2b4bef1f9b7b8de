//! The expression of an object where it is used: its literal, or its name.

ghost use Rattle.std.specs.Prelude.{◌≡◌, slice_get};
ghost use Rattle.std.specs.Option.{option_map_or};
ghost use Rattle.pickle_io.specs.Device.{Writes};
ghost use Rattle.pickle_source.specs.Fact.{fact_at, is_named};
ghost use Rattle.source_texts.specs.Held.{held_text};
ghost use Rattle.source_texts.specs.Name.{name_text};
ghost use Rattle.source_texts.specs.Expression.{unnamed_text, expression_in};

use crate::held::write_held;
use crate::literals::Literals;
use crate::name::write_name;
use pickle_io::{Failed, Page};
use pickle_machine::Machine;
use pickle_ops::{ObjId, Object};
use pickle_source::{Fact, fact_at, is_named};

/// Who says what stands for an object.
pub trait Say {
    ghost use Rattle.std.specs.Prelude.{ℕ, List};
    ghost use Rattle.pickle_io.specs.Device.{Writes};

    // What stands for the object of this number.
    ghost says: { Self → ℕ → List ℕ };

    /// Writes what stands for the object of this number. `Failed` where the sink fails; a beginning of it was written then.
    fn say<S: Page>(&self, id: ObjId, page: &mut S) -> Result<(), Failed>
        ensures { Writes (S.told page.old) (S.told page.new) result (says self.now id) };
}

/// Each object by its name.
pub struct ByName<'a, L> {
    /// How literals are spelled.
    pub literals: &'a L,
    /// The machine that has the objects.
    pub machine: &'a Machine,
}

impl<'a, L> Drop for ByName<'a, L> {
    fn drop(self) {
        let ByName {
            literals: _literals,
            machine: _machine,
        } = self;
    }
}

impl<'a, L: Literals> Say for ByName<'a, L> {
    ghost says = { λ s id. name_text (L.names s.literals.now) s.machine.now.state.heap id };

    fn say<S: Page>(&self, id: ObjId, page: &mut S) -> Result<(), Failed> {
        write_name(self.literals, self.machine, id, page)
    }
}

/// Each object by its expression, in which brackets stand one deeper than in those of what it holds.
pub struct Within<'a, L, P> {
    /// How literals are spelled.
    pub literals: &'a L,
    /// The machine that has the objects.
    pub machine: &'a Machine,
    /// What is known of the objects.
    pub facts: &'a [Fact],
    /// Who says what stands for what an object holds.
    pub inner: P,
}

impl<'a, L, P: Drop> Drop for Within<'a, L, P> {
    fn drop(self) {
        let Within {
            literals: _literals,
            machine: _machine,
            facts: _facts,
            inner: _inner,
        } = self;
    }
}

/// Writes an object that is no plain value: its literal, or its name.
#[tactic(auto, unfolding(crate::specs::Expression::unnamed_text))]
fn write_unnamed<L: Literals, P: Say, S: Page>(
    literals: &L,
    machine: &Machine,
    facts: &[Fact],
    inner: &P,
    id: ObjId,
    object: &Object,
    page: &mut S,
) -> Result<(), Failed>
    ensures { Writes (S.told page.old) (S.told page.new) result (unnamed_text (L.value literals.now) (L.names literals.now) machine.now.state.heap facts.now (P.says inner.now) id object.now) }
{
    if is_named(object.kind(), fact_at(facts, id)) {
        write_name(literals, machine, id, page)
    } else {
        write_held(
            literals,
            inner,
            object.kind(),
            object.parts(),
            object.changes(),
            page,
        )
    }
}

/// Writes the expression of the object of this number.
#[tactic(auto, unfolding(crate::specs::Expression::expression_in))]
fn write_expression<L: Literals, P: Say, S: Page>(
    literals: &L,
    machine: &Machine,
    facts: &[Fact],
    inner: &P,
    id: ObjId,
    page: &mut S,
) -> Result<(), Failed>
    ensures { Writes (S.told page.old) (S.told page.new) result (expression_in (L.value literals.now) (L.names literals.now) machine.now.state.heap facts.now (P.says inner.now) id) }
{
    match machine.object(id) {
        Some(object) => write_unnamed(literals, machine, facts, inner, id, object, page),
        None => write_name(literals, machine, id, page),
    }
}

impl<'a, L: Literals, P: Say> Say for Within<'a, L, P> {
    ghost says = { λ s id. expression_in (L.value s.literals.now) (L.names s.literals.now) s.machine.now.state.heap s.facts.now (P.says s.inner) id };

    fn say<S: Page>(&self, id: ObjId, page: &mut S) -> Result<(), Failed> {
        write_expression(
            self.literals,
            self.machine,
            self.facts,
            &self.inner,
            id,
            page,
        )
    }
}
