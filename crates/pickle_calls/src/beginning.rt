//! The first of a list.

ghost use Rattle.std.specs.Prelude.{◌≡◌, take};

/// The first items, at most `most`.
#[tactic(auto, using(crate::proofs::Fronts::front_steps))]
pub fn front<T>(items: &[T], most: usize) -> &[T]
    ensures { result.now ≡ take most items.now }
{
    &items[..most.min(items.len())]
}
