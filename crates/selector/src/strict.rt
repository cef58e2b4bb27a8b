//! Strict priority: the highest class that holds a frame goes first.
ghost use Rattle.std.specs.Prelude.{◌≡◌};
ghost use Rattle.selector.specs.Answers.{served, kept, Picked};
ghost use Rattle.selector.specs.Strict.{highest, Highest};
ghost use Rattle.selector.specs.Orders.{highest_is, highest_none};
ghost use Rattle.selector.specs.Firsts.{none_chosen};
ghost use Rattle.std.proofs.Common.{rules};

use crate::selector::{Selector, place_of};
use fault::refusal::Refusal;
use sets::number_set::ClassSet;

/// Picks the highest class, and remembers nothing.
#[derive(Debug, Clone, Copy, PartialEq, Eq, Drop)]
pub struct StrictPriority;

impl Selector for StrictPriority {
    ghost choice = { λ _ _ held. highest held };

    ghost after = { λ s _ _. s };

    ghost below = { λ s port held class e. (highest_is held class e).0 };

    ghost stands = { λ s port held class e. (highest_is held class e).1.stands };

    ghost idle = { λ s port held. highest_none held };

    ghost silent = { λ s port held. none_chosen (highest held) held (λ class e. let h = highest_is held class e in (h.0, h.1.stands)) };

    ghost keeps = { Prim.search rules };

    fn pick(&mut self, port: u8, standing: &ClassSet) -> Result<Option<u8>, Refusal>
        ensures answer { result ≡ served port (highest standing.now) }
        ensures later { self.new ≡ kept port self.old self.old }
        ensures highest { Picked result (Highest standing.now) }
    {
        place_of(port)?;
        Ok(standing.highest())
    }
}
