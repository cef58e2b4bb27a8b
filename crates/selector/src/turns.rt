//! Taking turns: the class after the one picked last goes first.
ghost use Rattle.std.specs.Prelude.{◌≡◌, replicate, slice_index};
ghost use Rattle.selector.specs.Answers.{served, kept, Picked};
ghost use Rattle.selector.specs.Turns.{upward, next_turn, remembers, NextUp};
ghost use Rattle.selector.specs.Orders.{turn_is, turn_none};
ghost use Rattle.selector.specs.Firsts.{none_chosen};
ghost use Rattle.std.proofs.Common.{rules};

use crate::selector::{Selector, place_of};
use fault::refusal::Refusal;
use sets::number_set::{ClassSet, PORTS};

/// Picks the next class upward, and remembers for each port the class picked last.
#[derive(Debug, Clone, Copy, PartialEq, Eq, Drop)]
pub struct TakingTurns {
    last: [u8; PORTS],
}

impl TakingTurns {
    /// As if class 7 had been picked last at every port, so that class 0 has the first turn.
    pub fn new() -> TakingTurns
        ensures { result.last ≡ replicate 16 7 }
    {
        TakingTurns { last: [7; PORTS] }
    }
}

impl Selector for TakingTurns {
    ghost choice = { λ s port held. next_turn (slice_index s.last port) held };

    ghost after = { λ s port held. remembers s port (next_turn (slice_index s.last port) held) };

    ghost below = { λ s port held class e. (turn_is (slice_index s.last port) held class e).0 };

    ghost stands = { λ s port held class e. (turn_is (slice_index s.last port) held class e).1.stands };

    ghost idle = { λ s port held. turn_none (slice_index s.last port) held };

    ghost silent = { λ s port held. none_chosen (next_turn (slice_index s.last port) held) held (λ class e. let h = turn_is (slice_index s.last port) held class e in (h.0, h.1.stands)) };

    ghost keeps = { Prim.search rules };

    fn pick(&mut self, port: u8, standing: &ClassSet) -> Result<Option<u8>, Refusal>
        ensures answer { result ≡ served port (next_turn (slice_index self.old.last port) standing.now) }
        ensures later { self.new ≡ kept port (remembers self.old port (next_turn (slice_index self.old.last port) standing.now)) self.old }
        ensures next { Picked result (NextUp (slice_index self.old.last port) standing.now) }
    {
        let place = place_of(port)?;
        let picked = standing.next_after(self.last[place]);
        if let Some(class) = picked {
            self.last[place] = class;
        }
        Ok(picked)
    }
}
