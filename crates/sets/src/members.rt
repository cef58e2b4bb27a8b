//! Going over the numbers in a set.
ghost use Rattle.std.specs.Prelude.{◌≡◌, ◌<◌, IfSome};
ghost use Rattle.std.specs.Iterator.{YieldsFirst, item_count};
ghost use Rattle.sets.specs.Sets.{members};
ghost use Rattle.sets.specs.Words.{width};

use crate::number_set::NumberSet;
use std::marker::Model;

/// The numbers of a set that are still to come, in rising order.
#[derive(Debug, Clone, Drop)]
pub struct Members<const N: usize> {
    pub(crate) left: NumberSet<N>,
}

impl<const N: usize> Model for Members<N> {
    ghost use Rattle.std.specs.Prelude.{◌≡◌, ℕ, List, length};
    ghost use Rattle.sets.specs.Sets.{members};
    ghost use Rattle.sets.specs.Words.{width};

    ghost Value = { List ℕ };

    ghost view = { λ m. members m.left };

    ghost invariant = { λ m. length m.left ≡ width N };
}

impl<const N: usize> Iterator for Members<N> {
    type Item = u8;

    // The first of the numbers that are left, which is a number that a set of this size may hold.
    ghost next_gives = { λ old number new. YieldsFirst (λ rest. rest) old number new × IfSome number (λ n. n < width N) };

    ghost remaining = { item_count (λ rest. rest) };

    #[inline]
    #[tactic(auto, using(crate::proofs::Rising::no_more, crate::proofs::Rising::one_fewer, crate::proofs::Rising::first_below))]
    fn next(&mut self) -> Option<u8> {
        let lowest = self.left.lowest()?;
        self.left.remove(lowest);
        Some(lowest)
    }
}

impl<const N: usize> IntoIterator for NumberSet<N> {
    type Item = u8;

    type IntoIter = Members<N>;

    ghost into_iter_gives = { λ set numbers. numbers ≡ members set };

    #[inline]
    fn into_iter(self) -> Members<N> {
        self.iter()
    }
}
