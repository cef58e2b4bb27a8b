//! Sets of numbers in one word.
ghost use Rattle.std.specs.Prelude.{◌≡◌, ℕ, ◌&&◌, ◌||◌, false, true, length, map, nat_lt, not, replicate, slice_set};
ghost use Rattle.std.proofs.Common.{rules};
ghost use Rattle.std.specs.Cmp.Rules.{comparing};
ghost use Rattle.std.specs.Cmp.Lexicographic.{pointwise};
ghost use Rattle.sets.specs.Sets.{holds, any_in, same_flag, union, intersection, difference, rising, falling, going_round, first_held, members};
ghost use Rattle.sets.specs.Words.{width};

use crate::members::Members;
use std::fmt;
use std::marker::Model;

/// How many ports a bridge may have, numbered from 0.
pub const PORTS: usize = 16;

/// How many traffic classes a port may have, numbered from 0.
pub const CLASSES: usize = 8;

/// A set of ports, 0 to 15.
pub type PortSet = NumberSet<PORTS>;

/// A set of traffic classes, 0 to 7.
pub type ClassSet = NumberSet<CLASSES>;

/// A set of numbers below `N`, which is at most 16: no number from 16 on is ever in a set.
#[derive(Clone, Copy, Drop)]
pub struct NumberSet<const N: usize> {
    word: u16,
}

impl<const N: usize> Model for NumberSet<N> {
    ghost use Rattle.std.specs.Prelude.{◌<◌, ◌^◌, List, Bool};
    ghost use Rattle.sets.specs.Words.{flags_of, word_of, width};
    ghost use Rattle.sets.specs.Inverse.{word_of-flags_of};

    ghost Value = { List Bool };

    ghost view = { λ s. flags_of (width N) s.word };

    ghost invariant = { λ s. s.word < 2 ^ width N };

    ghost inverse = { λ held. record { word = word_of held } };

    ghost inverse_ok = { λ s h i. record { word = word_of-flags_of (width N) s.word h i } };
}

impl<const N: usize> NumberSet<N> {
    /// The set that has no number in it.
    #[inline]
    #[tactic(auto, using(crate::proofs::Flags::no_flags))]
    pub fn empty() -> Self
        ensures { result ≡ replicate (width N) false }
    {
        NumberSet { word: 0 }
    }

    /// The numbers below `end`.
    #[inline]
    pub fn below(end: u8) -> Self
        ensures { result ≡ map (λ number. nat_lt number end) (rising (width N)) }
    {
        let bits = usize::from(end).min(N).min(16);
        NumberSet {
            word: ((1u32 << bits) - 1) as u16,
        }
    }

    /// Whether the number is in the set.
    #[inline]
    #[tactic(auto, using(crate::proofs::Flags::shifted_bit, crate::proofs::Flags::past_word))]
    pub fn contains(&self, number: u8) -> bool
        ensures { result ≡ holds self.now number }
    {
        number < 16 && self.word >> number & 1 == 1
    }

    /// Whether no number is in the set.
    #[inline]
    #[tactic(auto, using(crate::proofs::Flags::none_in))]
    pub fn is_empty(&self) -> bool
        ensures { result ≡ not (any_in self.now) }
    {
        self.word == 0
    }

    /// Adds a number. One of `N` or more adds nothing.
    #[inline]
    #[tactic(auto, using(crate::proofs::Flags::set_flag, crate::proofs::Flags::set_below, crate::proofs::Flags::set_past_flags))]
    pub fn insert(&mut self, number: u8)
        ensures { self.new ≡ slice_set self.old number true }
    {
        if number < 16 && usize::from(number) < N {
            self.word |= 1 << number;
        }
    }

    /// Takes a number out.
    #[inline]
    #[tactic(auto, using(crate::proofs::Flags::clear_flag, crate::proofs::Flags::set_past_flags))]
    pub fn remove(&mut self, number: u8)
        ensures { self.new ≡ slice_set self.old number false }
    {
        if number < 16 {
            self.word &= !(1 << number);
        }
    }

    /// The numbers that are in this set, in the other, or in both.
    #[inline]
    #[tactic(auto, using(crate::proofs::Flags::union_flags, crate::proofs::Flags::in_union, std::proofs::lemmas::Nat::or_lt))]
    pub fn union(&self, other: &Self) -> Self
        ensures set { result ≡ union self.now other.now }
        ensures each { (number : ℕ) → holds result number ≡ (holds self.now number || holds other.now number) }
    {
        NumberSet {
            word: self.word | other.word,
        }
    }

    /// The numbers that are in both sets.
    #[inline]
    #[tactic(auto, using(crate::proofs::Flags::intersection_flags, crate::proofs::Flags::in_intersection))]
    pub fn intersection(&self, other: &Self) -> Self
        ensures set { result ≡ intersection self.now other.now }
        ensures each { (number : ℕ) → holds result number ≡ (holds self.now number && holds other.now number) }
    {
        NumberSet {
            word: self.word & other.word,
        }
    }

    /// The numbers of this set that are not in the other.
    #[inline]
    #[tactic(auto, using(crate::proofs::Flags::difference_flags, crate::proofs::Flags::in_difference))]
    pub fn difference(&self, other: &Self) -> Self
        ensures set { result ≡ difference self.now other.now }
        ensures each { (number : ℕ) → holds result number ≡ (holds self.now number && not (holds other.now number)) }
    {
        NumberSet {
            word: self.word & !other.word,
        }
    }

    /// The lowest number in the set.
    #[inline]
    #[tactic(auto, using(crate::proofs::Picks::lowest_none, crate::proofs::Picks::lowest_bit))]
    pub fn lowest(&self) -> Option<u8>
        ensures { result ≡ first_held (rising (width N)) self.now }
    {
        if self.word == 0 {
            return None;
        }
        Some(self.word.trailing_zeros() as u8)
    }

    /// The highest number in the set.
    #[inline]
    #[tactic(auto, using(crate::proofs::Picks::highest_none, crate::proofs::Picks::highest_bit))]
    pub fn highest(&self) -> Option<u8>
        ensures { result ≡ first_held (falling (width N)) self.now }
    {
        if self.word == 0 {
            return None;
        }
        Some(self.word.ilog2() as u8)
    }

    /// The number of the set that has the next turn after `last`: the next one upward, and past the
    /// highest the lowest. `last` itself has its turn last of all. A `last` of `N` or more counts as its
    /// remainder by `N`.
    #[inline]
    #[tactic(auto, using(crate::proofs::Picks::next_none, crate::proofs::Picks::next_bit, crate::proofs::Picks::next_bit_round))]
    pub fn next_after(&self, last: u8) -> Option<u8>
        ensures { result ≡ first_held (going_round (width N) last) self.now }
    {
        if self.word == 0 {
            return None;
        }
        let from = last % (N.min(16) as u8);
        let above = self.word >> from >> 1;
        let next = if above == 0 {
            self.word.trailing_zeros() as u8
        } else {
            from + 1 + above.trailing_zeros() as u8
        };
        Some(next)
    }

    /// The numbers in the set, in rising order.
    #[inline]
    #[tactic(auto, using(crate::proofs::Flags::count_of_flags))]
    pub fn iter(&self) -> Members<N>
        ensures numbers { result ≡ members self.now }
        ensures size { length self.now ≡ width N }
    {
        Members {
            left: NumberSet { word: self.word },
        }
    }
}

impl<const N: usize> PartialEq for NumberSet<N> {
    ghost eq = { pointwise same_flag };

    ghost laws = { Prim.search (comparing, rules) };

    #[inline]
    #[tactic(auto, using(crate::proofs::Flags::same_flags))]
    fn eq(&self, other: &Self) -> bool {
        self.word == other.word
    }
}

impl<const N: usize> Eq for NumberSet<N> {
    ghost laws = { Prim.search (comparing, rules) };
}

impl<const N: usize> fmt::Debug for NumberSet<N> {
    /// Writes the numbers, as `{0, 3}`.
    fn fmt<W: fmt::Write>(&self, f: &mut fmt::Formatter<W>) -> fmt::Result {
        f.debug_set().entries(self.iter()).finish()
    }
}
