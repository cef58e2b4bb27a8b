//! How a set is built by a loop, and how a loop goes over one: each with a contract that says all of it.
ghost use Rattle.std.specs.Prelude.{◌≡◌, ◌+◌, ◌%◌, ◌<◌, ℕ, cond, map, nat_lt, slice_index};
ghost use Rattle.sets.specs.Sets.{holds, rising};

use sets::number_set::{ClassSet, PortSet};

/// The classes in whose queue something stands.
#[tactic(auto, using(sets::proofs::ByNumber::tried_none, sets::proofs::ByNumber::tried_all))]
pub fn queued(lengths: &[u8; 8]) -> ClassSet
    ensures { result ≡ map (λ class. nat_lt 0 (slice_index lengths.now class)) (rising 8) }
{
    let mut set = ClassSet::empty();
    for class in 0..8u8 {
        if 0 < lengths[usize::from(class)] {
            set.insert(class);
        }
    }
    set
}

/// One more at each port of a set. A count of 255 goes on at 0.
#[tactic(auto, using(sets::proofs::ByNumber::touched_members))]
pub fn counted(counts: &mut [u8; 16], set: &PortSet)
    ensures { (port : ℕ) → port < 16 → slice_index counts.new port ≡
        cond (holds set.now port) ((slice_index counts.old port + 1) % 256) (slice_index counts.old port) }
{
    for port in set.iter() {
        let place = usize::from(port);
        counts[place] = counts[place].wrapping_add(1);
    }
}

#[cfg(test)]
mod tests {
    use super::*;
    use crate::words::set_of;

    #[test]
    fn the_classes_that_hold_something(rt: HostRuntime) {
        assert_eq!(rt; queued(&[0, 3, 0, 0, 1, 0, 0, 255]), set_of(0b1001_0010));
        assert_eq!(rt; queued(&[0; 8]), ClassSet::empty());
    }

    #[test]
    fn one_more_at_each_port_of_the_set(rt: HostRuntime) {
        let mut counts = [7; 16];
        counts[15] = 255;
        counted(&mut counts, &set_of(0b1000_0000_0000_0101));
        assert_eq!(rt; counts, [8, 7, 8, 7, 7, 7, 7, 7, 7, 7, 7, 7, 7, 7, 7, 0]);
    }
}
