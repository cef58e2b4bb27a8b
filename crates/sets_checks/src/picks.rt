use crate::words::{has, set_of};
use sets::number_set::{ClassSet, PortSet};

#[test]
fn the_ends_of_every_set(rt: HostRuntime) {
    for bits in 0..=u16::MAX {
        let set: PortSet = set_of(bits);
        assert_eq!(rt; set.is_empty(), bits == 0);
        assert_eq!(rt; set.lowest(), (0..16u8).find(|number| has(bits, *number)));
        assert_eq!(rt;
            set.highest(),
            (0..16u8).rev().find(|number| has(bits, *number))
        );
    }
}

// Each number comes once, in rising order, and no other comes.
#[test]
fn the_numbers_of_every_set(rt: HostRuntime) {
    for bits in 0..=u16::MAX {
        let set: PortSet = set_of(bits);
        let mut seen = 0;
        let mut least = 0;
        for number in set {
            assert!(rt; least <= number && number < 16);
            seen |= 1u16 << number;
            least = number + 1;
        }
        assert_eq!(rt; seen, bits);
    }
}

// The number that waits least, counted in steps upward and round.
fn nearest(bits: u16, last: u8) -> Option<u8> {
    (0..8u8)
        .filter(|number| has(bits, *number))
        .min_by_key(|number| (*number + 7 - last % 8) % 8)
}

#[test]
fn the_next_after_every_number(rt: HostRuntime) {
    for bits in 0..256u16 {
        let set: ClassSet = set_of(bits);
        for last in 0..=255u8 {
            assert_eq!(rt; set.next_after(last), nearest(bits, last));
        }
    }
}
