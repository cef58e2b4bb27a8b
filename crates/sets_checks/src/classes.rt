use crate::words::{has, set_of};
use sets::number_set::{ClassSet, NumberSet};

#[test]
fn the_empty_set_holds_nothing(rt: HostRuntime) {
    let set = ClassSet::empty();
    for class in 0..=255u8 {
        assert!(rt; !set.contains(class));
    }
}

#[test]
fn a_set_holds_what_was_put_in(rt: HostRuntime) {
    for bits in 0..256u16 {
        let set: ClassSet = set_of(bits);
        for class in 0..8u8 {
            assert_eq!(rt; set.contains(class), has(bits, class));
        }
        for class in 8..=255u8 {
            assert!(rt; !set.contains(class));
        }
    }
}

#[test]
fn a_number_above_seven_adds_nothing(rt: HostRuntime) {
    for bits in 0..256u16 {
        let mut set: ClassSet = set_of(bits);
        set.insert(8);
        set.insert(255);
        for class in 0..8u8 {
            assert_eq!(rt; set.contains(class), has(bits, class));
        }
        assert!(rt; !set.contains(8));
        assert!(rt; !set.contains(255));
    }
}

// The same set of another size.
#[test]
fn a_set_of_sixteen_holds_fifteen_and_no_sixteen(rt: HostRuntime) {
    let mut set = NumberSet::<16>::empty();
    set.insert(15);
    set.insert(16);
    assert!(rt; set.contains(15));
    assert!(rt; !set.contains(14));
    assert!(rt; !set.contains(16));
}
