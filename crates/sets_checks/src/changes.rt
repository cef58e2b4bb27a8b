use crate::words::{has, set_of};
use sets::number_set::{NumberSet, PortSet};

// Whatever was put in, each number alone is changed, and a number above 15 changes nothing.
#[test]
fn insert_adds_one_number(rt: HostRuntime) {
    for bits in (0..=u16::MAX).step_by(7) {
        for number in 0..=20u8 {
            let mut set: PortSet = set_of(bits);
            set.insert(number);
            for other in 0..=20u8 {
                let wanted = has(bits, other) || (other == number && number < 16);
                assert_eq!(rt; set.contains(other), wanted);
            }
        }
    }
}

#[test]
fn remove_takes_one_number_out(rt: HostRuntime) {
    for bits in (0..=u16::MAX).step_by(7) {
        for number in 0..=20u8 {
            let mut set: PortSet = set_of(bits);
            set.remove(number);
            for other in 0..=20u8 {
                assert_eq!(rt; set.contains(other), has(bits, other) && other != number);
            }
        }
    }
}

// A size that is no power of two, none at all, and one beyond the word.
#[test]
fn sets_of_other_sizes(rt: HostRuntime) {
    let mut five: NumberSet<5> = set_of(u16::MAX);
    assert!(rt; five.contains(4) && !five.contains(5));
    assert_eq!(rt; five.highest(), Some(4));
    five.insert(5);
    assert!(rt; !five.contains(5));

    let none: NumberSet<0> = set_of(u16::MAX);
    assert!(rt; none.is_empty());
    assert_eq!(rt; none.next_after(3), None);

    let mut twenty: NumberSet<20> = set_of(u16::MAX);
    twenty.insert(16);
    assert!(rt; twenty.contains(15) && !twenty.contains(16));
}

#[test]
fn a_set_is_written_as_its_numbers(rt: HostRuntime) -> Result<(), std::test::Fail> {
    let set: PortSet = set_of(0b1000_0000_0000_1001);
    assert_eq!(rt; format!(in rt.alloc(); "{set:?}")?.as_str(), "{0, 3, 15}");
    assert_eq!(rt;
        format!(in rt.alloc(); "{:?}", PortSet::empty())?.as_str(),
        "{}"
    );
    Ok(())
}
