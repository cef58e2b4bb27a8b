use crate::words::set_of;
use sets::number_set::ClassSet;

#[test]
fn two_sets_together(rt: HostRuntime) {
    for one in 0..256u16 {
        for other in 0..256u16 {
            let left: ClassSet = set_of(one);
            let right: ClassSet = set_of(other);
            assert_eq!(rt; left.union(&right), set_of(one | other));
            assert_eq!(rt; left.intersection(&right), set_of(one & other));
            assert_eq!(rt; left.difference(&right), set_of(one & !other));
            assert_eq!(rt; left == right, one == other);
        }
    }
}
