//! Sets as words, where bit k stands for the number k.
use sets::number_set::NumberSet;

/// Whether a word has the bit of a number, of which there are sixteen.
pub fn has(bits: u16, number: u8) -> bool {
    number < 16 && bits >> number & 1 == 1
}

/// The set of the numbers below `N` whose bits a word has.
pub fn set_of<const N: usize>(bits: u16) -> NumberSet<N> {
    let mut set = NumberSet::empty();
    for number in 0..16u8 {
        if has(bits, number) {
            set.insert(number);
        }
    }
    set
}
