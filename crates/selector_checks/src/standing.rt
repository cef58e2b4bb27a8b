// Sets of classes as words, where bit k stands for class k, and a pick of such a set.
use selector::selector::Selector;
use sets_checks::words::set_of;
use std::process::Abort;
use std::test::Fail;

pub const ALL: u16 = 255;

pub fn only(class: u8) -> u16 {
    1 << (class % 8)
}

// Checks what a selector picks for a port when the classes of `bits` hold a frame.
pub fn picks<S: Selector>(
    rt: &impl Abort,
    selector: &mut S,
    port: u8,
    bits: u16,
    picked: Option<u8>,
) -> Result<(), Fail> {
    assert_eq!(rt; selector.pick(port, &set_of(bits))?, picked);
    Ok(())
}
