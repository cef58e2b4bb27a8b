use crate::standing::{ALL, picks};
use selector::strict::StrictPriority;
use sets_checks::words::has;
use std::test::Fail;

// The greatest of the classes that hold a frame.
fn highest(bits: u16) -> Option<u8> {
    (0..8u8).filter(|class| has(bits, *class)).max()
}

#[test]
fn the_highest_class_of_every_set(rt: HostRuntime) -> Result<(), Fail> {
    let mut strict = StrictPriority;
    for bits in 0..256u16 {
        for port in 0..16u8 {
            picks(&rt, &mut strict, port, bits, highest(bits))?;
        }
    }
    Ok(())
}

#[test]
fn sets_by_hand(rt: HostRuntime) -> Result<(), Fail> {
    let mut strict = StrictPriority;
    picks(&rt, &mut strict, 0, 0b0001_0010, Some(4))?;
    picks(&rt, &mut strict, 15, 0b1000_0001, Some(7))?;
    picks(&rt, &mut strict, 3, 0b0000_0001, Some(0))?;
    picks(&rt, &mut strict, 3, 0, None)
}

#[test]
fn a_full_class_seven_starves_the_others(rt: HostRuntime) -> Result<(), Fail> {
    let mut strict = StrictPriority;
    for _ in 0..80 {
        picks(&rt, &mut strict, 5, ALL, Some(7))?;
    }
    Ok(())
}
