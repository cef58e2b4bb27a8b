use crate::standing::{ALL, only, picks};
use selector::selector::Selector;
use selector::turns::TakingTurns;
use sets_checks::words::{has, set_of};
use std::test::Fail;

// How many classes have their turn before `class` when `last` was picked last.
fn waits(last: u8, class: u8) -> u8 {
    (class % 8 + 7 - last % 8) % 8
}

// The class of the set that waits least.
fn nearest(bits: u16, last: u8) -> Option<u8> {
    (0..8u8)
        .filter(|class| has(bits, *class))
        .min_by_key(|class| waits(last, *class))
}

// Every set after every class. What the selector remembers then shows in a pick of all classes.
#[test]
fn every_set_after_every_class(rt: HostRuntime) -> Result<(), Fail> {
    for bits in 0..256u16 {
        for last in 0..8u8 {
            let mut turns = TakingTurns::new();
            picks(&rt, &mut turns, 9, only(last), Some(last))?;
            let expected = nearest(bits, last);
            picks(&rt, &mut turns, 9, bits, expected)?;
            picks(
                &rt,
                &mut turns,
                9,
                ALL,
                nearest(ALL, expected.unwrap_or(last)),
            )?;
        }
    }
    Ok(())
}

#[test]
fn a_run_by_hand(rt: HostRuntime) -> Result<(), Fail> {
    let mut turns = TakingTurns::new();
    picks(&rt, &mut turns, 2, 0b0010_0100, Some(2))?;
    picks(&rt, &mut turns, 2, 0b0010_0100, Some(5))?;
    picks(&rt, &mut turns, 2, 0b0010_0100, Some(2))?;
    picks(&rt, &mut turns, 2, 0b0000_0100, Some(2))?;
    picks(&rt, &mut turns, 2, 0b0000_0110, Some(1))?;
    picks(&rt, &mut turns, 2, 0, None)?;
    picks(&rt, &mut turns, 2, 0b1000_0010, Some(7))?;
    picks(&rt, &mut turns, 2, 0b1000_0001, Some(0))
}

// With every class full, eight picks serve each class once, in order.
#[test]
fn eight_picks_serve_every_class(rt: HostRuntime) -> Result<(), Fail> {
    let mut turns = TakingTurns::new();
    for class in 0..8u8 {
        picks(&rt, &mut turns, 0, ALL, Some(class))?;
    }
    Ok(())
}

// How many of so many picks of all classes take this one.
fn times_picked(turns: &mut TakingTurns, class: u8, picks: u8) -> usize {
    (0..picks)
        .filter(|_| turns.pick(4, &set_of(ALL)) == Ok(Some(class)))
        .count()
}

// Wherever they begin, eight picks serve each class once, and eighty serve it ten times.
#[test]
fn every_class_is_served_alike(rt: HostRuntime) -> Result<(), Fail> {
    for first in 0..8u8 {
        for class in 0..8u8 {
            let mut turns = TakingTurns::new();
            picks(&rt, &mut turns, 4, only(first), Some(first))?;
            assert_eq!(rt; times_picked(&mut turns, class, 8), 1);
            assert_eq!(rt; times_picked(&mut turns, class, 80), 10);
        }
    }
    Ok(())
}

// A class that never holds a frame costs the others nothing.
#[test]
fn two_classes_alternate(rt: HostRuntime) -> Result<(), Fail> {
    let mut turns = TakingTurns::new();
    for _ in 0..20 {
        picks(&rt, &mut turns, 1, 0b0100_0010, Some(1))?;
        picks(&rt, &mut turns, 1, 0b0100_0010, Some(6))?;
    }
    Ok(())
}

// Each port goes on from its own last class, whatever was picked at the others.
#[test]
fn every_port_has_a_memory_of_its_own(rt: HostRuntime) -> Result<(), Fail> {
    let mut turns = TakingTurns::new();
    for port in 0..16u8 {
        picks(&rt, &mut turns, port, only(port), Some(port % 8))?;
    }
    for busy in 0..4u8 {
        picks(&rt, &mut turns, 7, only(busy), Some(busy))?;
    }
    for port in 0..16u8 {
        let last = if port == 7 { 3 } else { port % 8 };
        picks(&rt, &mut turns, port, ALL, Some((last + 1) % 8))?;
    }
    Ok(())
}
