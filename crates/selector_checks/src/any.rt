// What holds of every selector, tried at both.
use crate::standing::{ALL, only, picks};
use selector::picking::next_class;
use selector::selector::Selector;
use selector::strict::StrictPriority;
use selector::turns::TakingTurns;
use sets_checks::words::{has, set_of};
use std::process::Abort;
use std::test::Fail;

// A pick is in the set, and none is picked of the empty set alone.
fn picks_what_stands<S: Selector>(rt: &impl Abort, selector: &mut S) -> Result<(), Fail> {
    for bits in 0..256u16 {
        for port in 0..16u8 {
            match next_class(selector, port, &set_of(bits))? {
                Some(class) => assert!(rt; class < 8 && has(bits, class)),
                None => assert!(rt; bits == 0),
            }
        }
    }
    Ok(())
}

// Refusal 2, the number that callers know, at every port above 15, whatever stands there.
fn refuses_other_ports<S: Selector>(rt: &impl Abort, selector: &mut S) {
    for port in 16..=255u8 {
        for bits in [0, 1, 0b1010_0000, ALL] {
            let refusal = next_class(selector, port, &set_of(bits)).expect_err(
                rt,
                "a port above 15 was served",
            );
            assert_eq!(rt; refusal.number(), 2);
        }
    }
}

#[test]
fn strict_priority_picks_what_stands(rt: HostRuntime) -> Result<(), Fail> {
    picks_what_stands(&rt, &mut StrictPriority)
}

#[test]
fn taking_turns_picks_what_stands(rt: HostRuntime) -> Result<(), Fail> {
    picks_what_stands(&rt, &mut TakingTurns::new())
}

#[test]
fn strict_priority_refuses_other_ports(rt: HostRuntime) -> Result<(), Fail> {
    let mut strict = StrictPriority;
    refuses_other_ports(&rt, &mut strict);
    picks(&rt, &mut strict, 15, ALL, Some(7))
}

// Neither a refusal nor an empty set moves any port's turn.
#[test]
fn taking_turns_refuses_other_ports(rt: HostRuntime) -> Result<(), Fail> {
    let mut turns = TakingTurns::new();
    for port in 0..16u8 {
        picks(&rt, &mut turns, port, only(port / 2), Some(port / 2))?;
    }
    refuses_other_ports(&rt, &mut turns);
    for port in 0..16u8 {
        picks(&rt, &mut turns, port, 0, None)?;
    }
    for port in 0..16u8 {
        picks(&rt, &mut turns, port, ALL, Some((port / 2 + 1) % 8))?;
    }
    Ok(())
}
