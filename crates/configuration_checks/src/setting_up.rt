use crate::made::{entry, vlan};
use configuration::statics::{MOST_STATICS, Statics};
use configuration::vlans::{MOST_VLANS, Vlans};
use fault::refusal::Refusal;
use rules::shape::Shape;
use rules::vlans::Verdict;
use std::test::Fail;

#[test]
fn the_first_no_answers_for_a_vlan(rt: HostRuntime) -> Result<(), Fail> {
    let shape = Shape::check(3, 1, 1)?;
    let mut vlans = Vlans::new(rt.alloc())?;
    assert_eq!(rt;
        vlans.add(shape, vlan(0, 17, &[3], &[4])),
        Err(Refusal::VidOutOfRange)
    );
    assert_eq!(rt;
        vlans.add(shape, vlan(4095, 17, &[3], &[4])),
        Err(Refusal::VidOutOfRange)
    );
    assert_eq!(rt;
        vlans.add(shape, vlan(4094, 17, &[3], &[4])),
        Err(Refusal::FidOutOfRange)
    );
    assert_eq!(rt;
        vlans.add(shape, vlan(4094, 16, &[3], &[4])),
        Err(Refusal::MemberOutOfRange)
    );
    assert_eq!(rt;
        vlans.add(shape, vlan(4094, 16, &[2], &[1])),
        Err(Refusal::UntaggedNotMember)
    );
    vlans.add(shape, vlan(4094, 16, &[0, 2], &[2]))?;
    assert_eq!(rt;
        vlans.add(shape, vlan(4094, 1, &[], &[])),
        Err(Refusal::AlreadyThere)
    );
    Ok(())
}

#[test]
fn there_is_room_for_64_vlans(rt: HostRuntime) -> Result<(), Fail> {
    let shape = Shape::check(3, 1, 1)?;
    let mut vlans = Vlans::new(rt.alloc())?;
    for k in 0..MOST_VLANS as u16 {
        vlans.add(shape, vlan(4094 - k, 1, &[], &[]))?;
    }
    assert_eq!(rt;
        vlans.add(shape, vlan(1, 1, &[], &[])),
        Err(Refusal::TooMany)
    );
    assert_eq!(rt; vlans.get(4031).map(|v| v.vid), Some(4031));
    assert_eq!(rt; vlans.get(4094).map(|v| v.vid), Some(4094));
    assert!(rt; vlans.get(1).is_none());
    assert!(rt; vlans.get(u16::MAX).is_none());
    Ok(())
}

#[test]
fn the_first_no_answers_for_a_static_entry(rt: HostRuntime) -> Result<(), Fail> {
    let shape = Shape::check(3, 1, 1)?;
    let mut vlans = Vlans::new(rt.alloc())?;
    vlans.add(shape, vlan(10, 1, &[0], &[]))?;
    let mut statics = Statics::new(rt.alloc())?;
    for k in 0..MOST_STATICS as u8 {
        statics.add(&vlans, entry(10, [2, 0, 0, 0, k, 1], 0, Verdict::Filter))?;
    }
    let there = [2, 0, 0, 0, 63, 1];
    assert_eq!(rt;
        statics.add(&vlans, entry(11, there, 0, Verdict::Filter)),
        Err(Refusal::VlanNotCreated)
    );
    assert_eq!(rt;
        statics.add(&vlans, entry(10, there, 0, Verdict::Filter)),
        Err(Refusal::AlreadyThere)
    );
    assert_eq!(rt;
        statics.add(&vlans, entry(10, [2; 6], 0, Verdict::Filter)),
        Err(Refusal::TooMany)
    );
    Ok(())
}
