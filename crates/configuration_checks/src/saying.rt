use crate::made::{entry, ports, vlan};
use configuration::said::Said;
use configuration::statics::Statics;
use configuration::vlans::Vlans;
use rules::shape::Shape;
use rules::vlans::Verdict;
use std::alloc::Global;
use std::test::Fail;

const STATION: [u8; 6] = [2, 0, 0, 0, 0, 1];

const GROUP: [u8; 6] = [3, 0, 0, 0, 0, 1];

// VLANs 10 and 11 share a database.
fn shop(alloc: Global) -> Result<(Vlans, Statics), Fail> {
    let shape = Shape::check(4, 1, 1)?;
    let mut vlans = Vlans::new(alloc)?;
    vlans.add(shape, vlan(10, 1, &[0, 1, 2], &[]))?;
    vlans.add(shape, vlan(11, 1, &[0, 1, 2], &[]))?;
    vlans.add(shape, vlan(20, 2, &[0, 3], &[]))?;
    let mut statics = Statics::new(alloc)?;
    statics.add(&vlans, entry(10, STATION, 1, Verdict::Forward))?;
    statics.add(&vlans, entry(11, STATION, 2, Verdict::Filter))?;
    statics.add(&vlans, entry(20, STATION, 3, Verdict::Filter))?;
    statics.add(&vlans, entry(11, GROUP, 2, Verdict::Filter))?;
    Ok((vlans, statics))
}

#[test]
fn an_entry_speaks_of_its_ports(rt: HostRuntime) -> Result<(), Fail> {
    let (_, statics) = shop(rt.alloc())?;
    assert_eq!(rt; statics.verdict(10, STATION, 1), Verdict::Forward);
    assert_eq!(rt; statics.verdict(11, STATION, 2), Verdict::Filter);
    assert_eq!(rt; statics.verdict(11, STATION, 1), Verdict::Silent);
    assert_eq!(rt; statics.verdict(10, GROUP, 2), Verdict::Silent);
    assert_eq!(rt; statics.verdict(11, GROUP, 200), Verdict::Silent);
    Ok(())
}

#[test]
fn a_database_speaks_of_a_station_and_a_vid_of_a_group(rt: HostRuntime) -> Result<(), Fail> {
    let (vlans, statics) = shop(rt.alloc())?;
    let ten = vlan(10, 1, &[], &[]);
    let eleven = vlan(11, 1, &[], &[]);
    let nothing = Said {
        forward: ports(&[]),
        filter: ports(&[]),
    };
    let database = Said {
        forward: ports(&[1]),
        filter: ports(&[2]),
    };
    let own = Said {
        forward: ports(&[]),
        filter: ports(&[2]),
    };
    assert_eq!(rt; statics.said(&vlans, &ten, STATION), database);
    assert_eq!(rt; statics.said(&vlans, &eleven, STATION), database);
    assert_eq!(rt; statics.said(&vlans, &ten, GROUP), nothing);
    assert_eq!(rt; statics.said(&vlans, &eleven, GROUP), own);
    assert_eq!(rt; statics.said(&vlans, &eleven, [2, 0, 0, 0, 1, 1]), nothing);
    assert_eq!(rt; statics.said(&vlans, &eleven, [2, 0, 0, 0, 0, 2]), nothing);
    Ok(())
}
