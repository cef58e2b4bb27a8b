use crate::made::{settings, vlan};
use configuration::ingress::classify;
use configuration::vlans::Vlans;
use fault::refusal::Refusal;
use frame::parts::Tag;
use rules::shape::Shape;
use std::test::Fail;

#[test]
fn a_frame_is_of_its_tags_vlan_or_of_the_ports(rt: HostRuntime) -> Result<(), Fail> {
    let port = settings(10, true, false);
    assert_eq!(rt; classify(&port, None), (10, 5));
    assert_eq!(rt;
        classify(
            &port,
            Some(Tag {
                priority: 3,
                vid: 0
            })
        ),
        (10, 3)
    );
    assert_eq!(rt;
        classify(
            &port,
            Some(Tag {
                priority: 3,
                vid: 20
            })
        ),
        (20, 3)
    );
    Ok(())
}

#[test]
fn the_first_no_answers_for_a_frame(rt: HostRuntime) -> Result<(), Fail> {
    let mut vlans = Vlans::new(rt.alloc())?;
    vlans.add(Shape::check(3, 1, 1)?, vlan(10, 1, &[0, 1], &[]))?;
    let tagged = |vid: u16| Some(Tag { priority: 3, vid });
    let trunk = settings(11, false, false);
    assert_eq!(rt;
        vlans.ingress(&trunk, 2, tagged(0), 11).map(|v| v.vid),
        Err(Refusal::FrameNotAdmitted)
    );
    assert_eq!(rt;
        vlans.ingress(&trunk, 2, tagged(11), 11).map(|v| v.vid),
        Err(Refusal::VlanNotCreated)
    );
    assert_eq!(rt;
        vlans.ingress(&trunk, 2, tagged(10), 10).map(|v| v.vid),
        Ok(10)
    );
    let filtering = settings(10, true, true);
    assert_eq!(rt;
        vlans.ingress(&filtering, 2, None, 10).map(|v| v.vid),
        Err(Refusal::NotMember)
    );
    assert_eq!(rt;
        vlans.ingress(&filtering, 1, None, 10).map(|v| v.vid),
        Ok(10)
    );
    Ok(())
}
