//! The bridge that is tried, at any table and selector.
use bridge::bridge::Bridge;
use bridge::check::check;
use fault::refusal::Refusal;
use hashed::hashed::Hashed;
use rules::ports::PortSettings;
use rules::vlans::Verdict::{Filter, Forward, Silent};
use rules::vlans::{StaticEntry, Vlan};
use searched::searched::Searched;
use selector::selector::Selector;
use sets_checks::words::set_of;
use std::alloc::Global;
use std::test::Fail;
use table::entry::Entry;
use table::table::Table;

// A station of which a static entry speaks.
pub const K: [u8; 6] = [2, 0, 0, 0, 0, 0x14];

pub const PORTS: u8 = 3;

// 1,518 for each of 3 ports and 2 classes, and some more.
pub const MEMORY: usize = 9208;

// Tables with room for one address of each database.
pub fn searched(records: &mut [Entry; 16]) -> Result<Searched<'_>, Refusal> {
    let (checked, _) = table::check::check(1, records)?;
    Ok(Searched::new(checked))
}

pub fn hashed(records: &mut [Entry; 32]) -> Result<Hashed<'_>, Refusal> {
    let (checked, _) = table::check::check(1, records)?;
    Ok(Hashed::new(checked))
}

fn vlan(vid: u16, fid: u8, untagged: u16) -> Vlan {
    Vlan {
        vid,
        fid,
        members: set_of(0b111),
        untagged: set_of(untagged),
    }
}

// A bridge with 3 ports, 2 classes and queues of 1 frame, and with VLAN 10, which is untagged at ports 0 and 1, and
// VLAN 20. Addresses age in 10 seconds, and frames of VLAN 10 to K go to port 1 and not to port 2.
fn set_up<T: Table + Drop, S: Selector + Drop>(bridge: &mut Bridge<T, S>) -> Result<(), Refusal> {
    for port in 0..PORTS {
        bridge.set_port(
            port,
            PortSettings {
                pvid: 10,
                admit_all: true,
                ingress_filtering: false,
                priority: 0,
            },
        )?;
    }
    bridge.add_vlan(vlan(10, 1, 0b011))?;
    bridge.add_vlan(vlan(20, 2, 0))?;
    let mut verdicts = [Silent; 16];
    verdicts[1] = Forward;
    verdicts[2] = Filter;
    bridge.add_static(StaticEntry {
        vid: 10,
        address: K,
        verdicts,
    })?;
    bridge.set_ageing(10)
}

// Started, with every port Forwarding.
pub fn opened<T: Table + Drop, S: Selector + Drop>(
    alloc: Global,
    table: T,
    selector: S,
) -> Result<Bridge<T, S>, Fail> {
    let mut bridge = Bridge::new(check(alloc, PORTS, 2, 1)?, table, selector);
    set_up(&mut bridge)?;
    bridge.start()?;
    for port in 0..PORTS {
        for event in [1, 3, 5, 5] {
            bridge.port_event(port, event)?;
        }
    }
    Ok(bridge)
}
