//! The bridge that the worked examples are about.
use bridge::bridge::Bridge;
use bridge::check::check;
use fault::refusal::Refusal;
use hashed::hashed::Hashed;
use rules::ports::PortSettings;
use rules::vlans::Vlan;
use selector::strict::StrictPriority;
use sets::number_set::PortSet;
use std::alloc::Global;
use table::entry::Entry;

const PORTS: u8 = 3;

const CLASSES: u8 = 2;

const DEPTH: u8 = 1;

const SHARE: u16 = 1;

/// The records that its table takes.
pub const RECORDS: usize = 32;

/// The bytes of its frame memory.
pub const MEMORY: usize = 9108;

/// A bridge whose frames leave by strict priority, with a hashed table.
pub type ExampleBridge<'a> = Bridge<Hashed<'a>, StrictPriority>;

fn table(records: &mut [Entry]) -> Result<Hashed<'_>, Refusal> {
    let (checked, _) = table::check::check(SHARE, records)?;
    Ok(Hashed::new(checked))
}

fn set_of(ports: &[u8]) -> PortSet {
    let mut set = PortSet::empty();
    for port in ports {
        set.insert(*port);
    }
    set
}

// Disabled to Blocking, to Listening, to Learning, to Forwarding.
fn open(bridge: &mut ExampleBridge<'_>, port: u8) -> Result<(), Refusal> {
    for event in [1, 3, 5, 5] {
        bridge.port_event(port, event)?;
    }
    Ok(())
}

/// The example bridge, set up and started, with every port Forwarding.
pub fn example_bridge(alloc: Global, records: &mut [Entry]) -> anyhow::Result<ExampleBridge<'_>> {
    let checked = check(alloc, PORTS, CLASSES, DEPTH)?;
    let mut bridge = Bridge::new(checked, table(records)?, StrictPriority);
    for port in 0..PORTS {
        bridge.set_port(
            port,
            PortSettings {
                pvid: 10,
                admit_all: true,
                ingress_filtering: false,
                priority: 0,
            },
        )?;
    }
    bridge.add_vlan(Vlan {
        vid: 10,
        fid: 1,
        members: set_of(&[0, 1, 2]),
        untagged: set_of(&[0, 1]),
    })?;
    bridge.add_vlan(Vlan {
        vid: 20,
        fid: 2,
        members: set_of(&[0, 1, 2]),
        untagged: set_of(&[]),
    })?;
    bridge.start()?;
    for port in 0..PORTS {
        open(&mut bridge, port)?;
    }
    Ok(bridge)
}
