//! The bridge that is timed.
use bridge::bridge::Bridge;
use bridge::checked::Checked;
use fault::refusal::Refusal;
use rules::ports::PortSettings;
use rules::vlans::Vlan;
use selector::strict::StrictPriority;
use sets::number_set::PortSet;
use table::table::Table;

// A bridge with two VLANs of all ports, which even ports send untagged, and all ports forwarding.
pub fn started<T: Table + Drop>(
    checked: Checked,
    table: T,
    ports: u8,
) -> Result<Bridge<T, StrictPriority>, Refusal> {
    let mut bridge = Bridge::new(checked, table, StrictPriority);
    for port in 0..ports {
        bridge.set_port(port, settings(port))?;
    }
    bridge.add_vlan(vlan(10, 1, ports))?;
    bridge.add_vlan(vlan(20, 2, ports))?;
    bridge.start()?;
    for port in 0..ports {
        for event in [1, 3, 5, 5] {
            bridge.port_event(port, event)?;
        }
    }
    Ok(bridge)
}

fn settings(port: u8) -> PortSettings {
    PortSettings {
        pvid: 10,
        admit_all: true,
        ingress_filtering: true,
        priority: port % 8,
    }
}

fn vlan(vid: u16, fid: u8, ports: u8) -> Vlan {
    let mut members = PortSet::empty();
    let mut untagged = PortSet::empty();
    for port in 0..ports {
        members.insert(port);
        if port % 2 == 0 {
            untagged.insert(port);
        }
    }
    Vlan {
        vid,
        fid,
        members,
        untagged,
    }
}
