// What the tests are about: the shop's bridge of four ports, and the shortest ways to write its parts.
use rules::ports::PortSettings;
use rules::vlans::{StaticEntry, Verdict, Vlan};
use sets::number_set::{PORTS, PortSet};

pub fn ports(numbers: &[u8]) -> PortSet {
    let mut set = PortSet::empty();
    for number in numbers {
        set.insert(*number);
    }
    set
}

pub fn vlan(vid: u16, fid: u8, members: &[u8], untagged: &[u8]) -> Vlan {
    Vlan {
        vid,
        fid,
        members: ports(members),
        untagged: ports(untagged),
    }
}

// An entry that says something of one port.
pub fn entry(vid: u16, address: [u8; 6], port: u8, verdict: Verdict) -> StaticEntry {
    let mut verdicts = [Verdict::Silent; PORTS];
    if port < 16 {
        verdicts[usize::from(port)] = verdict;
    }
    StaticEntry {
        vid,
        address,
        verdicts,
    }
}

pub fn settings(pvid: u16, admit_all: bool, ingress_filtering: bool) -> PortSettings {
    PortSettings {
        pvid,
        admit_all,
        ingress_filtering,
        priority: 5,
    }
}
