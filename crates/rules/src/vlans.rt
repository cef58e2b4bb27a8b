//! VLANs, and entries that are set up by hand.
use sets::number_set::{PORTS, PortSet};

/// A VLAN.
#[derive(Clone, Copy, PartialEq, Eq, Debug, Drop)]
pub struct Vlan {
    /// The VLAN's number, 1 to 4,094.
    pub vid: u16,
    /// The filtering database that it learns in, 1 to 16. Several VLANs may have one.
    pub fid: u8,
    /// The ports that its frames may go to.
    pub members: PortSet,
    /// Those of the members that send its frames without a tag.
    pub untagged: PortSet,
}

/// What a static entry says of a port.
#[derive(Clone, Copy, PartialEq, Eq, Debug, Drop)]
pub enum Verdict {
    /// Frames for an individual address are let through there, whatever else is said or learned. For a group it keeps
    /// nothing back.
    Forward,
    /// Frames for the address are not let through there, unless it is individual and another entry of the database
    /// says forward.
    Filter,
    /// Nothing.
    Silent,
}

/// What is to be done with frames to an address in a VLAN, port by port. A source of which the entry says forward or
/// filter at a port is not learned there.
#[derive(Clone, Copy, PartialEq, Eq, Debug, Drop)]
pub struct StaticEntry {
    /// The VLAN's number. The VLAN must have been created.
    pub vid: u16,
    /// Any address, also a group's.
    pub address: [u8; 6],
    /// By port.
    pub verdicts: [Verdict; PORTS],
}
