//! Ports: their settings, states and events.

/// How a port places and admits what it receives. A port just made has PVID 1, admits all frames, does not filter and
/// has priority 0.
#[derive(Clone, Copy, PartialEq, Eq, Debug, Drop)]
pub struct PortSettings {
    /// The VID of frames that name no VLAN, 1 to 4,094.
    pub pvid: u16,
    /// Whether frames that name no VLAN are admitted, which have no tag or one with VID 0.
    pub admit_all: bool,
    /// Whether frames of a VLAN are refused where the port is no member of it.
    pub ingress_filtering: bool,
    /// The priority of frames without a tag, 0 to 7.
    pub priority: u8,
}

/// How far a port takes part in the bridge.
#[derive(Clone, Copy, PartialEq, Eq, Debug, Drop)]
pub enum PortState {
    /// The port is out of use, as every port is after the start.
    Disabled,
    /// Nothing is received or sent.
    Blocking,
    /// Nothing is received or sent, and the port is on its way to Forwarding.
    Listening,
    /// Addresses are learned from what is received; no frame is relayed.
    Learning,
    /// Addresses are learned, and frames are relayed and sent.
    Forwarding,
}

/// What moves a port from one state to another. Callers know the events by the numbers 1 to 5.
#[derive(Clone, Copy, PartialEq, Eq, Debug, Drop)]
pub enum PortEvent {
    /// 1: takes Disabled to Blocking.
    Enable,
    /// 2: takes any state but Disabled to Disabled.
    Disable,
    /// 3: takes Blocking to Listening.
    Choose,
    /// 4: takes Listening, Learning and Forwarding to Blocking.
    Drop,
    /// 5: takes Listening to Learning, and Learning to Forwarding.
    DelayOver,
}
