//! What the calls of a running bridge answer.
use fault::mark::Mark;
use sets::number_set::PortSet;

/// What an accepted receive answers.
#[derive(Clone, Copy, PartialEq, Eq, Debug, Drop)]
pub struct Received {
    /// The frame's VID and priority.
    pub classified: (u16, u8),
    /// The ports that the frame goes to.
    pub decided: PortSet,
    /// Those of them whose queue was full, so that the frame was not queued there.
    pub no_room: PortSet,
    /// What came of learning the source.
    pub mark: Mark,
}

/// What an accepted send answers. The frame itself is in the output memory.
#[derive(Clone, Copy, PartialEq, Eq, Debug, Drop)]
pub struct Sent {
    /// Bytes, from the front of the output memory: 56 to 1,518.
    pub length: usize,
    /// The VID of the receive that queued the frame.
    pub vid: u16,
    /// The traffic class that the frame waited in.
    pub class: u8,
}
