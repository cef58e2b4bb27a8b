//! The layers of the bridge that refuse.
ghost use Rattle.std.specs.Prelude.{◌≡◌};
ghost use Rattle.fault.specs.Told.{layer_number};

/// The layer that refused: the part of the bridge whose question was answered no.
#[derive(Clone, Copy, PartialEq, Eq, Debug, Drop)]
pub enum Layer {
    /// Reading a frame: refusals 4 to 7.
    Frame = 1,
    /// Placing a frame in a VLAN, and admitting it there: refusals 8 to 10.
    Ingress = 2,
    /// Deciding to which ports a frame goes: refusals 11 to 14.
    Relay = 3,
    /// Everything else: setting up, the calls of a started bridge, the tables and selectors, and frames that are
    /// written.
    Elsewhere = 4,
}

impl Layer {
    /// The number by which callers know the layer, 1 to 4.
    // No `From`, as for a refusal.
    pub fn number(self) -> u8
        ensures { result ≡ layer_number self }
    {
        self as u8
    }
}
