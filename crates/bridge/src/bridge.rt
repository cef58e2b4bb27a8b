//! The bridge.
ghost use Rattle.std.specs.Prelude.{◌≡◌, ◌≤◌, false};
ghost use Rattle.std.proofs.Props.{props};
ghost use Rattle.bridge.specs.Kept.{AsMade, Priorities};

use crate::port_state::Port;
use configuration::statics::Statics;
use configuration::vlans::Vlans;
use queues::queues::Queues;
use selector::selector::Selector;
use sets::number_set::PORTS;
use table::table::Table;

/// A VLAN bridge. It is made of what `check` handed out, set up, started, and then called for each frame and event. The
/// frames that stand in it lie in a frame memory, which its caller lends to each call that reads or writes them.
#[derive(Drop)]
pub struct Bridge<T: Table + Drop, S: Selector + Drop> {
    pub(crate) started: bool,
    pub(crate) clock: u64,
    pub(crate) ageing: u32,
    pub(crate) ports: [Port; PORTS],
    pub(crate) vlans: Vlans,
    pub(crate) statics: Statics,
    pub(crate) queues: Queues,
    pub(crate) table: T,
    pub(crate) selector: S,
    pub ghost seconds: { ageing ≤ 1000000 },
    pub ghost priorities: { Priorities ports } by { Prim.hlevel props },
    pub ghost as_made: { started ≡ false → AsMade clock ports queues } by { Prim.hlevel props },
}

impl<T: Table + Drop, S: Selector + Drop> Bridge<T, S> {
    ghost use Rattle.std.specs.Prelude.{◌≡◌, length, nat_le, nat_lt};
    ghost use Rattle.rules.specs.Egress.{memory_needed};
    ghost use Rattle.bridge.specs.View.{settings_of};

    /// How many bytes of frame memory the bridge needs at least, for each call that is lent one.
    #[inline]
    pub fn memory_needed(&self) -> usize
        ensures { result ≡ memory_needed (settings_of self.now) }
    {
        self.queues.memory_needed()
    }

    // Whether there is such a port.
    #[inline]
    pub(crate) fn has_port(&self, port: u8) -> bool
        ensures { result ≡ nat_lt port (settings_of self.now).ports }
    {
        port < self.queues.shape().ports()
    }

    // Whether a frame memory is large enough.
    #[inline]
    pub(crate) fn fits_in(&self, memory: &[u8]) -> bool
        ensures { result ≡ nat_le (memory_needed (settings_of self.now)) (length memory.now) }
    {
        self.queues.memory_needed() <= memory.len()
    }
}
