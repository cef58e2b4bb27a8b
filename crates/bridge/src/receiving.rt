//! Receiving a frame: it is read and placed in a VLAN, learned from, and relayed.
ghost use Rattle.std.specs.Prelude.{◌≡◌, ◌<◌, None, length};
ghost use Rattle.rules.specs.Calls.{outcome, perform, receive, received_in};
ghost use Rattle.rules.specs.Settings.{port_settings};
ghost use Rattle.bridge.specs.Told.{told_received};
ghost use Rattle.bridge.specs.View.{settings_of, state_of};

use crate::bridge::Bridge;
use configuration::ingress::classify;
use fault::refusal::Refusal;
use frame::read::read;
use rules::answers::Received;
use rules::ports::PortSettings;
use selector::selector::Selector;
use table::table::Table;

impl<T: Table + Drop, S: Selector + Drop> Bridge<T, S> {
    // The settings of a port.
    #[inline]
    fn settings_at(&self, port: u8) -> PortSettings
        requires { port < 16 }
        ensures { result ≡ port_settings (settings_of self.now) port }
    {
        self.ports[usize::from(port)].settings
    }

    /// Receives a frame at a port, learns from it, and queues it at each port that it goes to and that has room. Asks
    /// whether the bridge is started (1), there is such a port (2), the frame memory is large enough (3), and the frame
    /// can be read (4 to 7); whether the port admits it (8), its VLAN was added (9) and the port is a member or does not
    /// filter (10); whether the port is Learning or Forwarding (11), and then, the source being learned, whether it is
    /// Forwarding (12), the destination is not reserved (13), and there is a port that the frame goes to (14).
    pub fn receive(
        &mut self,
        port: u8,
        frame: &[u8],
        memory: &mut [u8],
    ) -> Result<Received, Refusal>
        ensures step { outcome (told_received result) (state_of self.new memory.new) ≡ perform (settings_of self.old) (state_of self.old memory.old) (receive port frame.now (length memory.old)) None }
        ensures memory { memory.new ≡ received_in (settings_of self.old) (state_of self.old memory.old) port frame.now (told_received result) memory.old }
        ensures settings { settings_of self.new ≡ settings_of self.old }
        ensures selector { self.new.selector ≡ self.old.selector }
    {
        if !self.started {
            return Err(Refusal::NotStarted);
        }
        if !self.has_port(port) {
            return Err(Refusal::PortOutOfRange);
        }
        if !self.fits_in(memory) {
            return Err(Refusal::FrameMemoryTooSmall);
        }
        let parts = read(frame)?;
        let settings = self.settings_at(port);
        let (vid, priority) = classify(&settings, parts.tag);
        let vlan = *self.vlans.ingress(&settings, port, parts.tag, vid)?;
        self.learn_and_relay(memory, port, &parts, &vlan, priority)
    }
}
