//! Making a bridge, setting it up and starting it.
ghost use Rattle.std.specs.Prelude.{◌≡◌, ℕ, false, List};
ghost use Rattle.fault.specs.Asked.{changed, unless};
ghost use Rattle.rules.specs.Setup.{ageing_asked, just_made, port_asked, start_asked, static_asked, vlan_asked, with_ageing, with_port, with_static, with_vlan};
ghost use Rattle.rules.specs.State.{at_start};
ghost use Rattle.bridge.specs.View.{before_start, settings_of, state_of};

use crate::bridge::Bridge;
use crate::checked::Checked;
use crate::learning::forget_all;
use crate::port_state::Port;
use fault::refusal::Refusal;
use rules::ports::PortSettings;
use rules::vlans::{StaticEntry, Vlan};
use selector::selector::Selector;
use sets::number_set::PORTS;
use table::table::Table;

impl<T: Table + Drop, S: Selector + Drop> Bridge<T, S> {
    /// A bridge that has no VLAN yet, with every port Disabled and an ageing time of 300 seconds. It is not started.
    pub fn new(checked: Checked, table: T, selector: S) -> Bridge<T, S>
        ensures settings { settings_of result ≡ just_made checked.queues.shape.ports checked.queues.shape.classes checked.queues.shape.depth (T.share table) }
        ensures state { (memory : List ℕ) → state_of result memory ≡ before_start (T.entries table) }
        ensures selector { result.selector ≡ selector }
    {
        Bridge {
            started: false,
            clock: 0,
            ageing: 300,
            ports: [Port::FRESH; PORTS],
            vlans: checked.vlans,
            statics: checked.statics,
            queues: checked.queues,
            table,
            selector,
        }
    }

    /// Asks whether the bridge was not started yet (22).
    fn not_started(&self) -> Result<(), Refusal>
        ensures { result ≡ unless (start_asked self.now.started) tt }
    {
        if self.started {
            return Err(Refusal::AlreadyStarted);
        }
        Ok(())
    }

    /// Sets up a port. Asks whether the bridge was not started yet (22), there is such a port (2), its PVID is 1 to 4,094
    /// (28), and its priority 0 to 7 (29).
    pub fn set_port(&mut self, port: u8, settings: PortSettings) -> Result<(), Refusal>
        ensures answer { result ≡ unless (port_asked self.old.started (settings_of self.old) port settings) tt }
        ensures settings { settings_of self.new ≡ changed result (settings_of self.old) (with_port (settings_of self.old) port settings) }
        ensures state { (memory : List ℕ) → state_of self.new memory ≡ state_of self.old memory }
        ensures selector { self.new.selector ≡ self.old.selector }
    {
        self.not_started()?;
        if !self.has_port(port) {
            return Err(Refusal::PortOutOfRange);
        }
        if !(1..=4094).contains(&settings.pvid) {
            return Err(Refusal::VidOutOfRange);
        }
        if settings.priority > 7 {
            return Err(Refusal::PriorityOutOfRange);
        }
        self.ports[usize::from(port)].settings = settings;
        Ok(())
    }

    /// Adds a VLAN. Asks whether the bridge was not started yet (22), the VID is 1 to 4,094 (28), the FID 1 to 16 (21), the
    /// members are ports of the bridge (30), the untagged set lies within the members (31), no VLAN has the VID (32), and
    /// there are fewer than 64 VLANs (33).
    pub fn add_vlan(&mut self, vlan: Vlan) -> Result<(), Refusal>
        ensures answer { result ≡ unless (vlan_asked self.old.started (settings_of self.old) vlan) tt }
        ensures settings { settings_of self.new ≡ changed result (settings_of self.old) (with_vlan (settings_of self.old) vlan) }
        ensures state { (memory : List ℕ) → state_of self.new memory ≡ state_of self.old memory }
        ensures selector { self.new.selector ≡ self.old.selector }
    {
        self.not_started()?;
        self.vlans.add(self.queues.shape(), vlan)
    }

    /// Adds a static entry. Asks whether the bridge was not started yet (22), the VLAN was added (9), no entry is for the
    /// VID and address (32), and there are fewer than 64 static entries (33).
    pub fn add_static(&mut self, entry: StaticEntry) -> Result<(), Refusal>
        ensures answer { result ≡ unless (static_asked self.old.started (settings_of self.old) entry) tt }
        ensures settings { settings_of self.new ≡ changed result (settings_of self.old) (with_static (settings_of self.old) entry) }
        ensures state { (memory : List ℕ) → state_of self.new memory ≡ state_of self.old memory }
        ensures selector { self.new.selector ≡ self.old.selector }
    {
        self.not_started()?;
        self.statics.add(&self.vlans, entry)
    }

    /// Sets how many seconds an address is kept that is not heard again. Asks whether the bridge was not started yet (22)
    /// and these are 10 to 1,000,000 (34).
    pub fn set_ageing(&mut self, seconds: u32) -> Result<(), Refusal>
        ensures answer { result ≡ unless (ageing_asked self.old.started seconds) tt }
        ensures settings { settings_of self.new ≡ changed result (settings_of self.old) (with_ageing (settings_of self.old) seconds) }
        ensures state { (memory : List ℕ) → state_of self.new memory ≡ state_of self.old memory }
        ensures selector { self.new.selector ≡ self.old.selector }
    {
        self.not_started()?;
        if !(10..=1_000_000).contains(&seconds) {
            return Err(Refusal::AgeingOutOfRange);
        }
        self.ageing = seconds;
        Ok(())
    }

    /// Starts the bridge, with an empty table. Asks whether it was not started yet (22).
    pub fn start(&mut self) -> Result<(), Refusal>
        ensures answer { result ≡ unless (start_asked self.old.started) tt }
        ensures settings { settings_of self.new ≡ settings_of self.old }
        ensures state { (memory : List ℕ) → state_of self.new memory ≡ changed result (state_of self.old memory) at_start }
        ensures selector { self.new.selector ≡ self.old.selector }
    {
        self.not_started()?;
        forget_all(&mut self.table);
        self.started = true;
        Ok(())
    }
}
