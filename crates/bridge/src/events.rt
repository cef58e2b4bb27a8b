//! Port events, and what they leave.
ghost use Rattle.std.specs.Prelude.{◌≡◌, ℕ, None, List};
ghost use Rattle.rules.specs.Calls.{event, outcome, perform};
ghost use Rattle.bridge.specs.Told.{told_emptied};
ghost use Rattle.bridge.specs.View.{settings_of, state_of};

use crate::bridge::Bridge;
use crate::port_state::{event_of, forwards, next_state};
use fault::refusal::Refusal;
use selector::selector::Selector;
use table::table::Table;

impl<T: Table + Drop, S: Selector + Drop> Bridge<T, S> {
    /// Moves a port from one state to another by an event's number. A port that leaves Forwarding drops the frames that
    /// stand in its queues; the answer is how many these were. Asks whether the bridge is started (1), there is such a port
    /// (2) and such an event (19), and the port's state has one that follows (20).
    pub fn port_event(&mut self, port: u8, number: u8) -> Result<usize, Refusal>
        ensures step { (memory : List ℕ) → outcome (told_emptied result) (state_of self.new memory) ≡ perform (settings_of self.old) (state_of self.old memory) (event port number) None }
        ensures settings { settings_of self.new ≡ settings_of self.old }
        ensures selector { self.new.selector ≡ self.old.selector }
    {
        if !self.started {
            return Err(Refusal::NotStarted);
        }
        if !self.has_port(port) {
            return Err(Refusal::PortOutOfRange);
        }
        let event = event_of(number)?;
        let place = usize::from(port);
        let before = self.ports[place].state;
        self.ports[place].state = next_state(before, event)?;
        if forwards(before) {
            return Ok(self.queues.empty(port));
        }
        Ok(0)
    }
}
