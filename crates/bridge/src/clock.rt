//! Time, and what grows old.
ghost use Rattle.std.specs.Prelude.{◌≡◌, ℕ, None, List};
ghost use Rattle.rules.specs.Calls.{advance, outcome, perform};
ghost use Rattle.bridge.specs.Told.{told_advanced};
ghost use Rattle.bridge.specs.View.{settings_of, state_of};

use crate::bridge::Bridge;
use fault::refusal::Refusal;
use selector::selector::Selector;
use table::table::Table;

/// The first time that is too large, in milliseconds.
pub const TIME_LIMIT: u64 = 1 << 40;

impl<T: Table + Drop, S: Selector + Drop> Bridge<T, S> {
    /// Sets the clock to a time in milliseconds, and removes the addresses that were heard last an ageing time ago or
    /// earlier. Asks whether the bridge is started (1), the time is not before the clock (17), and it is below
    /// `TIME_LIMIT` (18).
    pub fn advance(&mut self, time: u64) -> Result<(), Refusal>
        ensures step { (memory : List ℕ) → outcome (told_advanced result) (state_of self.new memory) ≡ perform (settings_of self.old) (state_of self.old memory) (advance time) None }
        ensures settings { settings_of self.new ≡ settings_of self.old }
        ensures selector { self.new.selector ≡ self.old.selector }
    {
        if !self.started {
            return Err(Refusal::NotStarted);
        }
        if time < self.clock {
            return Err(Refusal::TimeBeforeClock);
        }
        if time >= TIME_LIMIT {
            return Err(Refusal::TimeTooLarge);
        }
        self.clock = time;
        let ageing = 1000 * u64::from(self.ageing);
        if ageing <= time {
            self.table.expire(time - ageing);
        }
        Ok(())
    }
}
