//! Sending a frame: the oldest of the class that the selector picks.
ghost use Rattle.std.specs.Prelude.{◌≡◌, ◌<◌, ◌≤◌, true, IfOk, Some, length};
ghost use Rattle.queues.specs.Taking.{can_take};
ghost use Rattle.rules.specs.Calls.{choosing, outcome, perform, send, sent_to};
ghost use Rattle.bridge.specs.Told.{told_sent};
ghost use Rattle.bridge.specs.View.{choice_of, selector_after, settings_of, state_of};

use crate::bridge::Bridge;
use fault::refusal::Refusal;
use frame::write::CELL;
use rules::answers::Sent;
use selector::selector::Selector;
use sets::number_set::ClassSet;
use table::table::Table;

// The class that the selector picks at a port that it serves.
#[inline]
fn pick<S: Selector>(selector: &mut S, port: u8, standing: &ClassSet) -> Option<u8>
    requires { port < 16 }
    ensures answer { result ≡ S.choice selector.old port standing.now }
    ensures later { selector.new ≡ S.after selector.old port standing.now }
{
    // A selector serves every port that a bridge can have, so nothing is refused.
    match selector.pick(port, standing) {
        Ok(class) => class,
        Err(_) => None,
    }
}

impl<T: Table + Drop, S: Selector + Drop> Bridge<T, S> {
    // Hands out the oldest frame of a class.
    #[inline(always)]
    fn hand_out(
        &mut self,
        port: u8,
        class: u8,
        memory: &[u8],
        output: &mut [u8],
    ) -> Result<Sent, Refusal>
        requires { can_take self.old.queues (length memory.now) (length output.old) ≡ true }
        ensures step { outcome (told_sent result output.new) (state_of self.new memory.now) ≡ choosing (state_of self.old memory.now) port (Some class) }
        ensures output { output.new ≡ sent_to (told_sent result output.new) output.old }
        ensures settings { settings_of self.new ≡ settings_of self.old }
        ensures selector { self.new.selector ≡ self.old.selector }
        ensures fits { IfOk result (λ sent. sent.length ≤ length output.new) }
    {
        let Some(label) = self.queues.take(memory, port, class, output) else {
            return Err(Refusal::NoFrameStands);
        };
        Ok(Sent {
            length: usize::from(label.length),
            vid: label.vid,
            class,
        })
    }

    /// Sends from a port: the oldest frame of the class that the selector picks is copied to the front of the output
    /// memory, and is gone. Asks whether the bridge is started (1), there is such a port (2), the frame memory (3) and the
    /// output memory (15) are large enough, and a frame stands at the port (16).
    pub fn send(&mut self, port: u8, memory: &[u8], output: &mut [u8]) -> Result<Sent, Refusal>
        ensures step { outcome (told_sent result output.new) (state_of self.new memory.now) ≡ perform (settings_of self.old) (state_of self.old memory.now) (send port (length memory.now) (length output.old)) (choice_of self.old memory.now port) }
        ensures output { output.new ≡ sent_to (told_sent result output.new) output.old }
        ensures settings { settings_of self.new ≡ settings_of self.old }
        ensures selector { self.new.selector ≡ selector_after self.old memory.now port (length output.old) }
        ensures fits { IfOk result (λ sent. sent.length ≤ length output.new) }
    {
        if !self.started {
            return Err(Refusal::NotStarted);
        }
        if !self.has_port(port) {
            return Err(Refusal::PortOutOfRange);
        }
        if !self.fits_in(memory) {
            return Err(Refusal::FrameMemoryTooSmall);
        }
        if output.len() < CELL {
            return Err(Refusal::OutputMemoryTooSmall);
        }
        let standing = self.queues.standing_classes(port);
        if standing.is_empty() {
            return Err(Refusal::NoFrameStands);
        }
        let Some(class) = pick(&mut self.selector, port, &standing) else {
            return Err(Refusal::NoFrameStands);
        };
        self.hand_out(port, class, memory, output)
    }
}
