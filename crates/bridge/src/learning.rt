//! What is learned from a frame.
ghost use Rattle.std.specs.Prelude.{◌≡◌, ◌<◌, ◌≤◌, true, cond, [], length, nat_le};
ghost use Rattle.fault.specs.declared.mark.Mark.TheVariants.{Unlearned};
ghost use Rattle.table.specs.Calls.{after_learn, mark_at};
ghost use Rattle.table.specs.Entries.{count_of, is_fid, lookup};
ghost use Rattle.frame.specs.Reading.{picture};
ghost use Rattle.rules.specs.Calls.{learning, outcome};
ghost use Rattle.rules.specs.Egress.{memory_needed};
ghost use Rattle.rules.specs.Relay.{learnable};
ghost use Rattle.bridge.specs.Flooding.{Writable};
ghost use Rattle.bridge.specs.LaidBy.{PlacedIn, laid_by};
ghost use Rattle.bridge.specs.Told.{told_received};
ghost use Rattle.bridge.specs.View.{settings_of, state_of};

use crate::bridge::Bridge;
use crate::port_state::learns;
use fault::mark::Mark;
use fault::refusal::Refusal;
use frame::address::is_group;
use frame::parts::Parts;
use rules::answers::Received;
use rules::vlans::{Verdict, Vlan};
use selector::selector::Selector;
use table::entry::{Entry, Key};
use table::table::Table;

// Learns an entry where it is to be learned.
pub(crate) fn learn<T: Table>(table: &mut T, learnable: bool, entry: Entry) -> Mark
    requires { is_fid entry.key.fid ≡ true }
    ensures answer { result ≡ cond learnable (mark_at (T.share table.old) (count_of entry.key.fid (T.entries table.old)) entry.port (lookup (T.entries table.old) entry.key.fid entry.key.address)) Unlearned }
    ensures later { T.entries table.new ≡ cond learnable (after_learn (T.share table.old) (T.entries table.old) entry.key.fid entry.key.address entry.port entry.heard) (T.entries table.old) }
    ensures share { T.share table.new ≡ T.share table.old }
{
    if !learnable {
        return Mark::Unlearned;
    }
    // The FID is in range, so nothing is refused.
    match table.learn(entry) {
        Ok(mark) => mark,
        Err(_) => Mark::Unlearned,
    }
}

// Empties the table.
pub(crate) fn forget_all<T: Table>(table: &mut T)
    ensures entries { T.entries table.new ≡ [] }
    ensures share { T.share table.new ≡ T.share table.old }
{
    for fid in 1..=16u8 {
        let _ = table.flush(fid);
    }
}

impl<T: Table + Drop, S: Selector + Drop> Bridge<T, S> {
    // Whether the source of a frame of a VLAN is to be learned at a port.
    #[inline]
    fn is_learnable(&self, vid: u16, port: u8, source: [u8; 6]) -> bool
        ensures { result ≡ learnable (settings_of self.now) vid port source }
    {
        !is_group(source) && self.statics.verdict(vid, source, port) == Verdict::Silent
    }

    // Learns from a frame of a VLAN, and relays it. Asks whether the port that it arrived at is Learning or Forwarding (11).
    #[tactic(auto, unfolding(crate::specs::LaidBy::laid_by))]
    pub(crate) fn learn_and_relay(
        &mut self,
        memory: &mut [u8],
        from: u8,
        frame: &Parts<'_>,
        vlan: &Vlan,
        priority: u8,
    ) -> Result<Received, Refusal>
        requires started { self.old.started ≡ true }
        requires memory { nat_le (memory_needed (settings_of self.old)) (length memory.old) ≡ true }
        requires from { from < 16 }
        requires priority { priority ≤ 7 }
        requires fid { is_fid vlan.now.fid ≡ true }
        requires form { Writable (picture frame.now) vlan.now priority }
        ensures step { outcome (told_received result) (state_of self.new memory.new) ≡ learning (settings_of self.old) (state_of self.old memory.old) from (picture frame.now) vlan.now priority }
        ensures memory { memory.new ≡ laid_by (settings_of self.old) (state_of self.old memory.old) (picture frame.now) vlan.now result memory.old }
        ensures placed { PlacedIn vlan.now result }
        ensures settings { settings_of self.new ≡ settings_of self.old }
        ensures selector { self.new.selector ≡ self.old.selector }
    {
        if !learns(self.ports[usize::from(from)].state) {
            return Err(Refusal::PortNotLearning);
        }
        let learnable = self.is_learnable(vlan.vid, from, frame.source);
        let entry = Entry {
            key: Key {
                fid: vlan.fid,
                address: frame.source,
            },
            port: from,
            heard: self.clock,
        };
        let mark = learn(&mut self.table, learnable, entry);
        self.relay(memory, from, frame, vlan, priority, mark)
    }
}
