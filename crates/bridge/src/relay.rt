//! Which ports a frame goes to.
ghost use Rattle.std.specs.Prelude.{◌≡◌, ℕ, ◌<◌, ◌≤◌, not, ◌&&◌, ◌==◌, length, map, nat_le, nat_lt, true};
ghost use Rattle.frame.specs.Reading.{picture};
ghost use Rattle.rules.specs.Calls.{outcome, relay};
ghost use Rattle.rules.specs.Egress.{memory_needed};
ghost use Rattle.rules.specs.Ports.{has, ports_where};
ghost use Rattle.rules.specs.Relay.{entry_lets, forwards};
ghost use Rattle.table.specs.Entries.{is_fid};
ghost use Rattle.bridge.specs.Decided.{goes_to, known_port, lets};
ghost use Rattle.bridge.specs.Flooding.{Writable};
ghost use Rattle.bridge.specs.LaidBy.{PlacedIn, laid_by};
ghost use Rattle.bridge.specs.Told.{told_received};
ghost use Rattle.bridge.specs.View.{settings_of, state_of};

use crate::bridge::Bridge;
use crate::port_state::{Port, forwards};
use configuration::said::Said;
use fault::mark::Mark;
use fault::refusal::Refusal;
use frame::address::{is_group, is_reserved};
use frame::parts::Parts;
use rules::answers::Received;
use rules::vlans::Vlan;
use selector::selector::Selector;
use sets::number_set::{PORTS, PortSet};
use table::entry::Key;
use table::table::Table;

/// The port that a table knows for a destination. It is not asked for a group.
#[inline]
pub(crate) fn known_port<T: Table>(table: &mut T, fid: u8, destination: [u8; 6]) -> Option<u8>
    requires { is_fid fid ≡ true }
    ensures answer { result ≡ known_port (T.entries table.old) fid destination }
    ensures later { T.entries table.new ≡ T.entries table.old }
    ensures share { T.share table.new ≡ T.share table.old }
{
    if is_group(destination) {
        return None;
    }
    let key = Key {
        fid,
        address: destination,
    };
    // The FID is in range, so nothing is refused.
    match table.find(key) {
        Ok(port) => port,
        Err(_) => None,
    }
}

/// What is asked of each port, and the answers that are the same for all.
#[derive(Clone, Copy, Drop)]
pub(crate) struct Way {
    pub count: u8,
    pub from: u8,
    pub members: PortSet,
    pub said: Said,
    pub known: Option<u8>,
}

#[inline]
fn only(port: u8) -> PortSet
    ensures { (p : ℕ) → p < 16 → has result p ≡ (port == p) }
{
    let mut set = PortSet::empty();
    set.insert(port);
    set
}

// Those ports of a set that the table's entry lets a frame through to.
#[inline]
fn let_by_entry(set: &PortSet, known: Option<u8>) -> PortSet
    ensures { (p : ℕ) → p < 16 → has result p ≡ (has set.now p && entry_lets known p) }
{
    match known {
        None => *set,
        Some(port) => set.intersection(&only(port)),
    }
}

// Of a set of ports those that a frame is let through to.
#[inline]
fn let_through(set: &PortSet, said: &Said, known: Option<u8>) -> PortSet
    ensures { (p : ℕ) → p < 16 → has result p ≡ (has set.now p && lets said.now known p) }
{
    let unfiltered = set.difference(&said.filter);
    let forced = set.intersection(&said.forward);
    let_by_entry(&unfiltered, known).union(&forced)
}

// The ports that a frame goes to if they forward. They are asked all at once, as what is asked at each of sixteen ports
// holds up every frame.
#[inline]
fn candidates(way: &Way) -> PortSet
    ensures { (p : ℕ) → p < 16 → has result p ≡ (nat_lt p way.now.count && not (p == way.now.from) && has way.now.members p && lets way.now.said way.now.known p) }
{
    let others = PortSet::below(way.count).difference(&only(way.from));
    let_through(&others.intersection(&way.members), &way.said, way.known)
}

/// The ports that a frame goes to.
#[inline(always)]
#[tactic(auto, using(sets::proofs::ByNumber::tried_none, sets::proofs::ByNumber::tried_all))]
pub(crate) fn decided(ports: &[Port; PORTS], way: &Way) -> PortSet
    ensures { result ≡ ports_where (goes_to way.now.count (map (λ port. port.state) ports.now) way.now.from way.now.members way.now.said way.now.known) }
{
    let candidates = candidates(way);
    let mut set = PortSet::empty();
    for (index, port) in ports.iter().enumerate() {
        let number = index as u8;
        // With `&&` there is a branch at each port, which costs more than both questions.
        if candidates.contains(number) & forwards(port.state) {
            set.insert(number);
        }
    }
    set
}

impl<T: Table + Drop, S: Selector + Drop> Bridge<T, S> {
    // Relays a frame of a VLAN. Asks whether the port that it arrived at is Forwarding (12), and the destination is not
    // reserved (13), and then whether there is a port that it goes to (14).
    #[tactic(auto, unfolding(crate::specs::LaidBy::laid_by))]
    pub(crate) fn relay(
        &mut self,
        memory: &mut [u8],
        from: u8,
        frame: &Parts<'_>,
        vlan: &Vlan,
        priority: u8,
        mark: Mark,
    ) -> Result<Received, Refusal>
        requires started { self.old.started ≡ true }
        requires memory { nat_le (memory_needed (settings_of self.old)) (length memory.old) ≡ true }
        requires from { from < 16 }
        requires priority { priority ≤ 7 }
        requires fid { is_fid vlan.now.fid ≡ true }
        requires form { Writable (picture frame.now) vlan.now priority }
        ensures step { outcome (told_received result) (state_of self.new memory.new) ≡ relay (settings_of self.old) (state_of self.old memory.old) from (picture frame.now) vlan.now priority mark }
        ensures memory { memory.new ≡ laid_by (settings_of self.old) (state_of self.old memory.old) (picture frame.now) vlan.now result memory.old }
        ensures placed { PlacedIn vlan.now result }
        ensures settings { settings_of self.new ≡ settings_of self.old }
        ensures selector { self.new.selector ≡ self.old.selector }
    {
        if !forwards(self.ports[usize::from(from)].state) {
            return Err(Refusal::PortNotForwarding(mark));
        }
        if is_reserved(frame.destination) {
            return Err(Refusal::ReservedDestination(mark));
        }
        let way = Way {
            count: self.queues.shape().ports(),
            from,
            members: vlan.members,
            said: self.statics.said(&self.vlans, vlan, frame.destination),
            known: known_port(&mut self.table, vlan.fid, frame.destination),
        };
        let decided = decided(&self.ports, &way);
        self.flood(memory, frame, vlan, priority, mark, &decided)
    }
}
