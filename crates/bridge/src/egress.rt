//! Into the queues: the class, the room and the form of a frame at each port that it goes to.
ghost use Rattle.std.specs.Prelude.{◌≡◌, ◌<◌, ◌≤◌, None, length, nat_le, true};
ghost use Rattle.frame.specs.Reading.{picture};
ghost use Rattle.frame.specs.Writing.{shape_asked};
ghost use Rattle.queues.specs.Laying.{queued};
ghost use Rattle.queues.specs.Rings.{needed_for};
ghost use Rattle.rules.specs.Egress.{class_of, egress_tag, memory_needed, sendable};
ghost use Rattle.rules.specs.Ports.{no_ports};
ghost use Rattle.sets.specs.Sets.{members};
ghost use Rattle.rules.specs.Calls.{flood, outcome};
ghost use Rattle.bridge.specs.Flooding.{OfPorts, Writable, flood_of, laid_in, laid_over};
ghost use Rattle.bridge.specs.LaidBy.{PlacedIn, laid_by};
ghost use Rattle.bridge.specs.Told.{told_received};
ghost use Rattle.bridge.specs.View.{settings_of, state_of};

use crate::bridge::Bridge;
use fault::mark::Mark;
use fault::refusal::Refusal;
use frame::parts::{Parts, Tag};
use queues::queues::Queues;
use rules::answers::Received;
use rules::vlans::Vlan;
use selector::selector::Selector;
use sets::number_set::PortSet;
use table::table::Table;

// For each priority its traffic class, where there are one to eight classes.
const CLASS_TABLE: [[u8; 8]; 8] = [
    [0, 0, 0, 0, 0, 1, 1, 1],
    [0, 0, 0, 0, 0, 0, 0, 0],
    [0, 0, 0, 1, 1, 2, 2, 2],
    [0, 0, 0, 1, 1, 2, 3, 3],
    [0, 1, 1, 2, 2, 3, 4, 4],
    [0, 1, 1, 2, 2, 3, 4, 5],
    [0, 1, 2, 3, 3, 4, 5, 6],
    [0, 1, 2, 3, 4, 5, 6, 7],
];

// The traffic class of a priority.
#[inline]
#[tactic(auto, unfolding(rules::specs::Egress::class_of))]
fn class_of(classes: u8, priority: u8) -> u8
    requires some { 1 ≤ classes }
    requires few { classes ≤ 8 }
    requires priority { priority ≤ 7 }
    ensures { result ≡ class_of classes priority }
{
    CLASS_TABLE[usize::from(priority)][usize::from(classes - 1)]
}

// The tag of a frame that leaves from a port.
#[inline]
fn egress_tag(vlan: &Vlan, priority: u8, port: u8) -> Option<Tag>
    ensures { result ≡ egress_tag vlan.now priority port }
{
    if vlan.untagged.contains(port) {
        return None;
    }
    Some(Tag {
        priority,
        vid: vlan.vid,
    })
}

// Lays a frame into a queue, or notes that there is no room at the port.
#[inline(always)]
fn lay_once(
    queues: &mut Queues,
    memory: &mut [u8],
    no_room: &mut PortSet,
    port: u8,
    class: u8,
    vid: u16,
    form: &Parts<'_>,
)
    requires memory { nat_le (needed_for queues.old.shape) (length memory.old) ≡ true }
    requires form { shape_asked (picture form.now) ≡ None }
    ensures laid { flood_of queues.new memory.new no_room.new ≡ laid_in queues.old.shape port class (queued vid (picture form.now)) (flood_of queues.old memory.old no_room.old) }
    ensures shape { queues.new.shape ≡ queues.old.shape }
{
    if !queues.lay(memory, port, class, vid, form) {
        no_room.insert(port);
    }
}

/// Lays a frame at each port of a set that has room, and answers those that have none.
#[inline(always)]
pub(crate) fn lay_over(
    queues: &mut Queues,
    memory: &mut [u8],
    decided: &PortSet,
    frame: &Parts<'_>,
    vlan: &Vlan,
    priority: u8,
) -> PortSet
    requires memory { nat_le (needed_for queues.old.shape) (length memory.old) ≡ true }
    requires priority { priority ≤ 7 }
    requires form { Writable (picture frame.now) vlan.now priority }
    ensures laid { flood_of queues.new memory.new result ≡ laid_over queues.old.shape priority (sendable (picture frame.now) vlan.now priority) (members decided.now) (flood_of queues.old memory.old no_ports) }
    ensures shape { queues.new.shape ≡ queues.old.shape }
{
    let class = class_of(queues.shape().classes(), priority);
    let mut form = *frame;
    let mut no_room = PortSet::empty();
    for port in decided.iter() {
        form.tag = egress_tag(vlan, priority, port);
        lay_once(queues, memory, &mut no_room, port, class, vlan.vid, &form);
    }
    no_room
}

impl<T: Table + Drop, S: Selector + Drop> Bridge<T, S> {
    // Queues a frame at the decided ports that have room. Asks whether there is a decided port (14).
    #[tactic(auto, unfolding(crate::specs::LaidBy::laid_by))]
    pub(crate) fn flood(
        &mut self,
        memory: &mut [u8],
        frame: &Parts<'_>,
        vlan: &Vlan,
        priority: u8,
        mark: Mark,
        decided: &PortSet,
    ) -> Result<Received, Refusal>
        requires started { self.old.started ≡ true }
        requires memory { nat_le (memory_needed (settings_of self.old)) (length memory.old) ≡ true }
        requires priority { priority ≤ 7 }
        requires form { Writable (picture frame.now) vlan.now priority }
        requires ports { OfPorts (settings_of self.old).ports decided.now }
        ensures step { outcome (told_received result) (state_of self.new memory.new) ≡ flood (settings_of self.old) (state_of self.old memory.old) (picture frame.now) vlan.now priority mark decided.now }
        ensures memory { memory.new ≡ laid_by (settings_of self.old) (state_of self.old memory.old) (picture frame.now) vlan.now result memory.old }
        ensures placed { PlacedIn vlan.now result }
        ensures settings { settings_of self.new ≡ settings_of self.old }
        ensures selector { self.new.selector ≡ self.old.selector }
    {
        if decided.is_empty() {
            return Err(Refusal::NoEgressPort(mark));
        }
        let no_room = lay_over(&mut self.queues, memory, decided, frame, vlan, priority);
        Ok(Received {
            classified: (vlan.vid, priority),
            decided: *decided,
            no_room,
            mark,
        })
    }
}
