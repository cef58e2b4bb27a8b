// What is kept of one queue.
ghost use Rattle.std.specs.Prelude.{◌≡◌, ◌+◌, ◌*◌, ◌<◌, ◌≤◌, true, vec_len, nat_lt, slice_index_or, slice_set};
ghost use Rattle.queues.specs.Rings.{Turns, is_queue, needed_for, no_label, number_of, ring_at};
ghost use Rattle.queues.specs.Standing.{frames_at};

use crate::label::Label;
use crate::queues::Queues;
use crate::ring::Ring;
use sets::number_set::ClassSet;

impl Queues {
    // Whether there is such a queue.
    #[inline]
    pub(crate) fn is_queue(&self, port: u8, class: u8) -> bool
        ensures { result ≡ is_queue self.now.shape port class }
    {
        port < self.shape.ports() && class < self.shape.classes()
    }

    #[inline]
    pub(crate) fn number(&self, port: u8, class: u8) -> usize
        requires { is_queue self.now.shape port class ≡ true }
        ensures is { result ≡ number_of self.now.shape port class }
        ensures within { result < vec_len self.now.rings }
    {
        usize::from(port) * usize::from(self.shape.classes()) + usize::from(class)
    }

    #[inline]
    pub(crate) fn ring(&self, port: u8, class: u8) -> Ring
        requires { is_queue self.now.shape port class ≡ true }
        ensures is { result ≡ ring_at self.now.rings.items (number_of self.now.shape port class) }
        ensures turns { Turns self.now.shape.depth result }
    {
        self.rings[self.number(port, class)]
    }

    // The cell of a slot, which is also the place of its label.
    #[inline]
    pub(crate) fn cell(&self, port: u8, class: u8, slot: u8) -> usize
        requires queue { is_queue self.now.shape port class ≡ true }
        requires slot { slot < self.now.shape.depth }
        ensures is { result ≡ number_of self.now.shape port class * self.now.shape.depth + slot }
        ensures within { result < vec_len self.now.labels }
        ensures fits { 1518 * result + 1518 ≤ needed_for self.now.shape }
    {
        self.number(port, class) * usize::from(self.shape.depth()) + usize::from(slot)
    }

    #[inline]
    pub(crate) fn label(&self, cell: usize) -> Label
        requires { cell < vec_len self.now.labels }
        ensures is { result ≡ slice_index_or self.now.labels.items cell no_label }
        ensures short { result.length ≤ 1518 }
    {
        self.labels[cell]
    }

    // How many frames stand at a port in a class.
    #[inline]
    pub(crate) fn count(&self, port: u8, class: u8) -> u8
        ensures is { result ≡ frames_at self.now port class }
        ensures most { result ≤ 64 }
    {
        if !self.is_queue(port, class) {
            return 0;
        }
        self.ring(port, class).count
    }

    // Changes a queue's ring. The port's set is written first: where `rings` is written, the two agree again.
    #[inline]
    pub(crate) fn set_ring(&mut self, port: u8, class: u8, ring: Ring)
        requires queue { is_queue self.old.shape port class ≡ true }
        requires turns { Turns self.old.shape.depth ring }
        ensures rings { self.new.rings.items ≡ slice_set self.old.rings.items (number_of self.old.shape port class) ring }
        ensures labels { self.new.labels ≡ self.old.labels }
        ensures shape { self.new.shape ≡ self.old.shape }
    {
        let queue = self.number(port, class);
        let port = usize::from(port);
        self.holding[port] = held_with(self.holding[port], class, ring);
        self.rings[queue] = ring;
    }
}

// The classes of a port that hold a frame, once the ring of one class is this.
#[inline]
fn held_with(held: ClassSet, class: u8, ring: Ring) -> ClassSet
    ensures { result ≡ slice_set held class (nat_lt 0 ring.count) }
{
    let mut held = held;
    if ring.count > 0 {
        held.insert(class);
    } else {
        held.remove(class);
    }
    held
}
