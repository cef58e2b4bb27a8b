//! Asking what stands in the queues.
ghost use Rattle.std.specs.Prelude.{◌≡◌, ℕ, List, length, map};
ghost use Rattle.rules.specs.Ports.{eight};
ghost use Rattle.rules.specs.State.{holds_frame, standing_in};
ghost use Rattle.queues.specs.Rings.{classes_in};
ghost use Rattle.queues.specs.Standing.{frames_at, counted_below, has_room, queues_of};

use crate::queues::Queues;
use sets::number_set::{ClassSet, PORTS};

impl Queues {
    /// Whether a queue has room for one frame more. There is none where the port or the class is none.
    #[inline]
    #[tactic(auto, using(crate::proofs::Counts::counted))]
    pub fn has_room(&self, port: u8, class: u8) -> bool
        ensures value { result ≡ has_room self.now port class }
        ensures count { (memory : List ℕ) → length (queues_of self.now memory port class) ≡ frames_at self.now port class }
    {
        self.is_queue(port, class) && self.count(port, class) < self.shape.depth()
    }

    /// The classes in which a frame stands at a port. There are none where the port is none.
    #[inline]
    #[tactic(auto, using(crate::proofs::Counts::classes_are))]
    pub fn standing_classes(&self, port: u8) -> ClassSet
        ensures { (memory : List ℕ) → result ≡ map (λ c. holds_frame (queues_of self.now memory port c)) eight }
    {
        self.held(port)
    }

    /// How many frames stand at a port, in all classes together.
    #[tactic(auto, using(crate::proofs::Counts::standing_is))]
    pub fn standing(&self, port: u8) -> usize
        ensures { (memory : List ℕ) → result ≡ standing_in (queues_of self.now memory port) eight }
    {
        self.total(port)
    }

    // The set that is kept for a port.
    #[inline]
    fn held(&self, port: u8) -> ClassSet
        ensures { result ≡ classes_in self.now.shape self.now.rings.items port }
    {
        let port = usize::from(port);
        if port < PORTS {
            self.holding[port]
        } else {
            ClassSet::empty()
        }
    }

    // How many frames stand at a port, whatever the memory.
    fn total(&self, port: u8) -> usize
        ensures { result ≡ counted_below (frames_at self.now port) 8 }
    {
        let mut total = 0;
        for class in 0..self.shape.classes() {
            total += usize::from(self.count(port, class));
        }
        total
    }
}
