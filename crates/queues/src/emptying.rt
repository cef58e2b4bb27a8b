//! Emptying the queues of a port.
ghost use Rattle.std.specs.Prelude.{◌≡◌, ℕ, cond, ◌==◌, ◌&&◌, true, List, []};
ghost use Rattle.rules.specs.Ports.{eight};
ghost use Rattle.rules.specs.State.{standing_in};
ghost use Rattle.queues.specs.Standing.{queues_of, slots_of};

use crate::queues::Queues;

impl Queues {
    /// Drops all frames that stand at a port, and answers how many these were. Where the next frames will lie stays.
    pub fn empty(&mut self, port: u8) -> usize
        ensures answer { (memory : List ℕ) → result ≡ standing_in (queues_of self.old memory port) eight }
        ensures queues { (memory : List ℕ) → queues_of self.new memory ≡ (λ p c. cond (p == port) [] (queues_of self.old memory p c)) }
        ensures slots { slots_of self.new ≡ slots_of self.old }
        ensures shape { self.new.shape ≡ self.old.shape }
    {
        let standing = self.standing(port);
        self.empty_classes(port);
        standing
    }

    fn empty_classes(&mut self, port: u8)
        ensures queues { (memory : List ℕ) → queues_of self.new memory ≡ (λ p c. cond (p == port) [] (queues_of self.old memory p c)) }
        ensures slots { slots_of self.new ≡ slots_of self.old }
        ensures shape { self.new.shape ≡ self.old.shape }
    {
        for class in 0..self.shape.classes() {
            self.empty_class(port, class);
        }
    }

    fn empty_class(&mut self, port: u8, class: u8)
        ensures queues { (memory : List ℕ) (p c : ℕ) → queues_of self.new memory p c ≡ cond (p == port && c == class) [] (queues_of self.old memory p c) }
        ensures slots { slots_of self.new ≡ slots_of self.old }
        ensures shape { self.new.shape ≡ self.old.shape }
    {
        if !self.is_queue(port, class) {
            return;
        }
        let ring = self.ring(port, class);
        self.set_ring(port, class, ring.emptied());
    }
}
