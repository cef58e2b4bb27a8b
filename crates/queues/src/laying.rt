//! Laying frames into queues.
ghost use Rattle.std.specs.Prelude.{◌≡◌, ◌+◌, ◌*◌, ◌<◌, ◌≤◌, cond, true, false, length, None};
ghost use Rattle.std.specs.Option.{is_none};
ghost use Rattle.frame.specs.Reading.{picture};
ghost use Rattle.frame.specs.Writing.{shape_asked};
ghost use Rattle.queues.specs.Rings.{needed_for};
ghost use Rattle.queues.specs.Standing.{frames_at, has_room, queues_of, slots_of};
ghost use Rattle.queues.specs.Laying.{can_lay, counted_one, laid_one, next_one, queued, when, written_next};

use crate::label::Label;
use crate::queues::Queues;
use frame::parts::Parts;
use frame::write::{CELL, write_cell};

impl Queues {
    /// Lays a frame at the end of a queue, and answers whether it did. The frame is written straight into its cell of
    /// the frame memory, and `vid` is kept with it. Nothing is altered where the port or the class is none, where the
    /// queue is full, where the memory is too small, and where `frame::write` would refuse the parts.
    #[inline(always)]
    pub fn lay(
        &mut self,
        memory: &mut [u8],
        port: u8,
        class: u8,
        vid: u16,
        frame: &Parts<'_>,
    ) -> bool
        ensures answer { result ≡ can_lay self.old (length memory.old) port class (picture frame.now) }
        ensures queues { queues_of self.new memory.new ≡ when result (laid_one port class (queued vid (picture frame.now))) (queues_of self.old memory.old) }
        ensures slots { slots_of self.new ≡ when result (next_one self.old.shape.depth port class) (slots_of self.old) }
        ensures counts { frames_at self.new ≡ when result (counted_one port class) (frames_at self.old) }
        ensures memory { memory.new ≡ when result (written_next self.old port class (picture frame.now)) memory.old }
        ensures shape { self.new.shape ≡ self.old.shape }
        ensures refused { result ≡ false → self.new ≡ self.old }
    {
        if !self.has_room(port, class) || memory.len() < self.memory_needed() {
            return false;
        }
        self.lay_next(memory, port, class, vid, frame)
    }

    // Lays a frame into the next slot of a queue that has room, if the frame can be written.
    #[inline(always)]
    fn lay_next(
        &mut self,
        memory: &mut [u8],
        port: u8,
        class: u8,
        vid: u16,
        frame: &Parts<'_>,
    ) -> bool
        requires room { has_room self.old port class ≡ true }
        requires memory { needed_for self.old.shape ≤ length memory.old }
        ensures answer { result ≡ is_none (shape_asked (picture frame.now)) }
        ensures queues { queues_of self.new memory.new ≡ when result (laid_one port class (queued vid (picture frame.now))) (queues_of self.old memory.old) }
        ensures slots { slots_of self.new ≡ when result (next_one self.old.shape.depth port class) (slots_of self.old) }
        ensures counts { frames_at self.new ≡ when result (counted_one port class) (frames_at self.old) }
        ensures memory { memory.new ≡ when result (written_next self.old port class (picture frame.now)) memory.old }
        ensures shape { self.new.shape ≡ self.old.shape }
        ensures refused { result ≡ false → self.new ≡ self.old }
    {
        let ring = self.ring(port, class);
        let cell = self.cell(port, class, ring.next);
        let Ok(length) = write_cell(memory, CELL * cell, frame) else {
            return false;
        };
        self.labels[cell] = Label {
            length: length as u16,
            vid,
        };
        self.set_ring(port, class, ring.with_one_more(self.shape.depth()));
        true
    }
}
