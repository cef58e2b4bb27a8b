//! Taking frames out of queues.
ghost use Rattle.std.specs.Prelude.{◌≡◌, ℕ, ◌+◌, ◌<◌, ◌≤◌, ◌*◌, cond, IfSome, List, None, Some, drop, length, take};
ghost use Rattle.frame.specs.Writing.{put_at};
ghost use Rattle.queues.specs.Rings.{needed_for};
ghost use Rattle.queues.specs.Standing.{frames_at, queues_of, slots_of};
ghost use Rattle.queues.specs.Laying.{when};
ghost use Rattle.queues.specs.Taking.{can_take, handed_out, offered, taken_of, without_oldest};

use crate::label::Label;
use crate::queues::Queues;
use frame::write::CELL;

impl Queues {
    /// Takes the oldest frame out of a queue. Its bytes are copied to the front of the output memory, which keeps its
    /// rest. Where no frame stands, where the port or the class is none, where the frame memory is too small, and where
    /// the output memory has fewer than 1,518 bytes, the answer is `None` and nothing is altered.
    #[inline]
    pub fn take(&mut self, memory: &[u8], port: u8, class: u8, output: &mut [u8]) -> Option<Label>
        ensures answer { result ≡ taken_of (offered self.old memory.now output.old port class) }
        ensures short { IfSome result (λ r. r.length ≤ 1518) }
        ensures output { output.new ≡ handed_out (offered self.old memory.now output.old port class) output.old }
        ensures queues { (m : List ℕ) → queues_of self.new m ≡ when (can_take self.old (length memory.now) (length output.old)) (without_oldest port class) (queues_of self.old m) }
        ensures slots { slots_of self.new ≡ slots_of self.old }
        ensures shape { self.new.shape ≡ self.old.shape }
    {
        if memory.len() < self.memory_needed() || output.len() < CELL {
            return None;
        }
        self.take_oldest(memory, port, class, output)
    }

    #[inline(always)]
    fn take_oldest(
        &mut self,
        memory: &[u8],
        port: u8,
        class: u8,
        output: &mut [u8],
    ) -> Option<Label>
        requires memory { needed_for self.old.shape ≤ length memory.now }
        requires output { 1518 ≤ length output.old }
        ensures answer { result ≡ taken_of (queues_of self.old memory.now port class) }
        ensures short { IfSome result (λ r. r.length ≤ 1518) }
        ensures output { output.new ≡ handed_out (queues_of self.old memory.now port class) output.old }
        ensures queues { (m : List ℕ) → queues_of self.new m ≡ without_oldest port class (queues_of self.old m) }
        ensures slots { slots_of self.new ≡ slots_of self.old }
        ensures shape { self.new.shape ≡ self.old.shape }
    {
        if self.count(port, class) == 0 {
            return None;
        }
        // The ring goes on before the bytes are copied, so that nothing has to be kept over the copying.
        let oldest = self.oldest(port, class);
        let ring = self.ring(port, class);
        self.set_ring(port, class, ring.with_one_fewer());
        let at = CELL * oldest.cell;
        put(output, &memory[at..at + usize::from(oldest.label.length)]);
        Some(oldest.label)
    }

    // The oldest frame of a queue in which one stands.
    #[inline(always)]
    fn oldest(&self, port: u8, class: u8) -> Oldest
        requires { 0 < frames_at self.now port class }
        ensures within { 1518 * result.cell + 1518 ≤ needed_for self.now.shape }
        ensures short { result.label.length ≤ 1518 }
        ensures label { (m : List ℕ) → needed_for self.now.shape ≤ length m → Some result.label ≡ taken_of (queues_of self.now m port class) }
        ensures bytes { (m output : List ℕ) → needed_for self.now.shape ≤ length m → put_at output 0 (take result.label.length (drop (1518 * result.cell) m)) ≡ handed_out (queues_of self.now m port class) output }
    {
        let ring = self.ring(port, class);
        let cell = self.cell(port, class, ring.oldest(self.shape.depth()));
        Oldest {
            cell,
            label: self.label(cell),
        }
    }
}

// A standing frame: where it lies in the frame memory, counted in cells, and its label.
#[derive(Clone, Copy, Drop)]
struct Oldest {
    cell: usize,
    label: Label,
}

// Copies bytes to the front of a memory.
#[tactic(auto, using(frame::proofs::Placed::lent))]
fn put(memory: &mut [u8], bytes: &[u8])
    requires { length bytes.now ≤ length memory.old }
    ensures { memory.new ≡ put_at memory.old 0 bytes.now }
{
    memory[..bytes.len()].copy_from_slice(bytes);
}
