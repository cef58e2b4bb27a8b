// The slots of one queue.
ghost use Rattle.std.specs.Prelude.{◌≡◌, ◌+◌, ◌%◌, ◌<◌, ◌≤◌};
ghost use Rattle.queues.specs.Rings.{Turns, oldest};

// Which slots of a queue hold frames: `count` slots one after another, the last of them just before `next`, where the
// next frame will lie, going round from the last slot to the first.
#[derive(Clone, Copy, Debug, Drop)]
pub struct Ring {
    pub(crate) next: u8,
    pub(crate) count: u8,
}

impl Ring {
    pub(crate) const EMPTY: Ring = Ring { next: 0, count: 0 };

    // The slot of the oldest frame.
    #[inline]
    pub(crate) fn oldest(self, depth: u8) -> u8
        requires turns { Turns depth self }
        requires depth { depth ≤ 64 }
        ensures value { result ≡ oldest depth self % depth }
        ensures slot { result < depth }
    {
        let turn = self.next + depth - self.count;
        if turn < depth { turn } else { turn - depth }
    }

    // The ring after one frame more.
    #[inline]
    pub(crate) fn with_one_more(self, depth: u8) -> Ring
        requires turns { Turns depth self }
        requires room { self.count < depth }
        requires depth { depth ≤ 64 }
        ensures next { result.next ≡ (self.next + 1) % depth }
        ensures count { result.count ≡ self.count + 1 }
    {
        Ring {
            next: slot_after(self.next, depth),
            count: self.count + 1,
        }
    }

    // The ring after the oldest frame went.
    #[inline]
    pub(crate) fn with_one_fewer(self) -> Ring
        requires { 0 < self.count }
        ensures next { result.next ≡ self.next }
        ensures count { result.count + 1 ≡ self.count }
    {
        Ring {
            count: self.count - 1,
            ..self
        }
    }

    // The ring after all frames went.
    #[inline]
    pub(crate) fn emptied(self) -> Ring
        ensures next { result.next ≡ self.next }
        ensures count { result.count ≡ 0 }
    {
        Ring { count: 0, ..self }
    }
}

// The slot after another, going round from the last to the first.
#[inline]
fn slot_after(slot: u8, depth: u8) -> u8
    requires slot { slot < depth }
    requires depth { depth ≤ 64 }
    ensures { result ≡ (slot + 1) % depth }
{
    let turn = slot + 1;
    if turn < depth { turn } else { 0 }
}
