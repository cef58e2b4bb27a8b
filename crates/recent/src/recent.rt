//! A table that answers from memory what it was asked lately. It means what the table below it means.
ghost use Rattle.std.specs.Prelude.{◌≡◌, ◌+◌, ◌%◌, ◌<◌, replicate, slice_set, Some, None, Ok};
ghost use Rattle.table.specs.Calls.{answered};
ghost use Rattle.recent.specs.Right.{Right, Right-prop};

use crate::memory::{alters, forget, recall};
use crate::remembered::Remembered;
use fault::mark::Mark;
use fault::refusal::Refusal;
use table::entry::{Entry, Key};
use table::table::Table;

/// A list of the last eight answers of `find` over any table. Which answers it remembers is no part of its meaning.
#[derive(Drop)]
pub struct Recent<T: Table> {
    table: T,
    // Eight, in fixed memory, written in turn.
    slots: [Option<Remembered>; 8],
    // The slot that is written next.
    next: u8,
    // Each remembered answer is what the table below would answer.
    pub ghost right: { Right (T.entries table) slots } by { Right-prop (T.entries table) slots },
    pub ghost below: { next < 8 },
}

impl<T: Table> Recent<T> {
    /// Over this table, remembering nothing yet. It asks nothing, and refuses nothing.
    #[tactic(auto, using(crate::proofs::Rights::right_empty))]
    pub fn new(table: T) -> Recent<T>
        ensures table { result.table ≡ table }
        ensures empty { result.slots ≡ replicate 8 None }
        ensures first { result.next ≡ 0 }
    {
        Recent {
            table,
            slots: [None; 8],
            next: 0,
        }
    }

    // Remembers an answer of the table in the slot that is written next. Next comes the slot after it, going round.
    #[inline(always)]
    #[tactic(auto, using(crate::proofs::Rights::remembers))]
    fn remember(&mut self, answer: Remembered)
        requires right { answered (T.entries self.old.table) answer.key.fid answer.key.address ≡ Ok answer.port }
        ensures slots { self.new.slots ≡ slice_set self.old.slots self.old.next (Some answer) }
        ensures next { self.new.next ≡ (self.old.next + 1) % 8 }
        ensures table { self.new.table ≡ self.old.table }
    {
        self.slots[usize::from(self.next)] = Some(answer);
        self.next = (self.next + 1) % 8;
    }
}

// `find` and `learn` are always inlined, so that a key or an entry is not handed over in memory.
impl<T: Table> Table for Recent<T> {
    ghost entries = { λ s. T.entries s.table };

    ghost share = { λ s. T.share s.table };

    #[inline(always)]
    fn find(&mut self, key: Key) -> Result<Option<u8>, Refusal> {
        if let Some(port) = recall(&self.slots, key) {
            return Ok(port);
        }
        let port = self.table.find(key)?;
        self.remember(Remembered { key, port });
        Ok(port)
    }

    #[inline(always)]
    fn learn(&mut self, entry: Entry) -> Result<Mark, Refusal> {
        let mark = self.table.learn(entry)?;
        if alters(mark) {
            forget(&mut self.slots, |answer| answer.is_for(entry.key));
        }
        Ok(mark)
    }

    #[tactic(auto, using(crate::proofs::Rights::none_expired))]
    fn expire(&mut self, limit: u64) -> usize {
        let gone = self.table.expire(limit);
        if gone > 0 {
            forget(&mut self.slots, |answer| answer.port.is_some());
        }
        gone
    }

    fn flush(&mut self, fid: u8) -> Result<usize, Refusal> {
        let gone = self.table.flush(fid)?;
        forget(&mut self.slots, |answer| answer.key.fid == fid);
        Ok(gone)
    }

    ghost rising = { λ s. T.rising s.table };

    ghost ranged = { λ s. T.ranged s.table };

    ghost fair = { λ s. T.fair s.table };
}
