//! The table: a stretch of records for each filtering database. A call for one database looks at no
//! record of another. `find` and `learn` are always inlined down to the search (`slots::probe` says why).
ghost use Rattle.std.specs.Prelude.{◌≡◌, ◌+◌, ◌*◌, ◌≤◌, filter, length};
ghost use Rattle.std.proofs.Props.{props};
ghost use Rattle.table.specs.Records.{Orderly, held_of};
ghost use Rattle.hashed.specs.Layout.{Laid, spared, start_of};

use crate::row::Row;
use crate::stretch::{find, learn};
use fault::mark::Mark;
use fault::refusal::Refusal;
use slots::measure::Bounds;
use slots::sweep::{clear, sweep};
use std::mem;
use std::ops::Range;
use table::checked::Checked;
use table::entry::{Entry, Key};
use table::fid::Fid;
use table::table::Table;

/// A table in 32 records for each entry of the share, which is 1 to 256: twice as many as entries for each
/// filtering database. What is lent beside them it never holds.
// The records stay one slice beside the bounds: sixteen slices of it would have to be cut and named one
// by one, since a closure that cuts the next from what is left says nothing of what it gave.
#[derive(Drop)]
pub struct Hashed<'a> {
    records: &'a mut [Entry],
    bounds: [Bounds; 16],
    share: usize,
    pub ghost small: { share ≤ 256 },
    pub ghost long: { length records.now ≡ 32 * share },
    pub ghost laid: { Laid share records.now bounds } by { Prim.hlevel props },
    pub ghost orderly: { Orderly share (held_of records.now) } by { Prim.hlevel props },
}

impl<'a> Hashed<'a> {
    ghost use Rattle.std.specs.Prelude.{[], Ok, replicate};
    ghost use Rattle.table.specs.Entries.{free_entry, lookup};
    ghost use Rattle.table.specs.Calls.{after_flush, after_learn, entry_port, flushed, learned_mark};
    ghost use Rattle.slots.specs.Measure.{empty_bounds};
    ghost use Rattle.hashed.specs.Sets.{set_of};

    /// An empty table in the records that were checked for it. It frees them all.
    pub fn new(checked: Checked<'a, 32>) -> Hashed<'a>
        ensures empty { set_of result ≡ [] }
        ensures share { result.share ≡ checked.entry.share }
        ensures free { result.records.now ≡ replicate (32 * result.share) free_entry }
        ensures bounds { result.bounds ≡ replicate 16 empty_bounds }
    {
        let (share, records) = checked.into_parts();
        Hashed::in_records(share, records)
    }

    // An empty table in so many records, which it frees.
    fn in_records(share: usize, records: &'a mut [Entry]) -> Hashed<'a>
        requires small { share ≤ 256 }
        requires long { length records.old ≡ 32 * share }
        ensures empty { set_of result ≡ [] }
        ensures share { result.share ≡ share }
        ensures free { result.records.now ≡ replicate (32 * share) free_entry }
        ensures bounds { result.bounds ≡ replicate 16 empty_bounds }
    {
        clear(records);
        Hashed {
            records,
            bounds: [Bounds::empty(); 16],
            share,
        }
    }

    // Where the stretch of a row lies.
    fn stretch(&self, row: Row) -> Range<usize>
        ensures start { result.start ≡ start_of self.now.share row.index }
        ensures end { result.end ≡ start_of self.now.share row.index + 2 * self.now.share }
        ensures fits { result.end ≤ 32 * self.now.share }
    {
        let start = row.index * (2 * self.share);
        start..start + 2 * self.share
    }

    // The port of an address, from the stretch of its database.
    #[inline(always)]
    fn port_at(&self, row: Row, key: Key) -> Option<u8>
        requires { row.index + 1 ≡ key.fid }
        ensures { result ≡ entry_port (lookup (set_of self.now) key.fid key.address) }
    {
        let stretch = self.stretch(row);
        find(&self.records[stretch], self.bounds[row.index], key)
    }

    // Learns an entry in the stretch of its database.
    #[inline(always)]
    fn learn_at(&mut self, row: Row, entry: Entry) -> Mark
        requires { row.index + 1 ≡ entry.key.fid }
        ensures mark { Ok result ≡ learned_mark self.old.share (set_of self.old) entry.key.fid entry.key.address entry.port }
        ensures later { set_of self.new ≡ after_learn self.old.share (set_of self.old) entry.key.fid entry.key.address entry.port entry.heard }
        ensures share { self.new.share ≡ self.old.share }
    {
        let stretch = self.stretch(row);
        learn(
            &mut self.records[stretch],
            &mut self.bounds[row.index],
            self.share,
            entry,
        )
    }

    // Frees the stretch of a database, and says how many entries it held.
    fn flush_at(&mut self, row: Row) -> usize
        ensures gone { Ok result ≡ flushed (set_of self.old) (row.index + 1) }
        ensures later { set_of self.new ≡ after_flush (set_of self.old) (row.index + 1) }
        ensures share { self.new.share ≡ self.old.share }
    {
        let stretch = self.stretch(row);
        clear(&mut self.records[stretch]);
        mem::replace(&mut self.bounds[row.index], Bounds::empty()).held
    }

    // Frees the records of one stretch that were heard at the limit or before it, and says how many entries
    // those held.
    fn expire_row(&mut self, row: Row, limit: u64) -> usize
        ensures gone { result + length (held_of self.new.records.now) ≡ length (held_of self.old.records.now) }
        ensures share { self.new.share ≡ self.old.share }
        ensures swept { held_of self.new.records.now ≡ filter (spared limit (row.index + 1)) (held_of self.old.records.now) }
    {
        if !self.bounds[row.index].is_due(limit) {
            return 0;
        }
        self.sweep_row(row, limit)
    }

    // Frees what is due in one stretch and measures its bounds anew, so that what went away does not make later
    // searches longer. It is not inlined, so that the registers which it uses are not saved where nothing is due.
    #[inline(never)]
    fn sweep_row(&mut self, row: Row, limit: u64) -> usize
        ensures gone { result + length (held_of self.new.records.now) ≡ length (held_of self.old.records.now) }
        ensures share { self.new.share ≡ self.old.share }
        ensures swept { held_of self.new.records.now ≡ filter (spared limit (row.index + 1)) (held_of self.old.records.now) }
    {
        let before = self.bounds[row.index];
        let stretch = self.stretch(row);
        let records = &mut self.records[stretch];
        sweep(records, limit);
        let after = Bounds::of(records);
        self.bounds[row.index] = after;
        before.held - after.held
    }
}

impl<'a> Table for Hashed<'a> {
    ghost use Rattle.table.proofs.Implement.{fair_rising, ranged_rising};
    ghost use Rattle.table.proofs.Rising.{rises_rising};
    ghost use Rattle.hashed.specs.Sets.{set_of};

    ghost entries = { set_of };

    ghost share = { λ s. s.share };

    #[inline(always)]
    fn find(&mut self, key: Key) -> Result<Option<u8>, Refusal> {
        let row = Row::from(Fid::try_from(key.fid)?);
        Ok(self.port_at(row, key))
    }

    #[inline(always)]
    fn learn(&mut self, entry: Entry) -> Result<Mark, Refusal> {
        let row = Row::from(Fid::try_from(entry.key.fid)?);
        Ok(self.learn_at(row, entry))
    }

    #[tactic(auto, using(crate::proofs::Calls::none_yet, crate::proofs::Calls::one_more))]
    fn expire(&mut self, limit: u64) -> usize {
        let mut gone = 0;
        // By row, which tells both the stretch and its bounds.
        for index in 0..16 {
            gone += self.expire_row(Row { index }, limit);
        }
        gone
    }

    fn flush(&mut self, fid: u8) -> Result<usize, Refusal> {
        let row = Row::from(Fid::try_from(fid)?);
        Ok(self.flush_at(row))
    }

    ghost rising = { λ s. rises_rising (held_of s.records.now) };

    ghost ranged = { λ s. ranged_rising s.share (held_of s.records.now) s.orderly };

    ghost fair = { λ s. fair_rising s.share (held_of s.records.now) s.orderly };
}
