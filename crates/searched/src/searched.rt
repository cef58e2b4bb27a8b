//! The table itself: every call is a search over the records that are in use.
ghost use Rattle.std.specs.Prelude.{ℕ, ◌≡◌, ◌≤◌, ◌*◌, true, length};
ghost use Rattle.table.specs.Entries.{count_of, fids_in_range};
ghost use Rattle.table.specs.Records.{distinct};
ghost use Rattle.searched.specs.Records.{oldest_of, taken};

use crate::rows::Rows;
use fault::mark::Mark;
use fault::refusal::Refusal;
use table::checked::Checked;
use table::entry::{Entry, Key};
use table::fid::Fid;
use table::table::Table;

/// A table in 16 records for each entry of the share, which is 1 to 256. What is lent beside them it never holds.
#[derive(Drop)]
pub struct Searched<'a> {
    rows: Rows<'a>,
    share: usize,
    // No entry was heard before this, so that `expire` need not look where nothing is due. It is a bound,
    // and with no entry the end of time is one: an Option would only add a case to each `min`.
    oldest: u64,
    pub ghost long: { length rows.all.now ≡ 16 * share },
    pub ghost ranged: { fids_in_range (taken rows) ≡ true },
    pub ghost apart: { distinct (taken rows) ≡ true },
    pub ghost fair: { (f : ℕ) → count_of f (taken rows) ≤ share },
    pub ghost dated: { oldest ≤ oldest_of (taken rows) },
}

impl<'a> Searched<'a> {
    ghost use Rattle.std.specs.Prelude.{◌+◌, Bool, false, [], replicate, None, filter, nat_le};
    ghost use Rattle.table.specs.Calls.{after_expire, entry_port};
    ghost use Rattle.table.specs.Entries.{free_entry, is_fid, lookup};
    ghost use Rattle.table.specs.Rising.{insert};
    ghost use Rattle.table.specs.declared.entry.Entry.{Entry};
    ghost use Rattle.searched.specs.Records.{Keeps};
    ghost use Rattle.searched.specs.Sets.{after_renewal, renewed, set_of};

    /// An empty table in the records that were checked for it. It frees them all.
    pub fn new(checked: Checked<'a, 16>) -> Searched<'a>
        ensures empty { set_of result ≡ [] }
        ensures share { result.share ≡ checked.entry.share }
        ensures oldest { result.oldest ≡ oldest_of [] }
        ensures free { result.rows.all.now ≡ replicate (16 * result.share) free_entry }
    {
        let (share, all) = checked.into_parts();
        all.fill(Entry::free());
        Searched {
            rows: Rows { all, used: 0 },
            share,
            oldest: u64::MAX,
        }
    }

    // The port at which an address was heard last.
    fn port(&self, key: Key) -> Option<u8>
        ensures { result ≡ entry_port (lookup (set_of self.now) key.fid key.address) }
    {
        let at = self.rows.place(key)?;
        Some(self.rows.entries()[at].port)
    }

    // Writes the entry of a pair anew, if the pair has one.
    fn refresh(&mut self, entry: Entry) -> Option<Mark>
        ensures answer { result ≡ renewed (lookup (set_of self.old) entry.key.fid entry.key.address) entry.port }
        ensures later { set_of self.new ≡ after_renewal (set_of self.old) entry result }
        ensures share { self.new.share ≡ self.old.share }
    {
        let at = self.rows.place(entry.key)?;
        let mark = self.rows.entries()[at].again_at(entry.port);
        self.rows.write(at, entry);
        self.oldest = self.oldest.min(entry.heard);
        Some(mark)
    }

    // Whether a database has its share of entries.
    #[tactic(auto, using(crate::proofs::Places::counted))]
    fn is_full(&self, fid: u8) -> bool
        ensures { result ≡ nat_le self.now.share (count_of fid (set_of self.now)) }
    {
        self.rows.count(fid) >= self.share
    }

    // Adds the entry of a pair that has none, where there is room for it.
    fn add(&mut self, entry: Entry)
        requires ranged { is_fid entry.key.fid ≡ true }
        requires absent { lookup (set_of self.old) entry.key.fid entry.key.address ≡ None }
        requires room { nat_le self.old.share (count_of entry.key.fid (set_of self.old)) ≡ false }
        ensures later { set_of self.new ≡ insert entry (set_of self.old) }
        ensures share { self.new.share ≡ self.old.share }
    {
        self.rows.push(entry);
        self.oldest = self.oldest.min(entry.heard);
    }

    // Whether an entry may have been heard at the limit or before it.
    fn is_due(&self, limit: u64) -> bool
        ensures answer { result ≡ nat_le self.now.oldest limit }
        ensures idle { result ≡ false → set_of self.now ≡ after_expire limit (set_of self.now) }
    {
        self.oldest <= limit
    }

    // Removes the entries that do not pass, where `test` is what the closure says of each entry, and says how
    // many there were.
    fn remove<F: Fn(&Entry) -> bool>(&mut self, keep: F) -> usize
        ghost test: { Entry → Bool }
        requires callable { F.IsAlwaysCallable keep }
        requires tests { Keeps (F.post keep) test }
        ensures gone { result + length (set_of self.new) ≡ length (set_of self.old) }
        ensures later { set_of self.new ≡ filter test (set_of self.old) }
        ensures share { self.new.share ≡ self.old.share }
        ensures oldest { self.new.oldest ≡ oldest_of (taken self.new.rows) }
    {
        let gone = self.rows.retain(keep);
        self.oldest = self.rows.oldest();
        gone
    }
}

impl<'a> Table for Searched<'a> {
    ghost use Rattle.searched.specs.Sets.{orderly, set_of};
    ghost use Rattle.table.proofs.Rising.{rises_rising};
    ghost use Rattle.table.proofs.Implement.{fair_rising, ranged_rising};

    ghost entries = { set_of };

    ghost share = { λ s. s.share };

    ghost rising = { λ s. rises_rising (taken s.rows) };

    ghost ranged = { λ s. ranged_rising s.share (taken s.rows) (orderly s) };

    ghost fair = { λ s f. fair_rising s.share (taken s.rows) (orderly s) f };

    fn find(&mut self, key: Key) -> Result<Option<u8>, Refusal> {
        Fid::try_from(key.fid)?;
        Ok(self.port(key))
    }

    fn learn(&mut self, entry: Entry) -> Result<Mark, Refusal> {
        Fid::try_from(entry.key.fid)?;
        if let Some(mark) = self.refresh(entry) {
            return Ok(mark);
        }
        if self.is_full(entry.key.fid) {
            return Ok(Mark::Full);
        }
        self.add(entry);
        Ok(Mark::New)
    }

    #[tactic(auto, using(table::proofs::After::all_stay, table::proofs::After::expired_rest))]
    fn expire(&mut self, limit: u64) -> usize {
        if !self.is_due(limit) {
            return 0;
        }
        self.remove(|e| limit < e.heard)
    }

    #[tactic(auto, using(table::proofs::Records::count_flush))]
    fn flush(&mut self, fid: u8) -> Result<usize, Refusal> {
        Fid::try_from(fid)?;
        Ok(self.remove(|e| e.key.fid != fid))
    }
}
