//! What every filtering table does. A table means a set of entries: one list, rising by FID and then
//! by address, with at most one entry for each pair of FID and address and at most a share for each FID.
ghost use Rattle.std.specs.Prelude.{◌≡◌, ℕ, ◌≤◌, true, List};
ghost use Rattle.table.specs.Entries.{count_of, fids_in_range};
ghost use Rattle.table.specs.Rising.{rises};
ghost use Rattle.table.specs.Calls.{after_expire, after_flush, after_learn, answered, expired, flushed, learned_mark};
ghost use Rattle.table.specs.declared.entry.Entry.{Entry};

use crate::entry::{Entry, Key};
use fault::mark::Mark;
use fault::refusal::Refusal;

/// A filtering table. `find`, `learn` and `flush` refuse an FID that is not 1 to 16 with `FidOutOfRange`, and then
/// leave the set as it was. No call refuses anything else. Times are in milliseconds.
pub trait Table {
    // The set, as its one rising list.
    ghost entries: { Self → List Entry };

    // The most entries that one filtering database may have.
    ghost share: { Self → ℕ };

    /// The port at which an address was heard last, if it is known.
    fn find(&mut self, key: Key) -> Result<Option<u8>, Refusal>
        ensures answer { result ≡ answered (entries self.old) key.fid key.address }
        ensures later { entries self.new ≡ entries self.old }
        ensures share { share self.new ≡ share self.old };

    /// An address was heard at a port. One that is not known yet is added while its database has fewer entries
    /// than the share, and otherwise marked `Full`.
    fn learn(&mut self, entry: Entry) -> Result<Mark, Refusal>
        ensures answer { result ≡ learned_mark (share self.old) (entries self.old) entry.key.fid entry.key.address entry.port }
        ensures later { entries self.new ≡ after_learn (share self.old) (entries self.old) entry.key.fid entry.key.address entry.port entry.heard }
        ensures share { share self.new ≡ share self.old };

    /// Removes the entries that were heard at the limit or before it, and says how many there were.
    fn expire(&mut self, limit: u64) -> usize
        ensures answer { result ≡ expired limit (entries self.old) }
        ensures later { entries self.new ≡ after_expire limit (entries self.old) }
        ensures share { share self.new ≡ share self.old };

    /// Removes the entries of one filtering database, and says how many there were.
    fn flush(&mut self, fid: u8) -> Result<usize, Refusal>
        ensures answer { result ≡ flushed (entries self.old) fid }
        ensures later { entries self.new ≡ after_flush (entries self.old) fid }
        ensures share { share self.new ≡ share self.old };

    // Each entry comes before those that follow it.
    ghost rising: { (s : Self) → rises (entries s) ≡ true };

    // Each entry is of a filtering database that there is.
    ghost ranged: { (s : Self) → fids_in_range (entries s) ≡ true };

    // No database has more entries than its share.
    ghost fair: { (s : Self) (f : ℕ) → count_of f (entries s) ≤ share s };
}
