//! A search begins at the home of a pair of database and address and goes round. Nothing marks its end:
//! a record that was freed may lie before the entry, so the caller says how far entries reach.
//!
//! The search for a pair is always inlined, and so is what leads to it in a hashed table: a key that is handed
//! over in memory is written in small parts and read in large ones, and for that a processor waits. One call
//! on the way that is not inlined takes most of the gain (docs/CHECKING.md has the times).
ghost use Rattle.std.specs.Prelude.{◌≡◌, ◌+◌, ◌^◌, ◌<◌, Bool, IfSome, min, length, take, position};
ghost use Rattle.table.specs.declared.entry.Entry.{Entry};
ghost use Rattle.table.specs.Entries.{has_key, is_free};
ghost use Rattle.slots.specs.Hash.{home_of};
ghost use Rattle.slots.specs.Probe.{Found};

use crate::hash::home;
use table::entry::{Entry, Key};

/// A record, by its index, and how many steps it is past the home from which it was found.
#[derive(Clone, Copy, PartialEq, Eq, Debug, Drop)]
pub struct Spot {
    /// Which record of the stretch.
    pub at: usize,
    /// Counted upward from the home, round past the end.
    pub steps: usize,
}

// What a search looks for. It is no closure: a proof would have to say at each call what the closure answers.
trait Sought {
    ghost matches: { Self → Entry → Bool };

    fn is_in(&self, entry: &Entry) -> bool
        ensures { result ≡ matches self.now entry.now };
}

// The entry of a pair. The last byte is compared first: it nearly always tells, for a free record too. By
// `has_key` alone, finding nothing in a half full stretch takes four times as long.
impl Sought for Key {
    ghost matches = { λ key. has_key key.fid key.address };

    #[tactic(auto, using(crate::proofs::Probing::other_byte))]
    fn is_in(&self, entry: &Entry) -> bool {
        if entry.key.address[5] != self.address[5] {
            return false;
        }
        entry.has_key(*self)
    }
}

// A record that holds no entry.
struct Free;

impl Sought for Free {
    ghost matches = { λ free. is_free };

    fn is_in(&self, entry: &Entry) -> bool {
        entry.is_free()
    }
}

// The place of the first record that matches, among the first `reach`.
fn first<T: Sought>(records: &[Entry], reach: usize, sought: &T) -> Option<usize>
    ensures value { result ≡ position (T.matches sought.now) (take reach records.now) }
    ensures below { IfSome result (λ at. at < length records.now) }
{
    records
        .iter()
        .take(reach)
        .position(|entry| sought.is_in(entry))
}

// A record before the home, to which a search comes after all those from the home on.
fn gone_round(after: usize, at: usize) -> Spot
    requires { after + at < 2 ^ 64 }
    ensures { result ≡ record { at = at; steps = after + at } }
{
    let steps = after + at;
    Spot { at, steps }
}

// The first record that matches, among the first `reach` from the home of a pair on: those from the home
// to the last one, and then those before it.
#[inline(always)]
fn search<T: Sought>(records: &[Entry], reach: usize, key: Key, sought: &T) -> Option<Spot>
    ensures { Found (T.matches sought.now) records.now (home_of (length records.now) key.fid key.address) (min reach (length records.now)) result }
{
    let (before, after) = records.split_at(home(records.len(), key));
    if let Some(steps) = first(after, reach, sought) {
        return Some(Spot {
            at: before.len() + steps,
            steps,
        });
    }
    let at = first(before, reach.saturating_sub(after.len()), sought)?;
    Some(gone_round(after.len(), at))
}

/// The record of a pair, among the first `reach` records from its home on. A pair that lies farther is not found.
#[inline(always)]
pub fn place(records: &[Entry], reach: usize, key: Key) -> Option<Spot>
    ensures { Found (has_key key.fid key.address) records.now (home_of (length records.now) key.fid key.address) (min reach (length records.now)) result }
{
    search(records, reach, key, &key)
}

/// The first free record from the home of a pair on, or none where every record holds an entry.
pub fn vacant(records: &[Entry], key: Key) -> Option<Spot>
    ensures { Found is_free records.now (home_of (length records.now) key.fid key.address) (length records.now) result }
{
    search(records, records.len(), key, &Free)
}
