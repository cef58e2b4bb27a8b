//! The calls on the records of one filtering database. Records and bounds are lent side by side: `find`
//! is lent them to read and `learn` to write, so a struct of both would have to be declared twice. Both are
//! always inlined (`slots::probe` says why).
ghost use Rattle.std.specs.Prelude.{◌≡◌, ◌*◌, true, length, nat_lt};
ghost use Rattle.table.specs.Entries.{lookup};
ghost use Rattle.table.specs.Records.{distinct, held_of};
ghost use Rattle.table.specs.Calls.{entry_port};
ghost use Rattle.hashed.specs.Stretch.{Kept, Learned};

use fault::mark::Mark;
use slots::measure::Bounds;
use slots::probe::{place, vacant};
use table::entry::{Entry, Key};

// The port of an address of the database.
#[inline(always)]
pub fn find(records: &[Entry], bounds: Bounds, key: Key) -> Option<u8>
    requires kept { Kept key.fid records.now bounds }
    requires apart { distinct (held_of records.now) ≡ true }
    ensures { result ≡ entry_port (lookup (held_of records.now) key.fid key.address) }
{
    place(records, bounds.reach, key).map(|spot| records[spot.at].port)
}

// Whether the database may have an entry more. By itself, so that what it promises stands in a clause.
fn has_room(bounds: Bounds, share: usize) -> bool
    ensures { result ≡ nat_lt bounds.held share }
{
    bounds.held < share
}

// Writes an entry over the one of its pair, or into a free record while the database has room.
#[inline(always)]
pub fn learn(records: &mut [Entry], bounds: &mut Bounds, share: usize, entry: Entry) -> Mark
    requires kept { Kept entry.key.fid records.old bounds.old }
    requires apart { distinct (held_of records.old) ≡ true }
    requires half { length records.old ≡ 2 * share }
    ensures learned { Learned share (held_of records.old) (held_of records.new) entry result }
    ensures kept { Kept entry.key.fid records.new bounds.new }
{
    if let Some(spot) = place(records, bounds.reach, entry.key) {
        let mark = records[spot.at].again_at(entry.port);
        records[spot.at] = entry;
        *bounds = bounds.with_heard(entry.heard);
        return mark;
    }
    if !has_room(*bounds, share) {
        return Mark::Full;
    }
    match vacant(records, entry.key) {
        Some(spot) => {
            records[spot.at] = entry;
            *bounds = bounds.with_new(spot.steps, entry.heard);
            Mark::New
        }
        // At most half of the records hold an entry.
        None => unreachable!(),
    }
}
