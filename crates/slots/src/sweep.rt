//! Freeing records where they lie. Since no search for a pair ends at a free record, nothing has to move.
ghost use Rattle.std.specs.Prelude.{◌≡◌, length, map, replicate};
ghost use Rattle.table.specs.Entries.{free_entry};
ghost use Rattle.slots.specs.Sweep.{heard_later};

use table::entry::Entry;

// What is left of a record when the entries that were heard at the limit or before it go.
fn sift(limit: u64, entry: Entry) -> Entry
    ensures { result ≡ heard_later limit «entry» }
{
    if limit < entry.heard {
        entry
    } else {
        Entry::free()
    }
}

/// Frees the records that were heard at the limit (in milliseconds) or before it, and leaves the others as they are.
pub fn sweep(records: &mut [Entry], limit: u64)
    ensures { records.new ≡ map (heard_later limit) records.old }
{
    for record in records.iter_mut() {
        *record = sift(limit, *record);
    }
}

/// Frees every record.
pub fn clear(records: &mut [Entry])
    ensures { records.new ≡ replicate (length records.old) free_entry }
{
    records.fill(Entry::free());
}
