//! The records of a searched table: the first `used` of them hold entries, in the order in which they came.
ghost use Rattle.std.specs.Prelude.{◌≤◌, length};

use table::entry::{Entry, Key};

// The memory is lent and has a fixed size, so how much of it is used stands beside it.
#[derive(Drop)]
pub struct Rows<'a> {
    pub all: &'a mut [Entry],
    pub used: usize,
    pub ghost sits: { used ≤ length all.now },
}

impl<'a> Rows<'a> {
    ghost use Rattle.std.specs.Prelude.{◌≡◌, ◌+◌, ◌<◌, Bool, [], ◌∷◌, ◌++◌, filter, position, slice_set};
    ghost use Rattle.table.specs.Entries.{entries_of, has_key};
    ghost use Rattle.table.specs.declared.entry.Entry.{Entry};
    ghost use Rattle.searched.specs.Records.{Keeps, oldest_of, taken};

    pub(crate) fn entries(&self) -> &[Entry]
        ensures { result.now ≡ taken self.now }
    {
        &self.all[..self.used]
    }

    // The index of the entry of a pair.
    pub(crate) fn place(&self, key: Key) -> Option<usize>
        ensures { result ≡ position (has_key key.fid key.address) (taken self.now) }
    {
        self.entries().iter().position(|e| e.has_key(key))
    }

    pub(crate) fn count(&self, fid: u8) -> usize
        ensures { result ≡ length (entries_of fid (taken self.now)) }
    {
        // A sum, which is compiled for several entries at a time; a filter with its count is not.
        self.entries()
            .iter()
            .map(|e| usize::from(e.key.fid == fid))
            .sum()
    }

    // When the entry that was heard longest ago was heard. Where there is none, the end of time is as true a
    // bound, and no stand-in.
    pub(crate) fn oldest(&self) -> u64
        ensures { result ≡ oldest_of (taken self.now) }
    {
        self.entries()
            .iter()
            .map(|e| e.heard)
            .min()
            .unwrap_or(u64::MAX)
    }

    // Removes the entries that do not pass, moves the others up, and says how many went. `test` is what the
    // closure says of each entry.
    pub(crate) fn retain<F: Fn(&Entry) -> bool>(&mut self, keep: F) -> usize
        ghost test: { Entry → Bool }
        requires callable { F.IsAlwaysCallable keep }
        requires tests { Keeps (F.post keep) test }
        ensures gone { result + self.new.used ≡ self.old.used }
        ensures later { taken self.new ≡ filter test (taken self.old) }
        ensures room { length self.new.all.now ≡ length self.old.all.now }
    {
        // By index: an entry is read at one place and written at another, and slices have no `retain`.
        let mut kept = 0;
        for i in 0..self.used {
            let entry = self.all[i];
            if keep(&entry) {
                self.all[kept] = entry;
                kept += 1;
            }
        }
        let gone = self.used - kept;
        self.used = kept;
        gone
    }

    // Writes an entry in the place of another.
    pub(crate) fn write(&mut self, at: usize, entry: Entry)
        requires { at < self.old.used }
        ensures later { taken self.new ≡ slice_set (taken self.old) at entry }
        ensures room { length self.new.all.now ≡ length self.old.all.now }
    {
        self.all[at] = entry;
    }

    pub(crate) fn push(&mut self, entry: Entry)
        requires { self.old.used < length self.old.all.now }
        ensures later { taken self.new ≡ taken self.old ++ entry ∷ [] }
        ensures room { length self.new.all.now ≡ length self.old.all.now }
    {
        self.all[self.used] = entry;
        self.used += 1;
    }
}
