//! How many entries a table is filled with, all sixteen databases together.
ghost use Rattle.std.specs.Prelude.{◌≤◌};

// Entries are numbered from 0. Neighbours are of different databases.
#[derive(Clone, Copy, PartialEq, Eq, Debug, Drop)]
pub struct Load {
    pub entries: u32,
    pub ghost some: { 1 ≤ entries },
    pub ghost most: { entries ≤ 4096 },
}

impl Load {
    ghost use Rattle.std.specs.Prelude.{◌≡◌, ◌+◌, ◌*◌, ◌%◌, ◌<◌};
    ghost use Rattle.table_bench.specs.Work.{strode};
    ghost use Rattle.table_bench.specs.Task.{entries_for, stride_of};

    // So many entries in each database: at least 1, and at most the largest share.
    pub fn each(load: u32) -> Load
        ensures { result.entries ≡ entries_for load }
    {
        Load {
            entries: 16 * load.clamp(1, 256),
        }
    }

    // A prime above every number of entries, so that each entry has its turn in each round.
    pub fn stride(self) -> u32
        ensures value { result ≡ stride_of self.entries }
        ensures below { result < self.entries }
    {
        7919 % self.entries
    }

    // The entry that has its turn after another, a stride further and going round.
    pub fn after(self, at: u32) -> u32
        requires { at < self.entries }
        ensures value { result ≡ strode self.entries (stride_of self.entries) at }
        ensures below { result < self.entries }
    {
        let next = at + self.stride();
        if next < self.entries {
            next
        } else {
            next - self.entries
        }
    }
}
