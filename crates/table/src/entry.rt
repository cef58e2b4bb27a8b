//! One learned address, and the records that a caller lends for them.
ghost use Rattle.std.specs.Prelude.{◌≡◌};
ghost use Rattle.table.specs.Calls.{again};
ghost use Rattle.table.specs.Entries.{free_entry, has_key, is_free};

use fault::mark::Mark;

/// What is learned: an address in a filtering database. The number of the database (FID) is 1 to 16; a call with
/// another is refused.
#[derive(Clone, Copy, PartialEq, Eq, Debug, Drop)]
pub struct Key {
    /// The number of the filtering database.
    pub fid: u8,
    /// An individual address. A table does not ask.
    pub address: [u8; 6],
}

/// Where an address of a filtering database was heard last, and when (in milliseconds).
#[derive(Clone, Copy, PartialEq, Eq, Debug, Drop)]
pub struct Entry {
    /// What was heard.
    pub key: Key,
    /// Where.
    pub port: u8,
    /// When, in milliseconds.
    pub heard: u64,
}

impl Entry {
    /// A record that holds no entry. There is no filtering database 0, and lent memory is a slice of
    /// entries: an `Option` around each would take half as much memory again.
    pub fn free() -> Entry
        ensures { result ≡ free_entry }
    {
        Entry {
            key: Key {
                fid: 0,
                address: [0; 6],
            },
            port: 0,
            heard: 0,
        }
    }

    /// Whether the record holds no entry, which its FID alone says.
    pub fn is_free(&self) -> bool
        ensures { result ≡ is_free self.now }
    {
        self.key.fid == 0
    }

    /// Whether this is the entry of the pair. All six bytes of the address count.
    pub fn has_key(&self, key: Key) -> bool
        ensures { result ≡ has_key key.fid key.address self.now }
    {
        self.key == key
    }

    /// The mark where the pair is heard again, at this port: `Known` at the port of the entry, else `Moved`.
    pub fn again_at(&self, port: u8) -> Mark
        ensures { result ≡ again self.now.port port }
    {
        if self.port == port {
            Mark::Known
        } else {
            Mark::Moved
        }
    }
}
