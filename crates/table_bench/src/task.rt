//! What is timed, once a table is filled.
ghost use Rattle.std.specs.Prelude.{◌≡◌, ℕ, List};
ghost use Rattle.table.specs.declared.entry.Entry.{Entry};
ghost use Rattle.table_bench.specs.Work.{aged, aged_worth, found_worth, heard_again, learned_worth, unaltered};

use crate::entries::{entry_at, key_at};
use fault::mark::Mark;
use table::table::Table;

// A task goes through the entries in turn, and does one thing at each.
pub trait Task {
    // The set after one entry, by the share, the set before it, the entry's number and how many came before.
    ghost later: { Self → ℕ → List Entry → ℕ → ℕ → List Entry };

    // What the entry adds to the checksum, by the share, the set and the entry's number.
    ghost worth: { Self → ℕ → List Entry → ℕ → ℕ };

    fn one<T: Table>(&self, table: &mut T, at: u32, before: u64) -> u64
        ensures worth { result ≡ worth self.now (T.share table.old) (T.entries table.old) at }
        ensures later { T.entries table.new ≡ later self.now (T.share table.old) (T.entries table.old) at before }
        ensures share { T.share table.new ≡ T.share table.old };
}

// Finds, from the address with this number on.
#[derive(Clone, Copy, PartialEq, Eq, Debug, Drop)]
pub struct Find {
    pub from: u16,
}

impl Task for Find {
    ghost later = { λ _. unaltered };

    ghost worth = { λ s. found_worth s.from };

    fn one<T: Table>(&self, table: &mut T, at: u32, before: u64) -> u64 {
        match table.find(key_at(at, self.from)) {
            Ok(Some(port)) => u64::from(port) + 1,
            _ => 0,
        }
    }
}

// Learns again what is known.
#[derive(Clone, Copy, PartialEq, Eq, Debug, Drop)]
pub struct Learn;

impl Task for Learn {
    ghost later = { λ _. heard_again };

    ghost worth = { λ _. learned_worth };

    fn one<T: Table>(&self, table: &mut T, at: u32, before: u64) -> u64 {
        u64::from(table.learn(entry_at(at, before)) == Ok(Mark::Known))
    }
}

// Expires what is older than every entry, as most movements of a clock do.
#[derive(Clone, Copy, PartialEq, Eq, Debug, Drop)]
pub struct Expire;

impl Task for Expire {
    ghost later = { λ _. aged };

    ghost worth = { λ _. aged_worth };

    fn one<T: Table>(&self, table: &mut T, at: u32, before: u64) -> u64 {
        u64::from(table.expire(0) == 0)
    }
}
