//! Which answers a recent list remembers. No contract says so: only the finds that reach the table below
//! tell, and these are counted here.
use crate::calls::{Call, ask, numbered};
use crate::kinds::searched;
use fault::mark::Mark;
use fault::refusal::Refusal;
use recent::recent::Recent;
use std::cell::Cell;
use std::process::Abort;
use std::test::Fail;
use table::entry::{Entry, Key};
use table::table::Table;

// A table that counts its finds, and means what the table below it means.
#[derive(Drop)]
struct Counting<'a, T: Table> {
    table: T,
    finds: &'a Cell<u32>,
}

impl<'a, T: Table> Table for Counting<'a, T> {
    ghost entries = { λ s. T.entries s.table };

    ghost share = { λ s. T.share s.table };

    ghost rising = { λ s. T.rising s.table };

    ghost ranged = { λ s. T.ranged s.table };

    ghost fair = { λ s. T.fair s.table };

    fn find(&mut self, key: Key) -> Result<Option<u8>, Refusal> {
        self.finds.set(self.finds.get().saturating_add(1));
        self.table.find(key)
    }

    fn learn(&mut self, entry: Entry) -> Result<Mark, Refusal> {
        self.table.learn(entry)
    }

    fn expire(&mut self, limit: u64) -> usize {
        self.table.expire(limit)
    }

    fn flush(&mut self, fid: u8) -> Result<usize, Refusal> {
        self.table.flush(fid)
    }
}

// Asks for the addresses from one number up to another.
fn find_all<T: Table>(table: &mut T, fid: u8, from: u16, to: u16) {
    for n in from..to {
        let _ = ask(table, Call::Find(fid, numbered(n)));
    }
}

fn remembers_eight<T: Table>(rt: &impl Abort, table: &mut T, finds: &Cell<u32>) {
    find_all(table, 1, 0, 8);
    assert_eq!(rt; finds.get(), 8, "eight pairs for the first time");
    find_all(table, 1, 0, 8);
    assert_eq!(rt; finds.get(), 8, "the same eight");
    find_all(table, 2, 0, 1);
    assert_eq!(rt; finds.get(), 9, "one of them in another database");
    find_all(table, 1, 1, 8);
    assert_eq!(rt; finds.get(), 9, "the last seven");
    find_all(table, 1, 0, 1);
    assert_eq!(rt; finds.get(), 10, "the first, whose place was taken");
}

// Makes a call, and says how many of the finds for the first four addresses of database 1 reach the
// table after it.
fn forgotten_by<T: Table>(table: &mut T, finds: &Cell<u32>, call: Call) -> u32 {
    let _ = ask(table, call);
    finds.set(0);
    find_all(table, 1, 0, 4);
    finds.get()
}

// Each call with how many answers it makes the list forget. A database has room for two addresses.
const CALLS: [(Call, u32); 9] = [
    // After a flush nothing is remembered.
    (Call::Flush(1), 4),
    // New: the pair itself. The other three are still not known.
    (Call::Learn(1, [2, 0, 0, 0, 0, 0], 3, 10), 1),
    // Known: nothing.
    (Call::Learn(1, [2, 0, 0, 0, 0, 0], 3, 11), 0),
    (Call::Learn(1, [2, 0, 0, 0, 0, 1], 4, 12), 1),
    // Full: nothing.
    (Call::Learn(1, [2, 0, 0, 0, 0, 2], 5, 13), 0),
    // Moved: the pair itself.
    (Call::Learn(1, [2, 0, 0, 0, 0, 0], 9, 14), 1),
    // Another database's flush: nothing.
    (Call::Flush(2), 0),
    // Nothing was due: nothing.
    (Call::Expire(11), 0),
    // One of the two that are known was due: both.
    (Call::Expire(12), 2),
];

fn forgets_what_may_differ<T: Table>(
    rt: &impl Abort,
    table: &mut T,
    finds: &Cell<u32>,
    calls: &[(Call, u32)],
) -> Result<(), Fail> {
    for (i, (call, expected)) in calls.iter().enumerate() {
        let forgotten = forgotten_by(table, finds, *call);
        assert_eq!(rt; forgotten, *expected, "call {i}, counted from 0");
    }
    Ok(())
}

#[test]
fn what_a_recent_list_remembers(rt: HostRuntime) -> Result<(), Fail> {
    let finds = Cell::new(0);
    let mut records = [Entry::free(); 32];
    let mut table = Recent::new(Counting {
        table: searched(2, &mut records)?,
        finds: &finds,
    });
    remembers_eight(&rt, &mut table, &finds);
    forgets_what_may_differ(&rt, &mut table, &finds, &CALLS)
}
