//! A find right after a learn, at every table: for the pair itself, for the same address in another
//! database, and for another address of the same one.
use crate::kinds::{hashed, searched};
use fault::mark::Mark;
use recent::recent::Recent;
use std::process::Abort;
use std::test::Fail;
use table::entry::{Entry, Key};
use table::table::Table;
use tablelaws::laws::learn_and_find;

const A: [u8; 6] = [2, 0, 0, 0, 0, 10];

const B: [u8; 6] = [2, 0, 0, 0, 0, 11];

// FID, address and port to learn, FID and address to find, for people to read side by side, and the mark
// and the port that must be answered.
#[derive(Clone, Copy)]
struct Case {
    learned: (u8, [u8; 6], u8),
    target: (u8, [u8; 6]),
    mark: Mark,
    found: Option<u8>,
}

// A database has room for one address.
const CASES: [Case; 8] = [
    Case {
        learned: (1, A, 5),
        target: (1, A),
        mark: Mark::New,
        found: Some(5),
    },
    Case {
        learned: (2, A, 6),
        target: (1, A),
        mark: Mark::New,
        found: Some(5),
    },
    Case {
        learned: (1, A, 7),
        target: (2, A),
        mark: Mark::Moved,
        found: Some(6),
    },
    Case {
        learned: (1, A, 7),
        target: (1, A),
        mark: Mark::Known,
        found: Some(7),
    },
    Case {
        learned: (1, B, 8),
        target: (1, B),
        mark: Mark::Full,
        found: None,
    },
    Case {
        learned: (1, B, 8),
        target: (1, A),
        mark: Mark::Full,
        found: Some(7),
    },
    Case {
        learned: (3, B, 9),
        target: (3, A),
        mark: Mark::New,
        found: None,
    },
    Case {
        learned: (3, B, 9),
        target: (2, B),
        mark: Mark::Known,
        found: None,
    },
];

fn finds_after_learning<T: Table>(
    rt: &impl Abort,
    table: &mut T,
    cases: &[Case],
) -> Result<(), Fail> {
    for (i, case) in cases.iter().enumerate() {
        let (fid, address, port) = case.learned;
        let entry = Entry {
            key: Key { fid, address },
            port,
            heard: 0,
        };
        let (fid, address) = case.target;
        let (mark, found) = learn_and_find(table, entry, Key { fid, address });
        assert_eq!(rt; mark?, case.mark, "case {i}, counted from 0");
        assert_eq!(rt; found?, case.found, "case {i}, counted from 0");
    }
    Ok(())
}

// A test for each kind, whose name says which table failed.
#[test]
fn at_the_searched_table(rt: HostRuntime) -> Result<(), Fail> {
    let mut records = [Entry::free(); 16];
    finds_after_learning(&rt, &mut searched(1, &mut records)?, &CASES)
}

#[test]
fn at_the_hashed_table(rt: HostRuntime) -> Result<(), Fail> {
    let mut records = [Entry::free(); 32];
    finds_after_learning(&rt, &mut hashed(1, &mut records)?, &CASES)
}

#[test]
fn at_a_recent_list_over_the_searched_table(rt: HostRuntime) -> Result<(), Fail> {
    let mut records = [Entry::free(); 16];
    let table = searched(1, &mut records)?;
    finds_after_learning(&rt, &mut Recent::new(table), &CASES)
}

#[test]
fn at_a_recent_list_over_the_hashed_table(rt: HostRuntime) -> Result<(), Fail> {
    let mut records = [Entry::free(); 32];
    let table = hashed(1, &mut records)?;
    finds_after_learning(&rt, &mut Recent::new(table), &CASES)
}
