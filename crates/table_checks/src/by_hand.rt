//! One run of calls with what each must answer, worked out from the rules, at every table. A database
//! has room for three addresses. The times in the comments are those at which an address was heard.
use crate::calls::Answer::*;
use crate::calls::Call::*;
use crate::calls::{Answer, Call, ask};
use crate::kinds::{hashed, searched};
use fault::mark::Mark::*;
use fault::refusal::Refusal;
use fault::refusal::Refusal::FidOutOfRange;
use recent::recent::Recent;
use std::process::Abort;
use std::test::Fail;
use table::entry::Entry;
use table::table::Table;

const A: [u8; 6] = [2, 0, 0, 0, 0, 10];

const B: [u8; 6] = [2, 0, 0, 0, 0, 11];

// These two end as A does.
const C: [u8; 6] = [6, 0, 0, 0, 0, 10];

const D: [u8; 6] = [2, 0, 0, 1, 0, 10];

const LAST: u64 = u64::MAX;

const CASES: [(Call, Result<Answer, Refusal>); 164] = [
    // An empty table.
    (Find(1, A), Ok(Found(None))),
    (Find(16, A), Ok(Found(None))),
    (Flush(1), Ok(Removed(0))),
    (Expire(1000), Ok(Expired(0))),
    (Find(1, A), Ok(Found(None))),
    // There are no databases 0 and 17 and above.
    (Find(0, A), Err(FidOutOfRange)),
    (Find(17, A), Err(FidOutOfRange)),
    (Find(255, A), Err(FidOutOfRange)),
    (Learn(0, A, 1, 5), Err(FidOutOfRange)),
    (Learn(17, A, 1, 5), Err(FidOutOfRange)),
    (Learn(255, A, 1, 5), Err(FidOutOfRange)),
    (Flush(0), Err(FidOutOfRange)),
    (Flush(17), Err(FidOutOfRange)),
    (Flush(255), Err(FidOutOfRange)),
    (Find(0, A), Err(FidOutOfRange)),
    (Find(1, A), Ok(Found(None))),
    (Find(16, A), Ok(Found(None))),
    (Flush(1), Ok(Removed(0))),
    // One address in several databases, at different ports.
    (Learn(1, A, 0, 10), Ok(Marked(New))),
    (Find(1, A), Ok(Found(Some(0)))),
    (Find(2, A), Ok(Found(None))),
    (Learn(2, A, 5, 10), Ok(Marked(New))),
    (Find(2, A), Ok(Found(Some(5)))),
    (Find(1, A), Ok(Found(Some(0)))),
    (Learn(16, A, 15, 10), Ok(Marked(New))),
    (Find(16, A), Ok(Found(Some(15)))),
    (Find(1, A), Ok(Found(Some(0)))),
    (Find(1, A), Ok(Found(Some(0)))),
    (Find(3, A), Ok(Found(None))),
    // Known and moved.
    (Learn(1, A, 0, 11), Ok(Marked(Known))),
    (Learn(1, A, 3, 12), Ok(Marked(Moved))),
    (Find(1, A), Ok(Found(Some(3)))),
    (Find(2, A), Ok(Found(Some(5)))),
    (Learn(1, A, 3, 13), Ok(Marked(Known))),
    (Learn(1, A, 0, 14), Ok(Marked(Moved))),
    (Find(1, A), Ok(Found(Some(0)))),
    // Every byte of an address counts.
    (Find(1, C), Ok(Found(None))),
    (Learn(1, C, 1, 20), Ok(Marked(New))),
    (Find(1, C), Ok(Found(Some(1)))),
    (Find(1, A), Ok(Found(Some(0)))),
    (Find(1, D), Ok(Found(None))),
    (Learn(1, D, 2, 30), Ok(Marked(New))),
    (Find(1, D), Ok(Found(Some(2)))),
    // Database 1 is full: A 14, C 20, D 30. What stands there is still moved, and others have room.
    (Learn(1, B, 4, 31), Ok(Marked(Full))),
    (Find(1, B), Ok(Found(None))),
    (Learn(1, A, 6, 32), Ok(Marked(Moved))),
    (Learn(1, C, 1, 33), Ok(Marked(Known))),
    (Learn(2, B, 4, 34), Ok(Marked(New))),
    (Find(2, B), Ok(Found(Some(4)))),
    (Find(1, B), Ok(Found(None))),
    (Learn(0, B, 4, 34), Err(FidOutOfRange)),
    (Flush(17), Err(FidOutOfRange)),
    (Find(1, A), Ok(Found(Some(6)))),
    // Database 1 has A 32, C 33, D 30; 2 has A 10, B 34; 16 has A 10. Nothing is due before 10.
    (Expire(9), Ok(Expired(0))),
    (Find(2, A), Ok(Found(Some(5)))),
    (Find(16, A), Ok(Found(Some(15)))),
    (Learn(1, B, 4, 35), Ok(Marked(Full))),
    (Expire(10), Ok(Expired(2))),
    (Find(2, A), Ok(Found(None))),
    (Find(16, A), Ok(Found(None))),
    (Find(2, B), Ok(Found(Some(4)))),
    (Find(1, A), Ok(Found(Some(6)))),
    (Flush(16), Ok(Removed(0))),
    // Room that expiry made is used.
    (Expire(29), Ok(Expired(0))),
    (Find(1, D), Ok(Found(Some(2)))),
    (Expire(30), Ok(Expired(1))),
    (Find(1, D), Ok(Found(None))),
    (Find(1, A), Ok(Found(Some(6)))),
    (Learn(1, B, 4, 40), Ok(Marked(New))),
    (Find(1, B), Ok(Found(Some(4)))),
    (Learn(1, D, 2, 41), Ok(Marked(Full))),
    (Learn(1, B, 7, 42), Ok(Marked(Moved))),
    // What was heard again in time stays: A 50 does, C 33 does not.
    (Learn(1, A, 6, 50), Ok(Marked(Known))),
    (Expire(33), Ok(Expired(1))),
    (Find(1, C), Ok(Found(None))),
    (Find(1, A), Ok(Found(Some(6)))),
    (Find(2, B), Ok(Found(Some(4)))),
    (Learn(1, C, 9, 51), Ok(Marked(New))),
    // A flush takes one database. The room that it made is used.
    (Flush(2), Ok(Removed(1))),
    (Find(2, B), Ok(Found(None))),
    (Find(1, B), Ok(Found(Some(7)))),
    (Flush(2), Ok(Removed(0))),
    (Learn(2, A, 3, 52), Ok(Marked(New))),
    (Flush(1), Ok(Removed(3))),
    (Find(1, A), Ok(Found(None))),
    (Find(1, B), Ok(Found(None))),
    (Find(1, C), Ok(Found(None))),
    (Find(2, A), Ok(Found(Some(3)))),
    (Learn(1, D, 1, 53), Ok(Marked(New))),
    (Learn(1, B, 2, 53), Ok(Marked(New))),
    (Learn(1, A, 3, 53), Ok(Marked(New))),
    (Learn(1, C, 4, 53), Ok(Marked(Full))),
    (Flush(1), Ok(Removed(3))),
    // The time of the last learn counts, even where it is the earlier one.
    (Learn(1, A, 0, 100), Ok(Marked(New))),
    (Learn(1, A, 0, 60), Ok(Marked(Known))),
    (Expire(60), Ok(Expired(2))),
    (Find(1, A), Ok(Found(None))),
    (Find(2, A), Ok(Found(None))),
    // The first and the last of all times.
    (Learn(3, A, 255, LAST), Ok(Marked(New))),
    (Learn(3, B, 1, 0), Ok(Marked(New))),
    (Expire(0), Ok(Expired(1))),
    (Find(3, B), Ok(Found(None))),
    (Expire(LAST - 1), Ok(Expired(0))),
    (Find(3, A), Ok(Found(Some(255)))),
    (Expire(LAST), Ok(Expired(1))),
    (Find(3, A), Ok(Found(None))),
    // An answer that was given before is not given when it is no longer right: not known, and then learned.
    (Find(4, A), Ok(Found(None))),
    (Find(4, A), Ok(Found(None))),
    (Learn(4, A, 1, 70), Ok(Marked(New))),
    (Find(4, A), Ok(Found(Some(1)))),
    // Moved; known; flushed, after a flush of another database.
    (Learn(4, A, 2, 71), Ok(Marked(Moved))),
    (Find(4, A), Ok(Found(Some(2)))),
    (Learn(4, A, 2, 72), Ok(Marked(Known))),
    (Find(4, A), Ok(Found(Some(2)))),
    (Flush(5), Ok(Removed(0))),
    (Find(4, A), Ok(Found(Some(2)))),
    (Flush(4), Ok(Removed(1))),
    (Find(4, A), Ok(Found(None))),
    // Expired.
    (Learn(4, A, 3, 80), Ok(Marked(New))),
    (Find(4, A), Ok(Found(Some(3)))),
    (Expire(79), Ok(Expired(0))),
    (Find(4, A), Ok(Found(Some(3)))),
    (Expire(80), Ok(Expired(1))),
    (Find(4, A), Ok(Found(None))),
    // Not known, and still not known after a learn that found no room and after an expiry.
    (Learn(4, A, 1, 81), Ok(Marked(New))),
    (Learn(4, B, 2, 81), Ok(Marked(New))),
    (Learn(4, C, 3, 81), Ok(Marked(New))),
    (Find(4, D), Ok(Found(None))),
    (Learn(4, D, 9, 82), Ok(Marked(Full))),
    (Expire(10), Ok(Expired(0))),
    (Find(4, D), Ok(Found(None))),
    // Nine different pairs, and the first of them again.
    (Find(4, A), Ok(Found(Some(1)))),
    (Find(4, B), Ok(Found(Some(2)))),
    (Find(4, C), Ok(Found(Some(3)))),
    (Find(5, A), Ok(Found(None))),
    (Find(5, B), Ok(Found(None))),
    (Find(5, C), Ok(Found(None))),
    (Find(5, D), Ok(Found(None))),
    (Find(6, A), Ok(Found(None))),
    (Find(6, B), Ok(Found(None))),
    (Find(4, A), Ok(Found(Some(1)))),
    // Each change is seen at its own pair or database, and at no other.
    (Learn(4, B, 7, 83), Ok(Marked(Moved))),
    (Find(4, B), Ok(Found(Some(7)))),
    (Find(5, B), Ok(Found(None))),
    (Learn(6, A, 8, 83), Ok(Marked(New))),
    (Find(6, A), Ok(Found(Some(8)))),
    (Find(6, B), Ok(Found(None))),
    (Learn(5, D, 1, 84), Ok(Marked(New))),
    (Find(5, D), Ok(Found(Some(1)))),
    (Flush(4), Ok(Removed(3))),
    (Find(4, A), Ok(Found(None))),
    (Find(4, B), Ok(Found(None))),
    (Find(4, C), Ok(Found(None))),
    (Find(6, A), Ok(Found(Some(8)))),
    (Learn(4, C, 5, 85), Ok(Marked(New))),
    (Find(4, C), Ok(Found(Some(5)))),
    (Expire(84), Ok(Expired(2))),
    (Find(6, A), Ok(Found(None))),
    (Find(5, D), Ok(Found(None))),
    (Find(4, C), Ok(Found(Some(5)))),
    (Find(0, C), Err(FidOutOfRange)),
    (Flush(6), Ok(Removed(0))),
    (Flush(4), Ok(Removed(1))),
    (Find(4, C), Ok(Found(None))),
];

// Makes each call, and checks its answer.
fn plays<T: Table>(
    rt: &impl Abort,
    table: &mut T,
    cases: &[(Call, Result<Answer, Refusal>)],
) -> Result<(), Fail> {
    for (i, (call, expected)) in cases.iter().enumerate() {
        assert_eq!(rt; ask(table, *call), *expected, "case {i}, counted from 0");
    }
    Ok(())
}

// The refusal of the cases is the one that callers know as 21.
fn plays_by_hand<T: Table>(rt: &impl Abort, table: &mut T) -> Result<(), Fail> {
    assert_eq!(rt; FidOutOfRange.number(), 21);
    plays(rt, table, &CASES)
}

// A test for each kind, whose name says which table failed.
#[test]
fn the_searched_table(rt: HostRuntime) -> Result<(), Fail> {
    let mut records = [Entry::free(); 48];
    plays_by_hand(&rt, &mut searched(3, &mut records)?)
}

#[test]
fn the_hashed_table(rt: HostRuntime) -> Result<(), Fail> {
    let mut records = [Entry::free(); 96];
    plays_by_hand(&rt, &mut hashed(3, &mut records)?)
}

#[test]
fn the_recent_list_over_the_searched_table(rt: HostRuntime) -> Result<(), Fail> {
    let mut records = [Entry::free(); 48];
    let table = searched(3, &mut records)?;
    plays_by_hand(&rt, &mut Recent::new(table))
}

#[test]
fn the_recent_list_over_the_hashed_table(rt: HostRuntime) -> Result<(), Fail> {
    let mut records = [Entry::free(); 96];
    let table = hashed(3, &mut records)?;
    plays_by_hand(&rt, &mut Recent::new(table))
}
