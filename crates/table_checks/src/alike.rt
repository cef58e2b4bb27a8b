//! A long run of calls by chance, the same ones at two tables, whose answers must agree call by call.
//! Few addresses, few databases and a share of three let every kind of answer come often.
use crate::calls::{Answer, Call, ask};
use crate::kinds::{hashed, searched};
use fault::mark::Mark;
use fault::refusal::Refusal;
use recent::recent::Recent;
use std::process::Abort;
use std::test::Fail;
use table::entry::Entry;
use table::table::Table;

const CALLS: u64 = 8000;

// Three of sixteen draws name a database that there is not.
const FIDS: [u8; 16] = [1, 1, 1, 1, 2, 2, 2, 3, 3, 9, 16, 16, 16, 0, 17, 255];

// The next number of a sequence that looks like chance.
fn roll(dice: u64) -> u64 {
    let a = dice ^ (dice << 13);
    let b = a ^ (a >> 7);
    b ^ (b << 17)
}

// The call that a roll stands for, at a time. What expires was heard 0 to 126 calls before, or earlier.
fn drawn(dice: u64, now: u64) -> Call {
    let fid = FIDS[(dice % 16) as usize];
    let address = [2, 0, 0, 0, 0, (dice / 16 % 8) as u8];
    let draw = dice / 2048 % 64;
    match dice / 128 % 16 {
        0..=6 => Call::Find(fid, address),
        7..=13 => Call::Learn(fid, address, (draw % 2) as u8, now),
        14 => Call::Expire(now.saturating_sub(2 * draw)),
        _ => Call::Flush(fid),
    }
}

// How often each kind of answer came.
#[derive(Clone, Copy, PartialEq, Eq, Debug, Default, Drop)]
struct Seen {
    new: u64,
    known: u64,
    moved: u64,
    full: u64,
    found: u64,
    missed: u64,
    refused: u64,
    // Flushes that took something.
    flushes: u64,
    // How many entries the flushes took.
    flushed: u64,
    // Expiries that took something, and how many entries they took.
    expiries: u64,
    expired: u64,
}

fn one_more(count: &mut u64) {
    *count = count.saturating_add(1);
}

impl Seen {
    fn count(&mut self, answered: Result<Answer, Refusal>) {
        match answered {
            Ok(Answer::Marked(Mark::New)) => one_more(&mut self.new),
            Ok(Answer::Marked(Mark::Known)) => one_more(&mut self.known),
            Ok(Answer::Marked(Mark::Moved)) => one_more(&mut self.moved),
            Ok(Answer::Marked(Mark::Full)) => one_more(&mut self.full),
            Ok(Answer::Found(Some(_))) => one_more(&mut self.found),
            Ok(Answer::Found(None)) => one_more(&mut self.missed),
            Err(Refusal::FidOutOfRange) => one_more(&mut self.refused),
            Ok(Answer::Removed(gone)) => if gone > 0 {
                one_more(&mut self.flushes);
                self.flushed = self.flushed.saturating_add(gone as u64);
            },
            Ok(Answer::Expired(gone)) => if gone > 0 {
                one_more(&mut self.expiries);
                self.expired = self.expired.saturating_add(gone as u64);
            },
            _ => {}
        }
    }
}

// The run, and at its end a flush of every database.
fn run<A: Table, B: Table>(rt: &impl Abort, a: &mut A, b: &mut B) -> Seen {
    let mut seen = Seen::default();
    let mut dice = 0x9e37_79b9_7f4a_7c15;
    for now in 0..CALLS {
        dice = roll(dice);
        let call = drawn(dice, now);
        let answered = ask(a, call);
        assert_eq!(rt; ask(b, call), answered, "call {now}");
        seen.count(answered);
    }
    for fid in 1..=16u8 {
        let answered = ask(a, Call::Flush(fid));
        assert_eq!(rt;
            ask(b, Call::Flush(fid)),
            answered,
            "the last flush of {fid}"
        );
        seen.count(answered);
    }
    seen
}

// The numbers are those of tally/tests/table_counts.rs, which plays the same run at a plain map. Each kind of
// answer came often, and what was new was flushed or expired.
const COUNTS: Seen = Seen {
    new: 1586,
    known: 320,
    moved: 277,
    full: 638,
    found: 627,
    missed: 2195,
    refused: 1427,
    flushes: 366,
    flushed: 796,
    expiries: 182,
    expired: 790,
};

// A test for each kind, whose name says which table failed.
#[test]
fn searched_and_hashed(rt: HostRuntime) -> Result<(), Fail> {
    let mut few = [Entry::free(); 48];
    let mut many = [Entry::free(); 96];
    let mut table = searched(3, &mut few)?;
    let mut other = hashed(3, &mut many)?;
    assert_eq!(rt; run(&rt, &mut table, &mut other), COUNTS);
    Ok(())
}

#[test]
fn searched_and_a_recent_list_over_another(rt: HostRuntime) -> Result<(), Fail> {
    let mut few = [Entry::free(); 48];
    let mut others = [Entry::free(); 48];
    let mut table = searched(3, &mut few)?;
    let mut other = Recent::new(searched(3, &mut others)?);
    assert_eq!(rt; run(&rt, &mut table, &mut other), COUNTS);
    Ok(())
}

#[test]
fn searched_and_a_recent_list_over_hashed(rt: HostRuntime) -> Result<(), Fail> {
    let mut few = [Entry::free(); 48];
    let mut many = [Entry::free(); 96];
    let mut table = searched(3, &mut few)?;
    let mut other = Recent::new(hashed(3, &mut many)?);
    assert_eq!(rt; run(&rt, &mut table, &mut other), COUNTS);
    Ok(())
}
