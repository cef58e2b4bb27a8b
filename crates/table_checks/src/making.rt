//! What is asked before a table is made, and what a made table has room for.
use crate::calls::{Answer, Call, ask, numbered};
use crate::kinds::{divided, hashed, searched};
use fault::mark::Mark;
use hashed::hashed::Hashed;
use searched::searched::Searched;
use std::process::Abort;
use std::test::Fail;
use table::check::check;
use table::entry::{Entry, Key};
use table::table::Table;

// By the number, since that is what callers know.
fn refuses<const RECORDS: u16>(
    rt: &impl Abort,
    share: u16,
    records: &mut [Entry],
    number: u8,
) -> Result<(), Fail> {
    match check::<RECORDS>(share, records) {
        Err(refused) => {
            assert_eq!(rt; refused.refusal.number(), number);
            check_filled(rt, refused.records);
            Ok(())
        },
        Ok(_) => Err(Fail::new("nothing was refused")),
    }
}

// A record with something in it, so that it shows where it is altered.
fn filled() -> Entry {
    Entry {
        key: Key {
            fid: 3,
            address: [2, 9, 8, 7, 6, 5],
        },
        port: 4,
        heard: 77,
    }
}

fn check_filled(rt: &impl Abort, records: &[Entry]) {
    for record in records {
        assert_eq!(rt; *record, filled());
    }
}

// Every database takes a share of addresses and no more. Flushing them counts them once more.
fn holds_its_share<T: Table>(rt: &impl Abort, table: &mut T, share: u16) -> Result<(), Fail> {
    for fid in 1..=16u8 {
        for n in 0..share {
            let added = ask(table, Call::Learn(fid, numbered(n), 1, 0));
            assert_eq!(rt; added?, Answer::Marked(Mark::New));
        }
        let refused = ask(table, Call::Learn(fid, numbered(share), 1, 0));
        assert_eq!(rt; refused?, Answer::Marked(Mark::Full));
    }
    for fid in 1..=16u8 {
        let gone = ask(table, Call::Flush(fid));
        assert_eq!(rt; gone?, Answer::Removed(usize::from(share)));
    }
    Ok(())
}

// The share is asked about first, whatever the memory.
#[test]
fn shares_out_of_range(rt: HostRuntime) -> Result<(), Fail> {
    let mut records = [filled(); 48];
    for share in [0, 257, 65535] {
        refuses::<16>(&rt, share, &mut records, 25)?;
        refuses::<32>(&rt, share, &mut records, 25)?;
        refuses::<16>(&rt, share, &mut records[0..0], 25)?;
        refuses::<32>(&rt, share, &mut records[0..0], 25)?;
    }
    Ok(())
}

// These records are as many as a table with this share asks for: one less is refused.
fn asks_for<const RECORDS: u16>(
    rt: &impl Abort,
    records: &mut [Entry],
    share: u16,
) -> Result<(), Fail> {
    let size = records.len();
    assert!(rt; size > 0);
    refuses::<RECORDS>(rt, share, &mut records[0..size - 1], 27)?;
    refuses::<RECORDS>(rt, share, &mut records[0..0], 27)?;
    check_filled(rt, records);
    Ok(())
}

fn suits_searched(rt: &impl Abort, records: &mut [Entry], share: u16) -> Result<(), Fail> {
    asks_for::<16>(rt, records, share)?;
    holds_its_share(rt, &mut searched(share, records)?, share)
}

fn suits_hashed(rt: &impl Abort, records: &mut [Entry], share: u16) -> Result<(), Fail> {
    asks_for::<32>(rt, records, share)?;
    holds_its_share(rt, &mut hashed(share, records)?, share)
}

#[test]
fn memory_for_searched_tables(rt: HostRuntime) -> Result<(), Fail> {
    suits_searched(&rt, &mut [filled(); 16], 1)?;
    suits_searched(&rt, &mut [filled(); 4096], 256)
}

#[test]
fn memory_for_hashed_tables(rt: HostRuntime) -> Result<(), Fail> {
    suits_hashed(&rt, &mut [filled(); 32], 1)?;
    suits_hashed(&rt, &mut [filled(); 8192], 256)
}

// One memory serves two tables: what the first does not take is lent to the second.
#[test]
fn two_tables_in_one_memory(rt: HostRuntime) -> Result<(), Fail> {
    let mut records = [filled(); 68];
    let (checked, rest) = divided(2, &mut records)?;
    let mut few = Searched::new(checked);
    let (checked, rest) = divided(1, rest)?;
    let mut fewer = Hashed::new(checked);
    holds_its_share(&rt, &mut few, 2)?;
    holds_its_share(&rt, &mut fewer, 1)?;
    assert_eq!(rt; rest.len(), 4);
    check_filled(&rt, rest);
    Ok(())
}
