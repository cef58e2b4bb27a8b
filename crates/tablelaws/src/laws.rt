//! Each function makes one or two calls of a table, whichever it is, and its contract has what follows
//! from them: first of all, that filtering databases do not touch one another.
ghost use Rattle.std.specs.Prelude.{◌≡◌, false};
ghost use Rattle.table.specs.Calls.{after_learn, answered, learned_mark};
ghost use Rattle.table.specs.Entries.{has_key};
ghost use Rattle.tablelaws.specs.Laws.{Expires, Finds, Flushes, FoundAfter, Learns};

use fault::mark::Mark;
use fault::refusal::Refusal;
use table::entry::{Entry, Key};
use table::table::Table;

/// The port at which an address was heard last, if it is known; `FidOutOfRange` where the FID is not 1 to 16.
#[tactic(auto, using(crate::proofs::Follow::find_follows))]
pub fn find<T: Table>(table: &mut T, key: Key) -> Result<Option<u8>, Refusal>
    ensures law { Finds (T.entries table.old) (T.entries table.new) key.fid key.address result }
    ensures share { T.share table.new ≡ T.share table.old }
{
    table.find(key)
}

/// An address was heard at a port, at a time in milliseconds; `FidOutOfRange` where the FID is not 1 to 16.
pub fn learn<T: Table>(table: &mut T, entry: Entry) -> Result<Mark, Refusal>
    ensures law { Learns (T.share table.old) (T.entries table.old) (T.entries table.new) entry.key.fid entry.key.address entry.port entry.heard result }
    ensures share { T.share table.new ≡ T.share table.old }
{
    learn_law(table, entry);
    table.learn(entry)
}

/// Removes the entries that were heard at the limit (in milliseconds) or before it, and says how many there were.
#[tactic(auto, using(crate::proofs::Follow::expire_follows))]
pub fn expire<T: Table>(table: &mut T, limit: u64) -> usize
    ensures law { Expires limit (T.entries table.old) (T.entries table.new) result }
    ensures share { T.share table.new ≡ T.share table.old }
{
    table.expire(limit)
}

/// Removes the entries of one filtering database, and says how many there were; `FidOutOfRange` where the FID is
/// not 1 to 16.
#[tactic(auto, using(crate::proofs::Follow::flush_follows))]
pub fn flush<T: Table>(table: &mut T, fid: u8) -> Result<usize, Refusal>
    ensures law { Flushes (T.entries table.old) (T.entries table.new) fid result }
    ensures share { T.share table.new ≡ T.share table.old }
{
    table.flush(fid)
}

/// Learns one pair, and then looks for another, which may be the same. Each is refused with `FidOutOfRange` by
/// itself, where its own FID is not 1 to 16.
#[tactic(auto, using(crate::proofs::Follow::found_other, crate::proofs::Follow::found_same))]
pub fn learn_and_find<T: Table>(
    table: &mut T,
    entry: Entry,
    target: Key,
) -> (Result<Mark, Refusal>, Result<Option<u8>, Refusal>)
    ensures mark { result.0 ≡ learned_mark (T.share table.old) (T.entries table.old) entry.key.fid entry.key.address entry.port }
    ensures found { result.1 ≡ answered (after_learn (T.share table.old) (T.entries table.old) entry.key.fid entry.key.address entry.port entry.heard) target.fid target.address }
    ensures later { T.entries table.new ≡ after_learn (T.share table.old) (T.entries table.old) entry.key.fid entry.key.address entry.port entry.heard }
    ensures share { T.share table.new ≡ T.share table.old }

    // What follows for the pair that was learned, and for any other.
    ensures same { target ≡ entry.key → FoundAfter result.0 entry.port result.1 }
    ensures other { has_key target.fid target.address entry ≡ false → result.1 ≡ answered (T.entries table.old) target.fid target.address }
{
    let mark = table.learn(entry);
    let found = table.find(target);
    (mark, found)
}

// Does nothing: its contract is the law of learn at this table.
fn learn_law<T: Table>(table: &T, entry: Entry)
    ensures { let share = T.share table.now in let l = T.entries table.now in let k = entry.key in Learns share l (after_learn share l k.fid k.address entry.port entry.heard) k.fid k.address entry.port entry.heard (learned_mark share l k.fid k.address entry.port) }
{}
