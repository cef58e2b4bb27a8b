//! The benchmark's calls for C and Rust. Kinds: 0 searched, 1 hashed, 2 and 3 a recent list over these.
ghost use Rattle.std.specs.Prelude.{◌≡◌};
ghost use Rattle.table_bench.specs.Task.{entries_for, performed, timed};
ghost use Rattle.table_bench.specs.Work.{aged, aged_worth, found_worth, heard_again, learned_worth, unaltered};

use crate::kind::Kind;
use crate::kinds::by_kind;
use crate::task::{Expire, Find, Learn, Task};
use crate::work::Work;

// No kind has another number: nothing is done then, and the answer is 0, since callers in C get a number.
fn by_number<W: Task>(kind: u32, work: &Work<W>) -> u64
    ensures { result ≡ timed kind (performed (W.later work.now.task) (W.worth work.now.task) work.now.load.entries work.now.rounds) }
{
    match Kind::try_from(kind) {
        Ok(kind) => by_kind(kind, work),
        Err(_) => 0,
    }
}

/// Fills a table with a load of addresses (1 to 256, else the nearer of these) in each database, and finds as many in
/// each, from the address with the number `from` on, in scrambled order and so many times over. Without rounds it
/// only fills. Answers the sum of one more than each port that was found, and 0 for a kind that there is not.
#[unsafe(no_mangle)]
pub extern "C" fn bridge_bench_find(kind: u32, load: u32, from: u16, rounds: u32) -> u64
    ensures { result ≡ timed kind (performed unaltered (found_worth from) (entries_for load) rounds) }
{
    by_number(kind, &Work::new(Find { from }, load, rounds))
}

/// Fills a table likewise, and learns every address again at its port. Answers how often it was known.
#[unsafe(no_mangle)]
pub extern "C" fn bridge_bench_learn(kind: u32, load: u32, rounds: u32) -> u64
    ensures { result ≡ timed kind (performed heard_again learned_worth (entries_for load) rounds) }
{
    by_number(kind, &Work::new(Learn, load, rounds))
}

/// Fills a table likewise, and expires what is older than every entry. Answers how often nothing went.
#[unsafe(no_mangle)]
pub extern "C" fn bridge_bench_expire(kind: u32, load: u32, rounds: u32) -> u64
    ensures { result ≡ timed kind (performed aged aged_worth (entries_for load) rounds) }
{
    by_number(kind, &Work::new(Expire, load, rounds))
}
