//! The kinds of tables, each made in records on the stack for the largest share.
ghost use Rattle.std.specs.Prelude.{◌≡◌, ◌≤◌, [], length};
ghost use Rattle.table_bench.specs.Task.{performed};
ghost use Rattle.searched.specs.Sets.{set_of};
ghost use Rattle.hashed.specs.Sets.{set_of as set_of_hashed};

use crate::kind::Kind;
use crate::task::Task;
use crate::work::{Work, perform};
use hashed::hashed::Hashed;
use recent::recent::Recent;
use searched::searched::Searched;
use table::check::check;
use table::entry::Entry;

// Two functions and not one that takes the making: the bound of a closure may not name a const parameter,
// and a trait would need as many lines for each table.
fn searched(records: &mut [Entry]) -> Searched<'_>
    requires { 4096 ≤ length records.old }
    ensures empty { set_of result ≡ [] }
    ensures share { result.share ≡ 256 }
{
    match check(256, records) {
        Ok((checked, _)) => Searched::new(checked),
        Err(_) => unreachable!(),
    }
}

fn hashed(records: &mut [Entry]) -> Hashed<'_>
    requires { 8192 ≤ length records.old }
    ensures empty { set_of_hashed result ≡ [] }
    ensures share { result.share ≡ 256 }
{
    match check(256, records) {
        Ok((checked, _)) => Hashed::new(checked),
        Err(_) => unreachable!(),
    }
}

// Does work at a new table of a kind.
pub fn by_kind<W: Task>(kind: Kind, work: &Work<W>) -> u64
    ensures { result ≡ performed (W.later work.now.task) (W.worth work.now.task) work.now.load.entries work.now.rounds }
{
    let mut records = [Entry::free(); 8192];
    match kind {
        Kind::Searched => perform(&mut searched(&mut records), work),
        Kind::Hashed => perform(&mut hashed(&mut records), work),
        Kind::RecentOverSearched => perform(&mut Recent::new(searched(&mut records)), work),
        Kind::RecentOverHashed => perform(&mut Recent::new(hashed(&mut records)), work),
    }
}
