//! The work, at any table. The entries of all sixteen databases are counted through together.
ghost use Rattle.std.specs.Prelude.{◌≡◌, ◌*◌, []};
ghost use Rattle.table_bench.specs.Task.{entries_for, performed, stride_of};
ghost use Rattle.table_bench.specs.Work.{filled, sum_of};

use crate::entries::entry_at;
use crate::load::Load;
use crate::task::Task;
use table::table::Table;

// A task, with how many entries it goes through and how many times over.
#[derive(Clone, Copy, Drop)]
pub struct Work<W: Task> {
    pub task: W,
    pub load: Load,
    pub rounds: u32,
}

impl<W: Task> Work<W> {
    // The task with so many entries in each database.
    pub fn new(task: W, load: u32, rounds: u32) -> Work<W>
        ensures task { result.task ≡ task }
        ensures load { result.load.entries ≡ entries_for load }
        ensures rounds { result.rounds ≡ rounds }
    {
        Work {
            task,
            load: Load::each(load),
            rounds,
        }
    }
}

// Learns the entries in an empty table, in their order.
fn fill<T: Table>(table: &mut T, load: Load)
    requires { T.entries table.old ≡ [] }
    ensures later { T.entries table.new ≡ filled (T.share table.old) load.entries }
    ensures share { T.share table.new ≡ T.share table.old }
{
    for at in 0..load.entries {
        let _ = table.learn(entry_at(at, 1));
    }
}

// Goes through the entries in turn, and answers the checksum.
fn go_through<T: Table, W: Task>(table: &mut T, work: &Work<W>) -> u64
    ensures { result ≡ sum_of (W.later work.now.task) (W.worth work.now.task) (T.share table.old) (T.entries table.old) work.now.load.entries (stride_of work.now.load.entries) (work.now.rounds * work.now.load.entries) }
{
    let load = work.load;
    let mut at = 0;
    let mut sum = 0u64;
    for before in 0..u64::from(work.rounds) * u64::from(load.entries) {
        sum = sum.wrapping_add(work.task.one(table, at, before));
        at = load.after(at);
    }
    sum
}

// Fills an empty table, and does the work at it.
pub fn perform<T: Table, W: Task>(table: &mut T, work: &Work<W>) -> u64
    requires empty { T.entries table.old ≡ [] }
    requires share { T.share table.old ≡ 256 }
    ensures { result ≡ performed (W.later work.now.task) (W.worth work.now.task) work.now.load.entries work.now.rounds }
{
    fill(table, work.load);
    go_through(table, work)
}
