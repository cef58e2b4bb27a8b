//! The kinds of tables, each made in records on the stack for the largest share.
ghost use Rattle.std.specs.Prelude.{◌≤◌, length};

use crate::play::{pass, passes};
use crate::setup::started;
use crate::traffic::Traffic;
use bridge::checked::Checked;
use hashed::hashed::Hashed;
use recent::recent::Recent;
use searched::searched::Searched;
use table::check::check;
use table::entry::Entry;
use table::table::Table;

// What is played: frames to all that are played once, from which the stations are learned, and then the traffic.
#[derive(Clone, Copy, Drop)]
pub struct Work<'a> {
    pub ports: u8,
    pub hellos: Traffic<'a>,
    pub traffic: Traffic<'a>,
    pub passes: u32,
}

fn searched(records: &mut [Entry]) -> Searched<'_>
    requires { 4096 ≤ length records.old }
{
    match check(256, records) {
        Ok((checked, _)) => Searched::new(checked),
        Err(_) => unreachable!(),
    }
}

fn hashed(records: &mut [Entry]) -> Hashed<'_>
    requires { 8192 ≤ length records.old }
{
    match check(256, records) {
        Ok((checked, _)) => Hashed::new(checked),
        Err(_) => unreachable!(),
    }
}

fn perform<T: Table + Drop>(
    checked: Checked,
    table: T,
    work: &Work<'_>,
    memory: &mut [u8],
    output: &mut [u8],
) -> u64 {
    let Ok(bridge) = started(checked, table, work.ports) else {
        return 0;
    };
    let mut bridge = bridge;
    let learned = pass(&mut bridge, work.ports, &work.hellos, memory, output);
    learned.wrapping_add(passes(
        &mut bridge,
        work.ports,
        &work.traffic,
        work.passes,
        memory,
        output,
    ))
}

pub fn by_kind(
    kind: u32,
    checked: Checked,
    work: &Work<'_>,
    memory: &mut [u8],
    output: &mut [u8],
) -> u64 {
    let mut records = [Entry::free(); 8192];
    match kind {
        0 => perform(checked, searched(&mut records), work, memory, output),
        1 => perform(checked, hashed(&mut records), work, memory, output),
        2 => perform(
            checked,
            Recent::new(searched(&mut records)),
            work,
            memory,
            output,
        ),
        3 => perform(
            checked,
            Recent::new(hashed(&mut records)),
            work,
            memory,
            output,
        ),
        _ => 0,
    }
}
