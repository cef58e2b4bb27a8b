//! The calls of a table and what they answer, as data. They are made through the functions that carry the
//! laws, so that these are used at every table.
use fault::mark::Mark;
use fault::refusal::Refusal;
use table::entry::{Entry, Key};
use table::table::Table;
use tablelaws::laws;

// An enum and no closures, since tables of cases and rolls of dice name calls. FID and address stand side
// by side in them, for people to read.
#[derive(Clone, Copy)]
pub enum Call {
    Find(u8, [u8; 6]),
    // FID, address, port, and when it was heard.
    Learn(u8, [u8; 6], u8, u64),
    Expire(u64),
    Flush(u8),
}

#[derive(Clone, Copy, PartialEq, Eq, Debug, Drop)]
pub enum Answer {
    Found(Option<u8>),
    Marked(Mark),
    Expired(usize),
    Removed(usize),
}

// An address for each number.
pub fn numbered(n: u16) -> [u8; 6] {
    let [high, low] = n.to_be_bytes();
    [2, 0, 0, 0, high, low]
}

// Makes a call.
pub fn ask<T: Table>(table: &mut T, call: Call) -> Result<Answer, Refusal> {
    Ok(match call {
        Call::Find(fid, address) => Answer::Found(laws::find(table, Key { fid, address })?),
        Call::Learn(fid, address, port, heard) => {
            let key = Key { fid, address };
            Answer::Marked(laws::learn(table, Entry { key, port, heard })?)
        }
        Call::Expire(limit) => Answer::Expired(laws::expire(table, limit)),
        Call::Flush(fid) => Answer::Removed(laws::flush(table, fid)?),
    })
}
