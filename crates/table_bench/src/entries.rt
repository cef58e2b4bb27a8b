//! The entries that a table is filled with: the same addresses in each database.
ghost use Rattle.std.specs.Prelude.{◌≡◌, ◌+◌, ◌/◌};
ghost use Rattle.table_bench.specs.Work.{address_at, entry_at, fid_at};

use table::entry::{Entry, Key};

// The key of the entry with a number, where addresses are counted from one of them on.
pub fn key_at(at: u32, from: u16) -> Key
    ensures fid { result.fid ≡ fid_at at }
    ensures address { result.address ≡ address_at (from + at / 16) }
{
    let n = u32::from(from) + at / 16;
    Key {
        fid: (at % 16) as u8 + 1,
        address: [
            0x00,
            0x1b,
            0x21,
            0x00,
            (n / 256 % 256) as u8,
            (n % 256) as u8,
        ],
    }
}

pub fn entry_at(at: u32, heard: u64) -> Entry
    ensures { result ≡ entry_at at heard }
{
    Entry {
        key: key_at(at, 0),
        port: (at / 16 % 16) as u8,
        heard,
    }
}
