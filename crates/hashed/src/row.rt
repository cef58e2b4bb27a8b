//! The places of the filtering databases.
ghost use Rattle.std.specs.Prelude.{◌≡◌, ◌+◌, ◌<◌};

use table::fid::Fid;

// The place of a database among all sixteen, counted from 0.
#[derive(Clone, Copy, PartialEq, Eq, Debug, Drop)]
pub struct Row {
    pub index: usize,
    pub ghost below: { index < 16 },
}

impl From<Fid> for Row {
    ghost from_gives = { λ fid row. row.index + 1 ≡ fid.number };

    fn from(fid: Fid) -> Row {
        Row { index: fid.row() }
    }
}
