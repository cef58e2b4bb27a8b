//! The numbers of filtering databases.
ghost use Rattle.std.specs.Prelude.{◌≤◌};

use fault::refusal::Refusal;

/// The number of a filtering database that there is, 1 to 16. Only `try_from` makes one.
#[derive(Clone, Copy, PartialEq, Eq, Debug, Drop)]
pub struct Fid {
    number: u8,
    pub ghost low: { 1 ≤ number },
    pub ghost high: { number ≤ 16 },
}

/// Any number but 1 to 16 is refused with `FidOutOfRange`.
impl TryFrom<u8> for Fid {
    ghost use Rattle.table.specs.Fids.{Names};

    type Error = Refusal;

    ghost try_from_gives = { Names };

    fn try_from(number: u8) -> Result<Fid, Refusal> {
        if !(1..=16).contains(&number) {
            return Err(Refusal::FidOutOfRange);
        }
        Ok(Fid { number })
    }
}

impl Fid {
    ghost use Rattle.std.specs.Prelude.{◌≡◌, ◌+◌, ◌<◌};

    /// The place of the database among all sixteen, counted from 0.
    pub fn row(self) -> usize
        ensures value { result + 1 ≡ self.number }
        ensures below { result < 16 }
    {
        usize::from(self.number - 1)
    }
}
