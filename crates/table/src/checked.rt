//! What a check of a table's share and memory hands out.
ghost use Rattle.std.specs.Prelude.{◌≡◌, ◌*◌, ◌≤◌, length};

use crate::entry::Entry;
use fault::refusal::Refusal;

/// A share that is in range, with the memory for it: `RECORDS` records for each entry, no more and no fewer. Only
/// `check` makes one, and a table is made of one that was checked for its own kind.
#[derive(Drop)]
pub struct Checked<'a, const RECORDS: u16> {
    pub(crate) share: u16,
    pub(crate) records: &'a mut [Entry],
    pub ghost low: { 1 ≤ share },
    pub ghost high: { share ≤ 256 },
    pub ghost size: { length records.now ≡ RECORDS * share },
}

impl<'a, const RECORDS: u16> Checked<'a, RECORDS> {
    /// The share, which is 1 to 256, and the memory.
    pub fn into_parts(self) -> (usize, &'a mut [Entry])
        ensures share { result.0 ≡ self.entry.share }
        ensures memory { result.1 ≡ self.entry.records }
        ensures high { result.0 ≤ 256 }
        ensures size { length result.1.now ≡ RECORDS * result.0 }
    {
        (usize::from(self.share), self.records)
    }
}

/// Why no table can be made in this memory, which is given back as it was.
#[derive(Drop)]
pub struct Refused<'a> {
    /// The first question that was answered no.
    pub refusal: Refusal,
    /// The whole memory.
    pub records: &'a mut [Entry],
}

/// For a caller that only hands on why.
impl<'a> From<Refused<'a>> for Refusal {
    ghost from_gives = { λ before after. after ≡ before.refusal };

    fn from(refused: Refused<'a>) -> Refusal
        ensures refusal { result ≡ refused.entry.refusal }
        ensures memory { refused.exit.1.0.now ≡ refused.entry.records.now }
    {
        refused.refusal
    }
}
