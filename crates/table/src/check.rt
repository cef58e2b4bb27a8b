//! The questions that are asked before a table is made.
ghost use Rattle.std.specs.Prelude.{◌≡◌};
ghost use Rattle.table.specs.Checks.{Answers};

use crate::checked::{Checked, Refused};
use crate::entry::Entry;
use fault::refusal::Refusal;

/// Asks whether the share is 1 to 256 (otherwise `ShareOutOfRange`), and then whether there are `RECORDS` records
/// for each entry of it (otherwise `TableMemoryTooSmall`). Hands out just as many as the table takes, for its
/// making, and beside them the rest, which no table touches.
pub fn check<const RECORDS: u16>(
    share: u16,
    records: &mut [Entry],
) -> Result<(Checked<'_, RECORDS>, &mut [Entry]), Refused<'_>>
    ensures { Answers RECORDS share records.entry result }
{
    if !(1..=256).contains(&share) {
        return Err(Refused {
            refusal: Refusal::ShareOutOfRange,
            records,
        });
    }
    let taken = usize::from(RECORDS) * usize::from(share);
    if records.len() < taken {
        return Err(Refused {
            refusal: Refusal::TableMemoryTooSmall,
            records,
        });
    }
    let (records, rest) = records.split_at_mut(taken);
    Ok((Checked { share, records }, rest))
}
