//! The two tables that keep records, empty: what their check asks is asked first. Two functions and not one
//! that takes the making: the bound of a closure may not name a const parameter, and a trait would need as
//! many lines for each table.
use fault::refusal::Refusal;
use hashed::hashed::Hashed;
use searched::searched::Searched;
use table::check::check;
use table::checked::Checked;
use table::entry::Entry;

// The records that were checked for a table, and the rest of the memory, or only why not.
pub fn divided<const RECORDS: u16>(
    share: u16,
    records: &mut [Entry],
) -> Result<(Checked<'_, RECORDS>, &mut [Entry]), Refusal> {
    Ok(check(share, records)?)
}

pub fn searched(share: u16, records: &mut [Entry]) -> Result<Searched<'_>, Refusal> {
    let (checked, _) = divided(share, records)?;
    Ok(Searched::new(checked))
}

pub fn hashed(share: u16, records: &mut [Entry]) -> Result<Hashed<'_>, Refusal> {
    let (checked, _) = divided(share, records)?;
    Ok(Hashed::new(checked))
}
