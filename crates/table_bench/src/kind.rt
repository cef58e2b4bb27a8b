//! The kinds of tables, and their numbers for other languages.
#[derive(Clone, Copy, PartialEq, Eq, Debug, Drop)]
pub enum Kind {
    Searched,
    Hashed,
    RecentOverSearched,
    RecentOverHashed,
}

// The number of no kind.
#[derive(Clone, Copy, PartialEq, Eq, Debug, Drop)]
pub struct UnknownKind(pub u32);

impl TryFrom<u32> for Kind {
    ghost use Rattle.table_bench.specs.Kinds.{Decodes};

    type Error = UnknownKind;

    ghost try_from_gives = { Decodes };

    fn try_from(number: u32) -> Result<Kind, UnknownKind> {
        match number {
            0 => Ok(Kind::Searched),
            1 => Ok(Kind::Hashed),
            2 => Ok(Kind::RecentOverSearched),
            3 => Ok(Kind::RecentOverHashed),
            _ => Err(UnknownKind(number)),
        }
    }
}
