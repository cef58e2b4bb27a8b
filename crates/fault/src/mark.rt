//! What came of learning a frame's source address.

/// What came of learning a frame's source address at the port that it arrived at.
///
/// A receive carries it in refusals 12, 13 and 14, which come after learning, and in its answer where it accepts the
/// frame.
#[derive(Clone, Copy, PartialEq, Eq, Debug, Drop)]
pub enum Mark {
    /// The address was added to its filtering database.
    New,
    /// The address stood at this port already; only the time when it was last heard is new.
    Known,
    /// The address stood at another port, and stands at this one now.
    Moved,
    /// The database holds its full share of entries, and the address was not added.
    Full,
    /// Nothing was to be learned: the source is a group address, or a static entry for it says forward or filter at
    /// this port.
    Unlearned,
}
