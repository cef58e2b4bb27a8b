//! What is known of a stretch of records without looking at them.
ghost use Rattle.std.specs.Prelude.{◌≡◌, ◌+◌, ◌<◌, ◌≤◌, nat_le};
ghost use Rattle.slots.specs.Measure.{empty_bounds, measured, with_heard, with_new, with_next, with_record};

use crate::hash::{home, steps_to};
use table::entry::Entry;

/// What a table keeps beside a stretch. It is as true as whoever keeps it: a search trusts `reach`.
#[derive(Clone, Copy, PartialEq, Eq, Debug, Drop)]
pub struct Bounds {
    /// How many entries there are.
    pub held: usize,
    /// A search that passes this many records from an entry's home on has passed the entry.
    pub reach: usize,
    /// No entry was heard before this time (in milliseconds). With no entry the end of time is a true bound, and no
    /// stand-in.
    pub oldest: u64,
}

impl Bounds {
    /// The bounds of a stretch that has no entry. No `Default`, as the end of time is no number's default.
    pub fn empty() -> Bounds
        ensures { result ≡ empty_bounds }
    {
        Bounds {
            held: 0,
            reach: 0,
            oldest: u64::MAX,
        }
    }

    /// The bounds of a stretch, from its records.
    pub fn of(records: &[Entry]) -> Bounds
        ensures { result ≡ measured records.now }
    {
        let mut bounds = Bounds::empty();
        // In a fold the closure does not know that no more entries were counted than places, and the proof
        // does not close: so this is a loop.
        for (at, entry) in records.iter().enumerate() {
            bounds = bounds.with_record(records.len(), at, entry);
        }
        bounds
    }

    // The bounds with the record at one more place among n.
    fn with_record(self, n: usize, at: usize, entry: &Entry) -> Bounds
        requires place { at < n }
        requires few { self.held ≤ at }
        ensures value { result ≡ with_record n at self entry.now }
        ensures fits { result.held ≤ at + 1 }
    {
        if entry.is_free() {
            return self;
        }
        self.with_new(steps_to(n, home(n, entry.key), at), entry.heard)
    }

    /// Whether an entry may have been heard at the limit (in milliseconds) or before it.
    pub fn is_due(self, limit: u64) -> bool
        ensures { result ≡ nat_le self.oldest limit }
    {
        self.oldest <= limit
    }

    /// The bounds with one entry more, so many steps past its home. A number that would be too large stays
    /// at the largest one.
    pub fn with_new(self, steps: usize, heard: u64) -> Bounds
        ensures small { self.held < usize.MAX → steps < usize.MAX → result ≡ with_new self steps heard }
        ensures exact { result ≡ with_next self steps heard }
    {
        Bounds {
            held: self.held.saturating_add(1),
            reach: self.reach.max(steps.saturating_add(1)),
            oldest: self.oldest.min(heard),
        }
    }

    /// The bounds with an entry heard at another time.
    pub fn with_heard(self, heard: u64) -> Bounds
        ensures { result ≡ with_heard self heard }
    {
        let oldest = self.oldest.min(heard);
        Bounds { oldest, ..self }
    }
}
