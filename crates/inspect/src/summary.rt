//! How many lines there were of each kind.
ghost use Rattle.std.specs.Prelude.{◌≡◌};
ghost use Rattle.inspect.specs.Counts.{nothing, summary_after};

use crate::outcome::Outcome;
use fault::refusal::REFUSALS;
use std::fmt;

// Refusals are numbered from 1 on, and no refusal is 0.
const NUMBERS: usize = REFUSALS as usize + 1;

/// How many lines there were of each kind. A count that has reached the largest number there is stays there.
#[derive(Clone, Copy, PartialEq, Eq, Debug, Drop)]
pub struct Summary {
    /// Frames with a tag.
    pub tagged: usize,
    /// Frames without one.
    pub untagged: usize,
    /// Refused frames, each at the index of the refusal's number; none is at 0.
    // In an array counting needs no memory, so it cannot fail, as it could with a map.
    pub refused: [usize; NUMBERS],
    /// Lines that are written wrongly.
    pub malformed: usize,
}

impl Summary {
    /// Nothing counted yet.
    // No derived `Default`: what one says of an array does not prove `nothing`.
    pub fn new() -> Summary
        ensures { result ≡ nothing }
    {
        Summary {
            tagged: 0,
            untagged: 0,
            refused: [0; NUMBERS],
            malformed: 0,
        }
    }

    /// Counts one more line.
    pub fn count(&mut self, outcome: Outcome)
        ensures { self.new ≡ summary_after self.old outcome }
    {
        match outcome {
            Outcome::Tagged => self.tagged = self.tagged.saturating_add(1),
            Outcome::Untagged => self.untagged = self.untagged.saturating_add(1),
            Outcome::Refused(refusal) => {
                let at = usize::from(refusal.number());
                self.refused[at] = self.refused[at].saturating_add(1);
            }
            Outcome::Malformed => self.malformed = self.malformed.saturating_add(1),
        }
    }
}

impl fmt::Display for Summary {
    fn fmt<W: fmt::Write>(&self, f: &mut fmt::Formatter<W>) -> fmt::Result {
        writeln!(f, "tagged: {}", self.tagged)?;
        writeln!(f, "untagged: {}", self.untagged)?;
        for (number, times) in self.refused.iter().enumerate() {
            if *times > 0 {
                writeln!(f, "refused with {number}: {times}")?;
            }
        }
        writeln!(f, "malformed lines: {}", self.malformed)
    }
}
