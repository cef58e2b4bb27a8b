//! Which kind a line is of, for the count at the end.
ghost use Rattle.std.specs.Prelude.{◌≡◌};
ghost use Rattle.inspect.specs.Counts.{outcome_of};

use fault::refusal::Refusal;
use frame::parts::Parts;
use frame::read::read;

/// The kind of a line that stands for some bytes, or should.
#[derive(Clone, Copy, PartialEq, Eq, Debug, Drop)]
pub enum Outcome {
    /// A frame with a tag.
    Tagged,
    /// A frame without one.
    Untagged,
    /// Bytes that reading refuses.
    Refused(Refusal),
    /// A line that stands for no bytes because it is written wrongly.
    Malformed,
}

impl Outcome {
    /// The kind of a line that stands for these bytes.
    pub fn of_frame(frame: &[u8]) -> Outcome
        ensures { result ≡ outcome_of frame.now }
    {
        match read(frame) {
            Ok(Parts { tag: Some(_), .. }) => Outcome::Tagged,
            Ok(_) => Outcome::Untagged,
            Err(refusal) => Outcome::Refused(refusal),
        }
    }
}
