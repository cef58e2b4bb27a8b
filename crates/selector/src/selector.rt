//! What every selector does, whichever way it chooses.
ghost use Rattle.std.specs.Prelude.{◌≡◌, ℕ, ◌<◌, Bool, true, List, Some, None, Option};
ghost use Rattle.sets.specs.Sets.{holds};
ghost use Rattle.selector.specs.Answers.{served, kept};
ghost use Rattle.selector.specs.Classes.{NoneHeld};

use fault::refusal::Refusal;
use sets::number_set::{ClassSet, PORTS};

/// Picks the traffic class that a port sends from next, of those that hold a frame. It serves the
/// ports 0 to 15. What it picks, and what it remembers afterwards, follow from what it remembers,
/// the port and the set alone.
pub trait Selector: Sized {
    // The class picked for a port, of the classes that hold a frame.
    ghost choice: { Self → ℕ → List Bool → Option ℕ };

    // The selector after that pick.
    ghost after: { Self → ℕ → List Bool → Self };

    /// The class picked, if any. A port above 15 is refused, and the selector left as it was.
    fn pick(&mut self, port: u8, standing: &ClassSet) -> Result<Option<u8>, Refusal>
        ensures answer { result ≡ served port (choice self.old port standing.now) }
        ensures later { self.new ≡ kept port (after self.old port standing.now) self.old };

    // A pick is one of the eight classes.
    ghost below: { (s : Self) (port : ℕ) (held : List Bool) (class : ℕ) → choice s port held ≡ Some class → class < 8 };

    // A pick holds a frame.
    ghost stands: { (s : Self) (port : ℕ) (held : List Bool) (class : ℕ) → choice s port held ≡ Some class → holds held class ≡ true };

    // Where nothing is picked, no class holds a frame.
    ghost idle: { (s : Self) (port : ℕ) (held : List Bool) → choice s port held ≡ None → NoneHeld held };

    // Where no class holds a frame, nothing is picked.
    ghost silent: { (s : Self) (port : ℕ) (held : List Bool) → NoneHeld held → choice s port held ≡ None };

    // Where nothing is picked, the selector is left as it was.
    ghost keeps: { (s : Self) (port : ℕ) (held : List Bool) → choice s port held ≡ None → after s port held ≡ s };
}

// Where a port's memory lies, or the refusal of a port that no selector serves.
pub(crate) fn place_of(port: u8) -> Result<usize, Refusal>
    ensures { result ≡ served port port }
{
    let place = usize::from(port);
    if place >= PORTS {
        return Err(Refusal::PortOutOfRange);
    }
    Ok(place)
}
