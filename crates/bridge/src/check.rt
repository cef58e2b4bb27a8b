//! What is asked before a bridge is made.
ghost use Rattle.bridge.specs.Making.{Answers};

use crate::checked::Checked;
use configuration::statics::Statics;
use configuration::vlans::Vlans;
use fault::refusal::Refusal;
use queues::queues::Queues;
use rules::shape::Shape;
use std::alloc::{AllocError, Global};
use thiserror::Error;

/// Why no bridge can be made.
#[derive(Clone, Copy, PartialEq, Eq, Debug, Drop, Error)]
pub enum CheckError {
    /// A number is out of range.
    #[error("{0}")]
    Refused(Refusal),
    /// There is not enough memory.
    #[error("there is not enough memory")]
    NoMemory,
}

impl From<Refusal> for CheckError {
    ghost use Rattle.std.specs.Prelude.{◌≡◌};
    ghost use Rattle.bridge.specs.declared.check.CheckError.TheVariants.{Refused};

    ghost from_gives = { λ before after. after ≡ Refused before };

    fn from(refusal: Refusal) -> CheckError {
        CheckError::Refused(refusal)
    }
}

impl From<AllocError> for CheckError {
    ghost use Rattle.std.specs.Prelude.{◌≡◌};
    ghost use Rattle.bridge.specs.declared.check.CheckError.TheVariants.{NoMemory};

    ghost from_gives = { λ before after. after ≡ NoMemory };

    fn from(_: AllocError) -> CheckError {
        CheckError::NoMemory
    }
}

/// Asks whether there are 2 to 16 ports (23), 1 to 8 traffic classes (24), and queues of 1 to 64 frames (26), and
/// allocates what a bridge of that shape needs. Nothing is allocated after it.
pub fn check(alloc: Global, ports: u8, classes: u8, depth: u8) -> Result<Checked, CheckError>
    ensures { Answers ports classes depth result }
{
    let shape = Shape::check(ports, classes, depth)?;
    Ok(Checked {
        queues: Queues::new(alloc, shape)?,
        vlans: Vlans::new(alloc)?,
        statics: Statics::new(alloc)?,
    })
}
