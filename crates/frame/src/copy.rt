//! Reading and writing together: what one does the other undoes.
ghost use Rattle.std.specs.Prelude.{◌≡◌, ◌+◌, ◌≤◌, length, take, drop, Ok, Decides};
ghost use Rattle.frame.specs.Reading.{parse, picture};
ghost use Rattle.frame.specs.Writing.{confirm_answer, copy_after, copy_answer, write_after};

use crate::parts::Parts;
use crate::read::read;
use crate::write::write;
use fault::refusal::Refusal;

/// Reads a frame and writes it again from its parts, from position `at` of the memory on: it has its own bytes again.
/// It answers the frame's length.
///
/// It asks reading's 4 to 7, and then whether the frame fits from `at` on (37); a refused call changes nothing.
pub fn copy(frame: &[u8], memory: &mut [u8], at: usize) -> Result<usize, Refusal>
    ensures answer { result ≡ copy_answer (length memory.old) at frame.now }
    ensures after { memory.new ≡ copy_after memory.old at frame.now }
{
    let parts = read(frame)?;
    write(memory, at, &parts)
}

// Whether a frame reads as just these parts.
fn reads_as(frame: &[u8], parts: &Parts<'_>) -> bool
    ensures { Decides result (parse frame.now ≡ Ok (picture parts.now)) }
{
    matches!(read(frame), Ok(found) if found == *parts)
}

/// Writes a frame from position `at` on, reads it back from the memory, and answers whether it has the same parts: true
/// exactly if it has 60 bytes or more and, where there is no tag, its body does not begin with 81 00.
///
/// It asks writing's 35 to 37; a refused call changes nothing.
#[tactic(auto, using(crate::proofs::Room::span))]
pub fn write_and_confirm(memory: &mut [u8], at: usize, parts: &Parts<'_>) -> Result<bool, Refusal>
    ensures answer { result ≡ confirm_answer (length memory.old) at (picture parts.now) }
    ensures after { memory.new ≡ write_after memory.old at (picture parts.now) }
{
    let length = write(memory, at, parts)?;
    Ok(reads_as(&memory[at..at + length], parts))
}
