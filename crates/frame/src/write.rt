//! Writing a frame from its parts into memory that the caller lends.
ghost use Rattle.std.specs.Prelude.{◌≡◌, ◌+◌, ◌≤◌, true, length, nat_le, Some, Ok};
ghost use Rattle.frame.specs.Reading.{picture};
ghost use Rattle.frame.specs.declared.write.TheConstants.{CELL};
ghost use Rattle.frame.specs.Writing.{ReadsBack, cell_after, cell_answer, frame_of, put_at, size_of, tag_bytes, tag_fits, write_after, write_answer};

use crate::parts::{LONGEST_TAGGED, LONGEST_UNTAGGED, PRIORITY_BIT, Parts, TAG, TAG_FOLLOWS, Tag};
use fault::refusal::Refusal;

const HIGHEST_PRIORITY: u8 = 7;

const HIGHEST_VID: u16 = 4094;

// 4 less than what reading takes, since a tag may be left out of a frame that was read with one.
const SHORTEST_WRITTEN: usize = 56;

/// The bytes of a cell of the frame memory, which holds any frame.
pub const CELL: usize = LONGEST_TAGGED;

// Lays bytes over a stretch of the memory.
#[tactic(auto, using(crate::proofs::Placed::lent))]
fn put(memory: &mut [u8], at: usize, bytes: &[u8])
    requires { at + length bytes.now ≤ length memory.old }
    ensures { memory.new ≡ put_at memory.old at bytes.now }
{
    let end = at + bytes.len();
    memory[at..end].copy_from_slice(bytes);
}

fn tag_bytes(tag: Tag) -> [u8; 4]
    requires priority { tag.priority ≤ 7 }
    requires vid { tag.vid ≤ 4094 }
    ensures { result ≡ tag_bytes (Some tag) }
{
    let word = u16::from(tag.priority) * PRIORITY_BIT + tag.vid;
    let [high, low] = word.to_be_bytes();
    [TAG_FOLLOWS[0], TAG_FOLLOWS[1], high, low]
}

// Whether so many bytes fit into the room from position `at` on.
fn fits(room: usize, at: usize, count: usize) -> bool
    ensures { result ≡ nat_le (at + count) room }
{
    count <= room && at <= room - count
}

// The length that the frame will have, or the first question that is answered no.
fn measure(room: usize, at: usize, parts: &Parts<'_>) -> Result<usize, Refusal>
    ensures { result ≡ write_answer room at (picture parts.now) }
{
    if let Some(tag) = parts.tag
        && (tag.priority > HIGHEST_PRIORITY || tag.vid > HIGHEST_VID)
    {
        return Err(Refusal::TagOutOfRange);
    }
    let longest = match parts.tag {
        None => LONGEST_UNTAGGED,
        Some(_) => LONGEST_TAGGED,
    };
    let length = parts.places().body + parts.body.len();
    if !(SHORTEST_WRITTEN..=longest).contains(&length) {
        return Err(Refusal::LengthOutOfRange);
    }
    if !fits(room, at, length) {
        return Err(Refusal::DoesNotFit);
    }
    Ok(length)
}

// Fills a stretch of just the frame's length.
#[inline(always)]
fn fill(frame: &mut [u8], parts: &Parts<'_>)
    requires size { length frame.old ≡ size_of (picture parts.now) }
    requires tag { tag_fits parts.now.tag ≡ true }
    ensures { frame.new ≡ frame_of (picture parts.now) }
{
    let places = parts.places();
    put(frame, places.destination, &parts.destination);
    put(frame, places.source, &parts.source);
    if let Some(tag) = parts.tag {
        put(frame, TAG, &tag_bytes(tag));
    }
    put(frame, places.body, parts.body);
}

// Lays a frame that was measured for this place, where it reads back exactly if it is readable.
#[inline(always)]
fn lay(memory: &mut [u8], at: usize, size: usize, parts: &Parts<'_>)
    requires { Ok size ≡ write_answer (length memory.old) at (picture parts.now) }
    ensures after { memory.new ≡ put_at memory.old at (frame_of (picture parts.now)) }
    ensures reads_back { ReadsBack (picture parts.now) at memory.new (Ok size) }
{
    fill(&mut memory[at..at + size], parts);
}

/// Writes a frame from position `at` on, and answers its length. Nothing outside the frame changes, and a refused write
/// changes nothing.
///
/// It asks in this order, and the first no is the refusal: a priority of at most 7 and a VID of at most 4,094 in the
/// tag, if there is one (35); a frame of 56 to 1,514 bytes, or 56 to 1,518 with a tag (36); that the frame fits from
/// `at` on (37). How an untagged body begins is not asked: one that begins 81 00 is written as it stands, and reads as
/// a tag.
// The memory comes whole and with a position: a part of it could not be one that lies outside, which is refused.
#[inline(always)]
pub fn write(memory: &mut [u8], at: usize, parts: &Parts<'_>) -> Result<usize, Refusal>
    ensures answer { result ≡ write_answer (length memory.old) at (picture parts.now) }
    ensures after { memory.new ≡ write_after memory.old at (picture parts.now) }
    ensures reads_back { ReadsBack (picture parts.now) at memory.new result }
{
    let length = measure(memory.len(), at, parts)?;
    lay(memory, at, length, parts);
    Ok(length)
}

// Writes a frame into a cell that lies in the memory.
#[inline(always)]
fn write_in_cell(memory: &mut [u8], place: usize, parts: &Parts<'_>) -> Result<usize, Refusal>
    requires { place + CELL ≤ length memory.old }
    ensures answer { result ≡ cell_answer (length memory.old) place (picture parts.now) }
    ensures after { memory.new ≡ cell_after memory.old place (picture parts.now) }
{
    write(&mut memory[place..place + CELL], 0, parts)
}

/// Writes a frame into the cell, of [`CELL`] bytes, that begins at `place`, and answers the frame's length. The rest of
/// the cell and what is outside it keep their bytes, and a refused call changes nothing.
///
/// It asks as [`write`] does. A cell holds every frame of an allowed length, so 37 asks whether the cell lies in the
/// memory.
#[inline(always)]
#[tactic(auto, using(crate::proofs::Room::no_room))]
pub fn write_cell(memory: &mut [u8], place: usize, parts: &Parts<'_>) -> Result<usize, Refusal>
    ensures answer { result ≡ cell_answer (length memory.old) place (picture parts.now) }
    ensures after { memory.new ≡ cell_after memory.old place (picture parts.now) }
{
    if !fits(memory.len(), place, CELL) {
        // Such a cell has no room for a frame: only which question refuses it is open.
        return measure(0, 0, parts);
    }
    write_in_cell(memory, place, parts)
}
