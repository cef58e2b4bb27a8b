//! Reading for programs in other languages: bytes in, one number out. The crate `frame_c` exports it.
ghost use Rattle.std.specs.Prelude.{◌≡◌};
ghost use Rattle.frame.specs.Packed.{packed};
ghost use Rattle.frame.specs.Reading.{parse};

use crate::read::read_tag;

// What each part weighs in the number; a VID weighs 1.
const PRIORITY: u32 = 4096;

const TAGGED: u32 = 32_768;

const REFUSAL: u32 = 65_536;

/// Reads a frame of any length, and answers one number: VID + 4,096 × priority + 32,768 for a tagged frame, 0 for an
/// untagged one, and 65,536 × the refusal's number, 4 to 7, for one that is refused.
pub fn bridge_read_frame(frame: &[u8]) -> u32
    ensures { result ≡ packed (parse frame.now) }
{
    // The tag alone is read, not the parts: those would be handed over in memory, which takes longer than all the rest.
    match read_tag(frame) {
        Err(refusal) => REFUSAL * u32::from(refusal.number()),
        Ok(None) => 0,
        Ok(Some(tag)) => u32::from(tag.vid) + PRIORITY * u32::from(tag.priority) + TAGGED,
    }
}
