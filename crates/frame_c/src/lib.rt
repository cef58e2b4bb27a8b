//! Reading frames for programs in other languages: the exported form of `frame::c_api`, as a static library.
//! docs/C-API.md has the declaration for C and how the library is linked.
#![tactic(auto)]

ghost use Rattle.std.specs.Prelude.{◌≡◌};
ghost use Rattle.frame.specs.Packed.{packed};
ghost use Rattle.frame.specs.Reading.{parse};

use frame::c_api;

/// Reads a frame of any length, and answers one number: VID + 4,096 × priority + 32,768 for a tagged frame, 0 for an
/// untagged one, and 65,536 × the refusal's number, 4 to 7, for one that is refused.
///
/// In C the frame is two parameters: a pointer to its first byte, and how many bytes it has. That there are so many
/// readable bytes is the caller's part.
#[unsafe(no_mangle)]
pub extern "C" fn bridge_read_frame(frame: &[u8]) -> u32
    ensures { result ≡ packed (parse frame.now) }
{
    c_api::bridge_read_frame(frame)
}
