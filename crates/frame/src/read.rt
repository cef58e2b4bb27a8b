//! Reading a frame into its parts.
ghost use Rattle.std.specs.Prelude.{◌≡◌, ◌+◌, ◌≤◌, length, take, IfOk};
ghost use Rattle.fault.specs.Asked.{unless};
ghost use Rattle.frame.specs.Writing.{OwnBytes};
ghost use Rattle.frame.specs.Reading.{frame_asked, is_tagged, parse, places_of, shown, tag_in};

use crate::parts::{
    CFI_BIT, LONGEST_TAGGED, LONGEST_UNTAGGED, PRIORITY_BIT, Parts, Places, TAG, TAG_FOLLOWS, Tag,
};
use fault::refusal::Refusal;

const SHORTEST_READ: usize = 60;

const RESERVED_VID: u16 = 4095;

fn is_tagged(frame: &[u8]) -> bool
    requires { 16 ≤ length frame.now }
    ensures { result ≡ is_tagged frame.now }
{
    frame[TAG] == TAG_FOLLOWS[0] && frame[TAG + 1] == TAG_FOLLOWS[1]
}

// The tag of a frame, or the first question that the frame fails.
pub(crate) fn read_tag(frame: &[u8]) -> Result<Option<Tag>, Refusal>
    ensures { result ≡ unless (frame_asked frame.now) (tag_in frame.now) }
{
    let length = frame.len();
    if length < SHORTEST_READ {
        return Err(Refusal::FrameTooShort(length));
    }
    if !is_tagged(frame) {
        return if length > LONGEST_UNTAGGED {
            Err(Refusal::FrameTooLong(length))
        } else {
            Ok(None)
        };
    }
    if length > LONGEST_TAGGED {
        return Err(Refusal::FrameTooLong(length));
    }
    let word = u16::from_be_bytes([frame[TAG + 2], frame[TAG + 3]]);
    let vid = word % CFI_BIT;
    if vid == RESERVED_VID {
        return Err(Refusal::ReservedVid);
    }
    if word / CFI_BIT % 2 == 1 {
        return Err(Refusal::CfiSet);
    }
    Ok(Some(Tag {
        priority: (word / PRIORITY_BIT) as u8,
        vid,
    }))
}

// No code: what the parts that `parse` gives make, for `read` to pass on.
fn own_bytes(frame: &[u8])
    ensures { OwnBytes frame.now (parse frame.now) }
{}

/// Reads a frame of any length.
///
/// It asks in this order, and the first no is the refusal: 60 bytes or more (4); at most 1,514 bytes, or 1,518 where
/// the frame is tagged (5); of a tagged frame, a VID other than 4,095 (6), and CFI 0 (7).
// The contract takes the parts by what they hold (`shown`): they have a lifetime, so that no `Model` can do it.
pub fn read(frame: &[u8]) -> Result<Parts<'_>, Refusal>
    ensures answer { shown result ≡ parse frame.now }
    ensures own_bytes { OwnBytes frame.now (shown result) }

    // The body is a part of the frame itself, from its place on, and not a copy.
    ensures in_place { IfOk result (λ parts.
        parts.body.ref_ptr ≡ (frame.entry.ref_ptr.0, frame.entry.ref_ptr.1 + (places_of parts.tag).body)) }
{
    own_bytes(frame);
    let tag = read_tag(frame)?;
    let (destination, rest) = frame.split_first_chunk().unwrap();
    let (source, _) = rest.split_first_chunk().unwrap();
    Ok(Parts {
        destination: *destination,
        source: *source,
        body: &frame[Places::of(tag).body..],
        tag,
    })
}
