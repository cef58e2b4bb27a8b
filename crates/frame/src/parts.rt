//! The parts of a frame, as reading hands them out and writing takes them.
ghost use Rattle.std.specs.Prelude.{◌≡◌};
ghost use Rattle.frame.specs.Reading.{places_of};

// A tag's four bytes follow the addresses. The first two say that it is a tag, and the other two are one number of
// sixteen bits, high byte first: three bits of priority, the CFI bit, twelve of VID.
pub(crate) const TAG: usize = 12;

pub(crate) const TAG_FOLLOWS: [u8; 2] = [0x81, 0x00];

pub(crate) const PRIORITY_BIT: u16 = 8192;

pub(crate) const CFI_BIT: u16 = 4096;

// The most bytes that a frame has.
pub(crate) const LONGEST_UNTAGGED: usize = 1514;

pub(crate) const LONGEST_TAGGED: usize = 1518;

/// What a tag says of its frame. The CFI bit is no part of it: reading refuses a frame with that bit set, and writing
/// makes it 0.
#[derive(Clone, Copy, PartialEq, Eq, Debug, Drop)]
pub struct Tag {
    /// 0 to 7 in a frame that was read; writing refuses a larger one.
    pub priority: u8,
    /// 0 to 4,094 in a frame that was read, where 0 names no VLAN; writing refuses a larger one.
    pub vid: u16,
}

/// The parts of a frame.
// The tag stands last, and so in words of its own. Right after the source, the two would be copied as one word, which
// the processor reads only once both are written: about 5 ns for each frame.
#[derive(Clone, Copy, PartialEq, Eq, Debug, Drop)]
pub struct Parts<'a> {
    /// The address of the station, or stations, that the frame is for.
    pub destination: [u8; 6],
    /// The address of the station that the frame is from.
    pub source: [u8; 6],
    /// What follows the addresses and the tag, if there is one, to the frame's end. Of a frame that was read these are
    /// its own bytes, 48 to 1,502 of them, or 44 to 1,502 where the frame is tagged; writing asks that the frame has 56
    /// to 1,514 bytes, or 56 to 1,518 with a tag.
    pub body: &'a [u8],
    /// The tag, or `None` in an untagged frame.
    pub tag: Option<Tag>,
}

impl Parts<'_> {
    /// Where each part lies in the frame.
    pub fn places(&self) -> Places
        ensures { result ≡ places_of self.now.tag }
    {
        Places::of(self.tag)
    }
}

/// Where in a frame each part begins, in bytes from its start.
#[derive(Clone, Copy, PartialEq, Eq, Debug, Drop)]
pub struct Places {
    /// 0.
    pub destination: usize,
    /// 6.
    pub source: usize,
    /// The tag's two bytes of numbers, after 81 00: 14, or `None` in an untagged frame.
    pub tag: Option<usize>,
    /// 12, or 16 in a tagged frame.
    pub body: usize,
}

impl Places {
    // The places in a frame with this tag, or with none.
    pub(crate) fn of(tag: Option<Tag>) -> Places
        ensures { result ≡ places_of tag }
    {
        let (tag, body) = match tag {
            None => (None, 12),
            Some(_) => (Some(14), 16),
        };
        Places {
            destination: 0,
            source: 6,
            tag,
            body,
        }
    }
}
