//! Frames of any length, made without the code that is tested.
use std::alloc::{AllocError, Global};

// No byte of a frame that is made here has this value.
pub const UNTOUCHED: u8 = 0xFF;

// From and to, the number in the tag's last two bytes, and the length: side by side, for people to read in tables of
// cases.
#[derive(Clone, Copy, PartialEq, Eq, Debug, Drop)]
pub struct Frame(pub [u8; 6], pub [u8; 6], pub Option<u16>, pub usize);

impl Frame {
    // A body begins alike whatever stands before it.
    pub fn bytes(self, alloc: Global) -> Result<Vec<u8>, AllocError> {
        let Frame(from, to, tag, length) = self;
        let mut bytes = Vec::with_capacity(alloc, length)?;
        bytes.extend_from_slice(&to)?;
        bytes.extend_from_slice(&from)?;
        if let Some(tag) = tag {
            let [high, low] = tag.to_be_bytes();
            bytes.extend_from_slice(&[0x81, 0x00, high, low])?;
        }
        for place in 0..length.saturating_sub(bytes.len()) {
            bytes.push((place % 251) as u8)?;
        }
        Ok(bytes)
    }
}
