//! The frames that are played.

/// Where a frame arrives, and where it is sent.
#[repr(C)]
#[derive(Clone, Copy, PartialEq, Eq, Debug, Drop)]
pub struct Way {
    /// The port that the frame arrives at.
    pub from: u8,
    /// The port that it is sent from, unless it is flooded.
    pub to: u8,
}

// Frames of one length, one after another, with a way for each. Flooded ones are sent from every port but the one that
// they arrive at.
#[derive(Clone, Copy, Drop)]
pub struct Traffic<'a> {
    pub frames: &'a [u8],
    pub length: usize,
    pub ways: &'a [Way],
    pub flooded: bool,
}

impl Traffic<'_> {
    // The frame with a number. Past the last one it is empty, and so is refused.
    #[inline]
    pub fn frame(&self, number: usize) -> &[u8] {
        let Some(start) = number.checked_mul(self.length) else {
            return &[];
        };
        let Some(end) = start.checked_add(self.length) else {
            return &[];
        };
        match self.frames.get(start..end) {
            Some(frame) => frame,
            None => &[],
        }
    }
}
