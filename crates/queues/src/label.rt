//! What is kept of a standing frame beside its bytes.

/// The length of a standing frame, and its VID.
#[derive(Clone, Copy, PartialEq, Eq, Debug, Drop)]
pub struct Label {
    /// Bytes, at most 1,518.
    pub length: u16,
    /// The VID that the frame was laid with. It need not be that of a tag in the frame.
    pub vid: u16,
}
