//! The frames that the examples name.
ghost use Rattle.std.specs.Prelude.{◌+◌, ◌≤◌, length};

use std::fmt;

/// The bytes of every frame here.
pub const LENGTH: usize = 60;

/// Who sends a frame, or whom it is for.
#[derive(Clone, Copy, PartialEq, Eq, Debug, Drop)]
pub enum Station {
    /// 02-00-00-00-00-0A.
    A,
    /// 02-00-00-00-00-0B.
    B,
}

impl Station {
    fn address(self) -> [u8; 6] {
        match self {
            Station::A => [2, 0, 0, 0, 0, 0x0A],
            Station::B => [2, 0, 0, 0, 0, 0x0B],
        }
    }
}

/// Whether a frame has a tag, and which number stands in the tag's last two bytes. Reading need not take it.
#[derive(Clone, Copy, PartialEq, Eq, Debug, Drop)]
pub enum Form {
    Untagged,
    Tagged(u16),
}

impl fmt::Display for Form {
    fn fmt<W: fmt::Write>(&self, f: &mut fmt::Formatter<W>) -> fmt::Result {
        match self {
            Form::Untagged => write!(f, "untagged"),
            Form::Tagged(word) => write!(f, "tag 0x{word:04X}"),
        }
    }
}

/// A frame with nothing but zeros in its body.
#[derive(Clone, Copy, PartialEq, Eq, Debug, Drop)]
pub struct Frame {
    pub from: Station,
    pub to: Station,
    pub form: Form,
}

fn put(frame: &mut [u8; LENGTH], at: usize, bytes: &[u8])
    requires { at + length bytes.now ≤ 60 }
{
    frame[at..at + bytes.len()].copy_from_slice(bytes);
}

impl Frame {
    /// The frame as it arrives.
    pub fn bytes(self) -> [u8; LENGTH] {
        let mut bytes = [0; LENGTH];
        put(&mut bytes, 0, &self.to.address());
        put(&mut bytes, 6, &self.from.address());
        if let Form::Tagged(word) = self.form {
            let [high, low] = word.to_be_bytes();
            put(&mut bytes, 12, &[0x81, 0, high, low]);
        }
        bytes
    }
}

impl fmt::Display for Frame {
    fn fmt<W: fmt::Write>(&self, f: &mut fmt::Formatter<W>) -> fmt::Result {
        write!(f, "{:?} to {:?}", self.from, self.to)
    }
}
