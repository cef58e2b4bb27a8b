//! One remembered answer.
ghost use Rattle.std.specs.Prelude.{◌≡◌};
ghost use Rattle.recent.specs.Remembered.{is_for};

use table::entry::Key;

/// What `find` answered for a pair.
#[derive(Clone, Copy, PartialEq, Eq, Debug, Drop)]
pub struct Remembered {
    pub key: Key,
    pub port: Option<u8>,
}

impl Remembered {
    pub(crate) fn is_for(&self, key: Key) -> bool
        ensures { result ≡ is_for key.fid key.address self.now }
    {
        self.key == key
    }
}
