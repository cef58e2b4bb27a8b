// A static entry as it is kept.
ghost use Rattle.std.specs.Prelude.{◌≡◌};
ghost use Rattle.configuration.specs.Saying.{said_by};

use crate::said::Said;
use crate::vlans::Vlans;
use rules::vlans::{StaticEntry, Verdict};

// What an entry says of the ports is worked out once, so that no frame has to go over its verdicts.
#[derive(Drop)]
pub struct Row {
    pub entry: StaticEntry,
    pub said: Said,
    ghost agrees: { said ≡ said_by entry.verdicts },
}

impl Row {
    ghost use Rattle.std.specs.Prelude.{◌&&◌};
    ghost use Rattle.std.specs.Str.{bytes_eq};
    ghost use Rattle.rules.specs.Settings.{is_of, says, vlan_of};

    pub fn new(entry: StaticEntry) -> Row
        ensures { result.entry ≡ entry }
    {
        Row {
            said: Said::by(&entry.verdicts),
            entry,
        }
    }

    pub fn verdict(&self, port: u8) -> Verdict
        ensures { result ≡ says (Some self.now.entry) port }
    {
        match self.entry.verdicts.get(usize::from(port)) {
            None => Verdict::Silent,
            Some(verdict) => *verdict,
        }
    }

    // Whether the entry is for the address, and under a VID of the filtering database.
    pub fn speaks_of(&self, address: [u8; 6], vlans: &Vlans, fid: u8) -> bool
        ensures { result ≡ (bytes_eq self.now.entry.address address && is_of fid (vlan_of vlans.now self.now.entry.vid)) }
    {
        self.entry.address == address && vlans.learns_in(self.entry.vid, fid)
    }
}
