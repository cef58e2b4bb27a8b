//! The static entries of a bridge.
ghost use Rattle.std.specs.Prelude.{◌≡◌, false, [], ◌∷◌, ◌++◌, IfOk};
ghost use Rattle.fault.specs.Asked.{changed, unless};
ghost use Rattle.rules.specs.Settings.{Settings, says, static_of};
ghost use Rattle.rules.specs.Setup.{asked_of_static};
ghost use Rattle.configuration.specs.Saying.{said_for, said_in, with_these};
ghost use Rattle.configuration.specs.Searched.{Fresh, entry_behind, is_for};

use crate::row::Row;
use crate::said::Said;
use crate::vlans::Vlans;
use fault::refusal::Refusal;
use frame::address::is_group;
use rules::vlans::{StaticEntry, Verdict, Vlan};
use std::alloc::{AllocError, Global};
use std::marker::Model;

/// The most static entries that a bridge has.
pub const MOST_STATICS: usize = 64;

/// The static entries of a bridge, at most 64, in the order in which they were added.
#[derive(Drop)]
pub struct Statics {
    // For each value of a byte, whether an entry's address ends in it.
    endings: [bool; 256],
    rows: Vec<Row>,
}

impl Model for Statics {
    ghost use Rattle.std.specs.Prelude.{◌≤◌, List, map, vec_capacity};
    ghost use Rattle.rules.specs.declared.vlans.StaticEntry.{StaticEntry};
    ghost use Rattle.configuration.specs.Searched.{Searched};

    ghost Value = { List StaticEntry };

    ghost view = { λ s. map (λ row. row.entry) s.rows.items };

    ghost invariant = { λ s. Searched s.endings (map (λ row. row.entry) s.rows.items) × (64 ≤ vec_capacity s.rows) };
}

impl Statics {
    /// No static entry yet, with all the memory that 64 of them need.
    pub fn new(alloc: Global) -> Result<Statics, AllocError>
        ensures { IfOk result (λ statics. statics ≡ []) }
    {
        Ok(Statics {
            endings: [false; 256],
            rows: Vec::with_capacity(alloc, MOST_STATICS)?,
        })
    }

    // If not, no entry is for the address.
    fn may_have(&self, address: [u8; 6]) -> bool
        ensures { result ≡ false → is_for address self.now ≡ false }
    {
        self.endings[usize::from(address[5])]
    }

    #[tactic(auto, using(crate::proofs::Entries::none_found))]
    fn find(&self, vid: u16, address: [u8; 6]) -> Option<&Row>
        ensures { entry_behind result ≡ static_of self.now vid address }
    {
        if !self.may_have(address) {
            return None;
        }
        for row in &self.rows {
            if row.entry.vid == vid && row.entry.address == address {
                return Some(row);
            }
        }
        None
    }

    /// What the entry for a VID and an address says of a port, or `Silent` where there is none.
    pub fn verdict(&self, vid: u16, address: [u8; 6], port: u8) -> Verdict
        ensures { result ≡ says (static_of self.now vid address) port }
    {
        match self.find(vid, address) {
            None => Verdict::Silent,
            Some(row) => row.verdict(port),
        }
    }

    // What the entries for an address say under every VID of a filtering database.
    fn gathered(&self, vlans: &Vlans, fid: u8, address: [u8; 6]) -> Said
        ensures { (σ : Settings) → result ≡ said_in (with_these σ vlans.now self.now) fid address }
    {
        let mut said = Said::nothing();
        for row in &self.rows {
            if row.speaks_of(address, vlans, fid) {
                said = said.and(&row.said);
            }
        }
        said
    }

    /// What is said of the ports for frames of a VLAN to an address: to an individual address by the entries under
    /// every VID of the VLAN's filtering database, to a group by the entry under the VLAN's own VID.
    #[inline(always)]
    pub fn said(&self, vlans: &Vlans, vlan: &Vlan, destination: [u8; 6]) -> Said
        ensures { (σ : Settings) → result ≡ said_for (with_these σ vlans.now self.now) vlan.now destination }
    {
        if !self.may_have(destination) {
            return Said::nothing();
        }
        if !is_group(destination) {
            return self.gathered(vlans, vlan.fid, destination);
        }
        match self.find(vlan.vid, destination) {
            None => Said::nothing(),
            Some(row) => row.said,
        }
    }

    fn check(&self, vlans: &Vlans, entry: &StaticEntry) -> Result<(), Refusal>
        ensures { result ≡ unless (asked_of_static vlans.now self.now entry.now) tt }
    {
        if vlans.get(entry.vid).is_none() {
            return Err(Refusal::VlanNotCreated);
        }
        if self.find(entry.vid, entry.address).is_some() {
            return Err(Refusal::AlreadyThere);
        }
        if self.rows.len() >= MOST_STATICS {
            return Err(Refusal::TooMany);
        }
        Ok(())
    }

    fn put(&mut self, entry: StaticEntry)
        requires { Fresh self.old entry }
        ensures { self.new ≡ self.old ++ entry ∷ [] }
    {
        self.endings[usize::from(entry.address[5])] = true;
        self.rows.push_reserved(Row::new(entry));
    }

    /// Adds a static entry. Asks whether its VLAN was added (9), no entry is for its VID and address (32), and there
    /// are fewer than 64 entries (33).
    #[tactic(auto, using(crate::proofs::Asking::fresh))]
    pub fn add(&mut self, vlans: &Vlans, entry: StaticEntry) -> Result<(), Refusal>
        ensures answer { result ≡ unless (asked_of_static vlans.now self.old entry) tt }
        ensures later { self.new ≡ changed result self.old (self.old ++ entry ∷ []) }
    {
        self.check(vlans, &entry)?;
        self.put(entry);
        Ok(())
    }
}
