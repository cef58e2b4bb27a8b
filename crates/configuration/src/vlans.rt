//! The VLANs of a bridge.
ghost use Rattle.std.specs.Prelude.{◌≡◌, [], ◌∷◌, ◌++◌, IfOk, IfSome};
ghost use Rattle.std.specs.Option.{option_copied};
ghost use Rattle.fault.specs.Asked.{changed, unless};
ghost use Rattle.rules.specs.Ports.{sixteen};
ghost use Rattle.rules.specs.Settings.{is_of, vlan_of};
ghost use Rattle.rules.specs.Setup.{all_below, all_in, asked_of_vlan, in_range};
ghost use Rattle.configuration.specs.Indexed.{Addable, Numbered};

use fault::refusal::Refusal;
use rules::shape::Shape;
use rules::vlans::Vlan;
use sets::number_set::PortSet;
use std::alloc::{AllocError, Global};
use std::marker::Model;
use table::fid::Fid;

/// The most VLANs that a bridge has.
pub const MOST_VLANS: usize = 64;

// From 0 to the last that a VLAN can have.
const VIDS: usize = 4095;

/// The VLANs of a bridge, at most 64, in the order in which they were added. A VLAN is found in constant time.
#[derive(Drop)]
pub struct Vlans {
    // For each VID one more than the place of its VLAN among the records, or 0.
    index: Vec<u8>,
    records: Vec<Vlan>,
}

impl Model for Vlans {
    ghost use Rattle.std.specs.Prelude.{◌≤◌, List, vec_capacity};
    ghost use Rattle.rules.specs.declared.vlans.Vlan.{Vlan};
    ghost use Rattle.configuration.specs.Indexed.{Indexed};

    ghost Value = { List Vlan };

    ghost view = { λ v. v.records.items };

    ghost invariant = { λ v. Indexed v.index.items v.records.items × (64 ≤ vec_capacity v.records) };
}

fn is_vid(vid: u16) -> bool
    ensures { result ≡ in_range 1 4094 vid }
{
    (1..=4094).contains(&vid)
}

fn lies_below(set: &PortSet, number: u8) -> bool
    ensures { result ≡ all_below set.now number sixteen }
{
    for port in set.iter() {
        if port >= number {
            return false;
        }
    }
    true
}

#[tactic(auto, using(crate::proofs::Members::each_in))]
fn lies_in(set: &PortSet, other: &PortSet) -> bool
    ensures { result ≡ all_in set.now other.now sixteen }
{
    for port in set.iter() {
        if !other.contains(port) {
            return false;
        }
    }
    true
}

impl Vlans {
    /// No VLAN yet, with all the memory that 64 of them need.
    pub fn new(alloc: Global) -> Result<Vlans, AllocError>
        ensures { IfOk result (λ vlans. vlans ≡ []) }
    {
        Ok(Vlans {
            index: vec![in alloc; 0; VIDS]?,
            records: Vec::with_capacity(alloc, MOST_VLANS)?,
        })
    }

    /// The VLAN of a VID, if it was added.
    pub fn get(&self, vid: u16) -> Option<&Vlan>
        ensures vlan { option_copied result ≡ vlan_of self.now vid }
        ensures numbers { IfSome result (λ vlan. Numbered vlan.now) }
    {
        let place = *self.index.get(usize::from(vid))?;
        let at = usize::from(place).checked_sub(1)?;
        Some(&self.records[at])
    }

    // Whether the VLAN was added, and learns in this filtering database.
    pub(crate) fn learns_in(&self, vid: u16, fid: u8) -> bool
        ensures { result ≡ is_of fid (vlan_of self.now vid) }
    {
        match self.get(vid) {
            None => false,
            Some(vlan) => vlan.fid == fid,
        }
    }

    fn check(&self, shape: Shape, vlan: &Vlan) -> Result<(), Refusal>
        ensures { result ≡ unless (asked_of_vlan shape.ports self.now vlan.now) tt }
    {
        if !is_vid(vlan.vid) {
            return Err(Refusal::VidOutOfRange);
        }
        Fid::try_from(vlan.fid)?;
        if !lies_below(&vlan.members, shape.ports()) {
            return Err(Refusal::MemberOutOfRange);
        }
        if !lies_in(&vlan.untagged, &vlan.members) {
            return Err(Refusal::UntaggedNotMember);
        }
        if self.get(vlan.vid).is_some() {
            return Err(Refusal::AlreadyThere);
        }
        if self.records.len() >= MOST_VLANS {
            return Err(Refusal::TooMany);
        }
        Ok(())
    }

    fn put(&mut self, vlan: Vlan)
        requires { Addable self.old vlan }
        ensures { self.new ≡ self.old ++ vlan ∷ [] }
    {
        let vid = usize::from(vlan.vid);
        self.records.push_reserved(vlan);
        self.index[vid] = self.records.len() as u8;
    }

    /// Adds a VLAN. Asks whether its VID is 1 to 4,094 (28), its FID is 1 to 16 (21), its members are ports of the
    /// bridge (30), its untagged set lies within its members (31), no VLAN has its VID (32), and there are fewer than
    /// 64 VLANs (33).
    #[tactic(auto, using(crate::proofs::Asking::addable))]
    pub fn add(&mut self, shape: Shape, vlan: Vlan) -> Result<(), Refusal>
        ensures answer { result ≡ unless (asked_of_vlan shape.ports self.old vlan) tt }
        ensures later { self.new ≡ changed result self.old (self.old ++ vlan ∷ []) }
    {
        self.check(shape, &vlan)?;
        self.put(vlan);
        Ok(())
    }
}
