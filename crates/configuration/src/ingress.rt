//! How a frame that arrives at a port is placed in a VLAN, and whether the port takes it.
ghost use Rattle.std.specs.Prelude.{◌≡◌, cond, IfOk};
ghost use Rattle.fault.specs.declared.refusal.Refusal.TheVariants.{FrameNotAdmitted};
ghost use Rattle.rules.specs.Ingress.{admitted, classified, of_member};
ghost use Rattle.rules.specs.Settings.{vlan_of};
ghost use Rattle.configuration.specs.Indexed.{Numbered, vlan_behind};

use crate::vlans::Vlans;
use fault::refusal::Refusal;
use frame::parts::Tag;
use rules::ports::PortSettings;
use rules::vlans::Vlan;

/// The VID and the priority of a frame with this tag, or with none, that arrives at a port.
pub fn classify(port: &PortSettings, tag: Option<Tag>) -> (u16, u8)
    ensures { result ≡ classified port.now tag }
{
    match tag {
        None => (port.pvid, port.priority),
        Some(Tag { vid: 0, priority }) => (port.pvid, priority),
        Some(tag) => (tag.vid, tag.priority),
    }
}

fn admits(port: &PortSettings, tag: Option<Tag>) -> bool
    ensures { result ≡ admitted port.now tag }
{
    match tag {
        None => port.admit_all,
        Some(tag) => tag.vid > 0 || port.admit_all,
    }
}

impl Vlans {
    /// The VLAN of a frame that arrives at a port and is classified to a VID. Asks whether the port takes a frame with
    /// such a tag (8), the VLAN was added (9), and the port is a member of it or does not filter (10).
    pub fn ingress(
        &self,
        settings: &PortSettings,
        port: u8,
        tag: Option<Tag>,
        vid: u16,
    ) -> Result<&Vlan, Refusal>
        ensures vlan { vlan_behind result ≡ cond (admitted settings.now tag)
            (of_member settings.now port (vlan_of self.now vid)) (Err FrameNotAdmitted) }
        ensures numbers { IfOk result (λ vlan. Numbered vlan.now) }
    {
        if !admits(settings, tag) {
            return Err(Refusal::FrameNotAdmitted);
        }
        let Some(vlan) = self.get(vid) else {
            return Err(Refusal::VlanNotCreated);
        };
        if settings.ingress_filtering && !vlan.members.contains(port) {
            return Err(Refusal::NotMember);
        }
        Ok(vlan)
    }
}
