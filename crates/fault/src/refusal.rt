//! The closed list of refusals. docs/REFUSALS.md has the question behind each, and the order in which each call asks.
ghost use Rattle.std.specs.Prelude.{◌≡◌, ◌≤◌};
ghost use Rattle.fault.specs.Told.{told};
ghost use Rattle.fault.specs.declared.refusal.TheConstants.{REFUSALS};

use crate::layer::Layer;
use crate::mark::Mark;
use thiserror::Error;

/// How many refusals there are. They are numbered from 1 on without a gap, so it is the last one's number too.
pub const REFUSALS: u8 = 37;

/// What a refused call answers: which question was answered no, with what belongs to that question.
///
/// Each case begins with its number, says what was found wrong, and which calls ask for it. A refused call leaves
/// everything as it was, but for what was learned before 12, 13 and 14. The words are for people; programs go by the
/// number.
#[derive(Clone, Copy, PartialEq, Eq, Debug, Drop, Error)]
pub enum Refusal {
    /// 1: a call of the running bridge came before it was started. Asked first by every such call.
    #[error("the bridge has not been started")]
    NotStarted,
    /// 2: the port is not below the bridge's number of ports, or, at a selector, not below 16. Asked by receive, send,
    /// port event, standing read, a port's settings, and a selector's pick.
    #[error("there is no such port")]
    PortOutOfRange,
    /// 3: the frame memory has fewer bytes than the bridge's queues need. Asked by receive and send.
    #[error("the frame memory is too small")]
    FrameMemoryTooSmall,
    /// 4: the frame has fewer than 60 bytes. Asked by reading, by reading and writing again, and by receive. The field
    /// is the frame's length in bytes.
    #[error("the frame is too short")]
    FrameTooShort(usize),
    /// 5: the frame has more than 1,514 bytes, or more than 1,518 where it is tagged. Asked as 4 is, after it. The
    /// field is the frame's length in bytes.
    #[error("the frame is too long")]
    FrameTooLong(usize),
    /// 6: the VID in the tag is 4,095. Asked as 4 is, after 5.
    #[error("the VID is the reserved one")]
    ReservedVid,
    /// 7: the CFI bit in the tag is 1. Asked as 4 is, after 6.
    #[error("the CFI bit is set")]
    CfiSet,
    /// 8: the port admits only frames whose tag names a VLAN, and this frame has no tag or VID 0 in it. Asked by
    /// receive.
    #[error("the port admits only frames with a VID in their tag")]
    FrameNotAdmitted,
    /// 9: the VLAN is not created. Asked by receive, of the frame's VLAN, and by setting up a static entry, of the
    /// entry's VID.
    #[error("the VLAN is not created")]
    VlanNotCreated,
    /// 10: the port filters at ingress and is no member of the frame's VLAN. Asked by receive.
    #[error("the port is no member of the VLAN")]
    NotMember,
    /// 11: the arrival port is neither Learning nor Forwarding. Asked by receive, just before learning.
    #[error("the port is neither Learning nor Forwarding")]
    PortNotLearning,
    /// 12: the arrival port is not Forwarding. Asked by receive, just after learning. The field says what came of that.
    #[error("the port is not Forwarding")]
    PortNotForwarding(Mark),
    /// 13: the destination is one of 01-80-C2-00-00-00 to 01-80-C2-00-00-0F. Asked by receive, after learning. The
    /// field says what came of that.
    #[error("the destination is reserved")]
    ReservedDestination(Mark),
    /// 14: no port is left to send the frame to. Asked by receive, after learning. The field says what came of that.
    #[error("no port is left to send the frame to")]
    NoEgressPort(Mark),
    /// 15: the output memory has fewer than 1,518 bytes. Asked by send.
    #[error("the output memory is too small")]
    OutputMemoryTooSmall,
    /// 16: no frame stands at the port. Asked by send, last.
    #[error("no frame stands at the port")]
    NoFrameStands,
    /// 17: the new time lies before the clock. Asked by advancing the clock.
    #[error("the time lies before the clock")]
    TimeBeforeClock,
    /// 18: the new time is 1,099,511,627,776 milliseconds or more. Asked by advancing the clock.
    #[error("the time is too large")]
    TimeTooLarge,
    /// 19: the event's number is not 1 to 5. Asked by a port event.
    #[error("there is no such port event")]
    UnknownEvent,
    /// 20: the port's state does not take this event. Asked by a port event.
    #[error("the port's state does not take this event")]
    NoTransition,
    /// 21: the filtering database's number is not 1 to 16. Asked by find, learn and flush of a table, flush and find of
    /// a bridge, and setting up a VLAN.
    #[error("there is no such filtering database")]
    FidOutOfRange,
    /// 22: the bridge has been started. Asked first by every call that sets up, and by start.
    #[error("the bridge has been started already")]
    AlreadyStarted,
    /// 23: the number of ports is not 2 to 16. Asked by the check before a bridge is made.
    #[error("the number of ports is out of range")]
    PortCountOutOfRange,
    /// 24: the number of traffic classes is not 1 to 8. Asked by the check before a bridge is made.
    #[error("the number of traffic classes is out of range")]
    ClassCountOutOfRange,
    /// 25: the share, the most entries of one database, is not 1 to 256. Asked by the check before a table is made.
    #[error("the share of a database is out of range")]
    ShareOutOfRange,
    /// 26: the number of frames that a queue holds is not 1 to 64. Asked by the check before a bridge is made.
    #[error("the depth of a queue is out of range")]
    DepthOutOfRange,
    /// 27: the memory has fewer records than a table of this share needs. Asked by the check before a table is made.
    #[error("the table's memory is too small")]
    TableMemoryTooSmall,
    /// 28: the VID is not 1 to 4,094. Asked by a port's settings, of the port's own VID, and by setting up a VLAN.
    #[error("the VID is out of range")]
    VidOutOfRange,
    /// 29: the default priority is above 7. Asked by a port's settings.
    #[error("the priority is out of range")]
    PriorityOutOfRange,
    /// 30: a member is no port of the bridge. Asked by setting up a VLAN.
    #[error("a member is no port of the bridge")]
    MemberOutOfRange,
    /// 31: a port of the untagged set is no member. Asked by setting up a VLAN.
    #[error("an untagged port is no member")]
    UntaggedNotMember,
    /// 32: there is a VLAN with this VID, or a static entry with this VID and address. Asked by setting up the one or
    /// the other.
    #[error("it is there already")]
    AlreadyThere,
    /// 33: there are 64 VLANs, or 64 static entries, already. Asked by setting up one more.
    #[error("there is no room for one more")]
    TooMany,
    /// 34: the ageing time is not 10 to 1,000,000 seconds. Asked by setting it up.
    #[error("the ageing time is out of range")]
    AgeingOutOfRange,
    /// 35: the tag's priority is above 7, or its VID above 4,094. Asked by writing.
    #[error("the tag's priority or VID is out of range")]
    TagOutOfRange,
    /// 36: the frame would have fewer than 56 bytes, or more than 1,514, or 1,518 where it is tagged. Asked by writing.
    #[error("the frame's length is out of range")]
    LengthOutOfRange,
    /// 37: the frame does not fit into the memory from the given position, or its cell does not lie in the memory.
    /// Asked by writing, and by reading and writing again.
    #[error("the frame does not fit from that position")]
    DoesNotFit,
}

impl Refusal {
    /// The number by which callers know the refusal, 1 to [`REFUSALS`]; 0 is none.
    // No `From`: the name says which number it is.
    pub fn number(self) -> u8
        ensures number { result ≡ (told self).number }
        ensures least { 1 ≤ result }
        ensures most { result ≤ REFUSALS }
    {
        match self {
            Refusal::NotStarted => 1,
            Refusal::PortOutOfRange => 2,
            Refusal::FrameMemoryTooSmall => 3,
            Refusal::FrameTooShort(_) => 4,
            Refusal::FrameTooLong(_) => 5,
            Refusal::ReservedVid => 6,
            Refusal::CfiSet => 7,
            Refusal::FrameNotAdmitted => 8,
            Refusal::VlanNotCreated => 9,
            Refusal::NotMember => 10,
            Refusal::PortNotLearning => 11,
            Refusal::PortNotForwarding(_) => 12,
            Refusal::ReservedDestination(_) => 13,
            Refusal::NoEgressPort(_) => 14,
            Refusal::OutputMemoryTooSmall => 15,
            Refusal::NoFrameStands => 16,
            Refusal::TimeBeforeClock => 17,
            Refusal::TimeTooLarge => 18,
            Refusal::UnknownEvent => 19,
            Refusal::NoTransition => 20,
            Refusal::FidOutOfRange => 21,
            Refusal::AlreadyStarted => 22,
            Refusal::PortCountOutOfRange => 23,
            Refusal::ClassCountOutOfRange => 24,
            Refusal::ShareOutOfRange => 25,
            Refusal::DepthOutOfRange => 26,
            Refusal::TableMemoryTooSmall => 27,
            Refusal::VidOutOfRange => 28,
            Refusal::PriorityOutOfRange => 29,
            Refusal::MemberOutOfRange => 30,
            Refusal::UntaggedNotMember => 31,
            Refusal::AlreadyThere => 32,
            Refusal::TooMany => 33,
            Refusal::AgeingOutOfRange => 34,
            Refusal::TagOutOfRange => 35,
            Refusal::LengthOutOfRange => 36,
            Refusal::DoesNotFit => REFUSALS,
        }
    }

    /// The layer that refused.
    // By the number, as the rule says it: by case this would be a list of eleven.
    pub fn layer(self) -> Layer
        ensures { result ≡ (told self).layer }
    {
        match self.number() {
            4..=7 => Layer::Frame,
            8..=10 => Layer::Ingress,
            11..=14 => Layer::Relay,
            _ => Layer::Elsewhere,
        }
    }

    /// The place in the frame that the refusal is about, in bytes: the frame's length for 4 and 5, and 14, the place of
    /// the tag's numbers, for 6 and 7. All others are about no place, and give 0.
    pub fn place(self) -> usize
        ensures { result ≡ (told self).place }
    {
        match self {
            Refusal::FrameTooShort(length) | Refusal::FrameTooLong(length) => length,
            Refusal::ReservedVid | Refusal::CfiSet => 14,
            _ => 0,
        }
    }

    /// What was learned all the same, for 12, 13 and 14, which come after learning; `None` for all others.
    pub fn mark(self) -> Option<Mark>
        ensures { result ≡ (told self).mark }
    {
        match self {
            Refusal::PortNotForwarding(mark)
            | Refusal::ReservedDestination(mark)
            | Refusal::NoEgressPort(mark) => Some(mark),
            _ => None,
        }
    }
}
