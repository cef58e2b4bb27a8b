//! The calls of a running bridge and what they answer, as data.
use crate::frames::Frame;
use fault::mark::Mark;
use fault::refusal::Refusal;
use rules::answers::{Received, Sent};
use sets::number_set::PortSet;

// Enums whose numbers stand side by side, for people to read in tables of cases.
#[derive(Clone, Copy, PartialEq, Eq, Debug, Drop)]
pub enum Call {
    // At a port.
    Receive(u8, Frame),
    // From a port, with the frame that is then in the output memory. Where none is, every byte there is as it was.
    Send(u8, Option<Frame>),
    // To a time.
    Advance(u64),
    // A port, and the event's number.
    PortEvent(u8, u8),
}

// A set of ports is a word, whose bit k stands for port k.
#[derive(Clone, Copy, PartialEq, Eq, Debug, Drop)]
pub enum Answer {
    // VID, priority, decided set, no-room set, and mark.
    Received(u16, u8, u16, u16, Mark),
    // Length, VID and class.
    Sent(usize, u16, u8),
    Advanced,
    // How many frames were dropped.
    Emptied(usize),
    // Number, layer, place, and mark.
    Refused(u8, u8, usize, Option<Mark>),
}

fn word(set: &PortSet) -> u16 {
    let mut word = 0;
    for port in 0..16u8 {
        if set.contains(port) {
            word |= 1 << port;
        }
    }
    word
}

pub fn received(received: Received) -> Answer {
    let (vid, priority) = received.classified;
    Answer::Received(
        vid,
        priority,
        word(&received.decided),
        word(&received.no_room),
        received.mark,
    )
}

pub fn sent(sent: Sent) -> Answer {
    Answer::Sent(sent.length, sent.vid, sent.class)
}

// By the numbers, since these are what callers know.
pub fn refused(refusal: Refusal) -> Answer {
    Answer::Refused(
        refusal.number(),
        refusal.layer().number(),
        refusal.place(),
        refusal.mark(),
    )
}
