//! Answers in words.
use fault::mark::Mark;
use fault::refusal::Refusal;
use rules::answers::Received;
use std::fmt;

fn word(mark: Mark) -> &'static str {
    match mark {
        Mark::New => "new",
        Mark::Known => "known",
        Mark::Moved => "moved",
        Mark::Full => "full",
        Mark::Unlearned => "none",
    }
}

/// What an accepted receive answers.
#[derive(Clone, Copy, Debug, Drop)]
pub struct Accepted(pub Received);

impl fmt::Display for Accepted {
    fn fmt<W: fmt::Write>(&self, f: &mut fmt::Formatter<W>) -> fmt::Result {
        let (vid, priority) = self.0.classified;
        let decided = self.0.decided;
        let no_room = self.0.no_room;
        let mark = word(self.0.mark);
        write!(
            f,
            "VID {vid}, priority {priority}, to ports {decided:?}, no room at {no_room:?}, {mark}"
        )
    }
}

/// What a refused call answers.
#[derive(Clone, Copy, Debug, Drop)]
pub struct Refused(pub Refusal);

impl fmt::Display for Refused {
    fn fmt<W: fmt::Write>(&self, f: &mut fmt::Formatter<W>) -> fmt::Result {
        let refusal = self.0;
        let number = refusal.number();
        let layer = refusal.layer().number();
        let place = refusal.place();
        write!(
            f,
            "refused with {number}: {refusal} (layer {layer}, place {place}, "
        )?;
        match refusal.mark() {
            None => write!(f, "no mark)"),
            Some(mark) => write!(f, "mark {})", word(mark)),
        }
    }
}

/// The first bytes of a frame.
#[derive(Clone, Copy, Debug, Drop)]
pub struct Head<'a>(pub &'a [u8]);

impl fmt::Display for Head<'_> {
    fn fmt<W: fmt::Write>(&self, f: &mut fmt::Formatter<W>) -> fmt::Result {
        for byte in self.0.iter().take(16) {
            write!(f, "{byte:02X} ")?;
        }
        write!(f, "..")
    }
}
