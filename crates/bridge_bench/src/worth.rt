//! What answers count in a checksum.
use fault::mark::Mark;
use fault::refusal::Refusal;
use rules::answers::{Received, Sent};

fn of_mark(mark: Mark) -> u8 {
    match mark {
        Mark::New => 1,
        Mark::Known => 2,
        Mark::Moved => 3,
        Mark::Full => 4,
        Mark::Unlearned => 5,
    }
}

// VID, priority and mark; nothing of a frame that is refused.
#[inline]
pub fn of_received(answer: &Result<Received, Refusal>) -> u64 {
    match answer {
        Ok(received) => {
            let (vid, priority) = received.classified;
            u64::from(vid) + u64::from(priority) + u64::from(of_mark(received.mark))
        }
        Err(_) => 0,
    }
}

// Length, VID, class, and a byte of the frame; nothing where none is sent.
#[inline]
pub fn of_sent(answer: &Result<Sent, Refusal>, output: &[u8]) -> u64 {
    match answer {
        Ok(sent) => {
            let small = u64::from(sent.vid)
                + u64::from(sent.class)
                + u64::from(byte_at(output, 11));
            (sent.length as u64).wrapping_add(small)
        }
        Err(_) => 0,
    }
}

#[inline]
fn byte_at(bytes: &[u8], place: usize) -> u8 {
    match bytes.get(place) {
        Some(byte) => *byte,
        None => 0,
    }
}
