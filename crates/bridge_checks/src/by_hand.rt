//! One run of calls with what each must answer, worked out from the rules.
use crate::bridges::{K, MEMORY, hashed, opened, searched};
use crate::calls::Answer::{self, Advanced, Emptied, Received, Refused, Sent};
use crate::calls::Call::{self, Advance, PortEvent, Receive, Send};
use crate::frames::{Frame, UNTOUCHED};
use crate::playing::play;
use fault::mark::Mark::{Full, Known, New};
use recent::recent::Recent;
use selector::selector::Selector;
use selector::strict::StrictPriority;
use selector::turns::TakingTurns;
use std::process::Abort;
use std::test::Fail;
use table::entry::Entry;
use table::table::Table;

const A: [u8; 6] = [2, 0, 0, 0, 0, 0x0A];

const B: [u8; 6] = [2, 0, 0, 0, 0, 0x0B];

// The last reserved destination, and the first address after the reserved ones.
const RESERVED: [u8; 6] = [1, 0x80, 0xC2, 0, 0, 0x0F];

const NOT_RESERVED: [u8; 6] = [1, 0x80, 0xC2, 0, 0, 0x10];

const CASES: [(Call, Answer); 47] = [
    // The shortest and the longest frames.
    (Receive(0, Frame(A, B, None, 59)), Refused(4, 1, 59, None)),
    (
        Receive(0, Frame(A, B, None, 1515)),
        Refused(5, 1, 1515, None),
    ),
    (
        Receive(0, Frame(A, B, Some(10), 1519)),
        Refused(5, 1, 1519, None),
    ),
    (
        Receive(0, Frame(A, B, None, 1514)),
        Received(10, 0, 0b110, 0, New),
    ),
    (Send(1, Some(Frame(A, B, None, 1514))), Sent(1514, 10, 0)),
    (
        Send(2, Some(Frame(A, B, Some(10), 1518))),
        Sent(1518, 10, 0),
    ),
    (
        Receive(0, Frame(A, B, Some(10), 1518)),
        Received(10, 0, 0b110, 0, Known),
    ),
    (Send(1, Some(Frame(A, B, None, 1514))), Sent(1514, 10, 0)),
    (
        Send(2, Some(Frame(A, B, Some(10), 1518))),
        Sent(1518, 10, 0),
    ),
    (
        Receive(0, Frame(A, B, Some(20), 1518)),
        Received(20, 0, 0b110, 0, New),
    ),
    (
        Send(1, Some(Frame(A, B, Some(20), 1518))),
        Sent(1518, 20, 0),
    ),
    (
        Send(2, Some(Frame(A, B, Some(20), 1518))),
        Sent(1518, 20, 0),
    ),
    (Send(2, None), Refused(16, 4, 0, None)),
    // Destinations. The last frame to K finds no room at port 1.
    (
        Receive(0, Frame(A, RESERVED, None, 60)),
        Refused(13, 3, 0, Some(Known)),
    ),
    (
        Receive(0, Frame(A, NOT_RESERVED, None, 60)),
        Received(10, 0, 0b110, 0, Known),
    ),
    (
        Send(1, Some(Frame(A, NOT_RESERVED, None, 60))),
        Sent(60, 10, 0),
    ),
    (
        Send(2, Some(Frame(A, NOT_RESERVED, Some(10), 64))),
        Sent(64, 10, 0),
    ),
    (
        Receive(0, Frame(A, A, None, 60)),
        Refused(14, 3, 0, Some(Known)),
    ),
    (
        Receive(0, Frame(A, K, None, 60)),
        Received(10, 0, 0b010, 0, Known),
    ),
    (
        Receive(0, Frame(A, K, None, 60)),
        Received(10, 0, 0b010, 0b010, Known),
    ),
    (Send(1, Some(Frame(A, K, None, 60))), Sent(60, 10, 0)),
    // Other refusals.
    (Receive(3, Frame(A, B, None, 60)), Refused(2, 4, 0, None)),
    (
        Receive(0, Frame(A, B, Some(0x0FFF), 60)),
        Refused(6, 1, 14, None),
    ),
    (
        Receive(0, Frame(A, B, Some(0x100A), 60)),
        Refused(7, 1, 14, None),
    ),
    (
        Receive(0, Frame(A, B, Some(30), 60)),
        Refused(9, 2, 0, None),
    ),
    // A was heard at 0, and is gone 10 seconds later.
    (Advance(9_999), Advanced),
    (
        Receive(1, Frame(B, A, None, 60)),
        Received(10, 0, 0b001, 0, Full),
    ),
    (Send(0, Some(Frame(B, A, None, 60))), Sent(60, 10, 0)),
    (Advance(9_998), Refused(17, 4, 0, None)),
    (Advance(10_000), Advanced),
    (
        Receive(1, Frame(B, A, None, 60)),
        Received(10, 0, 0b101, 0, New),
    ),
    (Send(0, Some(Frame(B, A, None, 60))), Sent(60, 10, 0)),
    (Send(2, Some(Frame(B, A, Some(10), 64))), Sent(64, 10, 0)),
    // A port that leaves Forwarding drops what stands there. On its way back it first takes nothing, and then learns.
    (
        Receive(0, Frame(A, B, None, 60)),
        Received(10, 0, 0b010, 0, Full),
    ),
    (PortEvent(1, 4), Emptied(1)),
    (Send(1, None), Refused(16, 4, 0, None)),
    (Receive(1, Frame(B, A, None, 60)), Refused(11, 3, 0, None)),
    (PortEvent(1, 3), Emptied(0)),
    (PortEvent(1, 5), Emptied(0)),
    (
        Receive(1, Frame(B, A, None, 60)),
        Refused(12, 3, 0, Some(Known)),
    ),
    (PortEvent(1, 5), Emptied(0)),
    (PortEvent(1, 1), Refused(20, 4, 0, None)),
    // Priority 5 is class 1. Port 1 sends a frame of class 1, and then one frame of each class stands there.
    (
        Receive(0, Frame(A, B, Some(0xA00A), 60)),
        Received(10, 5, 0b010, 0, Full),
    ),
    (Send(1, Some(Frame(A, B, None, 56))), Sent(56, 10, 1)),
    (
        Receive(0, Frame(A, B, None, 60)),
        Received(10, 0, 0b010, 0, Full),
    ),
    (
        Receive(0, Frame(A, B, Some(0xA00A), 60)),
        Received(10, 5, 0b010, 0, Full),
    ),
    (
        Receive(0, Frame(A, B, Some(0xA00A), 60)),
        Received(10, 5, 0b010, 0b010, Full),
    ),
];

const STRICTLY: [(Call, Answer); 3] = [
    (Send(1, Some(Frame(A, B, None, 56))), Sent(56, 10, 1)),
    (Send(1, Some(Frame(A, B, None, 60))), Sent(60, 10, 0)),
    (Send(1, None), Refused(16, 4, 0, None)),
];

const BY_TURNS: [(Call, Answer); 3] = [
    (Send(1, Some(Frame(A, B, None, 60))), Sent(60, 10, 0)),
    (Send(1, Some(Frame(A, B, None, 56))), Sent(56, 10, 1)),
    (Send(1, None), Refused(16, 4, 0, None)),
];

// The last cases are those that the selector decides.
fn play_by_hand<T: Table + Drop, S: Selector + Drop>(
    rt: &(impl Abort + AllocGlobal),
    table: T,
    selector: S,
    last: &[(Call, Answer)],
) -> Result<(), Fail> {
    let mut bridge = opened(rt.alloc(), table, selector)?;
    let mut memory = [UNTOUCHED; MEMORY];
    play(rt, &mut bridge, &mut memory, &CASES)?;
    play(rt, &mut bridge, &mut memory, last)
}

// A test for each pair of table and selector, whose name says which failed.
#[test]
fn a_hashed_table_and_strict_priority(rt: HostRuntime) -> Result<(), Fail> {
    let mut records = [Entry::free(); 32];
    play_by_hand(&rt, hashed(&mut records)?, StrictPriority, &STRICTLY)
}

#[test]
fn a_searched_table_and_taking_turns(rt: HostRuntime) -> Result<(), Fail> {
    let mut records = [Entry::free(); 16];
    play_by_hand(&rt, searched(&mut records)?, TakingTurns::new(), &BY_TURNS)
}

#[test]
fn a_recent_list_over_a_hashed_table_and_strict_priority(rt: HostRuntime) -> Result<(), Fail> {
    let mut records = [Entry::free(); 32];
    let table = Recent::new(hashed(&mut records)?);
    play_by_hand(&rt, table, StrictPriority, &STRICTLY)
}
