//! The worked examples, as calls.
use crate::frames::Form::{self, Tagged, Untagged};
use crate::frames::Station::{self, A, B};

/// What is done in an example. The fields stand side by side, for people to read.
#[derive(Clone, Copy, PartialEq, Eq, Debug, Drop)]
pub enum Step {
    /// At a port, numbered from 0, a frame is received from one station to another.
    Receive(u8, Station, Station, Form),
    /// A port sends.
    Send(u8),
    /// The clock advances to a time in milliseconds.
    Advance(u64),
    /// A frame from one station to another is read as one number.
    Read(Station, Station, Form),
}

use Step::{Advance, Read, Receive, Send};

/// The examples in order, each with its steps. Where an address was learned shows in where a later frame to it goes.
pub const WORKED: [&[Step]; 11] = [
    &[Receive(0, A, B, Untagged), Send(2)],
    &[Receive(0, A, B, Untagged), Receive(1, B, A, Untagged)],
    &[
        Receive(0, A, B, Untagged),
        Receive(2, A, B, Tagged(0x0014)),
        Receive(1, B, A, Untagged),
        Receive(1, B, A, Tagged(0x0014)),
    ],
    &[Receive(0, A, A, Untagged), Receive(1, B, A, Untagged)],
    &[
        Receive(0, A, B, Tagged(0xA00A)),
        Send(1),
        Read(A, B, Tagged(0xA00A)),
    ],
    &[Receive(0, A, B, Tagged(0xB00A)), Read(A, B, Tagged(0xB00A))],
    &[
        Receive(0, A, B, Tagged(0x0FFF)),
        Receive(0, A, B, Tagged(0x0FFE)),
    ],
    &[Receive(0, A, B, Tagged(0x6000))],
    &[Receive(2, A, B, Tagged(0x000A)), Send(0)],
    &[
        Receive(0, A, B, Untagged),
        Advance(299_999),
        Receive(1, B, A, Untagged),
        Advance(300_000),
        Receive(1, B, A, Untagged),
    ],
    &[Receive(0, A, B, Untagged), Receive(0, A, B, Untagged)],
];
