//! Making the calls of a table of cases, and looking at what each answers and leaves.
use crate::bridges::MEMORY;
use crate::calls::{Answer, Call, received, refused, sent};
use crate::frames::{Frame, UNTOUCHED};
use bridge::bridge::Bridge;
use selector::selector::Selector;
use std::process::Abort;
use std::test::Fail;
use table::table::Table;

// More than the longest frame needs.
const OUTPUT: usize = 1600;

// A refused receive leaves every byte of the frame memory as it was.
fn receive<T: Table + Drop, S: Selector + Drop>(
    rt: &(impl Abort + AllocGlobal),
    bridge: &mut Bridge<T, S>,
    memory: &mut [u8; MEMORY],
    port: u8,
    frame: Frame,
) -> Result<Answer, Fail> {
    let bytes = frame.bytes(rt.alloc())?;
    let before = *memory;
    match bridge.receive(port, bytes.as_slice(), memory) {
        Ok(answer) => Ok(received(answer)),
        Err(refusal) => {
            assert!(rt;
                *memory == before,
                "the frame memory after a receive at port {port}: {refusal:?}"
            );
            Ok(refused(refusal))
        }
    }
}

// An output memory with the frame at its front, if there is one.
fn output_with(
    rt: &(impl Abort + AllocGlobal),
    frame: Option<Frame>,
) -> Result<[u8; OUTPUT], Fail> {
    let mut output = [UNTOUCHED; OUTPUT];
    if let Some(frame) = frame {
        let bytes = frame.bytes(rt.alloc())?;
        let length = bytes.len();
        assert!(rt; length <= OUTPUT);
        output[..length].copy_from_slice(bytes.as_slice());
    }
    Ok(output)
}

fn send<T: Table + Drop, S: Selector + Drop>(
    rt: &(impl Abort + AllocGlobal),
    bridge: &mut Bridge<T, S>,
    memory: &[u8; MEMORY],
    port: u8,
    frame: Option<Frame>,
) -> Result<Answer, Fail> {
    let mut output = output_with(rt, None)?;
    let answer = match bridge.send(port, memory, &mut output) {
        Ok(answer) => sent(answer),
        Err(refusal) => refused(refusal),
    };
    assert!(rt;
        output == output_with(rt, frame)?,
        "the output memory after a send at port {port}: {answer:?}"
    );
    Ok(answer)
}

// Makes a call.
fn ask<T: Table + Drop, S: Selector + Drop>(
    rt: &(impl Abort + AllocGlobal),
    bridge: &mut Bridge<T, S>,
    memory: &mut [u8; MEMORY],
    call: Call,
) -> Result<Answer, Fail> {
    match call {
        Call::Receive(port, frame) => receive(rt, bridge, memory, port, frame),
        Call::Send(port, frame) => send(rt, bridge, memory, port, frame),
        Call::Advance(time) => Ok(match bridge.advance(time) {
            Ok(()) => Answer::Advanced,
            Err(refusal) => refused(refusal),
        }),
        Call::PortEvent(port, event) => Ok(match bridge.port_event(port, event) {
            Ok(gone) => Answer::Emptied(gone),
            Err(refusal) => refused(refusal),
        }),
    }
}

// Makes each call, and checks its answer.
pub fn play<T: Table + Drop, S: Selector + Drop>(
    rt: &(impl Abort + AllocGlobal),
    bridge: &mut Bridge<T, S>,
    memory: &mut [u8; MEMORY],
    cases: &[(Call, Answer)],
) -> Result<(), Fail> {
    for (i, (call, expected)) in cases.iter().enumerate() {
        let answer = ask(rt, bridge, memory, *call)?;
        assert_eq!(rt; answer, *expected, "case {i}, counted from 0");
    }
    Ok(())
}
