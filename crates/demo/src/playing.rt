//! Playing an example.
use crate::frames::Frame;
use crate::making::{ExampleBridge, MEMORY, RECORDS, example_bridge};
use crate::words::{Accepted, Head, Refused};
use crate::worked::Step;
use frame::c_api::bridge_read_frame;
use frame::write::CELL;
use std::io;
use table::entry::Entry;

fn receive(
    rt: &HostRuntime,
    bridge: &mut ExampleBridge<'_>,
    memory: &mut [u8],
    port: u8,
    frame: Frame,
) -> io::Result<()> {
    print!(rt; "{frame} at port {port}, {}: ", frame.form)?;
    match bridge.receive(port, &frame.bytes(), memory) {
        Ok(received) => println!(rt; "{}", Accepted(received)),
        Err(refusal) => println!(rt; "{}", Refused(refusal)),
    }
}

fn send(
    rt: &HostRuntime,
    bridge: &mut ExampleBridge<'_>,
    memory: &[u8],
    port: u8,
) -> io::Result<()> {
    let mut output = [0; CELL];
    print!(rt; "port {port} sends: ")?;
    match bridge.send(port, memory, &mut output) {
        Ok(sent) => println!(rt;
            "{} bytes, VID {}, class {}: {}",
            sent.length,
            sent.vid,
            sent.class,
            Head(&output)
        ),
        Err(refusal) => println!(rt; "{}", Refused(refusal)),
    }
}

fn advance(rt: &HostRuntime, bridge: &mut ExampleBridge<'_>, time: u64) -> io::Result<()> {
    print!(rt; "advance to {time}: ")?;
    match bridge.advance(time) {
        Ok(()) => println!(rt; "done"),
        Err(refusal) => println!(rt; "{}", Refused(refusal)),
    }
}

fn read(rt: &HostRuntime, frame: Frame) -> io::Result<()> {
    let number = bridge_read_frame(&frame.bytes());
    println!(rt; "{frame}, {}, read as one number: {number}", frame.form)
}

/// Plays the steps of an example on a bridge of its own, and prints a line for each.
pub fn play(rt: &HostRuntime, number: usize, steps: &[Step]) -> anyhow::Result<()> {
    let mut records = [Entry::free(); RECORDS];
    let mut bridge = example_bridge(rt.alloc(), &mut records)?;
    let mut memory = [0; MEMORY];
    for (place, step) in steps.iter().enumerate() {
        if place == 0 {
            print!(rt; "{number:>2}. ")?;
        } else {
            print!(rt; "    ")?;
        }
        match *step {
            Step::Receive(port, from, to, form) => {
                let frame = Frame { from, to, form };
                receive(rt, &mut bridge, &mut memory, port, frame)?;
            }
            Step::Send(port) => send(rt, &mut bridge, &memory, port)?,
            Step::Advance(time) => advance(rt, &mut bridge, time)?,
            Step::Read(from, to, form) => read(rt, Frame { from, to, form })?,
        }
    }
    Ok(())
}
