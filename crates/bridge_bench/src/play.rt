//! Playing frames through a bridge.
use crate::traffic::{Traffic, Way};
use crate::worth::{of_received, of_sent};
use bridge::bridge::Bridge;
use selector::strict::StrictPriority;
use table::table::Table;

// Sends from a port.
#[inline]
fn send<T: Table + Drop>(
    bridge: &mut Bridge<T, StrictPriority>,
    port: u8,
    memory: &[u8],
    output: &mut [u8],
) -> u64 {
    let sent = bridge.send(port, memory, output);
    of_sent(&sent, output)
}

// Sends from every port but one.
fn send_all_but<T: Table + Drop>(
    bridge: &mut Bridge<T, StrictPriority>,
    ports: u8,
    from: u8,
    memory: &[u8],
    output: &mut [u8],
) -> u64 {
    let mut sum = 0u64;
    for port in 0..ports {
        if port != from {
            sum = sum.wrapping_add(send(bridge, port, memory, output));
        }
    }
    sum
}

// Receives a frame.
#[inline]
fn receive<T: Table + Drop>(
    bridge: &mut Bridge<T, StrictPriority>,
    port: u8,
    frame: &[u8],
    memory: &mut [u8],
) -> u64 {
    let received = bridge.receive(port, frame, memory);
    of_received(&received)
}

// Sends a frame where it goes.
#[inline]
fn send_on<T: Table + Drop>(
    bridge: &mut Bridge<T, StrictPriority>,
    ports: u8,
    flooded: bool,
    way: Way,
    memory: &[u8],
    output: &mut [u8],
) -> u64 {
    if flooded {
        send_all_but(bridge, ports, way.from, memory, output)
    } else {
        send(bridge, way.to, memory, output)
    }
}

// Plays each frame once.
pub fn pass<T: Table + Drop>(
    bridge: &mut Bridge<T, StrictPriority>,
    ports: u8,
    traffic: &Traffic<'_>,
    memory: &mut [u8],
    output: &mut [u8],
) -> u64 {
    let mut sum = 0u64;
    for (number, way) in traffic.ways.iter().enumerate() {
        let received = receive(bridge, way.from, traffic.frame(number), memory);
        let sent = send_on(bridge, ports, traffic.flooded, *way, memory, output);
        sum = sum.wrapping_add(received).wrapping_add(sent);
    }
    sum
}

// Plays each frame so many times.
pub fn passes<T: Table + Drop>(
    bridge: &mut Bridge<T, StrictPriority>,
    ports: u8,
    traffic: &Traffic<'_>,
    passes: u32,
    memory: &mut [u8],
    output: &mut [u8],
) -> u64 {
    let mut sum = 0u64;
    for _ in 0..passes {
        sum = sum.wrapping_add(pass(bridge, ports, traffic, memory, output));
    }
    sum
}
