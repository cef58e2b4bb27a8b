//! The benchmark's call for C and Rust. Kinds of tables: 0 searched, 1 hashed, 2 and 3 a recent list over these.
ghost use Rattle.std.specs.Prelude.{◌≡◌, ◌<◌, None};
ghost use Rattle.rules.specs.Setup.{make_asked};

use crate::kinds::{Work, by_kind};
use crate::traffic::{Traffic, Way};
use bridge::check::check;
use std::alloc::Global;

/// The bytes of each frame from which a station is heard.
pub const HELLO: usize = 60;

/// Makes a bridge of so many ports, traffic classes and queue places, with a table of the largest share and strict
/// priority. It has two VLANs of all ports, 10 and 20, each with a filtering database of its own; even ports send their
/// frames untagged. Port n has PVID 10 and priority n modulo 8, admits all frames and filters; all ports forward. The
/// hellos are flooded once. Then the frames, each of so many bytes, are received so many times over, and each is sent
/// right after its receive: flooded, from every port but the one that it arrives at, or else from the port that its way
/// names.
///
/// Answers a checksum of all answers: VID, priority and mark of each receive, and length, VID, class and the source's
/// last byte of each send. It is 0, and nothing is played, for a kind or a shape that there is not, and where memory is
/// wanting. Memory is allocated before the first frame.
#[unsafe(no_mangle)]
pub extern "C" fn bridge_bench_play(
    alloc: Global,
    kind: u32,
    ports: u8,
    classes: u8,
    depth: u8,
    hellos: &[u8],
    hello_ways: &[Way],
    frames: &[u8],
    length: usize,
    ways: &[Way],
    flooded: bool,
    memory: &mut [u8],
    output: &mut [u8],
    passes: u32,
) -> u64 {
    let Ok(checked) = check(alloc, ports, classes, depth) else {
        return 0;
    };
    let work = Work {
        ports,
        hellos: Traffic {
            frames: hellos,
            length: HELLO,
            ways: hello_ways,
            flooded: true,
        },
        traffic: Traffic {
            frames,
            length,
            ways,
            flooded,
        },
        passes,
    };
    by_kind(kind, checked, &work, memory, output)
}
