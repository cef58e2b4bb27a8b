//! Says of each line of hexadecimal text which frame it is, and how many of each kind there were.
//! Reads the file that its first argument names, or standard input where there is none.
#![tactic(auto)]

mod line;
mod outcome;
mod show;
mod summary;

use std::io::{BufRead, BufReader, Read};
use std::{env, fs, io};
use summary::Summary;

fn inspect<R: Read + Drop>(rt: &HostRuntime, input: BufReader<R>) -> io::Result<Summary> {
    let mut summary = Summary::new();
    // Lines are taken as bytes, so that one that is no text is malformed like any other.
    for (index, text) in input.split(rt.alloc(), b'\n').enumerate() {
        let number = index.saturating_add(1);
        if let Some(outcome) = show::line(rt, number, text?.as_slice())? {
            summary.count(outcome);
        }
    }
    Ok(summary)
}

fn run(rt: &HostRuntime) -> anyhow::Result<()> {
    let summary = match env::args(rt)?.nth(1) {
        Some(path) => inspect(
            rt,
            BufReader::new(rt.alloc(), fs::open(rt, path.as_str())?)?,
        )?,
        None => inspect(rt, BufReader::new(rt.alloc(), rt.stdin())?)?,
    };
    print!(rt; "{summary}")?;
    Ok(())
}

fn main(rt: HostRuntime) -> anyhow::Result<()> {
    run(&rt)
}
