//! Plays the worked examples, each on an example bridge of its own, and prints what every call answers.
#![tactic(auto)]

mod frames;
mod making;
mod playing;
mod words;
mod worked;

use playing::play;
use worked::WORKED;

fn main(rt: HostRuntime) -> anyhow::Result<()> {
    for (number, steps) in (1..).zip(WORKED) {
        play(&rt, number, steps)?;
    }
    Ok(())
}
