//! What is printed of a line.
ghost use Rattle.std.specs.Prelude.{◌≡◌, IfOk};
ghost use Rattle.inspect.specs.Counts.{line_outcome, outcome_of};

use crate::line::{LineError, parse};
use crate::outcome::Outcome;
use fault::refusal::Refusal;
use frame::address::{is_group, is_reserved};
use frame::c_api::bridge_read_frame;
use frame::parts::{Parts, Tag};
use frame::read::read;
use std::{fmt, io};

// An address as text: 01-80-C2-00-00-0E (group, reserved).
#[derive(Clone, Copy, PartialEq, Eq, Debug, Drop)]
struct Address([u8; 6]);

impl fmt::Display for Address {
    fn fmt<W: fmt::Write>(&self, f: &mut fmt::Formatter<W>) -> fmt::Result {
        let [a, b, c, d, e, g] = self.0;
        let kind = if is_reserved(self.0) {
            "group, reserved"
        } else if is_group(self.0) {
            "group"
        } else {
            "individual"
        };
        write!(
            f,
            "{a:02X}-{b:02X}-{c:02X}-{d:02X}-{e:02X}-{g:02X} ({kind})"
        )
    }
}

fn accepted(rt: &HostRuntime, parts: Parts<'_>) -> io::Result<()> {
    let places = parts.places();
    let destination = Address(parts.destination);
    let source = Address(parts.source);
    println!(rt; "  to {destination}")?;
    println!(rt; "  from {source}")?;
    match parts.tag.zip(places.tag) {
        Some((Tag { priority, vid }, place)) => {
            println!(rt; "  tag at {place}: priority {priority}, VID {vid}")?;
        }
        None => println!(rt; "  no tag")?,
    }
    let place = places.body;
    let length = parts.body.len();
    println!(rt; "  body at {place}: length {length}")
}

fn refused(rt: &HostRuntime, refusal: Refusal) -> io::Result<()> {
    let number = refusal.number();
    let layer = refusal.layer().number();
    let place = refusal.place();
    println!(rt; "  refused with {number}: {refusal} (layer {layer}, place {place})")
}

// Prints what a frame is, and answers its kind.
fn frame(rt: &HostRuntime, line: usize, bytes: &[u8]) -> io::Result<Outcome>
    ensures { IfOk result (λ outcome. outcome ≡ outcome_of bytes.now) }
{
    let length = bytes.len();
    let number = bridge_read_frame(bytes);
    println!(rt; "line {line}: length {length}, number {number}")?;
    match read(bytes) {
        Ok(parts) => accepted(rt, parts)?,
        Err(refusal) => refused(rt, refusal)?,
    }
    Ok(Outcome::of_frame(bytes))
}

/// Prints what the line with this number is, and answers its kind. A blank line or a comment prints nothing and has
/// none. An `Err` is one of memory or of printing.
pub fn line(rt: &HostRuntime, number: usize, text: &[u8]) -> io::Result<Option<Outcome>>
    ensures { IfOk result (λ outcome. outcome ≡ line_outcome text.now) }
{
    match parse(rt.alloc(), text) {
        Ok(bytes) if bytes.is_empty() => Ok(None),
        Ok(bytes) => Ok(Some(frame(rt, number, bytes.as_slice())?)),
        Err(LineError::Malformed(malformed)) => {
            println!(rt; "line {number}: malformed: {malformed}")?;
            Ok(Some(Outcome::Malformed))
        }
        Err(LineError::Memory(error)) => Err(error.into()),
    }
}
