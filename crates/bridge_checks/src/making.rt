//! What is asked before a bridge is made. What only memory can refuse shows where an allocation fails.
use bridge::check::{CheckError, check};
use std::process::Abort;
use std::test::Fail;

// The first question that is answered no, as callers know it.
fn refuses(
    rt: &(impl Abort + AllocGlobal),
    ports: u8,
    classes: u8,
    depth: u8,
    number: u8,
) -> Result<(), Fail> {
    match check(rt.alloc(), ports, classes, depth) {
        Err(CheckError::Refused(refusal)) => {
            assert_eq!(rt; refusal.number(), number);
            Ok(())
        }
        Err(CheckError::NoMemory) => Err(Fail::new("there was no memory")),
        Ok(_) => Err(Fail::new("nothing was refused")),
    }
}

#[test]
fn shapes_out_of_range(rt: HostRuntime) -> Result<(), Fail> {
    refuses(&rt, 1, 9, 65, 23)?;
    refuses(&rt, 17, 0, 0, 23)?;
    refuses(&rt, 16, 9, 65, 24)?;
    refuses(&rt, 2, 0, 0, 24)?;
    refuses(&rt, 16, 8, 65, 26)?;
    refuses(&rt, 2, 1, 0, 26)
}

#[test]
fn the_smallest_and_the_largest_shape(rt: HostRuntime) -> Result<(), Fail> {
    let _ = check(rt.alloc(), 2, 1, 1)?;
    let _ = check(rt.alloc(), 16, 8, 64)?;
    Ok(())
}
