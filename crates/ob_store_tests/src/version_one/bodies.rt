//! Tests of body texts of version 1: a device's had four fields, none set a life, and the others
//! are those of version 2.
use ob_base::{Fault, Stop};
use ob_command::body_text;
use ob_upgrade::{read_old_body, version_law};
use std::alloc::Global;
use std::process::Abort;
use std::test::Fail;

// One body of each kind that is the same in version 2.
const SAME: &'static str = "cause 3 STORM
bus BUS-A
section S1 255
connect 11 S3 1704072600 -
revise 11 0 0
switch B1 open 1704070800 3 K1
correct 4 1 close 1704073800 3 K1
withdraw 4 1
mark 2024-02-29 K1
unmark 2024-02-29 K1";

// Texts that were no bodies in version 1.
const NONE: &'static str = "device X1 BUS-A S1 closed 0 -
device X1 BUS-A S1 closed 1704072200 -
device X1 BUS-A S1 closed 0
device X1 BUS-A S1
device X1 BUS-A S1 shut
device X1 S1 S1 closed
device  X1 BUS-A S1 closed
device
life T1 0 -
life T1 0 1704073200
life T1
bus
bus BUS-A 0 -
switch B1 open 1704070800 3
fuse F1";

// Checks that the text was the body of a command that has this body in version 2; an error if
// memory is refused.
fn becomes(rt: &impl Abort, alloc: Global, old: &str, body: &[u8]) -> Result<(), Fail> {
    let command = read_old_body(alloc, old.as_bytes())?.ok_or("a command")?;
    assert!(rt; body_text(alloc, &command)?.as_slice() == body);
    Ok(())
}

#[test]
fn devices_live_always(rt: HostRuntime) -> Result<(), Fail> {
    version_law();
    let alloc = rt.alloc();
    let closed = b"device X1 BUS-A S1 closed 0 -";
    becomes(&rt, alloc, "device X1 BUS-A S1 closed", closed)?;
    becomes(
        &rt,
        alloc,
        "device T1 S2 S3 open",
        b"device T1 S2 S3 open 0 -",
    )
}

#[test]
fn other_bodies_are_todays(rt: HostRuntime) -> Result<(), Fail> {
    for body in SAME.lines() {
        becomes(&rt, rt.alloc(), body, body.as_bytes())?;
    }
    Ok(())
}

fn is_no_body(rt: &impl Abort, alloc: Global, text: &[u8]) -> Result<(), Stop> {
    let found = read_old_body(alloc, text)?;
    assert!(rt; found.is_none());
    Ok(())
}

#[test]
fn no_bodies(rt: HostRuntime) -> Result<(), Fail> {
    for text in NONE.lines() {
        is_no_body(&rt, rt.alloc(), text.as_bytes())?;
    }
    is_no_body(&rt, rt.alloc(), b"")?;
    is_no_body(&rt, rt.alloc(), b"device ")?;
    is_no_body(&rt, rt.alloc(), b"device X1 BUS-A S1 closed ")?;
    Ok(())
}

// With each allocation refused in turn, the call either returns its value or reports refused
// memory.
#[test]
fn refused_memory(rt: HostRuntime) {
    match read_old_body(rt.alloc(), b"device T1 S2 S3 open") {
        Ok(found) => assert!(rt; found.is_some()),
        Err(stop) => assert!(rt; stop == Stop::Fault(Fault::OutOfMemory)),
    }
}
