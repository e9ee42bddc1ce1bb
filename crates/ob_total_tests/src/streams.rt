//! Tests of `total` with readers and writers that fail, are slow or give too much, and with too
//! little memory.
use crate::texts::FIRST_RUN;
use ob_harness::{FAILING, JOLTING, Sink, Source, Way};
use ob_net::{Fault, Stop, Watched};
use ob_total::{TotalStop, run_total};
use std::alloc::Global;
use std::io;
use std::io::Read;

// The text of a small total: one customer for 10 seconds, W 10.
const SMALL: &[u8] = b"kind,ref,f1,f2,f3,f4,f5,f6
span,A0,0,10,,,,
section,A1,S1,1,,,,
connect,C1,1,S1,0,,,
";

fn fault(fault: Fault) -> Result<u64, TotalStop> {
    Err(TotalStop {
        stop: Stop::Fault(fault),
        row: None,
    })
}

// Answers whether `total` stops with an input fault for a reader, and writes nothing.
fn stops_for_input<R: Read + Drop>(alloc: Global, mut reader: Watched<R>) -> bool {
    let mut writer = Watched::new(Vec::new(alloc));
    let answer = run_total(alloc, &mut reader, &mut writer);
    writer.into_parts().0.is_empty() && answer == fault(Fault::Input)
}

#[test]
fn readers_that_fail(rt: HostRuntime) {
    for count in 0..=SMALL.len() {
        let reader = Watched::new(Source::new(&SMALL[..count], FAILING));
        assert!(rt; stops_for_input(rt.alloc(), reader));
    }
}

// Answers whether `total` stops with an output fault for a writer with room for `room` bytes, after
// it wrote that many.
fn stops_for_output(alloc: Global, room: usize, way: Way) -> bool {
    let line = b"W 10\n".as_slice();
    let mut reader = Watched::new(SMALL);
    let mut writer = Watched::new(Sink::new(alloc, room, way));
    let answer = run_total(alloc, &mut reader, &mut writer);
    let taken = writer.into_parts().0.taken;
    line.starts_with(&taken) && taken.len() == room && answer == fault(Fault::Output)
}

#[test]
fn writers_that_fail(rt: HostRuntime) {
    for room in 0..5 {
        assert!(rt; stops_for_output(rt.alloc(), room, JOLTING));
        assert!(rt; stops_for_output(rt.alloc(), room, FAILING));
    }
    // One that takes all, and a reader, both slow.
    let mut reader = Watched::new(Source::new(SMALL, JOLTING));
    let mut writer = Watched::new(Sink::new(rt.alloc(), 5, JOLTING));
    assert!(rt; run_total(rt.alloc(), &mut reader, &mut writer) == Ok(10));
    assert!(rt; writer.into_parts().0.taken.as_slice() == b"W 10\n".as_slice());
}

// Gives line ends without end.
#[derive(Drop)]
struct Endless;

impl Read for Endless {
    fn read(&mut self, buf: &mut [u8]) -> io::Result<usize> {
        buf.fill(b'\n');
        Ok(buf.len())
    }
}

#[test]
fn a_text_that_is_too_long(rt: HostRuntime) {
    assert!(rt; stops_for_input(rt.alloc(), Watched::new(Endless)));
}

// Run with one allocation refused, this test checks that `total` writes nothing if that stops it.
// The refused allocation may also be the writer's own.
#[test]
fn memory_refused(rt: HostRuntime) {
    let mut reader = Watched::new(FIRST_RUN.as_bytes());
    let mut writer = Watched::new(Vec::new(rt.alloc()));
    let answer = run_total(rt.alloc(), &mut reader, &mut writer);
    let taken = writer.into_parts().0;
    match answer {
        Ok(total) => assert!(rt; total == 9000 && taken.as_slice() == b"W 9000\n".as_slice()),
        Err(_) => {
            assert!(rt; taken.is_empty());
            assert!(rt; answer == fault(Fault::OutOfMemory) || answer == fault(Fault::Output));
        }
    }
}
