//! Tests of watched readers and writers, call by call.
use ob_harness::{FULL, Sink, Source, WHOLE, Way};
use ob_net::{Retries, Watched};
use std::io;
use std::io::{ErrorKind, Read, Write};

// In pieces of two bytes, and then the end, or a failure.
const ENDING: Way = Way { step: 2, ..WHOLE };

const FAILING: Way = Way { step: 2, ..FULL };

// Reads of at most two bytes from a reader that fails at its end, and from one that is interrupted.
#[test]
fn reads_that_fail(rt: HostRuntime) {
    let mut buf = [0; 2];
    let mut reader = Watched::new(Source::new(b"abc", FAILING));
    assert!(rt; reader.read(&mut buf).ok() == Some(2) && buf == *b"ab");
    assert!(rt; reader.read(&mut buf).ok() == Some(1) && !reader.has_failed());
    assert!(rt; reader.read(&mut buf).ok() == None && reader.has_failed());
    let mut reader = Watched::new(Source::new(b"abc", Way { jolts: 1, ..ENDING }));
    assert!(rt; !reader.has_failed());
    assert!(rt; reader.read(&mut buf).ok() == None && reader.has_failed());
    assert!(rt; reader.read(&mut buf).ok() == Some(2) && reader.has_failed());
    assert!(rt; reader.into_parts().0.rest == b"c".as_slice());
}

// Bytes, the number of bytes that a writer takes of them, and whether it has failed after that.
const WRITES: &'static [(&'static [u8], usize, bool)] = &[
    (b"abc", 2, false),
    (b"", 0, false),
    (b"c", 0, true),
    (b"", 0, true),
];

#[test]
fn writes_that_take_no_byte(rt: HostRuntime) {
    let mut writer = Watched::new(Sink::new(rt.alloc(), 2, ENDING));
    for (bytes, count, failed) in WRITES {
        assert!(rt; writer.write(bytes).ok() == Some(*count));
        assert!(rt; writer.has_failed() == *failed);
    }
    assert!(rt; writer.flush().is_ok() && writer.has_failed());
    assert!(rt; writer.into_parts().0.taken.as_slice() == b"ab".as_slice());
}

#[test]
fn writes_and_flushes_that_fail(rt: HostRuntime) {
    let mut writer = Watched::new(Sink::new(rt.alloc(), 0, FULL));
    assert!(rt; writer.write(b"a").is_err() && writer.has_failed());
    let mut writer = Watched::new(Sink::new(rt.alloc(), 0, FULL));
    assert!(rt; !writer.has_failed() && writer.flush().is_err() && writer.has_failed());
}

#[test]
fn retries(rt: HostRuntime) {
    let interrupted = io::Error::from(ErrorKind::Interrupted);
    let other = io::Error::from(ErrorKind::Other);
    let mut retries = Retries::new();
    assert!(rt; !retries.again(&other));
    for _ in 0..65_536 {
        assert!(rt; retries.again(&interrupted));
        assert!(rt; !retries.again(&other));
    }
    assert!(rt; !retries.again(&interrupted));
    assert!(rt; !retries.again(&interrupted));
}
