//! Tests of whole texts, read and written. Readers and writers that fail at each byte or are
//! interrupted before each are those of `ob_total_tests` and `ob_desk_tests`.
use ob_harness::{FULL, Sink, Source, Way};
use ob_net::{Fault, Retries, Watched, read_some, read_text, write_text};
use std::alloc::Global;
use std::io::ErrorKind;
use std::process::Abort;

const TEXT: &[u8] = b"0123456789";

// Reads of at most four bytes from a reader that gives three, each after an interrupted call, and
// one that fails.
#[test]
fn single_reads(rt: HostRuntime) {
    let way = Way {
        step: 3,
        jolts: 1,
        end: None,
    };
    let mut reader = Watched::new(Source::new(TEXT, way));
    let mut retries = Retries::new();
    let mut buf = [0; 4];
    assert!(rt; read_some(&mut reader, &mut retries, &mut buf) == Ok(3) && buf == *b"012\0");
    assert!(rt; read_some(&mut reader, &mut retries, &mut buf) == Ok(3) && buf == *b"345\0");
    assert!(rt; reader.has_failed());
    let mut reader = Watched::new(Source::new(b"", FULL));
    assert!(rt; read_some(&mut reader, &mut retries, &mut buf) == Err(Fault::Input));
}

// Reads a text in pieces of at most `step` bytes, each after `jolts` interrupted calls: it is read
// whole if it fits within the limit; otherwise that ends in an input fault, although the reader
// itself has only failed where it was interrupted.
fn reads(rt: &impl Abort, alloc: Global, text: &[u8], pieces: (usize, u32), limit: usize) {
    let (step, jolts) = pieces;
    let end = None;
    let mut reader = Watched::new(Source::new(text, Way { step, jolts, end }));
    let read = read_text(alloc, &mut reader, &mut Retries::new(), limit);
    assert!(rt; reader.has_failed() == (jolts > 0));
    match read {
        Ok(found) => assert!(rt; text.len() <= limit && found.as_slice() == text),
        Err(fault) => assert!(rt; text.len() > limit && fault == Fault::Input),
    }
}

// Texts, the bytes of a piece, and limits; the last three texts are longer than one chunk.
const LIMITS: &'static [(&'static [u8], usize, usize)] = &[
    (TEXT, 1, 10),
    (TEXT, 3, 10),
    (TEXT, 100, 10),
    (TEXT, 1, 11),
    (TEXT, 3, 11),
    (TEXT, 100, 4096),
    (TEXT, 1, 9),
    (TEXT, 3, 9),
    (TEXT, 100, 9),
    (b"", 1, 0),
    (&[b'x'; 5000], 5000, 4999),
    (&[b'x'; 5000], 5000, 5000),
    (&[b'x'; 5000], 5000, 5001),
];

#[test]
fn texts_within_a_limit_and_above(rt: HostRuntime) {
    for (text, step, limit) in LIMITS {
        reads(&rt, rt.alloc(), text, (*step, 0), *limit);
        reads(&rt, rt.alloc(), text, (*step, 1), *limit);
    }
}

// Two writes succeed, and the third is retried as often as the limit allows.
#[test]
fn interrupted_for_ever(rt: HostRuntime) {
    let way = Way {
        step: 3,
        jolts: 0,
        end: Some(ErrorKind::Interrupted),
    };
    let mut writer = Watched::new(Sink::new(rt.alloc(), 4, way));
    assert!(rt; write_text(&mut writer, &mut Retries::new(), TEXT) == Err(Fault::Output));
    assert!(rt; writer.into_parts().0.taken.as_slice() == b"0123".as_slice());
}
