//! Tests of the worked exchange with one allocation refused.
use crate::desk::{Desk, Heard, Trial, Tried, over_a_book};
use crate::streams::WHOLE;
use crate::texts::{FIRST, STORM, UNAVAILABLE};
use ob_base::Fault;
use ob_harness::{Sink, Source};
use std::alloc::{AllocError, Global};
use std::process::Abort;

// Serves the exchange, with a writer that has its memory already.
fn heard<D: Desk>(alloc: Global, desk: &mut D) -> Result<Heard, AllocError> {
    let mut sink = Sink::new(alloc, WHOLE.room, WHOLE.writes);
    sink.taken.reserve(200)?;
    Ok(desk.hears(alloc, Source::new(STORM, WHOLE.reads), sink))
}

// Answers whether a stream that a fault ends may have written this: nothing, or 503.
fn is_unanswered(bytes: &[u8]) -> bool {
    bytes.is_empty() || bytes == UNAVAILABLE
}

// Answers whether the exchange was answered. If a fault ended the stream, nothing was written, or
// 503; after a store fault there is no book until it is loaded again.
fn is_answered<D: Desk>(rt: &impl Abort, desk: &mut D, heard: &Heard) -> bool {
    match heard.end {
        Ok(_) => {
            assert!(rt; heard.is(Ok(1), FIRST));
            true
        }
        Err(fault) => {
            assert!(rt; is_unanswered(&heard.bytes));
            assert!(rt; fault == Fault::OutOfMemory || fault == Fault::Store);
            assert!(rt; desk.commands().is_none() == (fault == Fault::Store));
            false
        }
    }
}

// Loads the book if there is none, with a second try if the first was refused memory.
fn has_book<D: Desk>(desk: &mut D) -> bool {
    desk.commands().is_some() || desk.loads() || desk.loads()
}

// The exchange three times; the book is loaded if there is none.
struct Refused;

impl Trial for Refused {
    fn run<A: Abort, D: Desk>(&self, rt: &A, alloc: Global, desk: &mut D) -> Tried {
        let mut count = 0u32;
        for _ in 0..3 {
            let heard = heard(alloc, desk)?;
            if is_answered(rt, desk, &heard) {
                count = count.saturating_add(1);
            }
            assert!(rt; has_book(desk));
        }
        assert!(rt; count >= 2 && desk.commands() == Some(1));
        Ok(())
    }
}

// Run with one allocation refused, this test checks that the exchange is applied once, and that a
// repeated request gets the reply. If memory is refused to the test itself, it ends there.
#[test]
fn memory_refused(rt: HostRuntime) {
    let _ = over_a_book(&rt, rt.alloc(), &Refused);
}
