//! How the bytes of a stream come and go.
use ob_harness::{FULL, Way};

/// How a stream is read, the room for its replies, and how these are written.
#[derive(Clone, Copy)]
pub struct Ways {
    pub reads: Way,
    pub room: usize,
    pub writes: Way,
}

/// All in one piece, with more room than any replies here need; beyond it a write fails.
pub const WHOLE: Ways = Ways {
    reads: ob_harness::WHOLE,
    room: 1_000_000,
    writes: FULL,
};

/// Read in pieces of at most this many bytes.
pub fn pieces(step: usize) -> Ways {
    let reads = Way {
        step,
        ..ob_harness::WHOLE
    };
    Ways { reads, ..WHOLE }
}
