//! `Listener`: the source of the streams. It records how many are still to be taken, and whether
//! the last attempt failed.
ghost use Rattle.std.specs.Prelude.{◌≡◌, ◌↔◌, ◌+◌, ◌<◌, true, false, IsTrue, MatchOption};

use std::net::{TcpListener, TcpStream};

/// A TCP listener with the number of streams still to be taken.
#[derive(Drop)]
pub struct Listener<'l> {
    inner: &'l TcpListener,
    left: u64,
    failed: bool,
}

impl<'l> Listener<'l> {
    ghost use Rattle.ob_desk.specs.Listening.{has_failed, most_streams, streams_left};

    /// Creates a listener from which `streams` streams are to be taken; 0 stands for 2^64 - 1.
    pub fn new(inner: &'l TcpListener, streams: u64) -> Listener<'l>
        ensures left { streams_left result ≡ most_streams streams }
        ensures fresh { has_failed result ≡ false }
    {
        let left = if streams == 0 { u64::MAX } else { streams };
        Listener {
            inner,
            left,
            failed: false,
        }
    }

    /// Whether a stream is still to be taken.
    pub(crate) fn has_more(&self) -> bool
        ensures { IsTrue result ↔ (0 < streams_left self.now) }
    {
        self.left > 0
    }

    /// Waits for the next stream and takes it; None if none can be taken.
    pub(crate) fn take(&mut self) -> Option<TcpStream>
        requires { 0 < streams_left self.old }
        ensures { MatchOption result
            ((streams_left self.new ≡ streams_left self.old) × (has_failed self.new ≡ true))
            (λ _. (streams_left self.old ≡ streams_left self.new + 1)
            × (has_failed self.new ≡ false)) }
    {
        match self.inner.accept() {
            Ok((stream, _)) => {
                self.left -= 1;
                self.failed = false;
                Some(stream)
            }
            Err(_) => {
                self.failed = true;
                None
            }
        }
    }
}
