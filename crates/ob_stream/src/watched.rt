//! `Watched`: a reader or writer that remembers whether any call failed, and whether the last did,
//! and counts its interrupted calls.
ghost use Rattle.std.specs.Prelude.{◌≡◌, ◌≢◌, ◌||◌, ◌≤◌, length, false, true, IfErr, OnErr};
ghost use Rattle.std.specs.Result.{is_err};
ghost use Rattle.std.specs.Io.{ReadsAtMost, WritesAtMost};
ghost use Rattle.std.specs.Io.KnownBytes.{Keeps, ReadConsumes, WriteAppends};

use crate::interruptions::Interruptions;
use std::io;
use std::io::{Read, Write};

/// A reader or writer `D` that records whether any call failed, whether the last one did, and how
/// many calls were interrupted.
#[derive(Drop)]
pub struct Watched<D> {
    inner: D,
    failed: bool,
    last_failed: bool,
    interruptions: Interruptions,
}

impl<D> Watched<D> {
    ghost use Rattle.ob_stream.specs.Watching.{watched_inner, watched_failed, watched_last_failed, interruptions, was_interrupted};

    /// Watches `inner`; no call is recorded yet.
    pub fn new(inner: D) -> Watched<D>
        ensures inner { watched_inner result ≡ inner }
        ensures fresh { watched_failed result ≡ false }
        ensures fresh_last { watched_last_failed result ≡ false }
        ensures uninterrupted { interruptions result ≡ 0 }
        ensures fresh_interrupted { was_interrupted result ≡ false }
    {
        Watched {
            inner,
            failed: false,
            last_failed: false,
            interruptions: Interruptions::none(),
        }
    }

    /// Whether any call answered an error, or was a write of some bytes that took none of them.
    pub fn has_failed(&self) -> bool
        ensures { result ≡ watched_failed self.now }
    {
        self.failed
    }

    /// The reader or writer that was watched, and whether it has failed.
    pub fn into_parts(self) -> (D, bool)
        ensures inner { result.0 ≡ watched_inner self }
        ensures failed { result.1 ≡ watched_failed self }
    {
        (self.inner, self.failed)
    }
}

impl<D: Read> Read for Watched<D> {
    ghost use Rattle.ob_stream.specs.Watching.{watched_inner, watched_failed, watched_last_failed, watched_bytes, CountsAnswer};

    ghost remaining = { watched_bytes D.remaining };

    fn read(&mut self, buf: &mut [u8]) -> io::Result<usize>
        ensures bound { ReadsAtMost result buf.new }
        ensures bytes { ReadConsumes (watched_bytes D.remaining self.old)
            (watched_bytes D.remaining self.new) result buf.new }
        ensures failed { watched_failed self.new ≡ (watched_failed self.old || is_err result) }
        ensures last { watched_last_failed self.new ≡ is_err result }
        ensures counts { CountsAnswer self.old self.new result }
    {
        let answer = self.interruptions.count(self.inner.read(buf));
        self.last_failed = answer.is_err();
        self.failed = self.failed || self.last_failed;
        answer
    }
}

impl<D: Write> Write for Watched<D> {
    ghost use Rattle.ob_stream.specs.Watching.{watched_inner, watched_failed, watched_last_failed, watched_bytes, took_none, CountsAnswer};

    ghost contents = { watched_bytes D.contents };

    fn write(&mut self, buf: &[u8]) -> io::Result<usize>
        ensures bound { WritesAtMost result buf.now }
        ensures bytes { WriteAppends (watched_bytes D.contents self.old)
            (watched_bytes D.contents self.new) result buf.now }
        ensures failed { watched_failed self.new ≡
            (watched_failed self.old || took_none result buf.now) }
        ensures last { watched_last_failed self.new ≡ took_none result buf.now }
        ensures counts { CountsAnswer self.old self.new result }
    {
        let answer = self.interruptions.count(self.inner.write(buf));
        self.last_failed = refuses(&answer, buf);
        self.failed = self.failed || self.last_failed;
        answer
    }

    fn flush(&mut self) -> io::Result<()>
        ensures bytes { Keeps (watched_bytes D.contents self.old)
            (watched_bytes D.contents self.new) }
        ensures failed { watched_failed self.new ≡ (watched_failed self.old || is_err result) }
        ensures last { watched_last_failed self.new ≡ is_err result }
        ensures counts { CountsAnswer self.old self.new result }
    {
        let answer = self.interruptions.count(self.inner.flush());
        self.last_failed = answer.is_err();
        self.failed = self.failed || self.last_failed;
        answer
    }
}

// Whether a write answered an error, or took none of the bytes although there were some.
fn refuses(answer: &io::Result<usize>, buf: &[u8]) -> bool
    ensures { result ≡ took_none answer.now buf.now }
{
    match answer {
        Ok(count) => *count == 0 && !buf.is_empty(),
        Err(_) => true,
    }
}

ghost use Rattle.ob_stream.specs.Watching.{took_none};
