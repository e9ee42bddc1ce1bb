//! Whole texts, read and written through `Watched`.
ghost use Rattle.std.specs.Prelude.{◌≡◌, ◌↔◌, ◌⊎◌, ℕ, ◌+◌, ◌<◌, ◌≤◌, true, false, length, IfOk, IfErr, OnOk, IfSome, IsTrue};
ghost use Rattle.std.specs.IoError.{error_kind};
ghost use Rattle.std.specs.Io.{ReadsAtMost, WritesAtMost};
ghost use Rattle.std.specs.Io.KnownBytes.{Appends, ReadConsumes, WriteAppends};
ghost use Rattle.ob_stream.specs.Watching.{HasJustFailed, watched_bytes};
ghost use Rattle.ob_stream.specs.Streams.{retries_left, IsWhole, Passes, AppendsFront};
ghost use Rattle.ob_stream.specs.Retrying.{Tries};

use crate::Watched;
use ob_base::Fault;
use std::alloc::Global;
use std::io;
use std::io::{ErrorKind, Read, Write};

/// How many more times interrupted calls may be tried again. All calls on a stream share it.
#[derive(Drop)]
pub struct Retries {
    left: u32,
}

impl Retries {
    /// The full number of retries, 65,536.
    pub fn new() -> Retries
        ensures { retries_left result ≡ 65536 }
    {
        Retries { left: 65_536 }
    }

    /// Decides whether a call that answered `error` is tried again. If so, one retry is used up.
    pub fn again(&mut self, error: &io::Error) -> bool
        ensures again { IsTrue result ↔ ((error_kind error.now ≡ ErrorKind.Interrupted)
            × (0 < retries_left self.old)) }
        ensures counted { result ≡ true → retries_left self.old ≡ retries_left self.new + 1 }
        ensures kept { result ≡ false → retries_left self.new ≡ retries_left self.old }
        ensures fewer { retries_left self.new ≤ retries_left self.old }
    {
        let again = error.kind() == ErrorKind::Interrupted && self.left > 0;
        if again {
            self.left -= 1;
        }
        again
    }
}

/// Reads once; an interrupted read is tried again. On a fault, the reader's last call failed.
pub fn read_some<R: Read>(
    reader: &mut Watched<R>,
    retries: &mut Retries,
    buf: &mut [u8],
) -> Result<usize, Fault>
    ensures bound { IfOk result (λ n. n ≤ length buf.new) }
    ensures bytes { ReadConsumes (watched_bytes R.remaining reader.old)
        (watched_bytes R.remaining reader.new) result buf.new }
    ensures fault { IfErr result (λ f. (f ≡ Fault.Input) × HasJustFailed reader.new) }
    ensures tries { Tries (retries_left retries.old) (retries_left retries.new) reader.old reader.new result }
{
    loop {
        match reader.read(buf) {
            Ok(count) => return Ok(count),
            Err(error) => {
                if !retries.again(&error) {
                    return Err(Fault::Input);
                }
            }
        }
    }
}

/// Reads all that the reader has left, if that is at most `limit` bytes.
pub fn read_text<R: Read>(
    alloc: Global,
    reader: &mut Watched<R>,
    retries: &mut Retries,
    limit: usize,
) -> Result<Vec<u8>, Fault>
    ensures whole { IfOk result (λ text. IsWhole (watched_bytes R.remaining reader.old) text.items) }
    ensures bound { IfOk result (λ text. length text.items ≤ limit) }
    ensures fault { IfErr result (λ f. (f ≡ Fault.OutOfMemory)
        ⊎ ((f ≡ Fault.Input) × (HasJustFailed reader.new
        ⊎ Passes (watched_bytes R.remaining reader.old) limit))) }
    ensures tries { Tries (retries_left retries.old) (retries_left retries.new) reader.old reader.new result }
{
    let mut text = Vec::new(alloc);
    let mut chunk = [0u8; 4096];
    loop {
        let count = read_some(reader, retries, &mut chunk)?;
        if count == 0 {
            return Ok(text);
        }
        if limit - text.len() < count {
            return Err(Fault::Input);
        }
        if text.extend_from_slice(&chunk[..count]).is_err() {
            return Err(Fault::OutOfMemory);
        }
    }
}

/// Writes a whole text. On a fault, the writer took only a front part of the text, at least one
/// byte less than all of it, and its last call failed.
pub fn write_text<W: Write>(
    writer: &mut Watched<W>,
    retries: &mut Retries,
    text: &[u8],
) -> Result<(), Fault>
    ensures whole { OnOk result (Appends (watched_bytes W.contents writer.old)
        (watched_bytes W.contents writer.new) text.now) }
    ensures front { IfErr result (λ _. AppendsFront (watched_bytes W.contents writer.old)
        (watched_bytes W.contents writer.new) text.now) }
    ensures fault { IfErr result (λ f. (f ≡ Fault.Output) × HasJustFailed writer.new) }
    ensures tries { Tries (retries_left retries.old) (retries_left retries.new) writer.old writer.new result }
{
    let mut at = 0;
    while at < text.len() {
        match writer.write(&text[at..]) {
            Ok(0) => return Err(Fault::Output),
            Ok(count) => at += count,
            Err(error) => {
                if !retries.again(&error) {
                    return Err(Fault::Output);
                }
            }
        }
    }
    Ok(())
}
