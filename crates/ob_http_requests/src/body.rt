//! Reading a body whose length is known.
ghost use Rattle.std.specs.Prelude.{◌≡◌, ◌<◌, ◌≤◌, length, true, false, Ok, Err, OnOk, IfOk, IfErr, vec_len};
ghost use Rattle.std.specs.Io.KnownBytes.{IsAtEnd};
ghost use Rattle.ob_stream.specs.Retrying.{Tries};
ghost use Rattle.ob_stream.specs.Streams.{retries_left};
ghost use Rattle.ob_stream.specs.Watching.{watched_bytes};
ghost use Rattle.ob_http_requests.specs.Unread.{unread, ReadsMore, IsReadFault};
ghost use Rattle.ob_http_requests.specs.Reading.{StopsInBody, TakesBody};

use crate::ahead::{Ahead, PIECE, take_front};
use ob_base::Fault;
use ob_stream::{Retries, Watched, read_some};
use std::alloc::Global;
use std::io::Read;

/// Reads on until the body has its full length. False means that the stream ended before that.
fn fill_body<R: Read>(
    reader: &mut Watched<R>,
    retries: &mut Retries,
    body: &mut Vec<u8>,
    size: usize,
) -> Result<bool, Fault>
    requires { vec_len body.old ≤ size }
    ensures whole { result ≡ Ok true → vec_len body.new ≡ size }
    ensures more { OnOk result (ReadsMore (watched_bytes R.remaining reader.old)
        (watched_bytes R.remaining reader.new) body.old.items body.new.items) }
    ensures cut { result ≡ Ok false → (vec_len body.new < size)
        × IsAtEnd (watched_bytes R.remaining reader.new) }
    ensures fault { IfErr result (IsReadFault reader.new) }
    ensures failed { result ≡ Err Fault.Input → (vec_len body.new < size)
        × ReadsMore (watched_bytes R.remaining reader.old) (watched_bytes R.remaining reader.new)
        body.old.items body.new.items }
    ensures tries { Tries (retries_left retries.old) (retries_left retries.new) reader.old
        reader.new result }
{
    let mut piece = [0u8; PIECE];
    'pieces: while body.len() < size {
        let room = (size - body.len()).min(PIECE);
        let count = read_some(reader, retries, &mut piece[..room])?;
        if count == 0 {
            return Ok(false);
        }
        if body.extend_from_slice(&piece[..count]).is_err() {
            return Err(Fault::OutOfMemory);
        }
    }
    Ok(true)
}

/// Reads a body that begins with the bytes already read.
fn body_over<R: Read>(
    alloc: Global,
    reader: &mut Watched<R>,
    retries: &mut Retries,
    ahead: &mut Vec<u8>,
    size: usize,
) -> Result<Option<Vec<u8>>, Fault>
    ensures body { IfOk result (TakesBody (unread ahead.old.items
        (watched_bytes R.remaining reader.old)) (unread ahead.new.items
        (watched_bytes R.remaining reader.new)) size) }
    ensures bound { vec_len ahead.new ≤ vec_len ahead.old }
    ensures fault { IfErr result (IsReadFault reader.new) }
    ensures failed { result ≡ Err Fault.Input → StopsInBody
        (unread ahead.old.items (watched_bytes R.remaining reader.old))
        (watched_bytes R.remaining reader.new) size }
    ensures tries { Tries (retries_left retries.old) (retries_left retries.new) reader.old
        reader.new result }
{
    let front = ahead.len().min(size);
    let mut body = take_front(alloc, ahead, front)?;
    if fill_body(reader, retries, &mut body, size)? {
        Ok(Some(body))
    } else {
        Ok(None)
    }
}

/// Reads a body of `size` bytes and no byte past it (RFC 9112, section 6.3). `None` means that the
/// stream has fewer bytes.
pub fn read_body<R: Read>(
    alloc: Global,
    reader: &mut Watched<R>,
    retries: &mut Retries,
    ahead: &mut Ahead,
    size: usize,
) -> Result<Option<Vec<u8>>, Fault>
    ensures body { IfOk result (TakesBody (unread ahead.old (watched_bytes R.remaining reader.old))
        (unread ahead.new (watched_bytes R.remaining reader.new)) size) }
    ensures fault { IfErr result (IsReadFault reader.new) }
    ensures failed { result ≡ Err Fault.Input → StopsInBody
        (unread ahead.old (watched_bytes R.remaining reader.old))
        (watched_bytes R.remaining reader.new) size }
    ensures tries { Tries (retries_left retries.old) (retries_left retries.new) reader.old
        reader.new result }
{
    body_over(alloc, reader, retries, &mut ahead.bytes, size)
}
