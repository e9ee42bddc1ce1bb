//! The bytes of a stream that were read but that no request has taken yet.
ghost use Rattle.std.specs.Prelude.{◌≡◌, ◌<◌, ◌≤◌, [], List, ℕ, drop, take, length, true, false, Ok, OnOk, IfOk, IfErr, vec_len};
ghost use Rattle.std.specs.Io.KnownBytes.{Keeps, IsAtEnd};
ghost use Rattle.ob_stream.specs.Retrying.{Tries};
ghost use Rattle.ob_stream.specs.Streams.{retries_left};
ghost use Rattle.ob_stream.specs.Watching.{watched_bytes};
ghost use Rattle.ob_http_requests.specs.Unread.{unread, IsReadFault};

use httparse::spans::{EMPTY_HEADER_SPAN, HeaderSpan};
use ob_base::Fault;
use ob_stream::{Retries, Watched, read_some};
use std::alloc::Global;
use std::io::Read;
use std::marker::Model;

/// The most bytes of a head, including the empty lines before it.
pub(crate) const HEAD_BOUND: usize = 16_384;

/// Room for the field lines of any head within the bound, since each line has at least three bytes.
pub(crate) const FIELD_ROOM: usize = 5_461;

/// The most bytes that one read takes.
pub(crate) const PIECE: usize = 4_096;

/// The bytes read but not yet taken, at most 16,384, with room for the fields of one head.
#[derive(Drop)]
pub struct Ahead {
    pub(crate) bytes: Vec<u8>,
    pub(crate) fields: Vec<HeaderSpan>,
}

impl Model for Ahead {
    ghost Value = { List ℕ };

    ghost view = { λ ahead. ahead.bytes.items };

    ghost invariant = { λ ahead. (vec_len ahead.bytes ≤ 16_384) × (5_461 ≤ vec_len ahead.fields) };
}

impl Ahead {
    /// Makes an empty store of bytes, with none read yet.
    pub fn new(alloc: Global) -> Result<Ahead, Fault>
        ensures none { IfOk result (λ ahead. ahead ≡ []) }
        ensures fault { IfErr result (λ f. f ≡ Fault.OutOfMemory) }
    {
        match vec![in alloc; EMPTY_HEADER_SPAN; FIELD_ROOM] {
            Ok(fields) => Ok(Ahead {
                bytes: Vec::new(alloc),
                fields,
            }),
            Err(_) => Err(Fault::OutOfMemory),
        }
    }
}

/// Reads once more. False means that the stream has ended.
pub(crate) fn read_ahead<R: Read>(
    reader: &mut Watched<R>,
    retries: &mut Retries,
    ahead: &mut Vec<u8>,
) -> Result<bool, Fault>
    requires { vec_len ahead.old < HEAD_BOUND }
    ensures same { OnOk result (Keeps (unread ahead.old.items
        (watched_bytes R.remaining reader.old)) (unread ahead.new.items
        (watched_bytes R.remaining reader.new))) }
    ensures bound { vec_len ahead.new ≤ HEAD_BOUND }
    ensures more { result ≡ Ok true → vec_len ahead.old < vec_len ahead.new }
    ensures end { result ≡ Ok false → (ahead.new.items ≡ ahead.old.items)
        × IsAtEnd (watched_bytes R.remaining reader.new) }
    ensures fault { IfErr result (IsReadFault reader.new) }
    ensures kept { IfErr result (λ f. f ≡ Fault.Input
        → Keeps (watched_bytes R.remaining reader.old) (watched_bytes R.remaining reader.new)) }
    ensures tries { Tries (retries_left retries.old) (retries_left retries.new) reader.old
        reader.new result }
{
    let mut piece = [0u8; PIECE];
    let room = (HEAD_BOUND - ahead.len()).min(PIECE);
    let count = read_some(reader, retries, &mut piece[..room])?;
    if count == 0 {
        return Ok(false);
    }
    match ahead.extend_from_slice(&piece[..count]) {
        Ok(()) => Ok(true),
        Err(_) => Err(Fault::OutOfMemory),
    }
}

/// Drops the first `count` bytes.
pub(crate) fn drop_front(bytes: &mut Vec<u8>, count: usize)
    requires { count ≤ vec_len bytes.old }
    ensures rest { bytes.new.items ≡ drop count bytes.old.items }
    ensures bound { vec_len bytes.new ≤ vec_len bytes.old }
{
    let left = bytes.len() - count;
    bytes.rotate_left(count);
    bytes.truncate(left);
}

/// Removes the first `count` bytes and answers them.
pub(crate) fn take_front(alloc: Global, bytes: &mut Vec<u8>, count: usize) -> Result<Vec<u8>, Fault>
    requires { count ≤ vec_len bytes.old }
    ensures front { IfOk result (λ front. front.items ≡ take count bytes.old.items) }
    ensures rest { OnOk result (bytes.new.items ≡ drop count bytes.old.items) }
    ensures bound { vec_len bytes.new ≤ vec_len bytes.old }
    ensures fault { IfErr result (λ f. f ≡ Fault.OutOfMemory) }
{
    let Ok(front) = Vec::from_slice(alloc, &bytes[..count]) else {
        return Err(Fault::OutOfMemory);
    };
    drop_front(bytes, count);
    Ok(front)
}
