//! The head of a request, with its method, framing and target.
ghost use Rattle.std.specs.Prelude.{◌≡◌, ◌≤◌, length, IfOk, IfErr, IsUtf8, vec_len, string_bytes};
ghost use Rattle.ob_stream.specs.Retrying.{Tries};
ghost use Rattle.ob_stream.specs.Streams.{retries_left};
ghost use Rattle.ob_stream.specs.Watching.{watched_bytes};
ghost use Rattle.ob_http_requests.specs.Unread.{unread};
ghost use Rattle.ob_http_requests.specs.Reading.{IsHeadFault, Starts};

use crate::ahead::{Ahead, FIELD_ROOM, HEAD_BOUND, drop_front};
use crate::framing::{Framing, HeadRefusal, find_framing};
use crate::head::{NextHead, read_head};
use httparse::spans::HeaderSpan;
use ob_base::Fault;
use ob_stream::{Retries, Watched};
use std::alloc::Global;
use std::io::Read;

/// What comes next in a stream, up to the end of a head.
#[derive(Debug, Drop)]
pub enum Start {
    /// A head: its framing and its target.
    Head(Framing, String),
    /// Bytes that are answered with an error status. Nothing more is read after them.
    Refused(HeadRefusal),
    /// No more bytes: the stream has ended.
    End,
    /// The stream ends inside a head.
    Cut,
}

/// Copies bytes that are valid UTF-8 into a text.
fn text_of(alloc: Global, bytes: &[u8]) -> Result<String, Fault>
    requires { IsUtf8 bytes.now }
    ensures text { IfOk result (λ text. string_bytes text ≡ bytes.now) }
    ensures fault { IfErr result (λ f. f ≡ Fault.OutOfMemory) }
{
    // The bytes are valid UTF-8 by the contract, so this test never fails.
    let Ok(text) = std::str::from_utf8(bytes) else {
        unreachable!()
    };
    match String::from_str(alloc, text) {
        Ok(text) => Ok(text),
        Err(_) => Err(Fault::OutOfMemory),
    }
}

/// Reads the next head, with the given room for its fields.
fn start_over<R: Read>(
    alloc: Global,
    reader: &mut Watched<R>,
    retries: &mut Retries,
    ahead: &mut Vec<u8>,
    fields: &mut [HeaderSpan],
) -> Result<Start, Fault>
    requires bound { vec_len ahead.old ≤ HEAD_BOUND }
    requires room { FIELD_ROOM ≤ length fields.old }
    ensures bound { vec_len ahead.new ≤ HEAD_BOUND }
    ensures start { IfOk result (Starts (unread ahead.old.items
        (watched_bytes R.remaining reader.old)) (unread ahead.new.items
        (watched_bytes R.remaining reader.new))) }
    ensures fault { IfErr result (IsHeadFault (unread ahead.old.items
        (watched_bytes R.remaining reader.old)) (watched_bytes R.remaining reader.new) reader.new) }
    ensures tries { Tries (retries_left retries.old) (retries_left retries.new) reader.old
        reader.new result }
{
    let spans = match read_head(reader, retries, ahead, fields)? {
        NextHead::Head(spans) => spans,
        NextHead::End => return Ok(Start::End),
        NextHead::Cut => return Ok(Start::Cut),
        NextHead::NoHead => return Ok(Start::Refused(HeadRefusal::BadRequest)),
        NextHead::TooLong => return Ok(Start::Refused(HeadRefusal::FieldsTooLarge)),
    };
    let framing = match find_framing(ahead, &spans, fields) {
        Ok(framing) => framing,
        Err(status) => return Ok(Start::Refused(status)),
    };
    let target = text_of(alloc, spans.path.of(ahead))?;
    drop_front(ahead, spans.len);
    Ok(Start::Head(framing, target))
}

/// Reads the next head of a stream, and checks it in the order of RFC 9112: its lines, its target,
/// Host, the framing of its body, its method. After a refused head the stream is read no further.
pub fn read_start<R: Read>(
    alloc: Global,
    reader: &mut Watched<R>,
    retries: &mut Retries,
    ahead: &mut Ahead,
) -> Result<Start, Fault>
    ensures start { IfOk result (Starts (unread ahead.old (watched_bytes R.remaining reader.old))
        (unread ahead.new (watched_bytes R.remaining reader.new))) }
    ensures fault { IfErr result (IsHeadFault (unread ahead.old
        (watched_bytes R.remaining reader.old)) (watched_bytes R.remaining reader.new) reader.new) }
    ensures tries { Tries (retries_left retries.old) (retries_left retries.new) reader.old
        reader.new result }
{
    start_over(alloc, reader, retries, &mut ahead.bytes, &mut ahead.fields)
}
