//! Finding a request's head in the bytes already read.
ghost use Rattle.std.specs.Prelude.{◌≡◌, ◌≤◌, length, OnOk, IfOk, IfErr, IfSome, vec_len};
ghost use Rattle.std.specs.Io.KnownBytes.{Keeps};
ghost use Rattle.httparse.specs.Grammar.{NeverHasRequest};
ghost use Rattle.httparse.specs.Spans.{IsRequestWithin, IsRequestOf};
ghost use Rattle.ob_stream.specs.Retrying.{Tries};
ghost use Rattle.ob_stream.specs.Streams.{retries_left};
ghost use Rattle.ob_stream.specs.Watching.{watched_bytes};
ghost use Rattle.ob_http_requests.specs.Unread.{unread};
ghost use Rattle.ob_http_requests.specs.Head.{IsUnfinished, IfWhole, IfHead, BeginsWith};
ghost use Rattle.ob_http_requests.specs.Reading.{IsHeadFault};

use crate::ahead::{FIELD_ROOM, HEAD_BOUND, read_ahead};
use httparse::Status;
use httparse::spans::{HeaderSpan, RequestSpans, parse_request};
use ob_base::Fault;
use ob_stream::{Retries, Watched};
use std::io::Read;

/// The result of parsing the bytes read so far.
#[derive(Clone, Copy)]
pub(crate) enum Parsed {
    Whole(RequestSpans),
    Unfinished,
    Refused,
}

/// Parses the bytes read so far.
pub(crate) fn parse_head(bytes: &[u8], fields: &mut [HeaderSpan]) -> Parsed
    requires bound { length bytes.now ≤ HEAD_BOUND }
    requires room { FIELD_ROOM ≤ length fields.old }
    ensures within { IfWhole result (IsRequestWithin bytes.now fields.new) }
    ensures whole { IfWhole result (IsRequestOf bytes.now fields.new) }
    ensures unfinished { result ≡ Parsed.Unfinished → IsUnfinished bytes.now }
    ensures refused { result ≡ Parsed.Refused → NeverHasRequest bytes.now }
{
    match parse_request(bytes, fields) {
        Ok(Status::Complete(spans)) => Parsed::Whole(spans),
        Ok(Status::Partial) => Parsed::Unfinished,
        Err(_) => Parsed::Refused,
    }
}

/// What comes next in a stream.
#[derive(Clone, Copy)]
pub(crate) enum NextHead {
    Head(RequestSpans),
    /// No more bytes: the stream has ended.
    End,
    /// The beginning of a head; the stream ends inside it.
    Cut,
    /// Bytes with which no head begins.
    NoHead,
    /// A head longer than the bound.
    TooLong,
}

/// Reads until it is clear what comes next in the stream.
pub(crate) fn read_head<R: Read>(
    reader: &mut Watched<R>,
    retries: &mut Retries,
    ahead: &mut Vec<u8>,
    fields: &mut [HeaderSpan],
) -> Result<NextHead, Fault>
    requires bound { vec_len ahead.old ≤ HEAD_BOUND }
    requires room { FIELD_ROOM ≤ length fields.old }
    ensures bound { vec_len ahead.new ≤ HEAD_BOUND }
    ensures same { OnOk result (Keeps (unread ahead.old.items
        (watched_bytes R.remaining reader.old)) (unread ahead.new.items
        (watched_bytes R.remaining reader.new))) }
    ensures next { IfOk result (λ next. IfSome (unread ahead.old.items
        (watched_bytes R.remaining reader.old)) (λ bytes. BeginsWith bytes next)) }
    ensures within { IfOk result (λ next. IfHead next (IsRequestWithin ahead.new.items fields.new)) }
    ensures head { IfOk result (λ next. IfHead next (IsRequestOf ahead.new.items fields.new)) }
    ensures fault { IfErr result (IsHeadFault (unread ahead.old.items
        (watched_bytes R.remaining reader.old)) (watched_bytes R.remaining reader.new) reader.new) }
    ensures tries { Tries (retries_left retries.old) (retries_left retries.new) reader.old
        reader.new result }
{
    'pieces: loop {
        match parse_head(ahead, fields) {
            Parsed::Whole(spans) => return Ok(NextHead::Head(spans)),
            Parsed::Refused => return Ok(NextHead::NoHead),
            Parsed::Unfinished => {}
        }
        if ahead.len() == HEAD_BOUND {
            return Ok(NextHead::TooLong);
        }
        if !read_ahead(reader, retries, ahead)? {
            return Ok(if ahead.is_empty() {
                NextHead::End
            } else {
                NextHead::Cut
            });
        }
    }
}
