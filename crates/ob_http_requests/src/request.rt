//! Whole requests.
ghost use Rattle.std.specs.Prelude.{◌≡◌, Err, OnOk, IfOk, IfErr, string_bytes};
ghost use Rattle.std.specs.Io.KnownBytes.{Appends};
ghost use Rattle.ob_stream.specs.Retrying.{BothTry, Tries};
ghost use Rattle.ob_stream.specs.Streams.{AppendsFront, retries_left};
ghost use Rattle.ob_stream.specs.Watching.{HasJustFailed, watched_bytes};
ghost use Rattle.ob_http_requests.specs.Continue.{interim_text};
ghost use Rattle.ob_http_requests.specs.Unread.{unread};
ghost use Rattle.ob_http_requests.specs.Reading.{Reads, Stops, StopsInRequest, TakesHeadAlone};

use crate::ahead::Ahead;
use crate::body::read_body;
use crate::framing::{Framing, HeadRefusal, Method};
use crate::start::{Start, read_start};
use ob_base::Fault;
use ob_stream::{Retries, Watched, write_text};
use std::alloc::Global;
use std::io::{Read, Write};

/// A request as it was read from the stream.
#[derive(Debug, Drop)]
pub struct Request {
    pub method: Method,
    /// The request target exactly as received; it begins with a slash.
    pub target: String,
    pub body: Vec<u8>,
    /// The client waited for an interim reply before it sent the body.
    pub waits: bool,
    /// The connection ends after the reply.
    pub closes: bool,
}

impl Request {
    ghost use Rattle.ob_http_requests.specs.Message.{path_of};

    /// The target up to its query (RFC 3986, section 3.4), exactly as received: nothing is decoded.
    pub fn path(&self) -> &str
        ensures { result.now ≡ path_of (string_bytes self.now.target) }
    {
        match self.target.split_once('?') {
            Some((path, _)) => path,
            None => &self.target,
        }
    }
}

/// What comes next in a stream.
#[derive(Debug, Drop)]
pub enum Next {
    Request(Request),
    /// Bytes that are answered with an error status. Nothing more is read after them.
    Refused(HeadRefusal),
    /// No more bytes: the stream has ended.
    End,
    /// The stream ends inside a request.
    Cut,
}

/// Writes the interim reply, if the client waits for it.
#[tactic(auto, unfolding(crate::specs::Continue::continue_text))]
fn write_interim<W: Write>(
    writer: &mut Watched<W>,
    retries: &mut Retries,
    waits: bool,
) -> Result<(), Fault>
    ensures whole { OnOk result (Appends (watched_bytes W.contents writer.old)
        (watched_bytes W.contents writer.new) (interim_text waits)) }
    ensures front { IfErr result (λ _. AppendsFront (watched_bytes W.contents writer.old)
        (watched_bytes W.contents writer.new) (interim_text waits)) }
    ensures fault { IfErr result (λ f. (f ≡ Fault.Output) × HasJustFailed writer.new) }
    ensures tries { Tries (retries_left retries.old) (retries_left retries.new) writer.old
        writer.new result }
{
    if waits {
        write_text(writer, retries, b"HTTP/1.1 100 Continue\r\n\r\n")
    } else {
        write_text(writer, retries, b"")
    }
}

/// Reads the next request, and writes the interim reply before the body if the client waits for
/// it. The bytes after the request stay unread. After anything but a request, nothing more is read.
pub fn read_request<R: Read, W: Write>(
    alloc: Global,
    reader: &mut Watched<R>,
    writer: &mut Watched<W>,
    retries: &mut Retries,
    ahead: &mut Ahead,
) -> Result<Next, Fault>
    ensures next { IfOk result (Reads (unread ahead.old (watched_bytes R.remaining reader.old))
        (unread ahead.new (watched_bytes R.remaining reader.new))
        (watched_bytes W.contents writer.old) (watched_bytes W.contents writer.new)) }
    ensures fault { IfErr result (Stops (unread ahead.old (watched_bytes R.remaining reader.old))
        (watched_bytes R.remaining reader.new) (watched_bytes W.contents writer.old)
        (watched_bytes W.contents writer.new) reader.new writer.new) }
    ensures failed { result ≡ Err Fault.Input → StopsInRequest
        (unread ahead.old (watched_bytes R.remaining reader.old))
        (watched_bytes R.remaining reader.new) }
    ensures unsent { result ≡ Err Fault.Output → TakesHeadAlone
        (unread ahead.old (watched_bytes R.remaining reader.old))
        (unread ahead.new (watched_bytes R.remaining reader.new)) }
    ensures tries { BothTry (retries_left retries.old) (retries_left retries.new) reader.old
        reader.new writer.old writer.new result }
{
    let (framing, target) = match read_start(alloc, reader, retries, ahead)? {
        Start::Head(framing, target) => (framing, target),
        Start::Refused(status) => return Ok(Next::Refused(status)),
        Start::End => return Ok(Next::End),
        Start::Cut => return Ok(Next::Cut),
    };
    write_interim(writer, retries, framing.waits)?;
    match read_body(alloc, reader, retries, ahead, framing.length as usize)? {
        Some(body) => Ok(Next::Request(Request {
            method: framing.method,
            target,
            body,
            waits: framing.waits,
            closes: framing.closes,
        })),
        None => Ok(Next::Cut),
    }
}
