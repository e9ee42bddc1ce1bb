//! Tests of heads that are refused, streams that end, and the interim reply.
use crate::desk::{Stream, over_a_book};
use crate::exchange::Streams;
use crate::script::{Ask, Reply, Row, are_answered};
use crate::streams::{WHOLE, Ways};
use crate::texts::{FIRST, LAST_NOTHING, STORM};
use ob_base::Fault;
use std::alloc::AllocError;

const BAD_REQUEST: &'static [u8] =
    b"HTTP/1.1 400 Bad Request\r\nContent-Length: 0\r\nConnection: close\r\n\r\n";

const NOT_IMPLEMENTED: &'static [u8] =
    b"HTTP/1.1 501 Not Implemented\r\nContent-Length: 0\r\nConnection: close\r\n\r\n";

const LENGTH_REQUIRED: &'static [u8] =
    b"HTTP/1.1 411 Length Required\r\nContent-Length: 0\r\nConnection: close\r\n\r\n";

const PAYLOAD_TOO_LARGE: &'static [u8] =
    b"HTTP/1.1 413 Payload Too Large\r\nContent-Length: 0\r\nConnection: close\r\n\r\n";

const FIELDS_TOO_LARGE: &'static [u8] =
    b"HTTP/1.1 431 Request Header Fields Too Large\r\nContent-Length: 0\r\nConnection: close\r\n\r\n";

// A request after which the stream ends, although another one follows; and its reply.
fn last(request: &'static [u8], reply: &'static [u8]) -> Row {
    (Ask::Last(request), Ok(1), Reply::Text(reply))
}

// Requests that are refused because of their heads, which ends the stream: one for each status, the
// last with a line whose first 16,384 bytes have no end. Other heads are those of
// `requests/heads.rt`.
#[test]
fn heads_that_are_refused(rt: HostRuntime) -> Result<(), AllocError> {
    let chunked =
        b"POST /commands HTTP/1.1\r\nHost: a\r\nTransfer-Encoding: chunked\r\n\r\n0\r\n\r\n";
    let large = b"POST /commands HTTP/1.1\r\nHost: a\r\nContent-Length: 4194305\r\n\r\n";
    let rows = &[
        last(b"GET /totals HTTP/1.1\r\n\r\n", BAD_REQUEST),
        last(chunked, NOT_IMPLEMENTED),
        last(
            b"POST /commands HTTP/1.1\r\nHost: a\r\n\r\n",
            LENGTH_REQUIRED,
        ),
        last(large, PAYLOAD_TOO_LARGE),
        last(
            b"DELETE /totals HTTP/1.1\r\nHost: a\r\n\r\n",
            NOT_IMPLEMENTED,
        ),
        (
            Ask::Many((b"GET /", b"a", 16_379, b"")),
            Ok(1),
            Reply::Text(FIELDS_TOO_LARGE),
        ),
    ];
    are_answered(&rt, rt.alloc(), rows, 0)
}

const TOTALS: &'static [u8] = b"GET /totals HTTP/1.1\r\nHost: a\r\n\r\n";

// The totals of a book without an outage.
const NOTHING: &'static [u8] = b"\
HTTP/1.1 200 OK\r\nContent-Type: application/json\r\nContent-Length: 43\r\n\r\n\
{\"cause\":[],\"day\":[],\"feeder\":[],\"total\":0}";

// The 1,000th reply is the last, and the desk doesn't read what follows it.
const THOUSAND: &[Row] = &[(
    Ask::Many((b"", TOTALS, 1_001, b"")),
    Ok(1_000),
    Reply::Many((b"", NOTHING, 999, LAST_NOTHING)),
)];

#[test]
fn a_thousand_requests(rt: HostRuntime) -> Result<(), AllocError> {
    are_answered(&rt, rt.alloc(), THOUSAND, 0)
}

#[test]
fn requests_that_end_the_stream(rt: HostRuntime) -> Result<(), AllocError> {
    let closing = b"GET /totals HTTP/1.1\r\nHost: a\r\nConnection: close\r\n\r\n";
    let old = b"GET /totals HTTP/1.0\r\n\r\n";
    let rows = &[last(closing, LAST_NOTHING), last(old, LAST_NOTHING)];
    are_answered(&rt, rt.alloc(), rows, 0)
}

const WAITING: &'static [u8] = b"\
POST /commands HTTP/1.1\r\nHost: localhost\r\nContent-Length: 49\r\nExpect: 100-Continue\r\n\r\n";

const BODY: &'static [u8] = b"{\"kind\":\"cause\",\"ref\":\"R1\",\"f1\":\"3\",\"f2\":\"STORM\"}";

// The same without its last byte.
const CUT_BODY: &'static [u8] = b"{\"kind\":\"cause\",\"ref\":\"R1\",\"f1\":\"3\",\"f2\":\"STORM\"";

const CONTINUE: &'static [u8] = b"HTTP/1.1 100 Continue\r\n\r\n";

// A client waits for the interim reply, and its stream is cut off.
const CUT_OFF: Row = (
    Ask::Many((WAITING, CUT_BODY, 1, b"")),
    Err(Fault::Input),
    Reply::Text(CONTINUE),
);

const CUT: &[Row] = &[CUT_OFF];

// Another client waits and sends its whole body.
const WAITS: &[Row] = &[
    CUT_OFF,
    (
        Ask::Many((WAITING, BODY, 1, b"")),
        Ok(1),
        Reply::Many((CONTINUE, FIRST, 1, b"")),
    ),
];

#[test]
fn the_interim_reply(rt: HostRuntime) -> Result<(), AllocError> {
    are_answered(&rt, rt.alloc(), CUT, 0)?;
    are_answered(&rt, rt.alloc(), WAITS, 1)
}

// A writer takes all but the last byte of the interim reply.
#[test]
fn an_interim_reply_that_breaks_off(rt: HostRuntime) -> Result<(), AllocError> {
    let rows = &[Stream {
        text: WAITING,
        way: Ways { room: 24, ..WHOLE },
        end: Err(Fault::Output),
        written: &CONTINUE[..24],
        commands: Some(0),
    }];
    over_a_book(&rt, rt.alloc(), &Streams { rows, commands: 0 })
}

// Two requests that can't be answered with 200.
const TWO: &'static [u8] = b"\
POST /totals HTTP/1.1\r\nHost: a\r\nContent-Length: 0\r\n\r\n\
GET /nothing HTTP/1.1\r\nHost: a\r\n\r\n";

const REFUSALS: &'static [u8] = b"\
HTTP/1.1 405 Method Not Allowed\r\nContent-Length: 0\r\nAllow: GET\r\n\r\n\
HTTP/1.1 404 Not Found\r\nContent-Length: 0\r\n\r\n";

// A stream goes on after them.
const GOES_ON: &[Row] = &[(
    Ask::Many((TWO, STORM, 1, b"")),
    Ok(3),
    Reply::Many((REFUSALS, FIRST, 1, b"")),
)];

#[test]
fn a_stream_goes_on(rt: HostRuntime) -> Result<(), AllocError> {
    are_answered(&rt, rt.alloc(), GOES_ON, 1)
}
