//! Tests of the requests that heads make, and of heads that are refused.
use crate::requests::reading::{are_read, is_read};
use crate::script::Many;
use crate::streams::pieces;
use crate::texts::{STORM, request};
use ob_http_requests::Method;
use std::alloc::{AllocError, Global};
use std::process::Abort;

// Bytes of a stream, with `|` for CRLF, and how they are read.
const HEADS: &'static str = "\
| => cut
 => end
GET /totals HTTP/1.1|Host: a|| => GET /totals 0;end
|GET /a?b=%20 HTTP/1.1|HOST:|| => GET /a?b=%20 0;end
GET /totals HTTP/1.0||x => GET /totals 0 closes;
GET /totals HTTP/1.1|| => 400
GET /totals HTTP/1.1|Host: a|host: a|| => 400
GET /totals HTTP/1.0|Host: a|Host: a|| => 400
GET http://localhost/totals HTTP/1.1|Host: a|| => 400
POST /commands HTTP/1.1|Host: a|Transfer-Encoding: chunked|| => 501
POST /commands HTTP/1.1|Host: a|Content-Length: 0|Content-Length: 0|| => 400
POST /commands HTTP/1.1|Host: a|Content-Length: +5||12345 => 400
POST /commands HTTP/1.1|Host: a|Content-Length: 5, 5||12345 => 400
POST /commands HTTP/1.1|Host: a|Content-Length:|| => 400
POST /c HTTP/1.1|Host: a|Content-Length: \t000000000000005 ||12345 => POST /c 5;end
POST /c HTTP/1.1|Host: a|Content-Length: 0000000000000005||12345 => 400
POST /commands HTTP/1.1|Host: a|| => 411
POST /commands HTTP/1.1|Host: a|Content-Length: 4194305|| => 413
GET /totals HTTP/1.1|Host: a|Content-Length: 4194305|| => 413
DELETE /totals HTTP/1.1|Host: a|| => 501
DELETE /totals HTTP/1.1|Host: a|Content-Length: -1|| => 400
get /totals HTTP/1.1|Host: a|| => 501
GET /totals HTTP/2.0|Host: a|| => 400
GET /a HTTP/1.1|Host: a|Connection: keep-alive,\tClose||x => GET /a 0 closes;
GET /a HTTP/1.1|Host: a|Connection: x|Connection: close||x => GET /a 0 closes;
GET /a HTTP/1.1|Host: a|Connection: closed, close x|| => GET /a 0;end
POST /c HTTP/1.1|Host: a|Expect: x|Expect: 100-Continue|Content-Length: 1||1 => POST /c 1 waits;endHTTP/1.1 100 Continue||
POST /c HTTP/1.1|Host: a|Expect: 100-continue|Content-Length: 2||1 => cutHTTP/1.1 100 Continue||
POST /c HTTP/1.1|Host: a|Expect: 100-continue|Content-Length: 0|| => POST /c 0;end
POST /c HTTP/1.0|Expect: 100-continue|Content-Length: 1||1 => POST /c 1 closes;
";

#[test]
fn heads(rt: HostRuntime) -> Result<(), AllocError> {
    for line in HEADS.lines() {
        let line = line.replace(rt.alloc(), "|", "\r\n")?;
        let (bytes, told) = line.split_once(" => ").unwrap_or(("", ""));
        for step in [4096, 1] {
            are_read(&rt, rt.alloc(), bytes.as_bytes(), &pieces(step), told)?;
        }
    }
    Ok(())
}

/// Texts with a repeated middle part, and how they are read: three requests, one with LF alone; then
/// heads with 64 field lines and 65, with 16,383 bytes of a head and 16,384 that don't end it, and
/// with 16,384 bytes that do and one more.
const BOUNDS: &[(Many, &'static str)] = &[
    (
        (STORM, b"GET /totals HTTP/1.1\nHost: a\n\n", 1, STORM),
        "POST /commands 49;GET /totals 0;POST /commands 49;end",
    ),
    (
        (b"GET /a HTTP/1.1\r\nHost: a\r\n", b"A:\r\n", 63, b"\r\n"),
        "GET /a 0;end",
    ),
    (
        (b"GET /a HTTP/1.1\r\nHost: a\r\n", b"A:\r\n", 64, b"\r\n"),
        "431",
    ),
    ((b"GET /", b"a", 16_378, b""), "cut"),
    ((b"GET /", b"a", 16_379, b""), "431"),
    (
        (b"GET /a HTTP/1.1\r\nHost: ", b"a", 16_357, b"\r\n\r\n"),
        "GET /a 0;end",
    ),
    (
        (b"GET /a HTTP/1.1\r\nHost: ", b"a", 16_358, b"\r\n\r\n"),
        "431",
    ),
];

#[test]
fn heads_at_the_bounds(rt: HostRuntime) -> Result<(), AllocError> {
    for (parts, told) in BOUNDS {
        is_read(&rt, rt.alloc(), parts, &pieces(4_096), told)?;
    }
    Ok(())
}

fn has_path(rt: &impl Abort, alloc: Global, target: &str, path: &str) -> Result<(), AllocError> {
    let request = request(alloc, Method::Get, target, "")?;
    assert!(rt; request.path() == path);
    Ok(())
}

#[test]
fn paths(rt: HostRuntime) -> Result<(), AllocError> {
    for (target, path) in [
        ("/a", "/a"),
        ("/a?b=%20", "/a"),
        ("/%3F?", "/%3F"),
        ("/?/?", "/"),
    ] {
        has_path(&rt, rt.alloc(), target, path)?;
    }
    Ok(())
}
