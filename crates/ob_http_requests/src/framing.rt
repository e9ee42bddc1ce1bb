//! What a head requests of the connection.
ghost use Rattle.std.specs.Prelude.{◌≡◌, ◌≤◌, length, map, take, All, codes};
ghost use Rattle.httparse.specs.Grammar.{RequestHead};
ghost use Rattle.httparse.specs.Spans.{IsHeaderWithin, header_bytes, IsRequestWithin, IsRequestAt, span_bytes};
ghost use Rattle.ob_http_requests.specs.Fields.{values_of};
ghost use Rattle.ob_http_requests.specs.Framing.{is_origin_form, hosts_fit, content_length, method_of, body_length, waits, closes, framing_of};

use crate::field::{Named, has_option, is_said, value_named};
use httparse::spans::{HeaderSpan, RequestSpans};
use ob_base::read_number;

/// The most bytes that a body may have.
const BODY_BOUND: u64 = 4_194_304;

/// The methods that the server knows (RFC 9110, section 9.3).
#[derive(Clone, Copy, Debug, PartialEq, Eq)]
pub enum Method {
    Get,
    Post,
}

/// Why a head is refused, by the status of the answer (RFC 9110, section 15, and RFC 6585,
/// section 5).
#[derive(Clone, Copy, Debug, PartialEq, Eq)]
pub enum HeadRefusal {
    /// 400: no valid head, a target that isn't in origin form, a Host that is repeated or, in
    /// HTTP/1.1, missing, or a Content-Length that is repeated or invalid.
    BadRequest,
    /// 501: a transfer coding, or a method other than GET and POST.
    NotImplemented,
    /// 411: a POST without Content-Length.
    LengthRequired,
    /// 413: a body of more than 4,194,304 bytes.
    PayloadTooLarge,
    /// 431: a head of more than 16,384 bytes or 64 field lines.
    FieldsTooLarge,
}

/// What follows a request's head.
#[derive(Clone, Copy, Debug, PartialEq, Eq)]
pub struct Framing {
    pub method: Method,
    /// The length of the body in bytes, at most 4,194,304.
    pub length: u64,
    /// The client waits for an interim reply before it sends the body (RFC 9110, section 10.1.1).
    pub waits: bool,
    /// The connection ends after the reply (RFC 9112, section 9.3).
    pub closes: bool,
}

fn find_method(method: &[u8]) -> Option<Method>
    ensures { result ≡ method_of method.now }
{
    if method == b"GET".as_slice() {
        Some(Method::Get)
    } else if method == b"POST".as_slice() {
        Some(Method::Post)
    } else {
        None
    }
}

fn is_origin_form(target: &[u8]) -> bool
    ensures { result ≡ is_origin_form target.now }
{
    match target {
        [first, ..] => *first == b'/',
        [] => false,
    }
}

fn hosts_fit(bytes: &[u8], fields: &[HeaderSpan], version: u8) -> bool
    requires { All (IsHeaderWithin (length bytes.now)) fields.now }
    ensures { result ≡ hosts_fit version (values_of (codes "host")
        (map (header_bytes bytes.now) fields.now)) }
{
    match value_named(bytes, fields, b"host") {
        Named::Absent => version == 0,
        Named::Once(_) => true,
        Named::Several => false,
    }
}

fn find_length(bytes: &[u8], fields: &[HeaderSpan]) -> Result<Option<u64>, HeadRefusal>
    requires { All (IsHeaderWithin (length bytes.now)) fields.now }
    ensures { result ≡ content_length (values_of (codes "content-length")
        (map (header_bytes bytes.now) fields.now)) }
{
    match value_named(bytes, fields, b"content-length") {
        Named::Absent => Ok(None),
        Named::Once(value) => match read_number(value, 15, 0, 999_999_999_999_999) {
            Some(length) => Ok(Some(length)),
            None => Err(HeadRefusal::BadRequest),
        },
        Named::Several => Err(HeadRefusal::BadRequest),
    }
}

fn find_body(method: Option<Method>, length: Option<u64>) -> Result<(Method, u64), HeadRefusal>
    ensures { result ≡ body_length method length }
{
    let Some(method) = method else {
        return Err(HeadRefusal::NotImplemented);
    };
    let Some(length) = length else {
        return match method {
            Method::Get => Ok((method, 0)),
            Method::Post => Err(HeadRefusal::LengthRequired),
        };
    };
    if length > BODY_BOUND {
        return Err(HeadRefusal::PayloadTooLarge);
    }
    Ok((method, length))
}

fn waits(bytes: &[u8], fields: &[HeaderSpan], version: u8, body: u64) -> bool
    requires { All (IsHeaderWithin (length bytes.now)) fields.now }
    ensures { result ≡ waits version body (map (header_bytes bytes.now) fields.now) }
{
    version == 1 && body > 0 && is_said(bytes, fields, b"expect", b"100-continue")
}

fn closes(bytes: &[u8], fields: &[HeaderSpan], version: u8) -> bool
    requires { All (IsHeaderWithin (length bytes.now)) fields.now }
    ensures { result ≡ closes version (map (header_bytes bytes.now) fields.now) }
{
    version == 0 || has_option(bytes, fields, b"connection", b"close")
}

/// What a head requests, or the status that refuses it.
pub(crate) fn find_framing(
    bytes: &[u8],
    spans: &RequestSpans,
    fields: &[HeaderSpan],
) -> Result<Framing, HeadRefusal>
    requires { IsRequestWithin bytes.now fields.now spans.now }
    ensures { (head : RequestHead) → IsRequestAt bytes.now fields.now spans.now head
        → result ≡ framing_of head }
{
    let target = spans.path.of(bytes);
    let fields = &fields[..spans.headers];
    if fields.len() > 64 {
        return Err(HeadRefusal::FieldsTooLarge);
    }
    if !is_origin_form(target) || !hosts_fit(bytes, fields, spans.version) {
        return Err(HeadRefusal::BadRequest);
    }
    if !matches!(
        value_named(bytes, fields, b"transfer-encoding"),
        Named::Absent
    ) {
        return Err(HeadRefusal::NotImplemented);
    }
    let length = find_length(bytes, fields)?;
    let (method, length) = find_body(find_method(spans.method.of(bytes)), length)?;
    Ok(Framing {
        method,
        length,
        waits: waits(bytes, fields, spans.version, length),
        closes: closes(bytes, fields, spans.version),
    })
}
