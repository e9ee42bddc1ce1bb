//! The bytes of a reply.
ghost use Rattle.std.specs.Prelude.{◌≡◌, IfErr, IfOk, string_bytes};
ghost use Rattle.ob_base.specs.Stop.{out_of_memory};
ghost use Rattle.ob_http_replies.specs.Reply.{status_line, content_type, content_length, allow, connection};
ghost use Rattle.ob_http_replies.specs.Reply as definition;

use crate::{Allow, Status};
use ob_base::Stop;
use std::alloc::{AllocError, Global};

/// The media type of a body, RFC 9110, section 8.3.1.
#[derive(Clone, Copy, PartialEq, Eq)]
pub enum MediaType {
    /// `application/json`.
    Json,
    /// `text/plain`.
    PlainText,
}

/// Returns the bytes of a reply, RFC 9112: the status line; `Content-Type` if the body isn't empty;
/// `Content-Length`; `Allow` for 405; `Connection: close` if the stream ends after it; an empty
/// line; the body. Fails only if an allocation fails.
pub fn reply_text(
    alloc: Global,
    status: Status,
    media_type: MediaType,
    body: &[u8],
    closes: bool,
) -> Result<Vec<u8>, Stop>
    ensures text { IfOk result (λ text. text.items
        ≡ definition.reply_text status media_type body.now closes) }
    ensures err { IfErr result (λ stop. stop ≡ out_of_memory) }
{
    let mut text = Vec::new(alloc);
    text.extend_from_slice(status_line(alloc, status)?.as_bytes())?;
    text.extend_from_slice(type_line(media_type, body).as_bytes())?;
    text.extend_from_slice(length_line(alloc, body)?.as_bytes())?;
    text.extend_from_slice(allow_line(status).as_bytes())?;
    text.extend_from_slice(connection_line(closes).as_bytes())?;
    text.extend_from_slice(b"\r\n")?;
    text.extend_from_slice(body)?;
    Ok(text)
}

#[tactic(auto, unfolding(crate::specs::Reply::status_line))]
fn status_line(alloc: Global, status: Status) -> Result<String, AllocError>
    ensures { IfOk result (λ line. string_bytes line ≡ status_line status) }
{
    let code = status.code();
    format!(in alloc; "HTTP/1.1 {code}\r\n")
}

#[tactic(auto, unfolding(crate::specs::Reply::content_type))]
fn type_line(media_type: MediaType, body: &[u8]) -> &'static str
    ensures { result.now ≡ content_type media_type body.now }
{
    if body.is_empty() {
        return "";
    }
    match media_type {
        MediaType::Json => "Content-Type: application/json\r\n",
        MediaType::PlainText => "Content-Type: text/plain\r\n",
    }
}

#[tactic(auto, unfolding(crate::specs::Reply::content_length))]
fn length_line(alloc: Global, body: &[u8]) -> Result<String, AllocError>
    ensures { IfOk result (λ line. string_bytes line ≡ content_length body.now) }
{
    let length = body.len();
    format!(in alloc; "Content-Length: {length}\r\n")
}

#[tactic(auto, unfolding(crate::specs::Reply::allow))]
fn allow_line(status: Status) -> &'static str
    ensures { result.now ≡ allow status }
{
    match status {
        Status::MethodNotAllowed(Allow::Get) => "Allow: GET\r\n",
        Status::MethodNotAllowed(Allow::Post) => "Allow: POST\r\n",
        _ => "",
    }
}

#[tactic(auto, unfolding(crate::specs::Reply::connection))]
fn connection_line(closes: bool) -> &'static str
    ensures { result.now ≡ connection closes }
{
    if closes { "Connection: close\r\n" } else { "" }
}
