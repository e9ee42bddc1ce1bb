//! The replies without a body. They are constants and need no allocation.
ghost use Rattle.std.specs.Prelude.{◌≡◌, [], true, false};
ghost use Rattle.ob_http_replies.specs.Reply.{reply_text};
ghost use Rattle.ob_http_replies.specs.declared.reply.MediaType.{MediaType};

use crate::{Allow, Status};

/// Returns the bytes of a reply with an empty body, which has no media type. They equal those of
/// `reply_text`.
pub fn empty_reply(status: Status, closes: bool) -> &'static [u8]
    ensures { (media : MediaType) → result.now ≡ reply_text status media [] closes }
{
    if closes {
        last_reply(status)
    } else {
        further_reply(status)
    }
}

// A reply after which the stream stays open.
#[tactic(auto, unfolding(crate::proofs::OnLiterals::replies_on_literals))]
fn further_reply(status: Status) -> &'static [u8]
    ensures { (media : MediaType) → result.now ≡ reply_text status media [] false }
{
    match status {
        Status::Ok => b"HTTP/1.1 200 OK\r\nContent-Length: 0\r\n\r\n",
        Status::BadRequest => b"HTTP/1.1 400 Bad Request\r\nContent-Length: 0\r\n\r\n",
        Status::NotFound => b"HTTP/1.1 404 Not Found\r\nContent-Length: 0\r\n\r\n",
        Status::MethodNotAllowed(Allow::Get) =>
            b"HTTP/1.1 405 Method Not Allowed\r\nContent-Length: 0\r\nAllow: GET\r\n\r\n",
        Status::MethodNotAllowed(Allow::Post) =>
            b"HTTP/1.1 405 Method Not Allowed\r\nContent-Length: 0\r\nAllow: POST\r\n\r\n",
        Status::Conflict => b"HTTP/1.1 409 Conflict\r\nContent-Length: 0\r\n\r\n",
        Status::LengthRequired => b"HTTP/1.1 411 Length Required\r\nContent-Length: 0\r\n\r\n",
        Status::PayloadTooLarge => b"HTTP/1.1 413 Payload Too Large\r\nContent-Length: 0\r\n\r\n",
        Status::UnprocessableEntity =>
            b"HTTP/1.1 422 Unprocessable Entity\r\nContent-Length: 0\r\n\r\n",
        Status::RequestHeaderFieldsTooLarge =>
            b"HTTP/1.1 431 Request Header Fields Too Large\r\nContent-Length: 0\r\n\r\n",
        Status::NotImplemented => b"HTTP/1.1 501 Not Implemented\r\nContent-Length: 0\r\n\r\n",
        Status::ServiceUnavailable =>
            b"HTTP/1.1 503 Service Unavailable\r\nContent-Length: 0\r\n\r\n",
    }
}

// A reply after which the stream ends.
#[tactic(auto, unfolding(crate::proofs::OnLiterals::replies_on_literals))]
fn last_reply(status: Status) -> &'static [u8]
    ensures { (media : MediaType) → result.now ≡ reply_text status media [] true }
{
    match status {
        Status::Ok => b"HTTP/1.1 200 OK\r\nContent-Length: 0\r\nConnection: close\r\n\r\n",
        Status::BadRequest =>
            b"HTTP/1.1 400 Bad Request\r\nContent-Length: 0\r\nConnection: close\r\n\r\n",
        Status::NotFound =>
            b"HTTP/1.1 404 Not Found\r\nContent-Length: 0\r\nConnection: close\r\n\r\n",
        Status::MethodNotAllowed(Allow::Get) =>
            b"HTTP/1.1 405 Method Not Allowed\r\nContent-Length: 0\r\nAllow: GET\r\nConnection: close\r\n\r\n",
        Status::MethodNotAllowed(Allow::Post) =>
            b"HTTP/1.1 405 Method Not Allowed\r\nContent-Length: 0\r\nAllow: POST\r\nConnection: close\r\n\r\n",
        Status::Conflict =>
            b"HTTP/1.1 409 Conflict\r\nContent-Length: 0\r\nConnection: close\r\n\r\n",
        Status::LengthRequired =>
            b"HTTP/1.1 411 Length Required\r\nContent-Length: 0\r\nConnection: close\r\n\r\n",
        Status::PayloadTooLarge =>
            b"HTTP/1.1 413 Payload Too Large\r\nContent-Length: 0\r\nConnection: close\r\n\r\n",
        Status::UnprocessableEntity =>
            b"HTTP/1.1 422 Unprocessable Entity\r\nContent-Length: 0\r\nConnection: close\r\n\r\n",
        Status::RequestHeaderFieldsTooLarge =>
            b"HTTP/1.1 431 Request Header Fields Too Large\r\nContent-Length: 0\r\nConnection: close\r\n\r\n",
        Status::NotImplemented =>
            b"HTTP/1.1 501 Not Implemented\r\nContent-Length: 0\r\nConnection: close\r\n\r\n",
        Status::ServiceUnavailable =>
            b"HTTP/1.1 503 Service Unavailable\r\nContent-Length: 0\r\nConnection: close\r\n\r\n",
    }
}
