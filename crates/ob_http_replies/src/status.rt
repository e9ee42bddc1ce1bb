//! The status codes of replies, RFC 9110, section 15.
ghost use Rattle.std.specs.Prelude.{◌≡◌};
ghost use Rattle.ob_http_replies.specs.Status.{refusal_status as the_refusal_status, report_status as the_report_status};

use http::StatusCode;
use ob_base::Refusal;

/// The method that a route takes: the value of the field `Allow`, RFC 9110, section 10.2.1.
#[derive(Clone, Copy, PartialEq, Eq)]
pub enum Allow {
    Get,
    Post,
}

/// The status of a reply.
#[derive(Clone, Copy, PartialEq, Eq)]
pub enum Status {
    /// 200: done.
    Ok,
    /// 400: the head can't be read.
    BadRequest,
    /// 404: there is no such route, entry or command.
    NotFound,
    /// 405: the route takes only this method.
    MethodNotAllowed(Allow),
    /// 409: refused because of what the book holds.
    Conflict,
    /// 411: a POST without a length.
    LengthRequired,
    /// 413: the body is too long.
    PayloadTooLarge,
    /// 422: refused because of the command itself.
    UnprocessableEntity,
    /// 431: the head is too long.
    RequestHeaderFieldsTooLarge,
    /// 501: another method, or a transfer coding.
    NotImplemented,
    /// 503: a fault.
    ServiceUnavailable,
}

impl Status {
    ghost use Rattle.std.specs.Prelude.{◌≡◌};
    ghost use Rattle.ob_http_replies.specs.Status.{status_code};

    /// The numeric code.
    pub(crate) fn code(&self) -> StatusCode
        ensures { result ≡ status_code self.now }
    {
        match self {
            Status::Ok => StatusCode::OK,
            Status::BadRequest => StatusCode::BAD_REQUEST,
            Status::NotFound => StatusCode::NOT_FOUND,
            Status::MethodNotAllowed(_) => StatusCode::METHOD_NOT_ALLOWED,
            Status::Conflict => StatusCode::CONFLICT,
            Status::LengthRequired => StatusCode::LENGTH_REQUIRED,
            Status::PayloadTooLarge => StatusCode::PAYLOAD_TOO_LARGE,
            Status::UnprocessableEntity => StatusCode::UNPROCESSABLE_ENTITY,
            Status::RequestHeaderFieldsTooLarge => StatusCode::REQUEST_HEADER_FIELDS_TOO_LARGE,
            Status::NotImplemented => StatusCode::NOT_IMPLEMENTED,
            Status::ServiceUnavailable => StatusCode::SERVICE_UNAVAILABLE,
        }
    }
}

/// Returns the status of the reply to a refused command: 409 if the present content of the book is
/// the reason, 422 if the command itself is.
pub fn refusal_status(refusal: &Refusal) -> Status
    ensures { result ≡ the_refusal_status refusal.now }
{
    match refusal {
        Refusal::NameTaken
        | Refusal::Stale(_)
        | Refusal::Withdrawn
        | Refusal::RefConflict(_)
        | Refusal::MarkedAlready
        | Refusal::NotMarked => Status::Conflict,
        _ => Status::UnprocessableEntity,
    }
}

/// Returns the status of the reply to an import: 200 if each row was accepted, 422 if a refusal
/// stopped it.
pub fn report_status(stopped: Option<(u32, Refusal)>) -> Status
    ensures { result ≡ the_report_status stopped }
{
    match stopped {
        None => Status::Ok,
        Some(_) => Status::UnprocessableEntity,
    }
}
