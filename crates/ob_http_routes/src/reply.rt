//! The bytes of a reply, constant or allocated.
ghost use Rattle.std.specs.Prelude.{◌≡◌, Some, Ok};
ghost use Rattle.ob_store.specs.Acting.{reply_as};
ghost use Rattle.ob_http_routes.specs.Answers.{answer_text, empty, found as found_of, outcome, refused as refused_of, report_answer};
ghost use Rattle.ob_http_routes.specs.Answering.{Makes, text_bytes};

use ob_base::{Fault, Refusal};
use ob_http_replies::{
    MediaType, Status, accepted_text, empty_reply, refusal_status, refused_text, reply_text,
    report_status, report_text,
};
use ob_import::ImportReport;
use ob_store::Reply;
use std::alloc::Global;

/// The bytes of a reply.
#[derive(Drop)]
pub enum ReplyText {
    /// A constant, which needs no allocation.
    Constant(&'static [u8]),
    /// An allocated reply.
    Made(Vec<u8>),
}

impl ReplyText {
    ghost use Rattle.std.specs.Prelude.{◌≡◌};
    ghost use Rattle.ob_http_routes.specs.Answering.{text_bytes};

    /// The bytes.
    pub fn bytes(&self) -> &[u8]
        ensures { result.now ≡ text_bytes self.now }
    {
        match self {
            ReplyText::Constant(text) => text,
            ReplyText::Made(text) => text,
        }
    }
}

/// The reply without a body.
pub(crate) fn bare_reply(status: Status, closes: bool) -> ReplyText
    ensures { text_bytes result ≡ answer_text (empty status) closes }
{
    ReplyText::Constant(empty_reply(status, closes))
}

/// The reply with a body.
fn with_body(
    alloc: Global,
    status: Status,
    media: MediaType,
    body: &[u8],
    closes: bool,
) -> Result<ReplyText, Fault>
    ensures { Makes (record { status = status; media = media; body = body.now }) closes result }
{
    match reply_text(alloc, status, media, body, closes) {
        Ok(text) => Ok(ReplyText::Made(text)),
        Err(_) => Err(Fault::OutOfMemory),
    }
}

/// The reply that shows a result.
pub(crate) fn shown_reply(
    alloc: Global,
    media: MediaType,
    body: &[u8],
    closes: bool,
) -> Result<ReplyText, Fault>
    ensures { Makes (found_of media (Some body.now)) closes result }
{
    with_body(alloc, Status::Ok, media, body, closes)
}

/// The reply to an accepted command.
pub(crate) fn accepted_reply(alloc: Global, reply: &Reply, closes: bool) -> Result<ReplyText, Fault>
    ensures { Makes (outcome (Ok (reply_as reply.now))) closes result }
{
    match accepted_text(alloc, reply.no, reply.moved.as_slice()) {
        Ok(body) => shown_reply(alloc, MediaType::Json, &body, closes),
        Err(_) => Err(Fault::OutOfMemory),
    }
}

/// The reply to a refused command.
pub(crate) fn refused_reply(
    alloc: Global,
    refusal: &Refusal,
    closes: bool,
) -> Result<ReplyText, Fault>
    ensures { Makes (refused_of refusal.now) closes result }
{
    match refused_text(alloc, refusal) {
        Ok(body) => with_body(
            alloc,
            refusal_status(refusal),
            MediaType::Json,
            &body,
            closes,
        ),
        Err(_) => Err(Fault::OutOfMemory),
    }
}

/// The reply to an import.
pub(crate) fn report_reply(
    alloc: Global,
    report: ImportReport,
    closes: bool,
) -> Result<ReplyText, Fault>
    ensures { Makes (report_answer report.added report.again report.stopped) closes result }
{
    match report_text(alloc, report.added, report.again, report.stopped) {
        Ok(body) => with_body(
            alloc,
            report_status(report.stopped),
            MediaType::Json,
            &body,
            closes,
        ),
        Err(_) => Err(Fault::OutOfMemory),
    }
}
