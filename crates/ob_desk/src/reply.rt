//! Replies to one request, or to bytes that are no request.
ghost use Rattle.std.specs.Prelude.{◌≡◌, Err, IfErr, OnOk};
ghost use Rattle.ob_stream.specs.Retrying.{Tries};
ghost use Rattle.ob_stream.specs.Streams.{retries_left};
ghost use Rattle.ob_stream.specs.Watching.{watched_bytes};
ghost use Rattle.ob_http_requests.specs.Reading.{message_of};
ghost use Rattle.ob_store.specs.Calls.{TellsFaults};
ghost use Rattle.ob_desk.specs.Exchanges.{head_status};
ghost use Rattle.ob_desk.specs.Standing.{IsKept, fault_of};
ghost use Rattle.ob_desk.specs.Turns.{HasAnswerCause, IsAnswered, IsUnanswered};

use ob_base::Fault;
use ob_http_replies::{Status, empty_reply};
use ob_http_requests::{HeadRefusal, Request};
use ob_http_routes::{Routes, answer};
use ob_store::{Alter, Keeper};
use ob_stream::{Retries, Watched, write_text};
use ob_sweep::Timeline;
use std::alloc::Global;
use std::io::Write;

/// Returns the status that answers a refused head.
pub(crate) fn head_status(refusal: HeadRefusal) -> Status
    ensures { result ≡ head_status refusal }
{
    match refusal {
        HeadRefusal::BadRequest => Status::BadRequest,
        HeadRefusal::NotImplemented => Status::NotImplemented,
        HeadRefusal::LengthRequired => Status::LengthRequired,
        HeadRefusal::PayloadTooLarge => Status::PayloadTooLarge,
        HeadRefusal::FieldsTooLarge => Status::RequestHeaderFieldsTooLarge,
    }
}

/// Answers a request and writes its reply. `ends` decides whether the reply states that the stream
/// ends. If the request can't be answered, writes 503 as far as possible, which needs no
/// allocation.
pub(crate) fn reply_to<W: Write, S: Alter, T: Timeline>(
    alloc: Global,
    routes: &Routes,
    writer: &mut Watched<W>,
    retries: &mut Retries,
    keeper: &mut Keeper<S, T>,
    request: &Request,
    ends: bool,
) -> Result<(), Fault>
    ensures answered { OnOk result (IsAnswered (watched_bytes W.contents writer.old)
        (watched_bytes W.contents writer.new) keeper.old keeper.new (message_of request.now) ends) }
    ensures unanswered { IfErr result (IsUnanswered writer.new (watched_bytes W.contents writer.old)
        (watched_bytes W.contents writer.new) keeper.old keeper.new (message_of request.now) ends) }
    ensures cause { IfErr result (HasAnswerCause writer.new keeper.old) }
    ensures kept { IsKept keeper.old keeper.new (fault_of result) }
    ensures tells { TellsFaults keeper.old keeper.new (result ≡ Err Fault.Store) }
    ensures tries { Tries (retries_left retries.old) (retries_left retries.new) writer.old
        writer.new result }
{
    match answer(alloc, routes, keeper, request, ends) {
        Ok(text) => write_text(writer, retries, text.bytes()),
        Err(fault) => {
            // This fault ends the stream, whether or not the client receives the reply.
            let _ = write_text(
                writer,
                retries,
                empty_reply(Status::ServiceUnavailable, true),
            );
            Err(fault)
        }
    }
}
