//! One turn of a stream: reads a request and answers it, or ends the stream.
ghost use Rattle.std.specs.Prelude.{◌≡◌, Err, IfErr, IfOk};
ghost use Rattle.ob_stream.specs.Retrying.{BothTry};
ghost use Rattle.ob_stream.specs.Streams.{retries_left};
ghost use Rattle.ob_stream.specs.Watching.{watched_bytes};
ghost use Rattle.ob_store.specs.Calls.{TellsFaults};
ghost use Rattle.ob_http_requests.specs.Reading.{message_of};
ghost use Rattle.ob_http_requests.specs.Stream.{ends};
ghost use Rattle.ob_http_requests.specs.Unread.{unread};
ghost use Rattle.ob_desk.specs.Standing.{IsKept, fault_of};
ghost use Rattle.ob_desk.specs.Turns.{TurnFails, TurnIs};

use crate::reply::{head_status, reply_to};
use ob_base::Fault;
use ob_http_replies::empty_reply;
use ob_http_requests::{Ahead, Next, Request, read_request};
use ob_http_routes::Routes;
use ob_store::{Alter, Keeper};
use ob_stream::{Retries, Watched, write_text};
use ob_sweep::Timeline;
use std::alloc::Global;
use std::io::{Read, Write};

/// How a turn ended.
#[derive(Clone, Copy)]
pub(crate) enum Turn {
    /// A request was answered; true if the stream ends after it.
    Answered(bool),
    /// The bytes were refused, and the stream ends.
    Refused,
    /// The stream had ended.
    Closed,
}

/// Whether the stream ends after the reply to a request, if `allowed` requests are still allowed,
/// this one included.
fn ends_stream(request: &Request, allowed: u32) -> bool
    ensures { result ≡ ends allowed (message_of request.now) }
{
    request.closes || allowed == 1
}

/// Reads a request and answers it. The stream ends after the last allowed request, a request that
/// asks for it, or refused bytes.
pub(crate) fn serve_turn<R: Read, W: Write, S: Alter, T: Timeline>(
    alloc: Global,
    routes: &Routes,
    reader: &mut Watched<R>,
    writer: &mut Watched<W>,
    keeper: &mut Keeper<S, T>,
    retries: &mut Retries,
    ahead: &mut Ahead,
    allowed: u32,
) -> Result<Turn, Fault>
    ensures turn { IfOk result (TurnIs allowed (unread ahead.old
        (watched_bytes R.remaining reader.old)) (unread ahead.new
        (watched_bytes R.remaining reader.new)) (watched_bytes W.contents writer.old)
        (watched_bytes W.contents writer.new) keeper.old keeper.new) }
    ensures fails { IfErr result (TurnFails allowed (unread ahead.old
        (watched_bytes R.remaining reader.old)) (watched_bytes R.remaining reader.new)
        (watched_bytes W.contents writer.old) (watched_bytes W.contents writer.new) reader.new
        writer.new keeper.old keeper.new) }
    ensures kept { IsKept keeper.old keeper.new (fault_of result) }
    ensures tells { TellsFaults keeper.old keeper.new (result ≡ Err Fault.Store) }
    ensures tries { BothTry (retries_left retries.old) (retries_left retries.new) reader.old
        reader.new writer.old writer.new result }
{
    match read_request(alloc, reader, writer, retries, ahead)? {
        Next::End => Ok(Turn::Closed),
        Next::Cut => Err(Fault::Input),
        Next::Refused(refusal) => {
            write_text(writer, retries, empty_reply(head_status(refusal), true))?;
            Ok(Turn::Refused)
        }
        Next::Request(request) => {
            let ends = ends_stream(&request, allowed);
            reply_to(alloc, routes, writer, retries, keeper, &request, ends)?;
            Ok(Turn::Answered(ends))
        }
    }
}
