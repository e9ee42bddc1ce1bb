//! Serves one stream.
ghost use Rattle.std.specs.Prelude.{◌≡◌, ◌↔◌, [], None, Err, IsSome, IfErr, IfOk};
ghost use Rattle.ob_stream.specs.Retrying.{BothTryAnew};
ghost use Rattle.ob_stream.specs.Watching.{watched_bytes};
ghost use Rattle.ob_store.specs.Calls.{TellsFaults, WasClean};
ghost use Rattle.ob_store.specs.Keepers.{book_of};
ghost use Rattle.ob_http_requests.specs.Unread.{unread};
ghost use Rattle.ob_desk.specs.Serving.{Fails, Serves};
ghost use Rattle.ob_desk.specs.Standing.{IsKept, fault_of};

use crate::turn::{Turn, serve_turn};
use ob_base::Fault;
use ob_http_requests::Ahead;
use ob_http_routes::Routes;
use ob_store::{Alter, Keeper};
use ob_stream::{Retries, Watched};
use ob_sweep::Timeline;
use std::alloc::Global;
use std::io::{Read, Write};

/// The largest number of requests of one stream.
const MOST_REQUESTS: u32 = 1_000;

/// The result of serving a stream.
#[derive(Clone, Copy, Debug, PartialEq, Eq)]
pub struct Served {
    /// The number of replies, without interim ones. Refused bytes get a reply too.
    pub requests: u32,
}

/// Serves the requests of a stream from a keeper's book: reads them in order, answers each, and
/// writes its reply only after its commit. The stream ends after the reply to a request that closes
/// the connection, to the 1,000th request, or to refused bytes, and at the end of its bytes.
/// Interrupted reads and writes are repeated, 65,536 times in all.
///
/// # Errors
///
/// `Fault::Input` if the reader fails or the stream ends inside a request, `Fault::Output` if the
/// writer fails: the requests before it are answered, and a part of the current reply may be
/// written.
///
/// `Fault::OutOfMemory`, `Fault::Store`, and `Fault::Reopen` if a request needs the book and there
/// is none. If the fault came in place of an answer, 503 is written, completely unless the writer
/// fails. A command, or the rows of an import, may then be in the book without a reply.
pub fn serve_stream<R: Read, W: Write, S: Alter, T: Timeline>(
    alloc: Global,
    reader: &mut Watched<R>,
    writer: &mut Watched<W>,
    keeper: &mut Keeper<S, T>,
) -> Result<Served, Fault>
    ensures serves { IfOk result (λ served. Serves (watched_bytes R.remaining reader.old)
        (watched_bytes W.contents writer.old) (watched_bytes W.contents writer.new) keeper.old
        keeper.new served.requests) }
    ensures fails { IfErr result (Fails (watched_bytes R.remaining reader.old)
        (watched_bytes R.remaining reader.new) (watched_bytes W.contents writer.old)
        (watched_bytes W.contents writer.new) reader.new writer.new keeper.old keeper.new) }
    ensures clean { WasClean keeper.old keeper.new }
    ensures unopened { book_of keeper.old ≡ None → keeper.new ≡ keeper.old }
    ensures dropped { IsSome (book_of keeper.old) → (book_of keeper.new ≡ None)
        ↔ (result ≡ Err Fault.Store) }
    // no fault of the store is forgotten, row numbers and the step limit stay, and a store fault has
    // a cause
    ensures tells { TellsFaults keeper.old keeper.new (result ≡ Err Fault.Store) }
    // interrupted reads and writes are tried again, 65,536 times in all
    ensures tries { BothTryAnew reader.old reader.new writer.old writer.new result }
{
    let Ok(routes) = Routes::new(alloc) else {
        return Err(Fault::OutOfMemory);
    };
    let mut ahead = Ahead::new(alloc)?;
    serve_requests(alloc, &routes, reader, writer, keeper, &mut ahead)
}

/// Serves the requests of a stream of which nothing was read ahead.
fn serve_requests<R: Read, W: Write, S: Alter, T: Timeline>(
    alloc: Global,
    routes: &Routes,
    reader: &mut Watched<R>,
    writer: &mut Watched<W>,
    keeper: &mut Keeper<S, T>,
    ahead: &mut Ahead,
) -> Result<Served, Fault>
    requires { ahead.old ≡ [] }
    ensures serves { IfOk result (λ served. Serves (watched_bytes R.remaining reader.old)
        (watched_bytes W.contents writer.old) (watched_bytes W.contents writer.new) keeper.old
        keeper.new served.requests) }
    ensures fails { IfErr result (Fails (watched_bytes R.remaining reader.old)
        (watched_bytes R.remaining reader.new) (watched_bytes W.contents writer.old)
        (watched_bytes W.contents writer.new) reader.new writer.new keeper.old keeper.new) }
    ensures kept { IsKept keeper.old keeper.new (fault_of result) }
    ensures tells { TellsFaults keeper.old keeper.new (result ≡ Err Fault.Store) }
    ensures tries { BothTryAnew reader.old reader.new writer.old writer.new result }
{
    let mut retries = Retries::new();
    let mut allowed = MOST_REQUESTS;
    'requests: loop {
        match serve_turn(
            alloc,
            routes,
            reader,
            writer,
            keeper,
            &mut retries,
            ahead,
            allowed,
        )? {
            Turn::Closed => {
                return Ok(Served {
                    requests: MOST_REQUESTS - allowed,
                });
            }
            Turn::Refused => {
                return Ok(Served {
                    requests: MOST_REQUESTS - allowed + 1,
                });
            }
            Turn::Answered(ends) => {
                if ends {
                    return Ok(Served {
                        requests: MOST_REQUESTS - allowed + 1,
                    });
                }
                allowed -= 1;
            }
        }
    }
}
