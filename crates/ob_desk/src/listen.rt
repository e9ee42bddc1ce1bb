//! Serves the streams of a listener, one after another.
ghost use Rattle.std.specs.Prelude.{◌≡◌, ◌↔◌, true, false, None, Err};
ghost use Rattle.ob_store.specs.Calls.{IfHeld, TellsFaults};
ghost use Rattle.ob_store.specs.Keepers.{book_of};
ghost use Rattle.ob_desk.specs.Crashes.{IsLeft};
ghost use Rattle.ob_desk.specs.Listening.{LeavesKeeper, ServesStreams, desk_end, has_failed, streams_left, unserved_fault};
ghost use Rattle.ob_desk.specs.Standing.{IsKept, fault_of};

use crate::listener::Listener;
use crate::stream::{Served, serve_stream};
use ob_base::Fault;
use ob_store::{Alter, Keeper};
use ob_stream::Watched;
use ob_sweep::Timeline;
use std::alloc::Global;
use std::net::TcpStream;

/// A log for the faults of single streams.
pub trait FaultLog {
    ghost use Rattle.ob_base.specs.declared.stop.Fault.{Fault as AFault};

    /// What a report changes in the log.
    ghost tells: { Self → AFault → Self → Type 0 };

    /// Reports the fault that ended a stream, after which the next stream is taken.
    fn tell(&mut self, fault: Fault)
        ensures { tells self.old fault self.new };
}

/// Why the desk ended before its last stream.
#[derive(Clone, Copy, Debug, PartialEq, Eq)]
pub enum Unserved {
    /// No stream could be taken.
    Listener,
    /// The store failed during the current stream.
    Store,
    /// A request needed the book, and there was none.
    Reopen,
}

impl Unserved {
    /// The fault as which it is reported.
    pub fn fault(self) -> Fault
        ensures { result ≡ unserved_fault self }
    {
        match self {
            Unserved::Listener => Fault::Input,
            Unserved::Store => Fault::Store,
            Unserved::Reopen => Fault::Reopen,
        }
    }
}

/// Serves as many streams of a listener as it has left, one after another, from a keeper's book. A
/// fault of one stream is reported to the log, and the next stream is taken.
///
/// # Errors
///
/// `Unserved::Store`, and `Unserved::Reopen` if a request needs the book and there is none, both
/// during the current stream; `Unserved::Listener` if no stream can be taken. Serving then ends,
/// and the log gets none of these.
pub fn run_serve<S: Alter, T: Timeline, L: FaultLog>(
    alloc: Global,
    listener: &mut Listener<'_>,
    keeper: &mut Keeper<S, T>,
    log: &mut L,
) -> Result<(), Unserved>
    ensures keeper { LeavesKeeper keeper.old keeper.new result }
    ensures failed { has_failed listener.old ≡ false → (has_failed listener.new ≡ true)
        ↔ (result ≡ Err Unserved.Listener) }
    ensures served { ServesStreams L.tells keeper.old keeper.new log.old log.new
        (streams_left listener.old) (streams_left listener.new) result }
    // no fault of the store is forgotten, row numbers and the step limit stay, and a store fault has
    // a cause
    ensures tells { TellsFaults keeper.old keeper.new (result ≡ Err Unserved.Store) }
{
    'serving: while listener.has_more() {
        let Some(stream) = listener.take() else {
            return Err(Unserved::Listener);
        };
        match serve_connection(alloc, &stream, keeper) {
            Ok(_) => {}
            Err(fault) => match desk_end(fault) {
                Some(end) => return Err(end),
                None => log.tell(fault),
            },
        }
    }
    Ok(())
}

/// Returns how the fault of a stream ends the desk, if it does: the keeper has no book, or no
/// longer has one.
fn desk_end(fault: Fault) -> Option<Unserved>
    ensures { result ≡ desk_end fault }
{
    match fault {
        Fault::Store => Some(Unserved::Store),
        Fault::Reopen => Some(Unserved::Reopen),
        Fault::OutOfMemory | Fault::Input | Fault::Output => None,
    }
}

/// Serves one stream of a listener. The contracts don't cover its bytes.
fn serve_connection<S: Alter, T: Timeline>(
    alloc: Global,
    stream: &TcpStream,
    keeper: &mut Keeper<S, T>,
) -> Result<Served, Fault>
    ensures kept { IsKept keeper.old keeper.new (fault_of result) }
    ensures tells { TellsFaults keeper.old keeper.new (result ≡ Err Fault.Store) }
    ensures reopen { result ≡ Err Fault.Reopen → book_of keeper.old ≡ None }
    ensures left { IfHeld keeper.old keeper.new (λ b. IsLeft keeper.new b (fault_of result)) }
{
    // A reply doesn't wait until the client has acknowledged the one before it. If the system
    // refuses this, replies are only later.
    let _ = stream.set_nodelay(true);
    let mut reader = Watched::new(stream);
    let mut writer = Watched::new(stream);
    serve_stream(alloc, &mut reader, &mut writer, keeper)
}
