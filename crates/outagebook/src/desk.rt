//! The job that serves a book over HTTP.
ghost use Rattle.std.specs.Prelude.{◌≡◌};
ghost use Rattle.outagebook.specs.Serving.{stop_of_end};

use crate::ending::tell_stop;
use crate::port::{Bind, Sockets, take_port};
use ob_base::{Fault, Stop};
use ob_desk::{FaultLog, Listener, Unserved, run_serve};
use ob_jobs::ServeBook;
use ob_store::{Alter, Keeper};
use ob_stream::Watched;
use ob_sweep::Timeline;
use std::alloc::Global;
use std::io::{Stderr, Stdout, Write};
use std::net::TcpListener;

/// Prints the faults that ended streams.
#[derive(Drop)]
pub(crate) struct Complaints<E> {
    alloc: Global,
    err: Watched<E>,
}

impl<E: Write> FaultLog for Complaints<E> {
    ghost use Rattle.outagebook.specs.Serving.{TellsFault};

    ghost tells = { TellsFault E.contents };

    fn tell(&mut self, fault: Fault) {
        tell_stop(self.alloc, &Stop::Fault(fault), None, &mut self.err);
    }
}

/// Serves a book over HTTP at a port of 127.0.0.1, a given number of streams one after another, and
/// prints the port. If the given port is 0, it takes a free one.
#[derive(Drop)]
pub(crate) struct Server<B, O, E> {
    sockets: B,
    port: u16,
    streams: u64,
    out: Watched<O>,
    log: Complaints<E>,
}

/// The server over the system's sockets, which prints its port on standard output and faults on
/// standard error.
pub(crate) type SocketServer<'r> = Server<Sockets<'r>, Stdout, Stderr>;

impl SocketServer<'_> {
    /// The server of so many streams at a port.
    pub(crate) fn new(rt: &HostRuntime, port: u16, streams: u64) -> SocketServer<'_>
        ensures port { result.port ≡ port }
        ensures streams { result.streams ≡ streams }
    {
        Server {
            sockets: Sockets { rt },
            port,
            streams,
            out: Watched::new(rt.stdout()),
            log: Complaints {
                alloc: rt.alloc(),
                err: Watched::new(rt.stderr()),
            },
        }
    }
}

impl<B: Bind, O: Write, E: Write> ServeBook for Server<B, O, E> {
    ghost use Rattle.std.specs.Prelude.{◌≡◌};
    ghost use Rattle.outagebook.specs.Ports.{TakesPort};
    ghost use Rattle.outagebook.specs.Serving.{ServesDesk, TellsFault};

    type Port = TcpListener;

    ghost takes = { λ old result new. (new ≡ record old { sockets = new.sockets; out = new.out })
        × TakesPort O.contents B.binds old.sockets old.port old.out result new.sockets new.out };

    ghost serves = { λ old _ keeper result left new. (new ≡ record old { log = new.log })
        × ServesDesk (TellsFault E.contents) old.streams keeper left old.log new.log result };

    fn take(&mut self) -> Result<TcpListener, Stop> {
        take_port(self.log.alloc, &mut self.sockets, self.port, &mut self.out)
    }

    fn serve<S: Alter, T: Timeline>(
        &mut self,
        port: TcpListener,
        keeper: &mut Keeper<S, T>,
    ) -> Result<(), Stop> {
        let mut listener = Listener::new(&port, self.streams);
        stop_of(run_serve(self.log.alloc, &mut listener, keeper, &mut self.log))
    }
}

/// Returns how the end of the desk ends the job.
fn stop_of(end: Result<(), Unserved>) -> Result<(), Stop>
    ensures { result ≡ stop_of_end end }
{
    match end {
        Ok(()) => Ok(()),
        Err(end) => Err(Stop::Fault(end.fault())),
    }
}
