//! The port at which a book is served.
ghost use Rattle.std.specs.Prelude.{◌≡◌, IfNone, IfOk, IfSome, string_bytes, ℕ};
ghost use Rattle.outagebook.specs.Ports.{IsGiven, IsLocal, TakesPort, TellsPort, port_line};

use crate::ending::write_all;
use ob_base::{Fault, Stop};
use ob_stream::Watched;
use std::alloc::{AllocError, Global};
use std::io::Write;
use std::net::{Ipv4Addr, SocketAddr, SocketAddrV4, TcpListener};

/// What gives a listener at an address.
pub(crate) trait Bind {
    ghost use Rattle.std.specs.Prelude.{ℕ, Option};
    ghost use Rattle.std.specs.declared.net.socket_addr.SocketAddrV4.{SocketAddrV4 as AnAddress};
    ghost use Rattle.std.specs.declared.net.tcp.TcpListener.{TcpListener as AListener};

    /// What binding an address changes, whether it gives a listener, with its port, or not.
    ghost binds: { Self → AnAddress → Option (AListener × ℕ) → Self → Type 0 };

    /// Binds an address. Returns the listener and its port, which is a free one for port 0.
    fn bind(&mut self, address: SocketAddrV4) -> Option<(TcpListener, u16)>
        ensures { binds self.old address result self.new };
}

/// The system's sockets.
#[derive(Drop)]
pub(crate) struct Sockets<'r> {
    pub(crate) rt: &'r HostRuntime,
}

impl Bind for Sockets<'_> {
    ghost use Rattle.outagebook.specs.Ports.{BindsAt};

    ghost binds = { BindsAt };

    fn bind(&mut self, address: SocketAddrV4) -> Option<(TcpListener, u16)> {
        let listener = TcpListener::bind(self.rt, address).ok()?;
        let bound = listener.local_addr().ok()?;
        let port = port_given(address, bound)?;
        Some((listener, port))
    }
}

/// Returns the port of an address that the system gave, if that is the address that was asked for.
fn port_given(asked: SocketAddrV4, given: SocketAddr) -> Option<u16>
    ensures port { IfSome result (IsGiven asked given) }
    ensures another { IfNone result ((port : ℕ) → ¬ (IsGiven asked given port)) }
{
    let SocketAddr::V4(given) = given else {
        return None;
    };
    let is_asked = *given.ip() == *asked.ip()
        && (asked.port() == 0 || given.port() == asked.port());
    if is_asked { Some(given.port()) } else { None }
}

/// The address 127.0.0.1, which only this machine reaches, with a port.
fn address_of(port: u16) -> SocketAddrV4
    ensures { IsLocal result port }
{
    SocketAddrV4::new(Ipv4Addr::LOCALHOST, port)
}

/// Takes a port of 127.0.0.1 and prints it. If the given port is 0, it takes a free one.
pub(crate) fn take_port<B: Bind, W: Write>(
    alloc: Global,
    sockets: &mut B,
    port: u16,
    out: &mut Watched<W>,
) -> Result<TcpListener, Stop>
    ensures { TakesPort W.contents B.binds sockets.old port out.old result sockets.new out.new }
{
    let Some((listener, bound)) = sockets.bind(address_of(port)) else {
        return Err(Stop::Fault(Fault::Input));
    };
    match tell_port(alloc, bound, out) {
        Ok(()) => Ok(listener),
        Err(stop) => Err(stop),
    }
}

/// Prints a port.
fn tell_port<W: Write>(alloc: Global, port: u16, out: &mut Watched<W>) -> Result<(), Stop>
    ensures { TellsPort W.contents out.old out.new port result }
{
    let line = line_of(alloc, port)?;
    match write_all(out, line.as_bytes()) {
        Ok(()) => Ok(()),
        Err(fault) => Err(Stop::Fault(fault)),
    }
}

/// The line that tells a port.
fn line_of(alloc: Global, port: u16) -> Result<String, AllocError>
    ensures { IfOk result (λ line. string_bytes line ≡ port_line port) }
{
    format!(in alloc; "listening 127.0.0.1:{port}\n")
}
