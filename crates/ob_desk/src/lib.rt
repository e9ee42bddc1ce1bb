//! The desk: the book's HTTP/1.1 server (RFC 9112). It serves a keeper's book, one stream after
//! another.
//!
//! Serves one stream, and the streams of a listener. Promises that the bytes written are the
//! replies to the requests in the bytes of the stream, in order, each after its commit, however the
//! stream is split into reads. States which bytes are written and what the book is if a fault ends
//! the stream. The program `outagebook` uses this crate.
#![tactic(auto)]

mod laws;
mod listen;
mod listener;
mod reply;
mod stream;
mod turn;

pub use laws::replies_law;
pub use listen::{FaultLog, Unserved, run_serve};
pub use listener::Listener;
pub use stream::{Served, serve_stream};
