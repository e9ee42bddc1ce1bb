//! The requests of a stream, read from its bytes in pieces of any size (RFC 9112).
//!
//! Keeps the bytes read but not yet taken, and the checks of a request's head. Promises that the
//! bytes of a stream alone determine its requests and its ending, in whatever pieces they arrive.
//! A stream ends with no more bytes, with bytes that are answered with an error status, or inside
//! a request. This crate knows nothing of routes or books. Used by `ob_http_routes` and `ob_desk`.
#![tactic(auto)]

mod ahead;
mod body;
mod field;
mod framing;
mod head;
mod laws;
mod list;
mod request;
mod start;

pub use ahead::Ahead;
pub use body::read_body;
pub use framing::{Framing, HeadRefusal, Method};
pub use laws::{one_ending, one_request, one_stream};
pub use request::{Next, Request, read_request};
pub use start::{Start, read_start};
