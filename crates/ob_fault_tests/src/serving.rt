//! A command that arrives by a stream at a book whose store may stop.
use crate::office::Office;
use crate::sending::{AFTER, BEFORE, failed};
use crate::tasks::Kept;
use std::alloc::Global;
use std::process::Abort;

// The breaker closed ten minutes earlier.
const REQUEST: &'static [u8] = b"\
POST /commands HTTP/1.1\r\nHost: localhost\r\nContent-Length: 99\r\n\r\n\
{\"kind\":\"correct\",\"ref\":\"FIX1\",\"f1\":\"4\",\"f2\":\"1\",\"f3\":\"close\",\"f4\":\"1704073800\",\"f5\":\"3\",\"f6\":\"K1\"}";

// The reply to a request that can't be answered because of a fault.
const UNAVAILABLE: &'static [u8] =
    b"HTTP/1.1 503 Service Unavailable\r\nContent-Length: 0\r\nConnection: close\r\n\r\n";

/// Loads the book and serves it the request. If the store fails, no reply reports the command as
/// accepted.
pub fn serve<O: Office>(rt: &impl Abort, alloc: Global, office: &mut O) -> Kept {
    if let Err(stop) = office.loads() {
        return failed(rt, office, stop, Kept::all(BEFORE));
    }
    let (written, stop) = office.serves(alloc, REQUEST);
    match stop {
        None => {
            assert!(rt; written.as_slice().starts_with(b"HTTP/1.1 200 OK\r\n"));
            Kept::all(AFTER)
        }
        Some(stop) => {
            assert!(rt; written.as_slice() == UNAVAILABLE);
            failed(rt, office, stop, Kept::or_one_more(BEFORE))
        }
    }
}
