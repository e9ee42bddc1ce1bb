//! Tests of reading requests from the bytes of a stream: whole, in pieces, refused and
//! cut. Readers that fail or are interrupted are those of `exchange.rt`. The expected requests and refusals are worked out by hand
//! from RFC 9112 and the bounds.
mod heads;
mod reading;
