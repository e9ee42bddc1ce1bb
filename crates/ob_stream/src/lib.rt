//! Reading and writing texts over streams that may fail or be interrupted.
//!
//! Keeps `Watched`, a reader or writer that remembers its failures and counts its interrupted calls,
//! and the number of retries of these. Promises that a text is read or written whole. A fault of
//! the input means that the reader failed or has more bytes than the limit; a fault of the output
//! means that the writer failed. An interrupted call is a fault only where no retry is left. Used by `ob_net`, `ob_http_requests`, `ob_import`, `ob_desk`, `ob_total`, `ob_jobs`
//! and `outagebook`.
#![tactic(auto)]

mod interruptions;
mod stream;
mod watched;

pub use stream::{Retries, read_some, read_text, write_text};
pub use watched::Watched;
