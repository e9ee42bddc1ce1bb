//! Version 1 of the book, as far as it is needed to read books of that version.
//!
//! In version 1 a device had no in-service interval, and the network took no more parts once the
//! switching log held an entry. This crate defines what version 1 accepted, its body texts, and its
//! figures, over the states of today. Promises that a body text of version 1 is read as its
//! command, and that no other text is read. Promises which commands version 1 accepted, and that
//! its figures are those of today if every device is in service from the first second on.
//! `ob_sql_read`, `ob_sql_check` and `ob_store` use it to read the tables of such a book.
#![tactic(auto)]

mod body;
mod fits;
mod laws;

pub use body::read_old_body;
pub use fits::fits_version_one;
pub use laws::version_law;
