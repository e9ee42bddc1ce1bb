//! What several crates of tests share: a reader and a writer that come in pieces, are interrupted
//! and fail, and the texts of imports. Only crates of tests use it.
#![tactic(auto)]

mod sink;
mod source;
pub mod texts;
mod way;

pub use sink::Sink;
pub use source::Source;
pub use way::{FAILING, FULL, JOLTING, WHOLE, Way};
