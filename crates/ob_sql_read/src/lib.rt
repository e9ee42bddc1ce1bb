//! Reads the tables of a book back, row by row, and compares them with those of a book of its
//! commands.
//!
//! Works on the tables of either version. The version given as an argument decides which body texts
//! are read and which commands are accepted. Promises that nothing is written and that a store
//! keeps what it kept. Over such tables `Fault::Store` is returned only if the disk failed, the
//! connection was closed, or its steps are limited. `ob_sql_check` and `ob_store` use this crate, and
//! `ob_jobs` its `Progress`.
#![tactic(auto)]

mod apart;
mod columns;
mod commands;
mod distinct;
mod filed;
mod heading;
mod layout;
mod leading;
mod listed;
mod moves;
mod progress;
mod query;
mod rows;
mod version;

pub use apart::are_apart;
pub use commands::{Commands, read_commands};
pub use distinct::{are_distinct, reaching_law};
pub use filed::Filed;
pub use heading::{Heading, read_heading};
pub use layout::Layout;
pub use leading::lead;
pub use listed::{Listed, holds};
pub use moves::holds_moves;
pub use progress::{Progress, Silent, Work};
pub use version::has_version;
