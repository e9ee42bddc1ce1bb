//! The rows of a book: the content of its eleven tables.
//!
//! Defines what the tables hold of the accepted commands, and how each further command changes
//! them. Promises that the rows determine the commands. `ob_sql_read`, `ob_sql_check`, `ob_store`,
//! `ob_import` and `ob_desk` use this crate.
#![tactic(auto)]

mod act;
mod naming;

pub use act::{act_of, reached_law};
pub use naming::naming_law;
