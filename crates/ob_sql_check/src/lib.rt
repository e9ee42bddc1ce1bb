//! Compares each table with the part of a book that it holds, in today's version and in version 1.
//!
//! Defines, for each part of a book, which rows its table has in each version, place by place, and
//! compares them with the loop of `ob_sql_read`. Defines today's body texts for the commands of a
//! book of version 1. Promises that a table passes exactly if its rows are those of the book, and
//! that nothing is written. Promises that these texts, an in-service interval for each device and
//! the version number turn the ten tables of version 1 into today's. `ob_sql_read` compares the
//! tables of commands and of moved amounts. `ob_store` uses this crate.
#![tactic(auto)]

mod bodies;
mod laws;
mod numbered;
mod part;
mod parts;

pub use bodies::new_bodies;
pub use laws::upgrade_law;
pub use part::holds_part;
