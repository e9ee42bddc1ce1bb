//! The tables of a book, and the statements that read and write them.
//!
//! Keeps the eleven tables, and one function for each statement, which runs inside the caller's
//! transaction. Promises which rows each statement adds, changes or deletes, if any, what it finds,
//! and that it fails if it breaks a rule of its table. Promises that each test of a row is true
//! exactly for the row of the given item. To the ten tables of version 1 it adds the eleventh, of
//! in-service intervals; their rows stay. Used by `ob_sql_write`, which writes the rows of a command
//! in one transaction, the other storage crates, `ob_import`, `ob_http_routes` and `ob_jobs`.
#![tactic(auto)]

mod block;
mod changes;
mod columns;
mod comparing;
mod creation;
mod fields;
mod inserts;
mod listing;
mod reads;
mod run;
mod table;
mod version;

pub use block::{MovedAmount, add_moved_block};
pub use changes::{
    correct_entry, drop_mark, set_body, set_life, set_posting, set_service, set_version,
    withdraw_entry,
};
pub use comparing::{
    is_cause_row, is_customer_row, is_device_row, is_entry_row, is_life_row, is_mark_row,
    is_meta_row, is_node_row, is_posting_row,
};
pub use creation::{create_life, create_tables};
pub use inserts::{
    add_cause, add_command, add_customer, add_device, add_entry, add_life, add_mark, add_meta,
    add_moved, add_node, add_posting,
};
pub use listing::select_of;
pub use reads::find_commands;
pub use run::{int, signed_value, stop_of};
pub use table::Table;
pub use version::Version;
