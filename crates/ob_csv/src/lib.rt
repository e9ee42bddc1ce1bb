//! The rows of a CSV text (RFC 4180), one at a time.
//!
//! Keeps the book's rules for CSV: what ends a row, what quoting means and what the header is.
//! Promises that a reader gives each row of its text once and in order, with every field as it is
//! in the text. Used by `ob_total`, `ob_import`, `ob_http_replies`, `ob_http_routes` and `ob_desk`, which
//! read CSV through this crate instead of the `csv` crate.
#![tactic(auto)]

mod header;
mod reader;
mod row;
mod whole;

pub use header::{COLUMNS, RowFields, column_names};
pub use reader::RowReader;
pub use row::Row;
pub use whole::{whole_rows_end, whole_rows_law};

/// How many rows a text may have after its header.
pub const MOST_ROWS: u32 = 1_000_000;

/// How many bytes a text may have.
pub const MOST_BYTES: usize = 268_435_456;
