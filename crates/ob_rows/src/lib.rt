//! Interruption rows: each interruption of a book once for all customers of a section who have equal
//! service.
//!
//! Hands the rows of a book to a sink, one after another, without memory, and makes the line of a row
//! in CSV. Promises that the rows are exactly the customers' interruptions, in order, each with its
//! number of customers, its cause, the entry that cut the section off, and whether it begins on a
//! major event day; that the rows add up to the book's customer-seconds without supply and to its
//! counts of interruptions; and which bytes a line has. `ob_jobs` uses this crate.
#![tactic(auto)]

mod known;
mod laws;
mod moment;
mod row;
mod rows;
mod sink;
mod text;

pub use laws::rows_law;
pub use row::InterruptionRow;
pub use rows::each_row;
pub use sink::RowSink;
pub use text::RowText;
