//! The program's jobs on a book: create one, import commands, export the changes of amounts, write
//! the customers' interruptions, print the annual table or the indices of feeders, months, causes and
//! sections, audit, migrate and serve it.
//!
//! Has two public functions for each job. One does its work on a keeper; `ob_import` has that of an
//! import. The other first loads the book if the work needs it, and only then opens the input or
//! the output. Promises what each job leaves of the keeper and of the writers, and how it ends. If
//! the job is done its whole text is written, a part if the writer fails, and nothing if it ends
//! before. The program `outagebook` uses this crate.
#![tactic(auto)]

mod audit;
mod ending;
mod export;
mod import;
mod import_whole;
mod indices;
mod init;
mod interruptions;
mod line;
mod lines;
mod migrate;
mod moves;
mod opening;
mod row_lines;
mod serve;
mod table;
mod tasks;
mod tell;

pub use audit::{audit_book, run_audit};
pub use export::{export_from_book, run_export};
pub use import::import_into_book;
pub use import_whole::import_whole_into_book;
pub use indices::{print_indices, run_indices};
pub use init::{make_book, run_init};
pub use interruptions::{interruptions_from_book, run_interruptions};
pub use migrate::{migrate_book, run_migrate};
pub use moves::export_moves;
pub use ob_import::{Progress, Silent, Work};
pub use opening::{OpenInput, OpenOutput, ServeBook};
pub use serve::serve_book;
pub use table::{print_book, run_table};
pub use tasks::{Task, run_task};
