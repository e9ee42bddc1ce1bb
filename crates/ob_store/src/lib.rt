//! The storage layer: keeps the accepted commands of a book in a database, and the book in memory.
//!
//! A `Keeper` creates, loads, audits and migrates a book, applies commands to it, and exports the
//! changes of amounts. Promises that book and tables stay in step. After a crash a keeper loads the
//! book that the store kept, or the book before or after the command being applied. Errors are passed
//! on by a `match`, since `?` would hide from the proofs which error it is. `ob_import`, `ob_http_routes`,
//! `ob_desk`, `ob_jobs` and the program use this crate.
#![tactic(auto)]

mod acting;
mod crash;
mod creating;
mod keeper;
mod led;
mod lines;
mod loading;
mod migrating;
mod moving;
mod named;
mod off;
mod parts;
mod reply;
mod stored;
mod version;
mod whole;

pub use crash::{crash_law, left_law, load_law, load_searches_law, old_crash_law};
pub use keeper::Keeper;
pub use lines::Lines;
pub use moving::MoveSink;
pub use ob_sql_read::{Progress, Silent, Work};
pub use reply::{Moves, Reply};
pub use sqlite::Alter;
pub use whole::Halted;
