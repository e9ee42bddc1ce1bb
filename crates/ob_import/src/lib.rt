//! Imports commands from a CSV text.
//!
//! Each row is applied to a book on its own, in order, up to the first refusal. Promises that the
//! rows before a refusal or a fault stay in the book, that the report counts them, and that
//! importing the same text again adds nothing. Or all rows are applied in one transaction, all of
//! them or none. `ob_http_routes`, `ob_desk` and `ob_jobs` use it.
#![tactic(auto)]

mod acting;
mod gather;
mod report;
mod rows;
mod text;
mod whole;

pub use ob_command::read_row;
pub use ob_store::{Progress, Silent, Work};
pub use report::{ImportFault, ImportReport};
pub use text::{import, import_law, import_text, import_with_progress};
pub use whole::import_whole;
