//! Selections of interruptions: counts and indices of a feeder, a month, a day, a cause or a section.
//!
//! A selection names customers, days and causes. Counts the interruptions of a selection, and writes
//! the indices of all feeders, months, days, causes or sections of a book as CSV. Promises that each
//! figure is the sum over the customers that the definitions state, each index its quotient in lowest
//! terms, and which bytes the text has. `ob_jobs` uses this crate.
#![tactic(auto)]

mod choice;
mod counting;
mod decimals;
mod figures;
mod formula;
mod keyed;
mod laws;
mod line;
mod months;
mod selection;
mod tally;
mod text;

pub use counting::figures_of;
pub use figures::Figures;
pub use laws::{selections_law, sums_law};
pub use selection::{By, Selection};
pub use text::indices_text;
