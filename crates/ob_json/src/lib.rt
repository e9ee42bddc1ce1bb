//! The JSON texts of the book's views, RFC 8259.
//!
//! Defines which members each text has and in what order, without spaces between them. Promises
//! each text byte for byte, as a function of the values that it shows. `ob_book` uses this crate
//! for the totals, the indices and plans. `ob_http_replies` makes the other JSON texts.
#![tactic(auto)]

mod indices;
mod moves;
mod plan;
mod supply;
mod totals;

pub use indices::indices_text;
pub use plan::{OutageInterval, SectionChange, forecast_text, same_intervals};
pub use supply::{DeviceState, UnsuppliedSection, supply_text};
pub use totals::totals_text;
