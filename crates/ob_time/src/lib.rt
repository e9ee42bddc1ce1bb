//! Periods of civil days in a zone, and moments as texts.
//!
//! Keeps the bounds of a period's days. Promises that they are the zone's midnights as `jiff`
//! picks them, that each second of the period belongs to exactly one day, and which texts are
//! dates and moments. Used by `ob_sweep`, `ob_post` and `ob_index`, which count seconds by day,
//! by `ob_command`, which reads dates and moments, and by the crates of the book above them.
#![tactic(auto)]

mod bounds;
mod civil_days;
mod clock;
mod date;
mod midnight;
mod moment;
mod period;
mod reader;

pub use civil_days::CivilDays;
pub use date::read_date;
pub use moment::{read_second, second_text};
pub use period::Period;
