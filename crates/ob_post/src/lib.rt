//! Postings: customer-seconds without supply, counted under cause, home feeder and day.
//!
//! Keeps the amounts (`Postings`) and, as rows, the amounts that a change takes back and gives.
//! Promises that a list of changes alters exactly the amounts that it names, by its deltas; that
//! the changes between two lists of amounts are their differences, each once and in order; that an
//! outage interval's amounts are its customer-seconds, second by second and customer by customer;
//! and that a change's rows turn the old amounts into the new ones, although only differing
//! intervals are examined. Used by `ob_json`, `ob_http_replies`, `ob_state` and crates above them.
#![tactic(auto)]

mod basis;
mod difference;
mod differing;
pub mod laws;
mod parts;
mod place;
mod posting;
mod postings;
mod run_amounts;
mod run_causes;

pub use basis::Basis;
pub use difference::moves;
pub use posting::Posting;
pub use postings::Postings;
pub use run_amounts::{amounts, post_run, post_runs};
use std::ops::Range;

/// The number of causes: 0 (unassigned) to 63.
pub const CAUSES: u16 = 64;

/// The number of home feeders: 1 to 255.
pub const FEEDERS: u16 = 255;

/// The most days that postings may have.
pub const MOST_DAYS: u16 = 366;

/// A dimension by which customer-seconds are counted.
#[derive(Clone, Copy, PartialEq, Eq)]
pub enum Dim {
    /// By the cause of the entry that cut the section off, from 0 (unassigned) to 63.
    Cause,
    /// By the section's home feeder, from 1 to 255.
    Feeder,
    /// By the day that contains the second, numbered from 0.
    Day,
}

impl Dim {
    ghost use Rattle.std.specs.Prelude.{◌≡◌, ◌-◌, ◌≤◌, ◌<◌, ℕ};
    ghost use Rattle.std.specs.List.{range_with_len};
    ghost use Rattle.ob_post.specs.Keys.{dim_number, dim_word, IsKey, keys};

    /// The number of the dimension, from 1 to 3.
    pub fn number(&self) -> u8
        ensures { result ≡ dim_number self.now }
    {
        match self {
            Dim::Cause => 1,
            Dim::Feeder => 2,
            Dim::Day => 3,
        }
    }

    /// The word for the dimension in texts.
    pub fn word(&self) -> &'static str
        ensures { result.now ≡ dim_word self.now }
    {
        match self {
            Dim::Cause => "cause",
            Dim::Feeder => "feeder",
            Dim::Day => "day",
        }
    }

    /// The keys of the dimension in a period of `days` days: causes 0 to 63, feeders 1 to 255, or
    /// the days from 0.
    pub fn keys(&self, days: u16) -> Range<u16>
        ensures order { result.start ≤ result.end }
        ensures all { keys days self.now ≡ range_with_len result.start (result.end - result.start) }
        ensures are { (key : ℕ) → result.start ≤ key → key < result.end → IsKey days self.now key }
    {
        match self {
            Dim::Cause => 0..CAUSES,
            Dim::Feeder => 1..FEEDERS + 1,
            Dim::Day => 0..days,
        }
    }
}

/// The change, in customer-seconds, of the amount under a key of a dimension.
#[derive(Clone, Copy, PartialEq, Eq)]
pub struct Moved {
    pub dim: Dim,
    /// The cause, the feeder or the day.
    pub key: u16,
    pub delta: i64,
}
