//! Selections of interruptions, and what they are listed by.
use ob_base::Second;
use ob_index::Which;

/// Which interruptions count, over which customers and days.
#[derive(Clone, Copy)]
pub struct Selection {
    /// The home feeder of the customers' sections; `None` for any.
    pub feeder: Option<u8>,
    /// The node number of the customers' section; `None` for any.
    pub section: Option<u16>,
    /// The cause of the interruptions; `None` for any.
    pub cause: Option<u8>,
    /// The number of the day on which the interruptions begin; `None` for any. Customers are served
    /// on all days from `first` to `end`, whatever this day is.
    pub day: Option<u16>,
    /// The number of the first day, from 0. The first second of an interruption decides its day.
    pub first: u16,
    /// The number of the day after the last one.
    pub end: u16,
    /// Whether interruptions that begin on a major event day count.
    pub which: Which,
    /// The longest momentary interruption, in seconds; a longer one is sustained.
    pub longest: Second,
}

/// What indices are listed by.
#[derive(Clone, Copy)]
pub enum By {
    /// The whole book, as one line.
    Whole,
    /// Home feeders.
    Feeder,
    /// Calendar months.
    Month,
    /// Days.
    Day,
    /// Causes.
    Cause,
    /// Sections.
    Section,
}
