//! The books of the tests, as steps.
use crate::scripts::{OUTAGE, TWO_FEEDERS};
use crate::steps::{NEW, Step};

/// A book of 2024-01-01 in UTC with the two feeders.
pub const TWO_FEEDERS_BOOK: &[Step] = &[NEW, Step::Tell(TWO_FEEDERS)];

/// The two feeders after the outage.
pub const OUTAGE_BOOK: &[Step] = &[NEW, Step::Tell(TWO_FEEDERS), Step::Tell(OUTAGE)];

/// The outage, with its day marked.
pub const MARKED_BOOK: &[Step] = &[
    NEW,
    Step::Tell(TWO_FEEDERS),
    Step::Tell(OUTAGE),
    Step::Tell("N26 mark 2024-01-01 E1 => 26"),
    Step::Audit("none"),
];
