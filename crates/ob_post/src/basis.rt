//! What the amounts of a section's outage intervals depend on.
use ob_cust::Roll;
use ob_sheet::Sheet;
use ob_time::CivilDays;

/// What the amounts of a section's outage intervals depend on, besides the intervals and a change
/// of the switching log.
#[derive(Clone, Copy)]
pub struct Basis<'a> {
    /// The switching log, before a change. Its entries give the causes.
    pub sheet: &'a Sheet,
    /// The section's home feeder, from 1 to 255.
    pub feeder: u8,
    /// The customers, of whom those of the section count.
    pub roll: &'a Roll,
    /// The period, with its days.
    pub period: &'a CivilDays,
}
