//! One interruption of customers who have equal service.
ghost use Rattle.std.specs.Prelude.{◌≡◌, ◌≤◌, ◌<◌};
ghost use Rattle.ob_base.specs.declared.interval.Interval.{Interval as AnInterval};
ghost use Rattle.ob_cust.specs.Blocks.{service_of};
ghost use Rattle.ob_index.specs.Interruptions.{is_marked as begins_on_marked_day};
ghost use Rattle.ob_post.specs.SectionAmounts.{run_cause};
ghost use Rattle.ob_rows.specs.Outages.{IsOutage};
ghost use Rattle.ob_rows.specs.Rows.{row_of as row_in};
ghost use Rattle.ob_rows.specs.Services.{customers_with};

use ob_base::{Interval, Second};
use ob_book::Book;
use ob_cust::SectionBlock;
use ob_sheet::Sheet;
use ob_sweep::{Run, Timeline};

/// An interruption that the customers of one section who have equal service had.
#[derive(Clone, Copy, PartialEq, Eq)]
pub struct InterruptionRow {
    /// The section's node number.
    pub section: u16,
    /// The section's home feeder.
    pub feeder: u8,
    /// How many customers of the section have this service.
    pub customers: u32,
    /// The first second of their service.
    pub service_since: Second,
    /// The second at which their service ends; `None` if it has no end.
    pub service_until: Option<Second>,
    /// The first second at which they are in service and without supply.
    pub since: Second,
    /// The second after the last such one.
    pub until: Second,
    /// The cause that the entry has now; 0 if there is no entry.
    pub cause: u8,
    /// The number of the entry that cut the section off; `None` if no entry did.
    pub entry: Option<u32>,
    /// Whether the day that contains the first second is a major event day.
    pub marked: bool,
}

/// The row of a part of an outage interval, for a block of the section's customers.
pub fn row_of<T: Timeline>(
    book: &Book<T>,
    feeder: u8,
    block: &SectionBlock,
    run: &Run,
    part: &Interval,
) -> InterruptionRow
    requires count { block.now.block.count ≡ customers_with book.now.state.customers
        block.now.section (service_of block.now.block) }
    requires outage { IsOutage book.now.state block.now.section run.now }
    requires since { run.now.since ≤ part.now.since }
    requires until { part.now.since < run.now.until }
    ensures { result ≡ row_in book.now.state block.now.section feeder
        (service_of block.now.block) part.now }
{
    InterruptionRow {
        section: block.section,
        feeder,
        customers: block.block.count,
        service_since: block.block.since,
        service_until: block.block.until,
        since: part.since,
        until: part.until,
        cause: cause_of(book.sheet(), run),
        entry: run.cutter,
        marked: is_marked(book, part),
    }
}

// The cause that the entry of an outage interval has; 0 if no entry cut the section off.
fn cause_of(sheet: &Sheet, run: &Run) -> u8
    ensures { result ≡ run_cause sheet.now.entries run.now }
{
    let entry = run.cutter.and_then(|number| sheet.entry(number));
    entry.map_or(0, |entry| entry.cause)
}

// Whether the day that contains the first second of an interruption is a major event day.
fn is_marked<T: Timeline>(book: &Book<T>, interruption: &Interval) -> bool
    ensures { result ≡ begins_on_marked_day book.now.state.period book.now.state.marks
        interruption.now }
{
    let marks = book.marks();
    match book.period().day_of(interruption.since) {
        Some(day) => marks.is_marked(day),
        None => false,
    }
}
