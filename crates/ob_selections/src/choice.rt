//! Whether a section and an interruption are among those of a selection.
ghost use Rattle.std.specs.Prelude.{◌≡◌, ◌≤◌, ◌<◌, length};
ghost use Rattle.ob_index.specs.Interruptions.{is_counted as is_counted_among, is_marked as begins_on_marked_day};
ghost use Rattle.ob_net.specs.Network.{home_feeder};
ghost use Rattle.ob_post.specs.SectionAmounts.{run_cause};
ghost use Rattle.ob_rows.specs.Outages.{IsOutage};
ghost use Rattle.ob_rows.specs.Rows.{posted_cause};
ghost use Rattle.ob_time.specs.Calendar.{day_at, holds};
ghost use Rattle.ob_selections.specs.Selections.{begins_on as begins_on_wanted, days_of_selection, fits as fits_number, fits_feeder as fits_home, has_at, has_section as has_customers, is_selected as is_among};

use crate::selection::Selection;
use ob_base::{Interval, Second};
use ob_book::Book;
use ob_index::Which;
use ob_sheet::Sheet;
use ob_sweep::{Run, Timeline};
use ob_time::Period;

/// Whether the customers of a section are among those of a selection.
pub fn has_section<T: Timeline>(book: &Book<T>, selection: &Selection, section: u16) -> bool
    requires { section < length book.now.state.network.nodes }
    ensures { result ≡ has_customers book.now.state selection.now section }
{
    fits_section(selection.section, section)
        && fits_feeder(selection.feeder, book.net().feeder_of(section))
}

fn fits_section(wanted: Option<u16>, section: u16) -> bool
    ensures { result ≡ fits_number wanted section }
{
    match wanted {
        Some(wanted) => wanted == section,
        None => true,
    }
}

fn fits_feeder(wanted: Option<u8>, home: Option<u8>) -> bool
    ensures { result ≡ fits_home wanted home }
{
    match (wanted, home) {
        (Some(wanted), Some(feeder)) => wanted == feeder,
        (Some(_), None) => false,
        (None, _) => true,
    }
}

fn fits_cause(wanted: Option<u8>, cause: u8) -> bool
    ensures { result ≡ fits_number wanted cause }
{
    match wanted {
        Some(wanted) => wanted == cause,
        None => true,
    }
}

/// Whether an interruption of customers of a section, a part of an outage interval, begins on a day
/// of a selection, has its cause and counts.
pub fn is_selected<T: Timeline>(
    book: &Book<T>,
    selection: &Selection,
    days: &Interval,
    section: u16,
    run: &Run,
    interruption: &Interval,
) -> bool
    requires days { days.now ≡ days_of_selection book.now.state selection.now }
    requires outage { IsOutage book.now.state section run.now }
    requires since { run.now.since ≤ interruption.now.since }
    requires until { interruption.now.since < run.now.until }
    ensures { result ≡ is_among book.now.state selection.now section interruption.now }
{
    begins_within(days, interruption.since)
        && begins_on(book.period(), selection.day, interruption.since)
        && fits_cause(selection.cause, cause_of(book.sheet(), run))
        && is_counted(book, interruption, selection.which)
}

fn begins_within(days: &Interval, second: Second) -> bool
    ensures { result ≡ has_at days.now second }
{
    days.since <= second && second < days.until
}

fn begins_on(period: &Period, wanted: Option<u16>, second: Second) -> bool
    ensures { result ≡ begins_on_wanted period.now wanted second }
{
    match wanted {
        Some(day) => lies_on(period, day, second),
        None => true,
    }
}

// Whether a second lies on a day.
fn lies_on(period: &Period, day: u16, second: Second) -> bool
    ensures { result ≡ holds (day_at period.now day) second }
{
    match period.day_bounds(day) {
        Some((first, end)) => first <= second && second < end,
        None => false,
    }
}

// The cause that the entry of an outage interval has; 0 if no entry cut the section off.
fn cause_of(sheet: &Sheet, run: &Run) -> u8
    ensures { result ≡ run_cause sheet.now.entries run.now }
{
    let entry = run.cutter.and_then(|number| sheet.entry(number));
    entry.map_or(0, |entry| entry.cause)
}

// Whether an interruption counts. If marked days are left out, the day of its first second decides.
fn is_counted<T: Timeline>(book: &Book<T>, interruption: &Interval, which: Which) -> bool
    ensures { result ≡ is_counted_among book.now.state.period book.now.state.marks which
        interruption.now }
{
    match which {
        Which::All => true,
        Which::Unmarked => !is_marked(book, interruption),
    }
}

// Whether the day that contains the first second of an interruption is a major event day.
fn is_marked<T: Timeline>(book: &Book<T>, interruption: &Interval) -> bool
    ensures { result ≡ begins_on_marked_day book.now.state.period book.now.state.marks
        interruption.now }
{
    let marks = book.marks();
    match book.period().day_of(interruption.since) {
        Some(day) => marks.is_marked(day),
        None => false,
    }
}
