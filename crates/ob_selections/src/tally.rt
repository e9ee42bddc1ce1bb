//! What the customers of one block add to the figures of a selection.
ghost use Rattle.std.specs.Prelude.{◌≡◌, ℕ, ◌≤◌, ◌<◌, ◌+◌, ◌-◌, ◌^◌, ◌&&◌, if◌then◌else◌, not, true};
ghost use Rattle.std.specs.List.{All, AllPairs, count_by};
ghost use Rattle.ob_base.specs.Seconds.{seconds};
ghost use Rattle.ob_cust.specs.Service.{in_service};
ghost use Rattle.ob_index.specs.Interruptions.{duration};
ghost use Rattle.ob_index.specs.Tallies.{has_second, part_in_service as part_of};
ghost use Rattle.ob_rows.specs.Outages.{IsOutage};
ghost use Rattle.ob_time.specs.Calendar.{end_second_of, first_second_of};
ghost use Rattle.ob_selections.specs.Selections.{days_of_selection, is_selected as is_among, lasts_longer};
ghost use Rattle.ob_selections.specs.Sums.{IsAtMost};
ghost use Rattle.ob_selections.specs.Tallies.{customer_of, tally_by_runs};

use crate::choice::is_selected;
use crate::figures::Tally;
use crate::selection::Selection;
use ob_base::{Interval, Second};
use ob_book::Book;
use ob_cust::SectionBlock;
use ob_sweep::{Run, Timeline};

/// Counts the selected interruptions of a customer of a block, from the outage intervals of its
/// section, and its seconds in service on the days of the selection.
pub fn tally_of<T: Timeline>(
    book: &Book<T>,
    selection: &Selection,
    days: &Interval,
    block: &SectionBlock,
    runs: &[Run],
) -> Tally
    requires days { days.now ≡ days_of_selection book.now.state selection.now }
    requires short { duration days.now ≤ 2 ^ 25 }
    requires outages { All (IsOutage book.now.state block.now.section) runs.now }
    requires some { All (λ r. r.since < r.until) runs.now }
    requires rising { AllPairs (λ r s. r.until < s.since) runs.now }
    requires within { All (λ r. (first_second_of book.now.state.period ≤ r.since)
        × (r.until ≤ end_second_of book.now.state.period)) runs.now }
    ensures tally { result ≡ tally_by_runs book.now.state selection.now runs.now block.now }
    ensures small { IsAtMost (2 ^ 25) result }
{
    // In a period this short, no number overflows its type.
    let _ = book.period().length();
    let served = part_in_service(block, days.since, days.until);
    let mut tally = Tally {
        sustained: 0,
        seconds: 0,
        momentary: 0,
        served: served.until.saturating_sub(served.since),
    };
    for run in runs {
        let part = part_in_service(block, run.since, run.until);
        if is_interruption(book, selection, days, block, run, &part) {
            add(&mut tally, selection.longest, &part);
        }
    }
    tally
}

/// The part of the seconds from `since` up to `until` in which the customers of a block are in
/// service. If it ends no later than it begins, it has no second.
fn part_in_service(block: &SectionBlock, since: Second, until: Second) -> Interval
    ensures part { result ≡ part_of (customer_of block.now) since until }
    ensures seconds { result.until - result.since
        ≡ count_by (in_service (customer_of block.now)) (seconds since until) }
    ensures from { since ≤ result.since }
    ensures to { result.until ≤ until }
{
    let until = match block.block.until {
        Some(end) => end.min(until),
        None => until,
    };
    Interval {
        since: block.block.since.max(since),
        until,
    }
}

// Whether the part of an outage interval in a block's service is an interruption that is selected.
// A part without a second is none.
fn is_interruption<T: Timeline>(
    book: &Book<T>,
    selection: &Selection,
    days: &Interval,
    block: &SectionBlock,
    run: &Run,
    part: &Interval,
) -> bool
    requires days { days.now ≡ days_of_selection book.now.state selection.now }
    requires outage { IsOutage book.now.state block.now.section run.now }
    requires since { run.now.since ≤ part.now.since }
    requires until { part.now.until ≤ run.now.until }
    ensures { result ≡ (has_second part.now
        && is_among book.now.state selection.now block.now.section part.now) }
{
    part.since < part.until && is_selected(book, selection, days, block.section, run, part)
}

// Adds an interruption to a tally, where an interruption of at most `longest` seconds is momentary.
fn add(tally: &mut Tally, longest: Second, interruption: &Interval)
    requires some { interruption.now.since ≤ interruption.now.until }
    requires sustained { tally.old.sustained + 1 < 2 ^ 64 }
    requires seconds { tally.old.seconds + duration interruption.now < 2 ^ 64 }
    requires momentary { tally.old.momentary + 1 < 2 ^ 64 }
    ensures sustained { tally.new.sustained ≡ tally.old.sustained
        + (if lasts_longer longest interruption.now then 1 else 0) }
    ensures seconds { tally.new.seconds ≡ tally.old.seconds
        + (if lasts_longer longest interruption.now then duration interruption.now else 0) }
    ensures momentary { tally.new.momentary ≡ tally.old.momentary
        + (if not (lasts_longer longest interruption.now) then 1 else 0) }
    ensures served { tally.new.served ≡ tally.old.served }
{
    let seconds = interruption.until - interruption.since;
    if seconds > longest {
        tally.sustained += 1;
        tally.seconds += seconds;
    } else {
        tally.momentary += 1;
    }
}
