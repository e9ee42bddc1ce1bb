//! Counting the interruptions of a selection.
ghost use Rattle.std.specs.Prelude.{◌≡◌, ℕ, ◌≤◌, ◌<◌, ◌==◌, ◌+◌, ◌*◌, ◌^◌, length};
ghost use Rattle.std.specs.List.{All, AllPairs, filter, sum_by};
ghost use Rattle.ob_index.specs.Interruptions.{duration};
ghost use Rattle.ob_rows.specs.Outages.{IsOutage};
ghost use Rattle.ob_time.specs.Calendar.{bound_of, day_count, end_second_of, first_second_of};
ghost use Rattle.ob_selections.specs.Selections.{IsSelection, days_of_selection, figures_of_selection};
ghost use Rattle.ob_selections.specs.Sums.{AreAtMost, AreMore};
ghost use Rattle.ob_selections.specs.Tallies.{tally_by_runs, tally_of as tally_of_customer};

use crate::choice::has_section;
use crate::figures::{Figures, add};
use crate::selection::Selection;
use crate::tally::tally_of;
use ob_base::{Interval, Second};
use ob_book::Book;
use ob_cust::SectionBlock;
use ob_index::Counts;
use ob_sweep::{Run, Timeline};
use ob_time::Period;

/// The figures of a selection of a book: the counts of its interruptions, the customer-seconds in
/// service of its customers on its days, and the seconds of these days. The days are days of the
/// period, one or more.
pub fn figures_of<T: Timeline>(book: &Book<T>, selection: &Selection) -> Figures
    requires selection { IsSelection book.now.state selection.now }
    ensures figures { result ≡ figures_of_selection book.now.state selection.now }
    ensures small { AreAtMost (2 ^ 52) result }
    ensures short { result.length < 2 ^ 25 }
{
    // This call's contract states that the parts of the state fit together.
    let _ = book.accepted();
    let days = days_of(book, selection);
    let mut figures = Figures {
        counts: Counts {
            ci: 0,
            csi: 0,
            cn: 0,
            cn_n: [0; 10],
            mi: 0,
        },
        served: 0,
        length: days.until - days.since,
    };
    for node in 0..book.net().nodes() {
        add_node(&mut figures, book, selection, &days, node);
    }
    figures
}

// The seconds of the days of a selection.
fn days_of<T: Timeline>(book: &Book<T>, selection: &Selection) -> Interval
    requires selection { IsSelection book.now.state selection.now }
    ensures days { result ≡ days_of_selection book.now.state selection.now }
    ensures rising { result.since ≤ result.until }
    ensures short { duration result < 2 ^ 25 }
{
    // This call's contract states that the period's days rise, and how short it is.
    let _ = book.accepted();
    Interval {
        since: bound(book.period(), selection.first),
        until: bound(book.period(), selection.end),
    }
}

// The first second of a day; the end of the period for the number of days.
fn bound(period: &Period, day: u16) -> Second
    requires { day ≤ day_count period.now }
    ensures { result ≡ bound_of period.now day }
{
    match period.day_bounds(day) {
        Some((first, _)) => first,
        None => period.end_second(),
    }
}

// Adds what the customers of a node add to the figures.
fn add_node<T: Timeline>(
    figures: &mut Figures,
    book: &Book<T>,
    selection: &Selection,
    days: &Interval,
    node: u16,
)
    requires node { node < length book.now.state.network.nodes }
    requires days { days.now ≡ days_of_selection book.now.state selection.now }
    requires short { duration days.now ≤ 2 ^ 25 }
    requires small { AreAtMost (node * 2 ^ 42) figures.old }
    ensures more { AreMore (λ number. sum_by
        (λ c. number (tally_of_customer book.now.state selection.now c))
        (filter (λ c. c.section == node) book.now.state.customers)) figures.old figures.new }
    ensures small { AreAtMost ((node + 1) * 2 ^ 42) figures.new }
{
    if !has_section(book, selection, node) {
        return;
    }
    // This call's contract states that the parts of the state fit together.
    let _ = book.accepted();
    let blocks = book.roll().section_blocks(node);
    if !blocks.is_empty() {
        let runs = book.timeline().runs_of(node);
        add_blocks(figures, book, selection, days, node, blocks, runs);
    }
}

// Adds what the customers of blocks of a node add to the figures.
fn add_blocks<T: Timeline>(
    figures: &mut Figures,
    book: &Book<T>,
    selection: &Selection,
    days: &Interval,
    node: u16,
    blocks: &[SectionBlock],
    runs: &[Run],
)
    requires node { node < 1_024 }
    requires days { days.now ≡ days_of_selection book.now.state selection.now }
    requires short { duration days.now ≤ 2 ^ 25 }
    requires section { All (λ c. c.section ≡ node) blocks.now }
    requires outages { All (IsOutage book.now.state node) runs.now }
    requires some { All (λ r. r.since < r.until) runs.now }
    requires rising { AllPairs (λ r s. r.until < s.since) runs.now }
    requires within { All (λ r. (first_second_of book.now.state.period ≤ r.since)
        × (r.until ≤ end_second_of book.now.state.period)) runs.now }
    requires few { sum_by (λ c. c.block.count) blocks.now ≤ 100_000 }
    requires small { AreAtMost (node * 2 ^ 42) figures.old }
    ensures more { AreMore (λ number. sum_by
        (λ c. c.block.count * number (tally_by_runs book.now.state selection.now runs.now c))
        blocks.now) figures.old figures.new }
    ensures small { AreAtMost ((node + 1) * 2 ^ 42) figures.new }
{
    for block in blocks {
        let tally = tally_of(book, selection, days, block, runs);
        add(figures, &tally, u64::from(block.block.count));
    }
}
