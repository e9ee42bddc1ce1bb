//! The customer-seconds of outage intervals.
ghost use Rattle.std.specs.Prelude.{◌≡◌, ◌<◌, ◌≤◌, ◌+ℤ◌, ℕ, List, length, map, take, pos, IfOk, OnOk, IfErr};
ghost use Rattle.std.specs.List.{All, zip};
ghost use Rattle.ob_net.specs.Network.{Network};
ghost use Rattle.ob_base.specs.Seconds.{seconds};
ghost use Rattle.ob_base.specs.Stop.{out_of_memory};
ghost use Rattle.ob_time.specs.Calendar.{days_of, first_second_of, end_second_of, day_count};
ghost use Rattle.ob_sheet.specs.declared.Entry.{Entry};
ghost use Rattle.ob_cust.specs.Service.{served_seconds as served};
ghost use Rattle.ob_post.specs.CustomerSeconds.{Days};
ghost use Rattle.ob_post.specs.Moved.{delta_of, AddUpTo, HaveKeys};
ghost use Rattle.ob_post.specs.RunAmounts.{customer_seconds_in, served_in, section_seconds_by, IsRunOf};
ghost use Rattle.ob_post.specs.SectionAmounts.{run_cause, amount_of_posted, amount_of_runs, LieWithin};
ghost use Rattle.ob_post.specs.declared.Dim.{Dim as Dimension};

use crate::{Dim, Moved};
use ob_base::{Second, Stop};
use ob_cust::{MOST_CUSTOMERS, Roll};
use ob_sweep::Run;
use ob_time::CivilDays;
use std::alloc::Global;

/// The customer-seconds of an outage interval that lies in the period: under its cause, under its
/// section's home feeder, and under each day that it touches. The part in a day may be 0. The error
/// is a failed allocation.
pub fn amounts(
    alloc: Global,
    run: &Run,
    cause: u8,
    feeder: u8,
    roll: &Roll,
    period: &CivilDays,
) -> Result<Vec<Moved>, Stop>
    requires cause { cause < 64 }
    requires feeder { 1 ≤ feeder }
    requires begins { first_second_of period.now ≤ run.now.since }
    requires some { run.now.since < run.now.until }
    requires ends { run.now.until ≤ end_second_of period.now }
    ensures served { IfOk result (λ moved. AddUpTo moved.items
        (served_in roll.now.customers run.now cause feeder (days_of period.now))) }
    ensures customer_seconds { IfOk result (λ moved. AddUpTo moved.items
        (customer_seconds_in roll.now.customers run.now cause feeder (days_of period.now))) }

    // For an outage interval of a network under a switching log, they are its part of the
    // customer-seconds without supply.
    ensures without_supply { (net : Network) (entries : List Entry) (p : Days)
        → p.days ≡ days_of period.now → IsRunOf net entries p run.now cause feeder
        → IfOk result (λ moved. AddUpTo moved.items
        (section_seconds_by net entries roll.now.customers p run.now.section
        (seconds run.now.since run.now.until))) }
    ensures keys { IfOk result (λ moved. HaveKeys (day_count period.now) moved.items) }
    ensures err { IfErr result (λ stop. stop ≡ out_of_memory) }
{
    let mut moved = Vec::new(alloc);
    post_run(run, cause, feeder, roll, period, &mut moved)?;
    Ok(moved)
}

/// Appends the customer-seconds of outage intervals that lie in the period, of sections with the
/// same home feeder, each under its own cause. The error is a failed allocation; rows may have been
/// appended before it.
pub fn post_runs(
    runs: &[Run],
    causes: &[u8],
    feeder: u8,
    roll: &Roll,
    period: &CivilDays,
    rows: &mut Vec<Moved>,
) -> Result<(), Stop>
    requires each { length causes.now ≡ length runs.now }
    requires causes { All (λ cause. cause < 64) causes.now }
    requires feeder { 1 ≤ feeder }
    requires within { LieWithin (first_second_of period.now) (end_second_of period.now) runs.now }
    ensures posted { OnOk result ((dim : Dimension) (key : ℕ)
        → delta_of rows.new.items dim key ≡ delta_of rows.old.items dim key +ℤ pos
        (amount_of_posted roll.now.customers (days_of period.now) feeder (zip runs.now causes.now)
        dim key)) }

    // If the causes are those of the intervals' cutters in a switching log, the amount is that of
    // the intervals.
    ensures amounts { (entries : List Entry) → causes.now ≡ map (run_cause entries) runs.now
        → OnOk result ((dim : Dimension) (key : ℕ)
        → delta_of rows.new.items dim key ≡ delta_of rows.old.items dim key +ℤ pos
        (amount_of_runs entries roll.now.customers (days_of period.now) feeder runs.now dim key)) }
    ensures keys { HaveKeys (day_count period.now) rows.old.items
        → HaveKeys (day_count period.now) rows.new.items }
    ensures kept { take (length rows.old.items) rows.new.items ≡ rows.old.items }
    ensures err { IfErr result (λ stop. stop ≡ out_of_memory) }
{
    for place in 0..runs.len() {
        post_run(&runs[place], causes[place], feeder, roll, period, rows)?;
    }
    Ok(())
}

/// Appends the customer-seconds of an outage interval that lies in the period, as `amounts` gives
/// them. The error is a failed allocation; rows may have been appended before it.
pub fn post_run(
    run: &Run,
    cause: u8,
    feeder: u8,
    roll: &Roll,
    period: &CivilDays,
    rows: &mut Vec<Moved>,
) -> Result<(), Stop>
    requires cause { cause < 64 }
    requires feeder { 1 ≤ feeder }
    requires begins { first_second_of period.now ≤ run.now.since }
    requires some { run.now.since < run.now.until }
    requires ends { run.now.until ≤ end_second_of period.now }
    ensures served { OnOk result ((dim : Dimension) (key : ℕ)
        → delta_of rows.new.items dim key ≡ delta_of rows.old.items dim key +ℤ pos
        (served_in roll.now.customers run.now cause feeder (days_of period.now) dim key)) }
    ensures amounts { OnOk result ((dim : Dimension) (key : ℕ)
        → delta_of rows.new.items dim key ≡ delta_of rows.old.items dim key +ℤ pos
        (customer_seconds_in roll.now.customers run.now cause feeder (days_of period.now) dim key)) }
    ensures keys { HaveKeys (day_count period.now) rows.old.items
        → HaveKeys (day_count period.now) rows.new.items }
    ensures kept { take (length rows.old.items) rows.new.items ≡ rows.old.items }
    ensures err { IfErr result (λ stop. stop ≡ out_of_memory) }
{
    prove!(period.first_second() <= run.since && run.until <= period.end_second());
    let delta = served_delta(roll, run.section, run.since, run.until);
    rows.push(Moved {
        dim: Dim::Cause,
        key: u16::from(cause),
        delta,
    })?;
    rows.push(Moved {
        dim: Dim::Feeder,
        key: u16::from(feeder),
        delta,
    })?;
    let first = period.day_of(run.since).unwrap();
    let last = period.day_of(run.until - 1).unwrap();
    for day in first..last + 1 {
        let (since, until) = period.day_bounds(day).unwrap();
        let delta = served_delta(
            roll,
            run.section,
            run.since.max(since),
            run.until.min(until),
        );
        rows.push(Moved {
            dim: Dim::Day,
            key: day,
            delta,
        })?;
    }
    Ok(())
}

// The seconds of service as a delta: for 100,000 customers they are far below 2^63.
pub(crate) fn served_delta(roll: &Roll, section: u16, since: Second, until: Second) -> i64
    requires { until ≤ 99_999_999_999 }
    ensures { result ≡ pos (served roll.now.customers section since until) }
{
    prove!(roll.customers().len() <= MOST_CUSTOMERS);
    roll.served_seconds(section, since, until) as i64
}
