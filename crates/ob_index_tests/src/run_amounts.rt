//! Tests of the amounts of outage intervals.
ghost use Rattle.std.specs.Prelude.{◌≡◌};

use crate::moved::{Row, Served, amounts_in, are, period_of, roll_of, row};
use ob_cust::Roll;
use ob_net::Second;
use ob_post::{Dim, Moved, post_run, post_runs};
use ob_sweep::Run;
use ob_time::CivilDays;
use std::process::Abort;
use std::test::Fail;

// 2024-01-01T00:00:00Z.
const T: Second = 1_704_067_200;

// Five customers on section 4 from T on, and two more from later on: one on section 4 and one on
// section 2.
const SEVEN: &'static [Served] = &[
    (6, 4, T, None),
    (7, 4, T, None),
    (8, 4, T, None),
    (9, 4, T, None),
    (10, 4, T, None),
    (11, 4, T + 100_000, None),
    (12, 2, T + 100_000, None),
];

// An outage interval of section 4.
fn run(since: Second, until: Second, cutter: Option<u32>) -> Run
    ensures { result ≡ record { section = 4; since = since; until = until; cutter = cutter } }
{
    Run {
        section: 4,
        since,
        until,
        cutter,
    }
}

// The amounts of an outage interval of one second at midnight.
const ONE_SECOND: [Row; 3] = [(Dim::Cause, 3, 5), (Dim::Feeder, 2, 5), (Dim::Day, 1, 5)];

// Appends the amounts of two outage intervals of section 4, one of ten minutes with cause 3 and one
// of 300 seconds across midnight that no entry caused, and then again those of the first interval
// alone.
fn post(
    rt: &impl Abort,
    roll: &Roll,
    period: &CivilDays,
    rows: &mut Vec<Moved>,
) -> Result<(), Fail> {
    let first = run(T + 3_600, T + 4_200, Some(1));
    let second = run(T + 86_200, T + 86_500, None);
    assert!(rt; period.first_second() <= T);
    assert!(rt; T + 86_500 <= period.end_second());
    post_runs(&[first, second], &[3, 0], 2, roll, period, rows)?;
    post_run(&first, 3, 2, roll, period, rows)?;
    Ok(())
}

// The first row is the one that was there before.
const POSTED: [Row; 11] = [
    (Dim::Cause, 3, -7),
    (Dim::Cause, 3, 3_000),
    (Dim::Feeder, 2, 3_000),
    (Dim::Day, 0, 3_000),
    (Dim::Cause, 0, 1_500),
    (Dim::Feeder, 2, 1_500),
    (Dim::Day, 0, 1_000),
    (Dim::Day, 1, 500),
    (Dim::Cause, 3, 3_000),
    (Dim::Feeder, 2, 3_000),
    (Dim::Day, 0, 3_000),
];

#[test]
fn amounts_of_runs(rt: HostRuntime) -> Result<(), Fail> {
    let period = period_of(rt.alloc(), b"2024-01-01", 2, b"UTC0")?;
    let roll = roll_of(rt.alloc(), SEVEN)?;
    let second = run(T + 86_400, T + 86_401, Some(1));
    let moved = amounts_in(rt.alloc(), &second, &roll, &period)?;
    assert!(rt; are(&moved, &ONE_SECOND));
    let mut rows = Vec::new(rt.alloc());
    rows.push(row(Dim::Cause, 3, -7))?;
    post(&rt, &roll, &period, &mut rows)?;
    assert!(rt; are(&rows, &POSTED));
    Ok(())
}
