//! Rows of amounts, written as tuples; periods and registers; the amounts of an outage interval.
ghost use Rattle.std.specs.Prelude.{◌≡◌, IfOk};
ghost use Rattle.ob_time.specs.Calendar.{day_count};

use ob_cust::{Customer, Roll};
use ob_net::Second;
use ob_post::{Dim, Moved, amounts};
use ob_sweep::Run;
use ob_time::{CivilDays, Period};
use std::alloc::Global;
use std::test::Fail;

/// A dimension, a key and a delta.
pub type Row = (Dim, u16, i64);

/// Answers whether the rows equal these tuples, in this order.
pub fn are(moved: &[Moved], wanted: &[Row]) -> bool {
    for (row, wanted) in moved.iter().zip(wanted) {
        if (row.dim, row.key, row.delta) != *wanted {
            return false;
        }
    }
    moved.len() == wanted.len()
}

/// The row of a dimension, a key and a delta.
pub fn row(dim: Dim, key: u16, delta: i64) -> Moved
    ensures { result ≡ record { dim = dim; key = key; delta = delta } }
{
    Moved { dim, key, delta }
}

/// The sum of the rows under a key of a dimension.
pub fn sum_of(rows: &[Moved], dim: Dim, key: u16) -> Result<u64, Fail> {
    let mut sum: u64 = 0;
    for row in rows {
        if row.dim == dim && row.key == key {
            let delta = u64::try_from(row.delta)?;
            sum = sum.checked_add(delta).ok_or("a sum that is too great")?;
        }
    }
    Ok(sum)
}

/// The period of this many days from a first date on in a zone.
pub fn period_of(alloc: Global, first: &[u8], days: u16, zone: &[u8]) -> Result<Period, Fail>
    ensures { IfOk result (λ p. day_count p ≡ days) }
{
    let period = Period::from_text(alloc, first, days, zone)?;
    Ok(period)
}

/// A customer's number, its section, and the bounds of its service.
pub type Served = (u32, u16, Second, Option<Second>);

/// The register of these customers.
pub fn roll_of(alloc: Global, customers: &[Served]) -> Result<Roll, Fail> {
    let mut roll = Roll::new(alloc);
    for (no, section, since, until) in customers {
        roll.reserve_one()?;
        roll.connect(Customer {
            no: *no,
            section: *section,
            since: *since,
            until: *until,
        })?;
    }
    Ok(roll)
}

/// The amounts of an outage interval within a period, with cause 3 and feeder 2.
pub fn amounts_in(
    alloc: Global,
    run: &Run,
    roll: &Roll,
    period: &CivilDays,
) -> Result<Vec<Moved>, Fail> {
    let (first, end) = (period.first_second(), period.end_second());
    if run.since < first || run.until <= run.since || end < run.until {
        return Err("a run out of place".into());
    }
    Ok(amounts(alloc, run, 3, 2, roll, period)?)
}
