//! The bounds of the days that follow a date.
ghost use Rattle.std.specs.Prelude.{◌≡◌, ℕ, pos, take, ◌<◌, ◌≤◌, ◌-◌, ◌+◌, ◌+ℤ◌, ◌↔◌, List, length, slice_index, IsTrue, IfSome, IfNone};
ghost use Rattle.std.specs.List.Sorted.{IsStrictlyIncreasing};
ghost use Rattle.jiff.specs.Words.{plain_zone, epoch_day, IsEpochDay};
ghost use Rattle.ob_time.specs.Midnight.{IsMidnight};
ghost use Rattle.ob_time.specs.Period.{AreMidnights};

use crate::midnight::midnight;
use jiff::civil::Date;
use jiff::tz::TimeZone;
use ob_base::Second;

// A period has at most 366 days: the beginning of each, and the end of the last one.
const MOST_BOUNDS: usize = 367;

// The date `days` days after the first.
fn date_after(first: Date, days: u16) -> Option<Date>
    ensures found { IfSome result (λ d. epoch_day d ≡ epoch_day first +ℤ pos days) }
    ensures none { IfNone result (¬ (IsEpochDay (epoch_day first +ℤ pos days))) }
{
    let day = i64::from(first.to_plain().to_unix_epoch_day()) + i64::from(days);
    match jiff_core::civil::Date::from_unix_epoch_day(day) {
        Ok(date) => Some(Date::from_plain(date)),
        Err(_) => None,
    }
}

/// The bounds of `days` days from the first date on: their midnights and the midnight after them.
/// `None` if one of these is missing or they don't rise. The bounds are at the array's front.
pub(crate) fn day_bounds_from(
    first: Date,
    days: u16,
    zone: &TimeZone<'_>,
) -> Option<[Second; MOST_BOUNDS]>
    requires { days ≤ 366 }
    ensures found { IfSome result (λ bounds.
        AreMidnights (plain_zone zone.now) (epoch_day first) (days + 1) (take (days + 1) bounds)) }
    ensures none { IfNone result ((bounds : List ℕ)
        → ¬ (AreMidnights (plain_zone zone.now) (epoch_day first) (days + 1) bounds)) }
{
    let mut bounds = [0; MOST_BOUNDS];
    for k in 0..days + 1 {
        let place = usize::from(k);
        let bound = bound_after(first, k, zone)?;
        if !rises_to(&bounds[..place], bound) {
            return None;
        }
        bounds[place] = bound;
    }
    Some(bounds)
}

// The midnight of the date `days` days after the first.
fn bound_after(first: Date, days: u16, zone: &TimeZone<'_>) -> Option<Second>
    ensures found { IfSome result
        (IsMidnight (plain_zone zone.now) (epoch_day first +ℤ pos days)) }
    ensures none { IfNone result ((s : ℕ)
        → ¬ (IsMidnight (plain_zone zone.now) (epoch_day first +ℤ pos days) s)) }
{
    match date_after(first, days) {
        Some(date) => midnight(date, zone),
        None => None,
    }
}

// Whether each bound so far is below the next one.
fn rises_to(bounds: &[Second], next: Second) -> bool
    ensures { IsTrue result
        ↔ (0 < length bounds.now → slice_index bounds.now (length bounds.now - 1) < next) }
{
    match bounds.last() {
        Some(last) => *last < next,
        None => true,
    }
}

/// How many bounds are at most the second.
pub(crate) fn bounds_up_to(bounds: &[Second], second: Second) -> usize
    requires { IsStrictlyIncreasing bounds.now }
    ensures within { result ≤ length bounds.now }
    ensures low { (k : ℕ) → k < result → slice_index bounds.now k ≤ second }
    ensures high { (k : ℕ) → result ≤ k → k < length bounds.now
        → second < slice_index bounds.now k }
{
    bounds.partition_point(|bound| *bound <= second)
}
