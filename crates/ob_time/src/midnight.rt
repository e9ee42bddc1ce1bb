//! The second at which a zone's day begins.
ghost use Rattle.std.specs.Prelude.{◌≡◌, ℕ, IfSome, IfNone};
ghost use Rattle.jiff.specs.Words.{plain_zone, epoch_day, ambiguous_at, IsInstantAt};
ghost use Rattle.ob_time.specs.Midnight.{IsMidnight, counted_offset};

use jiff::civil::{Date, DateTime, Time};
use jiff::tz::TimeZone;
use jiff::{Error, Timestamp};
use ob_base::{LAST_SECOND, Second};

/// The second that the zone picks for the midnight that begins the date; `None` if it is outside 0
/// to `LAST_SECOND`. In a gap the offset before it counts, in a fold the earlier instant.
pub(crate) fn midnight(date: Date, zone: &TimeZone<'_>) -> Option<Second>
    ensures found { IfSome result (IsMidnight (plain_zone zone.now) (epoch_day date)) }
    ensures none { IfNone result ((s : ℕ)
        → ¬ (IsMidnight (plain_zone zone.now) (epoch_day date) s)) }
{
    let Ok(instant) = picked_instant(date.to_datetime(Time::midnight()), zone) else {
        return None;
    };
    // Midnights are whole seconds.
    let second = instant.as_second();
    if second < 0 || second > LAST_SECOND as i64 {
        return None;
    }
    Some(second as Second)
}

// The instant of the civil datetime in the zone.
#[tactic(auto, using(crate::proofs::MidnightLemmas::counted_is_compatible))]
fn picked_instant(datetime: DateTime, zone: &TimeZone<'_>) -> Result<Timestamp, Error>
    ensures { IsInstantAt datetime
        (counted_offset (ambiguous_at (plain_zone zone.now) datetime)) result }
{
    zone.to_timestamp(datetime)
}
