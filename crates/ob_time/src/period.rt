//! A period of civil days in a zone, made from dates and zones of `jiff`.
ghost use Rattle.std.specs.Prelude.{◌≡◌, ℕ, pos, ◌<◌, ◌+ℤ◌, ◌↔◌, List, codes, Err, IfSome, IfNone, IfOk, IfErr, string_bytes};
ghost use Rattle.jiff.specs.Types.{Date as PlainDate, TimeZone as PlainZone};
ghost use Rattle.jiff.specs.Words.{plain_zone, epoch_day};
ghost use Rattle.ob_base.specs.Stop.{IsRefusedOrNoMemory, out_of_memory};
ghost use Rattle.ob_time.specs.Calendar.{Calendar, IsDayOn, day_count, day_on};
ghost use Rattle.ob_time.specs.Dates.{day_text};
ghost use Rattle.ob_time.specs.Moment.{IsDateText, IsTextOfDay};
ghost use Rattle.ob_time.specs.Period.{HasNoPeriod, IsPeriod, IsPeriodText, IsZoneText};

use crate::bounds::day_bounds_from;
use crate::civil_days::CivilDays;
use crate::date::{read_date, text_of_day};
use jiff::civil::Date;
use jiff::tz::TimeZone;
use ob_base::{Refusal, Stop};
use std::alloc::Global;
use std::marker::Model;
use std::ops::Deref;

const BAD_PERIOD: Stop = Stop::Refused(Refusal::BadPeriod);

// The most days that a period may have.
const MOST_DAYS: u16 = 366;

// A period must have fewer seconds than this.
const TOO_LONG: u64 = 1 << 25;

/// A period: whole civil days in a zone, one after another, 1 to 366, numbered from 0.
///
/// It dereferences to its `CivilDays`. Only functions that need dates and zones are defined here,
/// so a crate that uses `CivilDays` alone is built without `jiff`.
#[derive(Drop)]
pub struct Period {
    days: CivilDays,
}

impl Model for Period {
    ghost Value = { Calendar };

    ghost view = { λ p. p.days };
}

impl Deref for Period {
    type Target = CivilDays;

    ghost deref_gives = { λ p days. days ≡ p };

    fn deref(&self) -> &CivilDays {
        &self.days
    }
}

impl Period {
    /// Makes the period of `days` days from the first date on, in the zone. A day begins at the
    /// instant of its midnight: in a gap by the offset before it, in a fold at the earlier instant.
    ///
    /// Refused with `BadPeriod` exactly if `days` isn't 1 to 366, a bound lies outside 0 to
    /// `LAST_SECOND` or isn't above the bound before it, or there are 2^25 seconds or more. All
    /// this is checked before memory is requested.
    pub fn new(alloc: Global, first: Date, days: u16, zone: &TimeZone<'_>) -> Result<Period, Stop>
        ensures ok { IfOk result (IsPeriod (plain_zone zone.now) (epoch_day first) days) }
        ensures zone { IfOk result (λ p. p.zone ≡ codes "-") }
        ensures refused { result ≡ Err (Stop.Refused Refusal.BadPeriod)
            ↔ HasNoPeriod (plain_zone zone.now) (epoch_day first) days }
        ensures errors { IfErr result (IsRefusedOrNoMemory Refusal.BadPeriod) }
    {
        Period::with_zone_text(alloc, first, days, zone, b"-")
    }

    /// Makes the period of `days` days from the date `YYYY-MM-DD` on, in the zone of a POSIX TZ
    /// rule of 1 to 64 ASCII bytes, such as `EST5EDT,M3.2.0,M11.1.0`.
    ///
    /// Refused with `BadPeriod` exactly if `new` refuses it, or a text is no date or no such rule.
    pub fn from_text(alloc: Global, first: &[u8], days: u16, zone: &[u8]) -> Result<Period, Stop>
        ensures ok { IfOk result (IsPeriodText first.now days zone.now) }
        ensures only { IfOk result (λ p. (c : Calendar)
            → IsPeriodText first.now days zone.now c → c ≡ p) }
        ensures refused { result ≡ Err (Stop.Refused Refusal.BadPeriod)
            ↔ ((c : Calendar) → ¬ (IsPeriodText first.now days zone.now c)) }
        ensures errors { IfErr result (IsRefusedOrNoMemory Refusal.BadPeriod) }
    {
        let Some(date) = read_date(first) else {
            return Err(BAD_PERIOD);
        };
        let Some(rule) = read_zone(zone) else {
            return Err(BAD_PERIOD);
        };
        Period::with_zone_text(alloc, date, days, &rule, zone)
    }

    // Makes the period with this text for its zone.
    fn with_zone_text(
        alloc: Global,
        first: Date,
        days: u16,
        zone: &TimeZone<'_>,
        text: &[u8],
    ) -> Result<Period, Stop>
        ensures ok { IfOk result (IsPeriod (plain_zone zone.now) (epoch_day first) days) }
        ensures zone { IfOk result (λ p. p.zone ≡ text.now) }
        ensures refused { result ≡ Err (Stop.Refused Refusal.BadPeriod)
            → HasNoPeriod (plain_zone zone.now) (epoch_day first) days }
        ensures always { HasNoPeriod (plain_zone zone.now) (epoch_day first) days
            → result ≡ Err (Stop.Refused Refusal.BadPeriod) }
        ensures errors { IfErr result (IsRefusedOrNoMemory Refusal.BadPeriod) }
    {
        if days < 1 || days > MOST_DAYS {
            return Err(BAD_PERIOD);
        }
        let Some(bounds) = day_bounds_from(first, days, zone) else {
            return Err(BAD_PERIOD);
        };
        let last = usize::from(days);
        if bounds[last] - bounds[0] >= TOO_LONG {
            return Err(BAD_PERIOD);
        }
        let bounds = Vec::from_slice(alloc, &bounds[..last + 1])?;
        let zone = Vec::from_slice(alloc, text)?;
        let first_day = first.to_plain().to_unix_epoch_day();
        Ok(Period {
            days: CivilDays::between(first_day, bounds, zone),
        })
    }

    /// The number of the day with this date; `None` if the period has no such day.
    pub fn day_index(&self, date: &Date) -> Option<u16>
        ensures index { result ≡ day_on self.now (epoch_day date.now) }
        ensures found { IfSome result (λ k. IsDayOn self.now k (epoch_day date.now)) }
        ensures none { IfNone result ((k : ℕ) → ¬ (IsDayOn self.now k (epoch_day date.now))) }
    {
        self.days.index_of(date.to_plain().to_unix_epoch_day())
    }

    /// The date of a day, as `2024-03-11`. The error is a failed allocation.
    pub fn date_text(&self, day: u16) -> Result<String, Stop>
        requires { day < day_count self.now }
        ensures ok { IfOk result (λ t.
            IsTextOfDay (string_bytes t) (self.now.first_day +ℤ pos day)) }
        ensures only { IfOk result (λ t. (text : List ℕ)
            → IsTextOfDay text (self.now.first_day +ℤ pos day) → text ≡ string_bytes t) }
        ensures reads_back { IfOk result (λ t. (d : PlainDate) → IsDateText (string_bytes t) d
            → epoch_day d ≡ self.now.first_day +ℤ pos day) }
        ensures value { IfOk result (λ t.
            string_bytes t ≡ day_text (self.now.first_day +ℤ pos day)) }
        ensures errors { IfErr result (λ e. e ≡ out_of_memory) }
    {
        text_of_day(self.days.allocator(), self.days.day_number(day))
    }
}

// Reads the zone of a POSIX TZ rule of 1 to 64 ASCII bytes.
fn read_zone(text: &[u8]) -> Option<TimeZone<'static>>
    ensures found { IfSome result (λ tz. IsZoneText text.now (plain_zone tz)) }
    ensures none { IfNone result ((tz : PlainZone) → ¬ (IsZoneText text.now tz)) }
{
    if text.is_empty() || text.len() > 64 || !text.is_ascii() {
        return None;
    }
    let Ok(text) = std::str::from_utf8(text) else {
        return None;
    };
    match TimeZone::posix(text) {
        Ok(zone) => Some(zone),
        Err(_) => None,
    }
}
