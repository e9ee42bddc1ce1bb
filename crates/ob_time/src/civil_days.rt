//! Civil days in a zone by their bounds. Dates occur in this module as day numbers only.
ghost use Rattle.std.specs.Prelude.{◌≡◌, ℕ, ℤ, pos, neg_ℤ, ◌<◌, ◌+◌, ◌^◌, ◌+ℤ◌, ◌≤ℤ◌, ◌↔◌, Some, length, slice_get, IsSome, IfSome, IfNone, IfOk, IfErr, string_bytes};
ghost use Rattle.std.specs.List.{count_by, sum_by};
ghost use Rattle.ob_base.specs.Stop.{out_of_memory};
ghost use Rattle.ob_time.specs.Calendar.{Calendar, IsCalendar, IsDayOn, IsInDay, IsInPeriod, PartSeconds, bound_of, calendar, day_at, day_count, day_on, days_of, end_second_of, first_second_of, holds, seconds_in};
ghost use Rattle.ob_time.specs.Dates.{day_text};

use crate::bounds::bounds_up_to;
use crate::date::text_of_day;
use ob_base::{Second, Stop};
use std::alloc::Global;
use std::marker::Model;

/// Whole civil days in a zone, one after another: 1 to 366, numbered from 0. Code that counts
/// seconds by day takes this type; a `Period` dereferences to it.
#[derive(Drop)]
pub struct CivilDays {
    // The day number of the first date: days since 1970-01-01.
    first_day: i32,
    // The second at which each day begins, and then the second at which the last one ends.
    bounds: Vec<Second>,
    zone: Vec<u8>,
}

impl Model for CivilDays {
    ghost Value = { Calendar };

    ghost view = { λ d. calendar d.first_day d.bounds.items d.zone.items };

    ghost invariant = { λ d. IsCalendar (calendar d.first_day d.bounds.items d.zone.items) };
}

impl CivilDays {
    /// The days from this day number on, with these bounds, in the zone that this text names.
    pub(crate) fn between(first_day: i32, bounds: Vec<Second>, zone: Vec<u8>) -> CivilDays
        requires { IsCalendar (calendar first_day bounds.items zone.items) }
        ensures { result ≡ calendar first_day bounds.items zone.items }
    {
        CivilDays {
            first_day,
            bounds,
            zone,
        }
    }

    /// The first second.
    pub fn first_second(&self) -> Second
        ensures value { result ≡ first_second_of self.now }
        ensures kept { IsCalendar self.now }
    {
        self.bounds[0]
    }

    /// The second after the last second.
    pub fn end_second(&self) -> Second
        ensures value { result ≡ end_second_of self.now }
        ensures kept { IsCalendar self.now }
    {
        self.bounds[self.bounds.len() - 1]
    }

    /// The number of seconds, from 1 to 2^25 - 1.
    #[tactic(auto, using(crate::proofs::PeriodLemmas::calendar_rises, crate::proofs::DayLemmas::days_add_up))]
    pub fn length(&self) -> Second
        ensures value { result + first_second_of self.now ≡ end_second_of self.now }
        ensures positive { 0 < result }
        ensures short { result < 2 ^ 25 }
        ensures adds_up { result ≡ sum_by seconds_in (days_of self.now) }
    {
        self.end_second() - self.first_second()
    }

    /// The number of days, from 1 to 366. Each second of the period lies in exactly one of them.
    pub fn days(&self) -> u16
        ensures value { result ≡ day_count self.now }
        ensures listed { result ≡ length (days_of self.now) }
        ensures kept { IsCalendar self.now }
        ensures parts { PartSeconds (first_second_of self.now) (end_second_of self.now)
            (days_of self.now) }
        ensures once { (s : ℕ) → IsInPeriod self.now s
            → count_by (λ day. holds day s) (days_of self.now) ≡ 1 }
    {
        (self.bounds.len() - 1) as u16
    }

    /// The number of the day that contains the second; `None` outside the period.
    pub fn day_of(&self, second: Second) -> Option<u16>
        ensures inside { IsSome result ↔ IsInPeriod self.now second }
        ensures found { IfSome result (λ k. IsInDay self.now k second) }
        ensures only { IfSome result (λ k. (j : ℕ) → IsInDay self.now j second → j ≡ k) }
        ensures none { IfNone result ((j : ℕ) → ¬ (IsInDay self.now j second)) }
    {
        if second < self.first_second() || self.end_second() <= second {
            return None;
        }
        Some((bounds_up_to(&self.bounds, second) - 1) as u16)
    }

    /// The first second of a day, and the second after its last one; `None` if the period has no
    /// day with that number.
    pub fn day_bounds(&self, day: u16) -> Option<(Second, Second)>
        ensures inside { IsSome result ↔ (day < day_count self.now) }
        ensures begin { IfSome result (λ p. p.0 ≡ bound_of self.now day) }
        ensures end { IfSome result (λ p. p.1 ≡ bound_of self.now (day + 1)) }
        ensures rises { IfSome result (λ p. p.0 < p.1) }
        ensures listed { IfSome result
            (λ p. slice_get (days_of self.now) day ≡ Some (day_at self.now day)) }
    {
        if day >= self.days() {
            return None;
        }
        let day = usize::from(day);
        Some((self.bounds[day], self.bounds[day + 1]))
    }

    /// The number within the period of the day with this day number; `None` if there is no such
    /// day.
    pub(crate) fn index_of(&self, day_number: i32) -> Option<u16>
        ensures index { result ≡ day_on self.now day_number }
        ensures found { IfSome result (λ k. IsDayOn self.now k day_number) }
        ensures none { IfNone result ((k : ℕ) → ¬ (IsDayOn self.now k day_number)) }
    {
        let day = i64::from(day_number) - i64::from(self.first_day);
        if day < 0 || day >= i64::from(self.days()) {
            return None;
        }
        Some(day as u16)
    }

    /// The day number (days since 1970-01-01) of a day of the period.
    pub(crate) fn day_number(&self, day: u16) -> i64
        requires { day < day_count self.now }
        ensures value { result ≡ self.now.first_day +ℤ pos day }
        ensures low { neg_ℤ (pos 1) ≤ℤ result }
        ensures high { result ≤ℤ pos 2_932_896 }
    {
        i64::from(self.first_day) + i64::from(day)
    }

    /// The allocator of the bounds.
    pub(crate) fn allocator(&self) -> Global {
        *self.bounds.allocator()
    }

    /// The date of a day, as `2024-03-11`. The error is a failed allocation.
    pub fn date_text(&self, day: u16) -> Result<String, Stop>
        requires { day < day_count self.now }
        ensures value { IfOk result (λ t.
            string_bytes t ≡ day_text (self.now.first_day +ℤ pos day)) }
        ensures errors { IfErr result (λ e. e ≡ out_of_memory) }
    {
        text_of_day(self.allocator(), self.day_number(day))
    }

    /// The zone's text as given to `Period::from_text`; `-` after `Period::new`.
    pub fn zone_text(&self) -> &[u8]
        ensures { result.now ≡ self.now.zone }
    {
        &self.zone
    }
}
