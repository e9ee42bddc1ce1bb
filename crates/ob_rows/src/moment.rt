//! Moments of UTC as text.
ghost use Rattle.std.specs.Prelude.{◌≡◌, ◌++◌, ◌+◌, ◌/◌, ◌%◌, ◌<◌, ◌≤◌, ◌≤ℤ◌, pos, OnOk};
ghost use Rattle.ob_time.specs.Dates.{day_text, ymd_text};
ghost use Rattle.ob_rows.specs.Moments.{clock_text, moment_text, utc_text};

use itoa::Buffer;
use jiff_core::civil::Date;
use ob_base::{LAST_SECOND, Second};
use std::alloc::AllocError;

const SECONDS_OF_DAY: u64 = 86_400;

/// Appends the text of a second, as `2025-03-24T08:00:00Z`; past the last moment that a book can
/// name it is the second's number. Fails only if an allocation fails.
pub(crate) fn push_second(text: &mut Vec<u8>, second: Second) -> Result<(), AllocError>
    ensures { OnOk result (text.new.items ≡ text.old.items ++ moment_text second) }
{
    if second <= LAST_SECOND {
        text.extend_from_slice(&moment_of(second))
    } else {
        text.extend_from_slice(Buffer::new().format(second).as_bytes())
    }
}

/// The text of a moment of UTC.
pub(crate) fn moment_of(second: Second) -> [u8; 20]
    requires { second ≤ 99_999_999_999 }
    ensures { result ≡ utc_text second }
{
    let [y1, y2, y3, y4, d1, m1, m2, d2, k1, k2] = date_of(second / SECONDS_OF_DAY);
    let [h1, h2, c1, n1, n2, c2, s1, s2] = clock_of((second % SECONDS_OF_DAY) as u32);
    [
        y1, y2, y3, y4, d1, m1, m2, d2, k1, k2, b'T', h1, h2, c1, n1, n2, c2, s1, s2, b'Z',
    ]
}

// The date of a day, by its days since 1970-01-01.
fn date_of(day: u64) -> [u8; 10]
    requires { day ≤ 1_157_407 }
    ensures { result ≡ day_text (pos day) }
{
    let date = Date::from_unix_epoch_day(day as i64).unwrap();
    ymd_of(year_of(date), date.month, date.day)
}

// The year of a date, as a number.
fn year_of(date: Date) -> u16
    requires { pos 0 ≤ℤ date.year }
    ensures { date.year ≡ pos result }
{
    date.year as u16
}

// `YYYY-MM-DD` of these numbers.
fn ymd_of(year: u16, month: u8, day: u8) -> [u8; 10]
    requires year { year < 10_000 }
    requires month { month < 100 }
    requires day { day < 100 }
    ensures { result ≡ ymd_text year month day }
{
    let (century, year) = ((year / 100) as u8, (year % 100) as u8);
    [
        tens(century),
        ones(century),
        tens(year),
        ones(year),
        b'-',
        tens(month),
        ones(month),
        b'-',
        tens(day),
        ones(day),
    ]
}

// The clock of a second of a day.
fn clock_of(second: u32) -> [u8; 8]
    requires { second < 86_400 }
    ensures { result ≡ clock_text second }
{
    let hour = (second / 3600) as u8;
    let minute = (second / 60 % 60) as u8;
    let second = (second % 60) as u8;
    [
        tens(hour),
        ones(hour),
        b':',
        tens(minute),
        ones(minute),
        b':',
        tens(second),
        ones(second),
    ]
}

// The first of the two digits of a number below 100.
fn tens(number: u8) -> u8
    requires { number < 100 }
    ensures { result ≡ 48 + number / 10 }
{
    b'0' + number / 10
}

// The second of the two digits of a number.
fn ones(number: u8) -> u8
    ensures { result ≡ 48 + number % 10 }
{
    b'0' + number % 10
}
