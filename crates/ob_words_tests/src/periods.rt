//! Tests of periods and their days. Expected seconds are those of GNU `date` (`TZ=RULE date -d
//! "DATE 00:00" +%s`) and of Python's `zoneinfo`, or are worked out by hand. The second of a
//! midnight is 86,400 for each day from 1970-01-01 on, less the offset in seconds east of UTC.
use jiff::civil::Date;
use jiff::tz::TimeZone;
use ob_net::{Refusal, Second, Stop};
use ob_time::{Period, read_date};
use std::process::Abort;
use std::test::Fail;

const EASTERN: &[u8] = b"EST5EDT,M3.2.0,M11.1.0";

const LORD_HOWE: &[u8] = b"<+1030>-10:30<+11>-11,M10.1.0,M4.1.0";

const ASUNCION: &[u8] = b"<-04>4<-03>,M10.1.0/0,M3.4.0/0";

const SANTIAGO: &[u8] = b"<-04>4<-03>,M9.1.6/24,M4.1.6/24";

const HAVANA: &[u8] = b"CST5CDT,M3.2.0/0,M11.1.0/1";

// A period's first date, its number of days and its zone; a day of it, the day's first second and
// its length in seconds.
type DayRow = (&'static [u8], u16, &'static [u8], u16, Second, u64);

const DAYS: &'static [DayRow] = &[
    // The clock springs forward at 02:00, and falls back at 02:00.
    (b"2024-03-10", 2, EASTERN, 0, 1_710_046_800, 82_800),
    (b"2024-03-10", 2, EASTERN, 1, 1_710_129_600, 86_400),
    (b"2024-11-03", 1, EASTERN, 0, 1_730_606_400, 90_000),
    // A shift of half an hour: 24.5 and 23.5 hours.
    (b"2024-04-07", 1, LORD_HOWE, 0, 1_712_408_400, 88_200),
    (b"2024-10-06", 1, LORD_HOWE, 0, 1_728_135_000, 84_600),
    // No shift: 05:45 and 23:59 east of UTC, and UTC itself.
    (b"2024-02-29", 1, b"<+0545>-5:45", 0, 1_709_144_100, 86_400),
    (b"2024-01-02", 1, b"<+2359>-23:59", 0, 1_704_067_260, 86_400),
    (b"2024-01-01", 366, b"UTC0", 0, 1_704_067_200, 86_400),
    (b"2024-01-01", 366, b"UTC0", 365, 1_735_603_200, 86_400),
    // A gap from 00:00 to 01:00: by the offset in force before the gap, the midnight is the
    // beginning of the gap, so the day before has 24 hours and the day itself 23.
    (b"2023-09-30", 3, ASUNCION, 0, 1_696_046_400, 86_400),
    (b"2023-09-30", 3, ASUNCION, 1, 1_696_132_800, 82_800),
    // Such a gap, which the rule gives as 24:00 of the day before.
    (b"2024-09-07", 2, SANTIAGO, 0, 1_725_681_600, 86_400),
    (b"2024-09-07", 2, SANTIAGO, 1, 1_725_768_000, 82_800),
    // The clock falls back at midnight, so the day that ends has 25 hours.
    (b"2024-04-06", 2, SANTIAGO, 0, 1_712_372_400, 90_000),
    (b"2024-04-06", 2, SANTIAGO, 1, 1_712_462_400, 86_400),
    // A fold from 00:00 to 01:00: the day begins at the earlier of its two midnights.
    (b"2024-11-02", 2, HAVANA, 0, 1_730_520_000, 86_400),
    (b"2024-11-02", 2, HAVANA, 1, 1_730_606_400, 90_000),
    // The first and the last dates that have bounds: second 0 is midnight in UTC, and
    // midnight of the day before in the zone 24 hours west of it; the last midnight is
    // 99,999,999,999 less 09:46:39.
    (b"1970-01-01", 1, b"UTC0", 0, 0, 86_400),
    (b"1969-12-31", 1, b"AAA24", 0, 0, 86_400),
    (b"5138-11-15", 1, b"UTC0", 0, 99_999_878_400, 86_400),
];

#[test]
fn days_of_zones(rt: HostRuntime) -> Result<(), Fail> {
    for (first, days, zone, day, begin, seconds) in DAYS {
        let period = Period::from_text(rt.alloc(), first, *days, zone)?;
        let end = begin.saturating_add(*seconds);
        assert!(rt; period.day_bounds(*day) == Some((*begin, end)));
        assert!(rt; period.day_of(*begin) == Some(*day));
        assert!(rt; period.day_bounds(*days) == None);
    }
    Ok(())
}

// Checks the first second of a period, the second after its last, and its length in seconds.
fn spans(rt: &impl Abort, period: &Period, first: Second, end: Second, seconds: u64) {
    assert!(rt; period.first_second() == first);
    assert!(rt; period.end_second() == end);
    assert!(rt; period.length() == seconds);
}

// Dates in text, and the days that they are of the period below.
const DATES: &'static [(&'static [u8], Option<u16>)] = &[
    (b"2024-03-09", None),
    (b"2024-03-11", Some(1)),
    (b"2024-03-12", None),
];

// Seconds around the midnights of the period below, and the days that they are in.
const SECONDS: &'static [(Second, Option<u16>)] = &[
    (1_710_046_799, None),
    (1_710_129_599, Some(0)),
    (1_710_129_600, Some(1)),
    (1_710_215_999, Some(1)),
    (1_710_216_000, None),
];

fn has_seconds(rt: &impl Abort, period: &Period, rows: &[(Second, Option<u16>)]) {
    for (second, day) in rows {
        assert!(rt; period.day_of(*second) == *day);
    }
}

fn has_dates(rt: &impl Abort, period: &Period, rows: &[(&[u8], Option<u16>)]) -> Result<(), Fail> {
    for (text, day) in rows {
        let date = read_date(text).ok_or("a date")?;
        assert!(rt; period.day_index(&date) == *day);
    }
    Ok(())
}

#[test]
fn two_days(rt: HostRuntime) -> Result<(), Fail> {
    let period = Period::from_text(rt.alloc(), b"2024-03-10", 2, EASTERN)?;
    spans(&rt, &period, 1_710_046_800, 1_710_216_000, 169_200);
    assert!(rt; period.days() == 2 && period.zone_text() == EASTERN);
    assert!(rt; period.date_text(1)?.as_str() == "2024-03-11");
    has_seconds(&rt, &period, SECONDS);
    has_dates(&rt, &period, DATES)
}

// 366 days of 86,400 seconds; where the clock changes, the year's two changes cancel out.
#[test]
fn a_year(rt: HostRuntime) -> Result<(), Fail> {
    let first = Date::new(2024, 1, 1)?;
    let period = Period::new(rt.alloc(), first, 366, &TimeZone::UTC)?;
    spans(&rt, &period, 1_704_067_200, 1_735_689_600, 31_622_400);
    assert!(rt; period.day_of(1_735_689_600) == None);
    assert!(rt; period.days() == 366 && period.zone_text() == b"-".as_slice());
    assert!(rt; period.date_text(365)?.as_str() == "2024-12-31");
    let period = Period::from_text(rt.alloc(), b"2024-01-01", 366, EASTERN)?;
    spans(&rt, &period, 1_704_085_200, 1_735_707_600, 31_622_400);
    Ok(())
}

// First dates, numbers of days and zones that make no period.
const NO_PERIODS: &'static [(&'static [u8], u16, &'static [u8])] = &[
    (b"2024-01-01", 0, b"UTC0"),
    (b"2024-01-01", 367, b"UTC0"),
    (b"2023-02-29", 1, b"UTC0"),
    (b"2024-1-01", 1, b"UTC0"),
    (b"", 1, b"UTC0"),
    // Not a POSIX TZ rule.
    (b"2024-01-01", 1, b""),
    (b"2024-01-01", 1, b"UTC"),
    (b"2024-01-01", 1, b"-"),
    (b"2024-01-01", 1, b"utc 0"),
    (b"2024-01-01", 1, b"EST5EDT,M13.2.0,M11.1.0"),
    (b"2024-01-01", 1, b"\xC3\x84BC0"),
    (b"2024-01-01", 1, &[b'A'; 65]),
    // A bound below second 0, above the last second, or of a date past 9999-12-31.
    (b"1970-01-01", 1, b"<+01>-1"),
    (b"1969-12-31", 1, b"UTC0"),
    (b"0000-02-29", 1, b"UTC0"),
    (b"5138-11-15", 2, b"UTC0"),
    (b"9999-12-31", 1, b"UTC0"),
    // Offsets that differ by two days: a midnight that isn't later than the one before it.
    (b"2023-04-28", 5, b"AAA-24BBB24,J60,J120"),
    (b"2023-02-27", 5, b"AAA24BBB-24,J60,J120"),
];

#[test]
fn no_periods(rt: HostRuntime) {
    for (first, days, zone) in NO_PERIODS {
        let answer = Period::from_text(rt.alloc(), first, *days, zone);
        assert!(rt; answer.err() == Some(Stop::Refused(Refusal::BadPeriod)));
    }
}

// These periods are refused before any memory is requested: no day, too many days, and a last day
// that ends past the last date.
#[test]
fn no_periods_of_days(rt: HostRuntime) -> Result<(), Fail> {
    let first = Date::new(2024, 1, 1)?;
    let last = Date::new(9999, 12, 31)?;
    for &(date, days) in &[(first, 0), (first, 367), (last, 1)] {
        let answer = Period::new(rt.alloc(), date, days, &TimeZone::UTC);
        assert!(rt; answer.err() == Some(Stop::Refused(Refusal::BadPeriod)));
    }
    Ok(())
}
