//! Tests of moments and dates as texts. Expected seconds are those of GNU `date` and of Python's
//! `zoneinfo`, or are worked out by hand.
use jiff::civil::Date;
use ob_net::{LAST_SECOND, Second};
use ob_time::{read_date, read_second, second_text};
use std::test::Fail;

const MOMENTS: &'static [(&'static [u8], Second)] = &[
    (b"2024-01-01T00:00:00Z", 1_704_067_200),
    (b"2024-01-01T01:00:00+01:00", 1_704_067_200),
    (b"99999999999", 99_999_999_999),
    // The ends of the range; GNU `date -u -d @99999999999` prints the last one.
    (b"0", 0),
    (b"00000000007", 7),
    (b"1970-01-01T00:00:00Z", 0),
    (b"5138-11-16T09:46:39Z", 99_999_999_999),
    // The offsets farthest from UTC.
    (b"1970-01-01T23:59:00+23:59", 0),
    (b"1969-12-31T00:01:00-23:59", 0),
    (b"5138-11-17T09:45:39+23:59", 99_999_999_999),
    (b"2024-01-01T00:00:00-00:00", 1_704_067_200),
    // As GNU `date` reads them.
    (b"2024-02-29T12:34:56-05:00", 1_709_228_096),
    (b"2024-02-29T12:34:56+23:59", 1_709_123_756),
    (b"2024-02-29T12:34:56-23:59", 1_709_296_436),
    (b"2000-12-31T23:59:59Z", 978_307_199),
];

#[test]
fn moments(rt: HostRuntime) {
    for (text, second) in MOMENTS {
        assert!(rt; read_second(text) == Some(*second));
    }
}

const DATES: &'static [(&'static [u8], i16, i8, i8)] = &[
    (b"2024-02-29", 2024, 2, 29),
    (b"1970-01-01", 1970, 1, 1),
    (b"9999-12-31", 9999, 12, 31),
    (b"0000-02-29", 0, 2, 29),
];

#[test]
fn dates(rt: HostRuntime) {
    for (text, year, month, day) in DATES {
        let wanted = Date::new(*year, *month, *day).ok();
        assert!(rt; wanted.is_some() && read_date(text) == wanted);
    }
    assert!(rt; read_date(b"20240229") == None);
}

// Texts that are neither moments nor dates, between bars: of no such date; outside the range of
// moments; of no such time of day or offset; not in the required form.
const NEITHER: &'static str = "\
|2023-02-29|2024-02-30|2024-13-01|2024-01-00|2024-2-29|2024-02-29 |-001-01-01\
|100000000000|1970-01-01T00:30:00+01:00|1969-12-31T23:59:59Z|5138-11-16T09:46:40Z\
|1970-01-01T23:58:59+23:59|0000-02-29T00:00:00Z|9999-12-31T23:59:59Z\
|2024-02-30T00:00:00Z|2023-02-29T00:00:00Z|2024-13-01T00:00:00Z|2024-00-01T00:00:00Z\
|2024-04-31T00:00:00Z|2024-01-01T24:00:00Z|2024-01-01T00:60:00Z|2024-01-01T00:00:60Z\
|2024-01-01T00:00:00+24:00|2024-01-01T00:00:00+00:60\
|+1|1 |2024-01-01T00:00:00|2024-01-01t00:00:00Z|2024-01-01T00:00:00z|2024-01-01 00:00:00Z\
|2024-01-01T00:00:00.0Z|2024-01-01T00:00:00+0100|2024-01-01T00:00:00Z |";

#[test]
fn neither_moments_nor_dates(rt: HostRuntime) {
    for text in NEITHER.split('|') {
        let (moment, date) = (read_second(text.as_bytes()), read_date(text.as_bytes()));
        assert!(rt; moment.is_none() && date.is_none(), "{text}");
    }
}

const TEXTS: &'static [(Second, &'static str)] = &[
    (0, "1970-01-01T00:00:00Z"),
    (978_307_199, "2000-12-31T23:59:59Z"),
    (1_704_067_200, "2024-01-01T00:00:00Z"),
    (99_999_999_999, "5138-11-16T09:46:39Z"),
];

#[test]
fn texts_of_seconds(rt: HostRuntime) -> Result<(), Fail> {
    for (second, wanted) in TEXTS {
        assert!(rt; *second <= LAST_SECOND);
        let text = second_text(rt.alloc(), *second)?;
        assert!(rt; text.as_str() == *wanted);
    }
    Ok(())
}
