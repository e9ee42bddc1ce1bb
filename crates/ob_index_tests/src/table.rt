//! Tests of the annual table.
ghost use Rattle.ob_index.specs.Short.{AreShort};

use crate::marked_days::engineer;
use crate::moved::period_of;
use ob_index::indices::indices;
use ob_index::{AnnualTable, CauseRow, Counts, FeederRow, Indices, Marks, annual_text};
use ob_net::Name;
use std::process::Abort;
use std::test::Fail;

fn cause(rt: &impl Abort, code: u8, text: &[u8], amount: u64) -> CauseRow {
    let name = Name::read(text).expect(rt, "a name");
    CauseRow { code, name, amount }
}

const ONE: FeederRow = FeederRow {
    feeder: 1,
    amount: 9000,
};

const TWO: FeederRow = FeederRow {
    feeder: 2,
    amount: 0,
};

// The indices of ten customers in service for a day, five of them without supply for half an hour.
fn half_an_hour() -> Indices
    ensures { AreShort result }
{
    let counts = Counts {
        ci: 5,
        csi: 9000,
        cn: 5,
        cn_n: [5, 0, 0, 0, 0, 0, 0, 0, 0, 0],
        mi: 0,
    };
    indices(&counts, 864_000, 86_400)
}

// The indices of three days without customers.
fn nobody() -> Indices
    ensures { AreShort result }
{
    let counts = Counts {
        ci: 0,
        csi: 0,
        cn: 0,
        cn_n: [0; 10],
        mi: 7,
    };
    indices(&counts, 0, 259_200)
}

// The beginning of the table; the whole one is that of `ob_book_tests`.
const ONE_DAY: &[u8] = b"OUTAGE BOOK 2024-01-01 days 1 zone UTC0
P 86400 S 864000 W 9000
cause   0 UNASSIGNED                             0
cause   3 STORM                               9000
cause   4 PLANNED                                0
feeder   1                                    9000
feeder   2                                       0
day 2024-01-01                                9000
SAIFI     all      1/2 0.500
SAIDI     all      15/1 15.000
";

#[test]
fn table_of_one_day(rt: HostRuntime) -> Result<(), Fail> {
    let period = period_of(rt.alloc(), b"2024-01-01", 1, b"UTC0")?;
    let marks = Marks::new(rt.alloc(), 1)?;
    let x = half_an_hour();
    let table = AnnualTable {
        period: &period,
        in_service: 864_000,
        without_supply: 9000,
        causes: &[
            cause(&rt, 0, b"UNASSIGNED", 0),
            cause(&rt, 3, b"STORM", 9000),
            cause(&rt, 4, b"PLANNED", 0),
        ],
        feeders: &[ONE, TWO],
        days: &[9000],
        marks: &marks,
        all: &x,
        unmarked: &x,
    };
    let text = annual_text(rt.alloc(), &table)?;
    assert!(rt; text.starts_with(ONE_DAY));
    Ok(())
}

// The beginning of the table of three days without customers, two of them marked, and its last
// line.
const DAYS: &[u8] = b"OUTAGE BOOK 2024-02-28 days 3 zone UTC0
P 259200 S 0 W 1
day 2024-02-28                                   0 marked
day 2024-03-01                                   1 marked
SAIFI     all      undefined
";

const END: &[u8] = b"CEMI-10   unmarked undefined
SUSTAINED unmarked 0
MOMENTARY unmarked 7
";

#[test]
fn marked_days_and_undefined_indices(rt: HostRuntime) -> Result<(), Fail> {
    let period = period_of(rt.alloc(), b"2024-02-28", 3, b"UTC0")?;
    let mut marks = Marks::new(rt.alloc(), 3)?;
    let engineer = engineer(&rt, b"E-1");
    assert!(rt; marks.mark(0, engineer) == Ok(()));
    assert!(rt; marks.mark(2, engineer) == Ok(()));
    let x = nobody();
    let table = AnnualTable {
        period: &period,
        in_service: 0,
        without_supply: 1,
        causes: &[],
        feeders: &[],
        days: &[0, 0, 1],
        marks: &marks,
        all: &x,
        unmarked: &x,
    };
    let text = annual_text(rt.alloc(), &table)?;
    assert!(rt; text.starts_with(DAYS));
    assert!(rt; text.ends_with(END));
    Ok(())
}
