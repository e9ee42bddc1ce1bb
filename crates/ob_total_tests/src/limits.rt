//! Tests of the limits on rows, nodes, devices, customers and entries.
use crate::commands::FEEDER;
use crate::script::script;
use std::alloc::{AllocError, Global};
use std::ops::Range;
use std::process::Abort;
use std::test::Fail;

const SPAN: &'static str = "span,A0,100,200,,,,\n";

// The rows of `base`, followed by one row for each number, with the number between `front` and
// `back`.
fn numbered(
    alloc: Global,
    base: &str,
    front: &str,
    numbers: Range<usize>,
    back: &str,
) -> Result<String, AllocError> {
    let mut rows = String::from_str(alloc, base)?;
    for number in numbers {
        let row = format!(in alloc; "{front}{number}{back}\n")?;
        rows.push_str(row.as_str())?;
    }
    Ok(rows)
}

const ONE_ROW_MORE: &'static str = "\
W 0
# The row past the last is refused before its fields are read.
x => refused 12 Full 1000000 row 1000001
";

const ONE_NODE_MORE: &'static str = "\
W 0
bus,A,ONE-MORE,,,,, => refused 12 Full 1024 row 1025
section,A,ONE-MORE,1,,,, => refused 12 Full 1024 row 1025
bus,A,N7,,,,, => refused 3 NameTaken row 1025
bus,A,GRID,,,,, => refused 3 NameTaken row 1025
";

const ONE_DEVICE_MORE: &'static str = "\
W 0
device,A,X,GRID,S1,open,, => refused 12 Full 2048 row 2053
device,A,D9,GRID,S1,open,, => refused 3 NameTaken row 2053
device,A,X,GRID,NONE,open,, => refused 2 UnknownName row 2053
device,A,X,GRID,S1,open,7,7 => refused 18 BadLife row 2053
life,A,D9,7,8,,, => W 0
";

const ONE_CUSTOMER_MORE: &'static str = "\
W 0
connect,C,100001,S1,0,,, => refused 12 Full 100000 row 100006
connect,C,100001,S1,5,5,, => refused 10 BadService row 100006
connect,C,100000,S1,0,,, => refused 3 NameTaken row 100006
connect,C,100001,S2,0,,, => refused 2 UnknownName row 100006
";

const ONE_ENTRY_MORE: &'static str = "\
# 50,000 entries, the last of which opens: 40 seconds.
switch,E,B1,open,160,3,K1, => W 40
switch,E,B1,open,160,3,K1,;switch,E,B1,close,170,3,K1, => refused 12 Full 50000 row 50007
switch,E,B1,open,160,3,K1,;switch,E,B1,close,200,3,K1, => refused 5 OutOfPeriod row 50007
switch,E,B1,open,160,3,K1,;switch,E,B9,close,170,3,K1, => refused 2 UnknownName row 50007
";

// A base, the front, the numbers and the back of the rows after it, and a script over these.
type Limit = (
    &'static str,
    &'static str,
    (usize, usize),
    &'static str,
    &'static str,
);

fn are_reached(rt: &impl Abort, alloc: Global, limits: &[Limit]) -> Result<(), Fail> {
    for (base, front, (first, end), back, lines) in limits {
        let base = numbered(alloc, base, front, *first..*end, back)?;
        script(rt, alloc, base.as_str(), lines)?;
    }
    Ok(())
}

const ROWS: &'static [Limit] = &[(SPAN, "cause,A", (0, 999_999), ",3,S,,,,", ONE_ROW_MORE)];

#[test]
fn the_most_rows(rt: HostRuntime) -> Result<(), Fail> {
    are_reached(&rt, rt.alloc(), ROWS)
}

// With GRID the nodes are 1,024; FEEDER has two of the devices; one entry fewer than the most.
const PARTS: &'static [Limit] = &[
    (SPAN, "bus,A,N", (0, 1_023), ",,,,,", ONE_NODE_MORE),
    (
        FEEDER,
        "device,A,D",
        (0, 2_046),
        ",GRID,S1,open,,",
        ONE_DEVICE_MORE,
    ),
    (
        FEEDER,
        "switch,E",
        (0, 49_999),
        ",B1,close,150,3,K1,",
        ONE_ENTRY_MORE,
    ),
];

#[test]
fn the_most_nodes_devices_and_entries(rt: HostRuntime) -> Result<(), Fail> {
    are_reached(&rt, rt.alloc(), PARTS)
}

// FEEDER has the first of the customers.
const CUSTOMERS: &'static [Limit] = &[(
    FEEDER,
    "connect,C,",
    (2, 100_001),
    ",S1,300,,,",
    ONE_CUSTOMER_MORE,
)];

#[test]
fn the_most_customers(rt: HostRuntime) -> Result<(), Fail> {
    are_reached(&rt, rt.alloc(), CUSTOMERS)
}
