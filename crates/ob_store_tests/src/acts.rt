//! Tests of commands under references: the answer to each, and the rows of the tables in the end.
use crate::books::OUTAGE_BOOK;
use crate::scripts::{CORRECTED, JOINS_IN_OUTAGE, PARTS_JOIN, REFUSED, TIE_STAYS, WITHDRAWN};
use crate::steps::{Step, leave, tell};
use ob_net::Stop;

// Scripts after the outage; the numbers of rows that they leave, and the total.
const LEFT: &[(&'static str, &'static [i64], i64)] = &[
    // An outage that a tie shortens.
    ("", &[1, 3, 5, 5, 5, 10, 4, 0, 25, 9, 320], 9_000),
    // A correction, sent again.
    (CORRECTED, &[1, 3, 5, 5, 5, 10, 4, 0, 26, 12, 320], 7_800),
    // A withdrawal.
    (WITHDRAWN, &[1, 3, 5, 5, 5, 10, 4, 0, 26, 12, 320], 255_600),
    // Refusals, which leave the tables as they are.
    (REFUSED, &[1, 3, 5, 5, 5, 10, 4, 0, 27, 9, 320], 9_000),
    // In-service intervals (lives), and parts of the network that are added after switchings.
    (TIE_STAYS, &[1, 3, 5, 5, 5, 10, 4, 0, 27, 15, 320], 9_000),
    (
        JOINS_IN_OUTAGE,
        &[1, 3, 5, 6, 6, 10, 4, 0, 26, 12, 320],
        4_600,
    ),
    (PARTS_JOIN, &[1, 3, 7, 6, 6, 11, 4, 0, 30, 18, 320], 91_800),
];

#[test]
fn commands_and_what_they_leave(rt: HostRuntime) -> Result<(), Stop> {
    for (script, rows, total) in LEFT {
        leave(&rt, rt.alloc(), OUTAGE_BOOK, *script, rows, *total)?;
    }
    Ok(())
}

// The plan of the correction, which then moves the same.
const PLAN: &'static str =
    r#"{"moved":[["cause",3,-1200],["feeder",1,-1200],["day",0,-1200]],"sections":[{"after":[[1704070800,1704073800,1,3]],"before":[[1704070800,1704074400,1,3]],"section":"S1"}]}"#;

// The stored replies after the outage and its correction; plans leave the book as it was.
const REPLIES: &[Step] = &[
    Step::Note,
    Step::Plan("- correct 4 1 close 1704073800 3 K1", PLAN),
    Step::Plan("- withdraw 9 1", "UnknownEntry"),
    Step::Same,
    Step::Tell(CORRECTED),
    Step::Reply(0, "none"),
    Step::Reply(1, "1"),
    Step::Reply(22, "22: cause 3 414000, feeder 1 414000, day 0 414000"),
    Step::Reply(26, "26: cause 3 -1200, feeder 1 -1200, day 0 -1200"),
    Step::Reply(27, "none"),
];

#[test]
fn stored_replies(rt: HostRuntime) -> Result<(), Stop> {
    tell(&rt, rt.alloc(), &[OUTAGE_BOOK, REPLIES])
}
