//! Tests of exports of the amounts that the commands moved, and of the rows of interruptions; and
//! of writers that fail.
use crate::office::What;
use crate::script::{Outcome, Step, is_told};
use ob_harness::texts::{CORRECTION, OUTAGE};
use ob_harness::{FAILING, JOLTING, WHOLE, Way};
use ob_net::{Fault, Stop};
use std::alloc::AllocError;
use std::io::ErrorKind;

// The outage with its correction, as an export shows it.
const EXPORT: &'static str = "cmd,dim,key,delta
22,cause,3,414000
22,feeder,1,414000
22,day,0,414000
24,cause,3,-246600
24,feeder,1,-246600
24,day,0,-246600
25,cause,3,-158400
25,feeder,1,-158400
25,day,0,-158400
26,cause,3,-1200
26,feeder,1,-1200
26,day,0,-1200
";

const HEADER: &'static str = "\
section,feeder,customers,service_since,service_until,since,until,cause,entry,marked
";

const REOPEN: Result<u64, Stop> = Err(Stop::Fault(Fault::Reopen));

const OUTPUT: Result<u64, Stop> = Err(Stop::Fault(Fault::Output));

const OF_NOTHING: &[Step] = &[
    Step::Write(What::Moves, REOPEN, ""),
    Step::Write(What::Interruptions, REOPEN, ""),
    Step::Make,
    Step::Write(What::Moves, Ok(0), "cmd,dim,key,delta\n"),
    Step::Write(What::Interruptions, Ok(0), HEADER),
    Step::Rows(&[1, 1, 1, 0, 0, 0, 0, 0, 0, 0, 320]),
];

// A writer that is interrupted without end once it is full.
const STUCK: Way = Way {
    end: Some(ErrorKind::Interrupted),
    ..JOLTING
};

// The thirteen writes of the header and twelve lines may be retried 65,536 times in all.
const TOO_OFTEN: Way = Way {
    jolts: 5_042,
    ..WHOLE
};

const JUST_NOT: Way = Way {
    jolts: 5_041,
    ..WHOLE
};

const LAST_LINE: &'static str = "26,day,0,-1200\n";

// An export; writers that fail after each byte in turn, one that takes no further byte, one that is
// interrupted without end, and one that is interrupted in each line.
const EXPORTED: &[Step] = &[
    Step::Make,
    Step::Import(OUTAGE, Outcome::Took(25, 0)),
    Step::Import(CORRECTION, Outcome::Took(1, 0)),
    Step::Write(What::Moves, Ok(12), EXPORT),
    Step::Export(JOLTING, Ok(12), EXPORT, ""),
    Step::Break(What::Moves, FAILING, EXPORT, 0, 233),
    Step::Break(What::Moves, JOLTING, EXPORT, 40, 41),
    Step::Break(What::Moves, STUCK, EXPORT, 40, 41),
    Step::Export(TOO_OFTEN, OUTPUT, EXPORT, LAST_LINE),
    Step::Export(JUST_NOT, Ok(12), EXPORT, ""),
    Step::Rows(&[1, 3, 5, 5, 5, 10, 4, 0, 26, 12, 320]),
];

// The outage: two customers of S1 for an hour, three of S2 for ten minutes, by entry 1.
const ROWS: &'static str = "\
section,feeder,customers,service_since,service_until,since,until,cause,entry,marked
S1,1,2,2024-01-01T00:00:00Z,,2024-01-01T01:00:00Z,2024-01-01T02:00:00Z,STORM,1,
S2,1,3,2024-01-01T00:00:00Z,,2024-01-01T01:00:00Z,2024-01-01T01:10:00Z,STORM,1,
";

// The day is a major event day, the service of customer 1 ends in the outage, that of customer 3
// begins in it, and S4, which no device joins, is without supply all day.
const CHANGES: &'static str = "\
kind,ref,f1,f2,f3,f4,f5,f6
mark,M1,2024-01-01,E1,,,,
revise,M2,1,1704067200,1704072600,,,
revise,M3,3,1704071000,,,,
section,M4,S4,7,,,,
connect,M5,11,S4,1704067200,,,
correct,M6,1,1,open,1704070800,4,K1
";

const CHANGED_ROWS: &'static str = "\
section,feeder,customers,service_since,service_until,since,until,cause,entry,marked
S1,1,1,2024-01-01T00:00:00Z,,2024-01-01T01:00:00Z,2024-01-01T02:00:00Z,PLANNED,1,yes
S1,1,1,2024-01-01T00:00:00Z,2024-01-01T01:30:00Z,2024-01-01T01:00:00Z,2024-01-01T01:30:00Z,PLANNED,1,yes
S2,1,2,2024-01-01T00:00:00Z,,2024-01-01T01:00:00Z,2024-01-01T01:10:00Z,PLANNED,1,yes
S2,1,1,2024-01-01T01:03:20Z,,2024-01-01T01:03:20Z,2024-01-01T01:10:00Z,PLANNED,1,yes
S4,7,1,2024-01-01T00:00:00Z,,2024-01-01T00:00:00Z,2024-01-02T00:00:00Z,UNASSIGNED,,yes
";

const LISTED: &[Step] = &[
    Step::Make,
    Step::Import(OUTAGE, Outcome::Took(25, 0)),
    Step::Write(What::Interruptions, Ok(2), ROWS),
    Step::Break(What::Interruptions, FAILING, ROWS, 0, 244),
    Step::Break(What::Interruptions, JOLTING, ROWS, 0, 244),
    Step::Import(CHANGES, Outcome::Took(6, 0)),
    Step::Write(What::Interruptions, Ok(5), CHANGED_ROWS),
];

#[test]
fn exports_and_interruptions(rt: HostRuntime) -> Result<(), AllocError> {
    for steps in [OF_NOTHING, EXPORTED, LISTED] {
        is_told(&rt, rt.alloc(), steps, false)?;
    }
    Ok(())
}
