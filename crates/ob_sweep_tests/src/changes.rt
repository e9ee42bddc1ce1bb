//! Tests of the outage intervals of a timeline; of the sections that a change of the switching log
//! touches, their new outage intervals, and the searches it takes.
use crate::builds::BUILT;
use crate::example::tell;
use crate::lives::LIVES;
use ob_sweep::scratch_law;
use std::test::Fail;

// In the second case neither the bus nor the section without a device is touched. From 3600 on S1
// has no supply until its breaker closes, and S2 has none until the tie closes at 4200. The sixth
// log closes the breaker of S1 a second time at 8000.
const CHANGES: &'static str = "\
1970-01-01 1 | - | -
the first entry: switch B2 open 3600 4 K2 => 2 2: S3: S3 3600 86400 1; S4 0 86400 -;
all sections from the first second on: switch I1 open 0 4 K2 => \
    2 2: S1 S2 S3: S1 0 86400 1; S2 0 86400 1; S3 0 86400 1; S4 0 86400 -;
1970-01-01 1 | - | switch B1 open 3600 3 K1; switch W1 open 4200 3 K1; switch T1 close 4200 3 K1; \
    switch B1 close 7200 3 K1
entered late before an earlier opening: switch W1 open 3000 4 K2 => \
    5 3: S2: S1 3600 7200 1; S2 3000 4200 5; S4 0 86400 -;
the closing is corrected to an earlier second: correct 4 1 close 6600 3 K2 => \
    5 2: S1: S1 3600 6600 1; S2 3600 4200 1; S4 0 86400 -;
the closing of the tie is withdrawn: withdraw 3 1 => \
    4 2: S2: S1 3600 7200 1; S2 3600 86400 1; S4 0 86400 -;
the cause alone is corrected: correct 1 1 open 3600 4 K2 => \
    5 5:: S1 3600 7200 1; S2 3600 4200 1; S4 0 86400 -;
an opening is corrected to a closing: correct 1 1 close 3600 3 K2 => 3 3: S1 S2: S4 0 86400 -;
the opening is withdrawn: withdraw 1 1 => 3 3: S1 S2: S4 0 86400 -;
a closing of a closed breaker: switch B1 close 3000 4 K2 => \
    5 0:: S1 3600 7200 1; S2 3600 4200 1; S4 0 86400 -;
1970-01-01 1 | - | switch B1 open 3600 3 K1; switch W1 close 4000 3 K1; switch B1 close 7200 3 K1
another cutter past the next entry of the switch: switch W1 open 3000 4 K2 => \
    5 3: S2: S1 3600 7200 1; S2 3000 7200 4; S4 0 86400 -;
1970-01-01 1 | - | switch B2 open 3600 3 K1; switch B2 close 4200 3 K1
an opening is corrected past its closing: correct 1 1 open 5000 3 K2 => \
    2 2: S3: S3 5000 86400 1; S4 0 86400 -;
1970-01-01 1 | - | switch B1 open 4000 3 K1; switch B2 open 4000 3 K1; switch B1 close 5000 3 K1; \
    switch B2 close 5000 3 K1
the last of its second leaves the cutters before it: switch I1 open 4000 4 K2 => \
    6 6: S1 S2 S3: S1 4000 86400 1; S2 4000 86400 1; S3 4000 86400 2; S4 0 86400 -;
1970-01-01 1 | - | switch B1 open 3600 3 K1; switch B1 close 7200 3 K1; switch B1 close 8000 3 K1
the second of two closings is withdrawn: withdraw 3 1 => \
    3 0:: S1 3600 7200 1; S2 3600 7200 1; S4 0 86400 -;
the second of two closings is corrected to a later second: correct 3 1 close 9000 3 K2 => \
    3 0:: S1 3600 7200 1; S2 3600 7200 1; S4 0 86400 -;
the second of two closings is corrected before the first: correct 3 1 close 5000 3 K2 => \
    3 2: S1 S2: S1 3600 5000 1; S2 3600 5000 1; S4 0 86400 -;
the second of two closings is corrected to an opening: correct 3 1 open 8000 3 K2 => \
    4 2: S1 S2: S1 3600 7200 1; S1 8000 86400 3; S2 3600 7200 1; S2 8000 86400 3; S4 0 86400 -;
2024-01-01 1 | - | switch B1 open 1704070800 3 K1; switch B1 close 1704074400 3 K1
a change in a day of 2024: switch T1 close 1704071400 3 K2 => \
    4 3: S1 S2: S1 1704070800 1704071400 1; S2 1704070800 1704071400 1; S4 1704067200 1704153600 -;
";

// With the cases of `builds.rt` and `lives.rt`.
#[test]
fn runs_and_their_changes(rt: HostRuntime) -> Result<(), Fail> {
    scratch_law();
    for text in [BUILT, CHANGES, LIVES] {
        tell(&rt, rt.alloc(), text)?;
    }
    Ok(())
}
