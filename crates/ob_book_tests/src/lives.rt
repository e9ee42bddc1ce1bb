//! Tests of devices whose in-service intervals (lives) begin and end within the period: outside its
//! life a device is open.
use crate::example::tell;
use crate::feeders::{OUTAGE, TWO_FEEDERS, shows, shows_after_outage};
use crate::step::{ONE_DAY, Step};
use std::alloc::Global;
use std::process::Abort;
use std::test::Fail;

/// After the outage: the tie's life ends while the tie supplies S2, so no entry cut S2 off.
pub const TIE_GOES: &'static str =
    "life T1 0 1704073200 => cause 0 241200, feeder 1 241200, day 0 241200";

#[test]
fn the_tie_goes_while_it_supplies(rt: HostRuntime) -> Result<(), Fail> {
    shows_after_outage(&rt, rt.alloc(), TIE_GOES, 250_200)
}

/// After the outage: the life of a new tie begins after the outage began, and the tie supplies S1
/// from then on.
pub const JOINS_IN_OUTAGE: &'static str =
    "device X1 BUS-A S1 closed 1704072200 - => cause 3 -4400, feeder 1 -4400, day 0 -4400";

#[test]
fn a_tie_that_joins_after_an_outage_began(rt: HostRuntime) -> Result<(), Fail> {
    let quotients = &[(1, 2), (23, 3), (46, 3), (1, 1), (4_297, 4_320), (1, 2)];
    let steps = [
        Step::Take(TWO_FEEDERS),
        Step::Take(OUTAGE),
        Step::Take(JOINS_IN_OUTAGE),
        Step::Shows(4_600),
        Step::Quotients(quotients),
    ];
    tell(&rt, rt.alloc(), ONE_DAY, &steps)
}

/// The life of S3's breaker ends, and an entry opens the breaker in the first second after its
/// life.
pub const BREAKER_GONE: &'static str = "\
life B2 0 1704070800 => cause 0 414000, feeder 2 414000, day 0 414000
switch B2 open 1704070800 4 K1
";

/// After that: the breaker opens in the last second of its life, so this opening cuts S3 off.
pub const OPENED_IN_ITS_LAST_SECOND: &'static str =
    "switch B2 open 1704070799 4 K1 => cause 0 -414000, cause 4 414005, feeder 2 5, day 0 5";

#[test]
fn opened_where_its_life_ends_and_before(rt: HostRuntime) -> Result<(), Fail> {
    let steps = [
        Step::Take(TWO_FEEDERS),
        Step::Take(BREAKER_GONE),
        Step::Take(OPENED_IN_ITS_LAST_SECOND),
        Step::Shows(414_005),
    ];
    tell(&rt, rt.alloc(), ONE_DAY, &steps)
}

// Commands after the outage, and the total that they leave.
const AFTER_OUTAGE: &'static [(&'static str, u64)] = &[
    (TIE_STAYS, 9_000),
    (PARTS_JOIN, 9_000),
    (CLOSED_BEFORE_ITS_LIFE, 9_000),
];

// The tie's life ends while the tie supplies S2; then the life is set without an end.
const TIE_STAYS: &'static str = "\
life T1 0 1704073200 => cause 0 241200, feeder 1 241200, day 0 241200
life T1 0 - => cause 0 -241200, feeder 1 -241200, day 0 -241200
";

// A new bus and a new section move nothing; a customer of the section has no supply until a device
// joins the section to the bus. Then the device's life is set twice.
const PARTS_JOIN: &'static str = "\
bus BUS-B
section S9 9
connect 11 S9 1704067200 - => cause 0 86400, feeder 9 86400, day 0 86400
device X9 BUS-A S9 closed 1704070800 - => cause 0 -82800, feeder 9 -82800, day 0 -82800
life X9 1704070800 1704074400 => cause 0 79200, feeder 9 79200, day 0 79200
life X9 0 - => cause 0 -82800, feeder 9 -82800, day 0 -82800
";

// An entry closes X1 before its life begins, so that it is closed from its first second on. Then
// its life ends before the breaker is closed again, so no entry cut S1 off. Without the entry that
// closes it, X1 never supplied S1.
const CLOSED_BEFORE_ITS_LIFE: &'static str = "\
device X1 BUS-A S1 open 1704072200 -
switch X1 close 1704071200 3 K1 => cause 3 -4400, feeder 1 -4400, day 0 -4400
life X1 1704072200 1704073200 => cause 0 2400, feeder 1 2400, day 0 2400
withdraw 5 1 => cause 0 -2400, cause 3 4400, feeder 1 2000, day 0 2000
";

fn are_shown_after_outage(
    rt: &impl Abort,
    alloc: Global,
    stories: &[(&str, u64)],
) -> Result<(), Fail> {
    for (script, total) in stories {
        shows_after_outage(rt, alloc, script, *total)?;
    }
    Ok(())
}

#[test]
fn lives_after_an_outage(rt: HostRuntime) -> Result<(), Fail> {
    are_shown_after_outage(&rt, rt.alloc(), AFTER_OUTAGE)
}

// Numbers of days, commands on the two feeders, and the total that they leave.
const FROM_THE_START: &'static [(u16, &'static str, u64)] = &[
    (1, OPENED_AS_IT_JOINS, 18_000),
    (1, SET_AGAIN_AND_AGAIN, 414_000),
    (1, TAKES_THE_PLACE, 412_000),
    (1, CONNECTED, 412_000),
    (1, AT_THE_BOUNDS, 0),
    (2, OVER_MIDNIGHT, 0),
];

// S3 has no supply until its breaker's life begins, and an entry opens the breaker in that second:
// the outage interval goes on from the start of the period. With the breaker's life from the start,
// this opening cuts S3 off.
const OPENED_AS_IT_JOINS: &'static str = "\
life B2 1704070800 - => cause 0 18000, feeder 2 18000, day 0 18000
switch B2 open 1704070800 4 K1 => cause 0 414000, feeder 2 414000, day 0 414000
switch B2 close 1704074400 4 K1 => cause 0 -396000, feeder 2 -396000, day 0 -396000
life B2 0 - => cause 0 -36000, cause 4 18000, feeder 2 -18000, day 0 -18000
";

// A breaker that was opened: its life begins after the opening, ends after it, ends in its second,
// and ends one second later.
const SET_AGAIN_AND_AGAIN: &'static str = "\
switch B1 open 1704070800 3 K1 => cause 3 414000, feeder 1 414000, day 0 414000
life B1 1704072200 - => cause 0 432000, cause 3 -414000, feeder 1 18000, day 0 18000
life B1 0 1704072200 => cause 0 -432000, cause 3 414000, feeder 1 -18000, day 0 -18000
life B1 0 1704070800 => cause 0 414000, cause 3 -414000
life B1 0 1704070801 => cause 0 -414000, cause 3 414000
";

// A device replaces another in one second, then a little later; then both lives end in the same
// second.
const TAKES_THE_PLACE: &'static str = "\
life B1 0 1704071200 => cause 0 412000, feeder 1 412000, day 0 412000
device X1 BUS-A S1 closed 1704071200 - => cause 0 -412000, feeder 1 -412000, day 0 -412000
life X1 1704072200 - => cause 0 5000, feeder 1 5000, day 0 5000
life X1 0 1704071200 => cause 0 407000, feeder 1 407000, day 0 407000
";

// A customer of a section after the life of its breaker; its service gets an end, and then ends in
// the second in which that life ends.
const CONNECTED: &'static str = "\
life B1 0 1704071200 => cause 0 412000, feeder 1 412000, day 0 412000
connect 11 S1 1704072200 - => cause 0 81400, feeder 1 81400, day 0 81400
revise 11 1704072200 1704072800 => cause 0 -80800, feeder 1 -80800, day 0 -80800
revise 11 1704067200 1704071200 => cause 0 -600, feeder 1 -600, day 0 -600
";

// Lives that end with the period or a second before, that begin with it or a second later, and that
// are outside it.
const AT_THE_BOUNDS: &'static str = "\
life B2 0 1704153600
life B2 0 1704153599 => cause 0 5, feeder 2 5, day 0 5
life B2 1704067200 - => cause 0 -5, feeder 2 -5, day 0 -5
life B2 1704067201 - => cause 0 5, feeder 2 5, day 0 5
life B2 1704153600 1704153601 => cause 0 431995, feeder 2 431995, day 0 431995
life B2 0 1
life B2 0 1
life B2 0 - => cause 0 -432000, feeder 2 -432000, day 0 -432000
";

// A life that ends on the first day, and one that begins on the second.
const OVER_MIDNIGHT: &'static str = "\
life B2 0 1704153000 => cause 0 435000, feeder 2 435000, day 0 3000, day 1 432000
life B2 1704154800 - => cause 0 3000, feeder 2 3000, day 0 429000, day 1 -426000
life B2 0 - => cause 0 -438000, feeder 2 -438000, day 0 -432000, day 1 -6000
";

fn are_shown(rt: &impl Abort, alloc: Global, stories: &[(u16, &str, u64)]) -> Result<(), Fail> {
    for (days, script, total) in stories {
        shows(rt, alloc, *days, script, *total)?;
    }
    Ok(())
}

#[test]
fn lives_from_the_start(rt: HostRuntime) -> Result<(), Fail> {
    are_shown(&rt, rt.alloc(), FROM_THE_START)
}
