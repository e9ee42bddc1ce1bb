//! Tests of how often the network is searched for a late change of the switching log, and for a
//! change of the network; further ones are in `adopted.rt`.
use crate::example::tell;
use crate::feeders::{OUTAGE, TWO_FEEDERS};
use crate::step::{ONE_DAY, Step};
use std::alloc::Global;
use std::process::Abort;
use std::test::Fail;

// Checks that after a script on the two feeders a line takes at most `most` searches.
fn takes<'t>(
    rt: &impl Abort,
    alloc: Global,
    script: &'t str,
    line: &'t str,
    most: u128,
) -> Result<(), Fail> {
    let steps = [
        Step::Take(TWO_FEEDERS),
        Step::Take(script),
        Step::Within(line, most),
    ];
    tell(rt, alloc, ONE_DAY, &steps)
}

// W1 is closed while B1 is open, so it ends no outage interval.
const WAITING: &'static str = "\
switch B1 open 1704070800 3 K1 => cause 3 414000, feeder 1 414000, day 0 414000
switch W1 close 1704071200 3 K1
switch B1 close 1704074400 3 K1 => cause 3 -396000, feeder 1 -396000, day 0 -396000
";

#[test]
fn for_a_run_that_goes_on_past_the_next_entry(rt: HostRuntime) -> Result<(), Fail> {
    let line =
        "switch W1 open 1704070200 4 K1 => cause 3 -10800, cause 4 12600, feeder 1 1800, day 0 1800";
    takes(&rt, rt.alloc(), WAITING, line, 4)
}

// After the outage: if no life changes in a second of the period, there is no search.
const OF_THE_NETWORK: &'static [(&'static str, u128)] = &[
    ("device X1 BUS-A S1 closed 1704153600 -", 0),
    ("life T1 0 -", 0),
    ("life T1 1704067200 1704153600", 0),
    ("bus BUS-B", 0),
    ("section S9 9", 0),
];

fn take_each(rt: &impl Abort, alloc: Global, lines: &[(&str, u128)]) -> Result<(), Fail> {
    for (line, most) in lines {
        takes(rt, alloc, OUTAGE, line, *most)?;
    }
    Ok(())
}

#[test]
fn for_a_change_of_the_network(rt: HostRuntime) -> Result<(), Fail> {
    take_each(&rt, rt.alloc(), OF_THE_NETWORK)
}

// Every hundred seconds B2 opens, and closes fifty seconds later, 500 times.
fn many(alloc: Global) -> Result<String, Fail> {
    let mut script = String::new(alloc);
    for number in 1..501u64 {
        let opened = 1_704_067_200 + 100 * number;
        let closed = opened + 50;
        let lines = format!(in alloc;
            "switch B2 open {opened} 3 K1\nswitch B2 close {closed} 3 K1\n"
        )?;
        script.push_str(lines.as_str())?;
    }
    Ok(script)
}

// The window of the correction (the seconds in which it can alter the supply) contains only the
// closing itself and the next opening.
fn correct_one(rt: &impl Abort, alloc: Global) -> Result<(), Fail> {
    let script = many(alloc)?;
    let line = "correct 400 1 close 1704087240 3 K1 => cause 3 -50, feeder 2 -50, day 0 -50";
    let steps = [
        Step::Take(TWO_FEEDERS),
        Step::Enter(script.as_str()),
        Step::Within(line, 3),
        Step::Shows(124_950),
    ];
    tell(rt, alloc, ONE_DAY, &steps)
}

#[test]
fn in_a_sheet_of_a_thousand_entries(rt: HostRuntime) -> Result<(), Fail> {
    correct_one(&rt, rt.alloc())
}
