//! Tests of the supply at a second.
use crate::adopted::{counting_book, take_all};
use crate::counting::Counting;
use ob_book::Book;
use std::process::Abort;
use std::test::Fail;

// A section behind a breaker that is open for an hour, one that no device joins, and a tie whose
// life begins where the breaker is closed again.
const BREAKER: &'static str = "\
cause 3 STORM
section S1 1
section S2 2
device B1 GRID S1 closed 0 -
device T1 GRID S1 open 1704074400 -
connect 1 S1 1704067200 -
switch B1 open 1704070800 3 K1 => cause 3 82800, feeder 1 82800, day 0 82800
switch B1 close 1704074400 3 K1 => cause 3 -79200, feeder 1 -79200, day 0 -79200
";

// Seconds, and the supply at each; none outside the period.
const SUPPLIES: &'static str = r#"1704067199 => none
1704070799 => {"devices":[{"alive":true,"device":"B1","position":"closed"},{"alive":false,"device":"T1","position":"open"}],"second":1704070799,"sections":[{"cause":0,"customers":0,"entry":null,"section":"S2","since":1704067200,"until":1704153600}]}
1704070800 => {"devices":[{"alive":true,"device":"B1","position":"open"},{"alive":false,"device":"T1","position":"open"}],"second":1704070800,"sections":[{"cause":3,"customers":1,"entry":1,"section":"S1","since":1704070800,"until":1704074400},{"cause":0,"customers":0,"entry":null,"section":"S2","since":1704067200,"until":1704153600}]}
1704074399 => {"devices":[{"alive":true,"device":"B1","position":"open"},{"alive":false,"device":"T1","position":"open"}],"second":1704074399,"sections":[{"cause":3,"customers":1,"entry":1,"section":"S1","since":1704070800,"until":1704074400},{"cause":0,"customers":0,"entry":null,"section":"S2","since":1704067200,"until":1704153600}]}
1704074400 => {"devices":[{"alive":true,"device":"B1","position":"closed"},{"alive":true,"device":"T1","position":"open"}],"second":1704074400,"sections":[{"cause":0,"customers":0,"entry":null,"section":"S2","since":1704067200,"until":1704153600}]}
1704153600 => none
"#;

#[test]
fn the_supply_around_an_outage(rt: HostRuntime) -> Result<(), Fail> {
    let mut book = counting_book(rt.alloc())?;
    take_all(&rt, rt.alloc(), &mut book, BREAKER)?;
    shows_all(&rt, &book, SUPPLIES)
}

// The lines are a parameter: a loop over those of a long constant takes minutes to prove.
fn shows_all(rt: &impl Abort, book: &Book<Counting>, lines: &str) -> Result<(), Fail> {
    for line in lines.lines() {
        shows_supply(rt, book, line)?;
    }
    Ok(())
}

// Checks that the book shows the supply at a second as a line has it.
fn shows_supply(rt: &impl Abort, book: &Book<Counting>, line: &str) -> Result<(), Fail> {
    let (second, wanted) = line.split_once(" => ").ok_or("a second")?;
    let second = second.parse().map_err(|_| "a number")?;
    match book.supply_text(second)? {
        Some(text) => assert!(rt; text.as_slice() == wanted.as_bytes(), "{line}"),
        None => assert!(rt; wanted == "none", "{line}"),
    }
    Ok(())
}
