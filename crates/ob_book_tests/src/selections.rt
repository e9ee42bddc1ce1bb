//! Tests of the indices of a book by feeder, month, day, cause and section. The wanted lines were
//! found by `oracle/selections.py`.
use crate::feeders::TWO_FEEDERS;
use crate::rows::book_of;
use crate::step::Span;
use ob_book::Book;
use ob_index::Which;
use ob_net::{Second, Stop};
use ob_selections::{By, Selection, figures_of, indices_text, selections_law, sums_law};
use ob_sweep::Windowed;
use std::alloc::Global;
use std::process::Abort;
use std::test::Fail;

// The last day of a month and two days of the next.
const THREE_DAYS: Span = (b"2023-12-31", 3, b"UTC0");

// An outage of one feeder for an hour, and one of the other for 300 seconds on a marked day. A
// section that no device joins has no supply from the start.
const OUTAGES: &'static str = "\
switch B1 open 1704070800 3 K1
switch B1 close 1704074400 3 K1
switch B2 open 1704157000 4 K1
switch B2 close 1704157300 4 K1
section S9 9
connect 14 S9 1704067200 -
mark 2024-01-02 E1
";

// The names of the columns.
const HEADER: &'static str = "\
key,set,period_seconds,customer_seconds_served,customers_served,customers_served_3,sustained,sustained_customer_seconds,interrupted,momentary,saifi,saifi_3,saidi,saidi_3,caidi,caidi_3,caifi,caifi_3,asai,asai_5,cemi_1,cemi_1_3,cemi_2,cemi_2_3,cemi_3,cemi_3_3,cemi_4,cemi_4_3,cemi_5,cemi_5_3,cemi_6,cemi_6_3,cemi_7,cemi_7_3,cemi_8,cemi_8_3,cemi_9,cemi_9_3,cemi_10,cemi_10_3,maifi,maifi_3";

// What there is a line for, the longest momentary interruption, how many lines the text has, and
// two of them.
type Listed = (By, Second, usize, &'static str);

const LISTED: [Listed; 6] = [
    (
        By::Whole,
        299,
        3,
        "\
whole,all,259200,1900800,22/3,7.333,11,192300,11,0,3/2,1.500,9615/22,437.045,3205/11,291.364,1/1,1.000,5695/6336,0.89883,3/2,1.500,0/1,0.000,0/1,0.000,0/1,0.000,0/1,0.000,0/1,0.000,0/1,0.000,0/1,0.000,0/1,0.000,0/1,0.000,0/1,0.000
",
    ),
    (
        By::Feeder,
        300,
        7,
        "\
1,all,259200,864000,10/3,3.333,5,18000,5,0,3/2,1.500,90/1,90.000,60/1,60.000,1/1,1.000,47/48,0.97917,3/2,1.500,0/1,0.000,0/1,0.000,0/1,0.000,0/1,0.000,0/1,0.000,0/1,0.000,0/1,0.000,0/1,0.000,0/1,0.000,0/1,0.000
2,unmarked,259200,864000,10/3,3.333,0,0,0,0,0/1,0.000,0/1,0.000,,,,,1/1,1.00000,0/1,0.000,0/1,0.000,0/1,0.000,0/1,0.000,0/1,0.000,0/1,0.000,0/1,0.000,0/1,0.000,0/1,0.000,0/1,0.000,0/1,0.000
",
    ),
    (
        By::Month,
        300,
        5,
        "\
2023-12,all,86400,0,0/1,0.000,0,0,0,0,,,,,,,,,,,,,,,,,,,,,,,,,,,,,,,,
2024-01,unmarked,172800,1900800,11/1,11.000,6,190800,6,0,6/11,0.545,3180/11,289.091,530/1,530.000,1/1,1.000,,,6/11,0.545,0/1,0.000,0/1,0.000,0/1,0.000,0/1,0.000,0/1,0.000,0/1,0.000,0/1,0.000,0/1,0.000,0/1,0.000,0/1,0.000
",
    ),
    (
        By::Day,
        300,
        7,
        "\
2024-01-01,all,259200,1900800,22/3,7.333,6,190800,6,0,9/11,0.818,4770/11,433.636,530/1,530.000,1/1,1.000,475/528,0.89962,9/11,0.818,0/1,0.000,0/1,0.000,0/1,0.000,0/1,0.000,0/1,0.000,0/1,0.000,0/1,0.000,0/1,0.000,0/1,0.000,0/1,0.000
2024-01-02,all,259200,1900800,22/3,7.333,0,0,0,5,0/1,0.000,0/1,0.000,,,,,1/1,1.00000,0/1,0.000,0/1,0.000,0/1,0.000,0/1,0.000,0/1,0.000,0/1,0.000,0/1,0.000,0/1,0.000,0/1,0.000,0/1,0.000,15/22,0.682
",
    ),
    (
        By::Cause,
        300,
        7,
        "\
STORM,unmarked,259200,1900800,22/3,7.333,5,18000,5,0,15/22,0.682,450/11,40.909,60/1,60.000,1/1,1.000,523/528,0.99053,15/22,0.682,0/1,0.000,0/1,0.000,0/1,0.000,0/1,0.000,0/1,0.000,0/1,0.000,0/1,0.000,0/1,0.000,0/1,0.000,0/1,0.000
PLANNED,all,259200,1900800,22/3,7.333,0,0,0,5,0/1,0.000,0/1,0.000,,,,,1/1,1.00000,0/1,0.000,0/1,0.000,0/1,0.000,0/1,0.000,0/1,0.000,0/1,0.000,0/1,0.000,0/1,0.000,0/1,0.000,0/1,0.000,15/22,0.682
",
    ),
    (
        By::Section,
        3_600,
        9,
        "\
S2,all,259200,518400,2/1,2.000,0,0,0,3,0/1,0.000,0/1,0.000,,,,,1/1,1.00000,0/1,0.000,0/1,0.000,0/1,0.000,0/1,0.000,0/1,0.000,0/1,0.000,0/1,0.000,0/1,0.000,0/1,0.000,0/1,0.000,3/2,1.500
S9,all,259200,172800,2/3,0.667,1,172800,1,0,3/2,1.500,4320/1,4320.000,2880/1,2880.000,1/1,1.000,0/1,0.00000,3/2,1.500,0/1,0.000,0/1,0.000,0/1,0.000,0/1,0.000,0/1,0.000,0/1,0.000,0/1,0.000,0/1,0.000,0/1,0.000,0/1,0.000
",
    ),
];

// Checks the names of the columns, how many lines a text of indices has, and some of them. The
// texts are parameters: a function that has a long constant and a loop takes long to prove.
fn has_lines(rt: &impl Abort, text: &str, header: &str, count: usize, wanted: &str) {
    assert!(rt; text.lines().next() == Some(header));
    assert!(rt; text.lines().count() == count);
    for line in wanted.lines() {
        assert!(rt; text.lines().any(|found| found == line), "{line}");
    }
}

// The text of indices of a book. In one function with the check of the text it takes half a minute
// to prove.
fn text_by(alloc: Global, book: &Book<Windowed>, by: By, longest: Second) -> Result<Vec<u8>, Stop> {
    indices_text(alloc, book, by, longest)
}

fn is_listed(
    rt: &impl Abort,
    alloc: Global,
    book: &Book<Windowed>,
    header: &str,
    listed: &Listed,
) -> Result<(), Fail> {
    let (by, longest, count, wanted) = *listed;
    let text = text_by(alloc, book, by, longest)?;
    let text = str::from_utf8(&text).map_err(|_| "no text")?;
    has_lines(rt, text, header, count, wanted);
    Ok(())
}

// The counts CI, CSI, CN and MI of a feeder's customers, and the seconds for which they are served.
fn counts_on(book: &Book<Windowed>, feeder: u8, which: Which) -> (u64, u64, u64, u64, u64) {
    let selection = Selection {
        feeder: Some(feeder),
        section: None,
        cause: None,
        day: None,
        first: 0,
        end: book.period().days(),
        which,
        longest: 300,
    };
    let figures = figures_of(book, &selection);
    let counts = &figures.counts;
    (counts.ci, counts.csi, counts.cn, counts.mi, figures.served)
}

#[test]
fn counts_of_two_outages(rt: HostRuntime) -> Result<(), Fail> {
    let book = book_of(rt.alloc(), THREE_DAYS, &[TWO_FEEDERS, OUTAGES])?;
    assert!(rt; counts_on(&book, 1, Which::All) == (5, 18_000, 5, 0, 864_000));
    assert!(rt; counts_on(&book, 2, Which::All) == (0, 0, 0, 5, 864_000));
    assert!(rt; counts_on(&book, 2, Which::Unmarked) == (0, 0, 0, 0, 864_000));
    Ok(())
}

#[test]
fn indices_of_two_outages(rt: HostRuntime) -> Result<(), Fail> {
    selections_law();
    sums_law();
    let book = book_of(rt.alloc(), THREE_DAYS, &[TWO_FEEDERS, OUTAGES])?;
    for listed in &LISTED {
        is_listed(&rt, rt.alloc(), &book, HEADER, listed)?;
    }
    Ok(())
}
