//! Tests of what is shown of a book: sums under a key and in all, an index, and the texts.
use crate::books::OUTAGE_BOOK;
use crate::scripts::CORRECTED;
use crate::steps::{Step, tell};
use ob_net::Stop;
use ob_post::Dim;

// Two of ten customers are out for an hour, and three for ten minutes: 9,000 customer-seconds, or 15
// minutes for each of the ten.
const SHOWN: &'static str = "\
9000 of 9000, SAIDI 15/1
{\"cause\":[[3,9000]],\"day\":[[0,9000]],\"feeder\":[[1,9000]],\"total\":9000}
OUTAGE BOOK 2024-01-01 days 1 zone UTC0
P 86400 S 864000 W 9000
";

// After the correction they are 50 minutes for the two.
const AFTER: &'static str = "\
7800 of 7800, SAIDI 13/1
{\"cause\":[[3,7800]],\"day\":[[0,7800]],\"feeder\":[[1,7800]],\"total\":7800}
";

const SHOWS: &[Step] = &[
    Step::Show(Dim::Cause, 3, SHOWN),
    Step::Show(Dim::Feeder, 1, SHOWN),
    Step::Show(Dim::Day, 0, SHOWN),
    // Keys without an amount, the last ones of all.
    Step::Show(Dim::Cause, 0, "0 of 9000, "),
    Step::Show(Dim::Cause, 63, "0 of 9000, "),
    Step::Show(Dim::Feeder, 255, "0 of 9000, "),
    // No keys.
    Step::Show(Dim::Cause, 64, "none"),
    Step::Show(Dim::Feeder, 0, "none"),
    Step::Show(Dim::Feeder, 256, "none"),
    Step::Show(Dim::Day, 1, "none"),
    Step::Tell(CORRECTED),
    Step::Show(Dim::Cause, 3, AFTER),
    // Without a book.
    Step::Open,
    Step::Show(Dim::Cause, 3, "none"),
];

#[test]
fn shown_of_a_book(rt: HostRuntime) -> Result<(), Stop> {
    tell(&rt, rt.alloc(), &[OUTAGE_BOOK, SHOWS])
}
