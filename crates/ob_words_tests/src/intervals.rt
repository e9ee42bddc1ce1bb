//! Tests of the longest intervals of flagged seconds.
use ob_net::{Interval, longest_intervals};
use std::test::Fail;

const THREE_SECONDS: Interval = Interval {
    since: 10,
    until: 13,
};

const ONE_SECOND: Interval = Interval {
    since: 10,
    until: 11,
};

const TWO_SECONDS: Interval = Interval {
    since: 13,
    until: 15,
};

const LAST_SECOND: Interval = Interval {
    since: 16,
    until: 17,
};

// Flags of the seconds from 10 on, and their longest intervals.
const MARKS: &'static [(&'static [bool], &'static [Interval])] = &[
    (&[], &[]),
    (&[false, false, false], &[]),
    (&[true, true, true], &[THREE_SECONDS]),
    (&[true], &[ONE_SECOND]),
    (
        &[true, false, false, true, true, false, true],
        &[ONE_SECOND, TWO_SECONDS, LAST_SECOND],
    ),
];

#[test]
fn intervals(rt: HostRuntime) -> Result<(), Fail> {
    for (marks, wanted) in MARKS {
        let found = longest_intervals(rt.alloc(), 10, marks)?;
        assert!(rt; found.as_slice() == *wanted);
    }
    Ok(())
}
