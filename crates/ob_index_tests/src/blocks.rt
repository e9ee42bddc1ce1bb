//! Tests of a section with 100,000 customers in three blocks, and of services out of a day.
use crate::moved::{Served, amounts_in, period_of, roll_of, sum_of};
use ob_cust::{Customer, Roll};
use ob_post::Dim;
use ob_sweep::Run;
use std::alloc::Global;
use std::test::Fail;

// The service of a customer: without bounds that matter, up to noon of 1970-01-02, or from a
// hundred seconds after that noon on.
fn three_blocks(alloc: Global) -> Result<Roll, Fail> {
    let mut roll = Roll::new(alloc);
    for no in 1..100_001u32 {
        let (since, until) = if no <= 30_000 {
            (0, None)
        } else if no <= 65_000 {
            (86_400, Some(129_600))
        } else {
            (129_700, None)
        };
        roll.reserve_one()?;
        roll.connect(Customer {
            no,
            section: 1,
            since,
            until,
        })?;
    }
    Ok(roll)
}

// An outage interval across the end of a block and the beginning of another: 30,000 customers for
// 301 seconds, 35,000 for 100, and 35,000 for 101.
const ACROSS: Run = Run {
    section: 1,
    since: 129_500,
    until: 129_801,
    cutter: None,
};

#[test]
fn a_run_across_the_end_of_a_block(rt: HostRuntime) -> Result<(), Fail> {
    let roll = three_blocks(rt.alloc())?;
    let day = period_of(rt.alloc(), b"1970-01-02", 1, b"UTC0")?;
    let rows = amounts_in(rt.alloc(), &ACROSS, &roll, &day)?;
    assert!(rt; roll.blocks(1)?.len() == 3);
    for (dim, key) in [(Dim::Cause, 3), (Dim::Feeder, 2), (Dim::Day, 0)] {
        assert!(rt; sum_of(&rows, dim, key)? == 16_065_000);
    }
    Ok(())
}

const WHOLE_DAY: Run = Run {
    section: 1,
    since: 86_400,
    until: 172_800,
    cutter: None,
};

// Services that begin after the day or at its end, and two that are over before its first second.
const OUT_OF_THE_DAY: &'static [Served] = &[
    (1, 1, 172_801, None),
    (2, 1, 172_800, Some(172_900)),
    (3, 1, 0, Some(86_399)),
    (4, 1, 10, Some(86_400)),
];

#[test]
fn services_out_of_the_day_add_nothing(rt: HostRuntime) -> Result<(), Fail> {
    let roll = roll_of(rt.alloc(), OUT_OF_THE_DAY)?;
    let day = period_of(rt.alloc(), b"1970-01-02", 1, b"UTC0")?;
    let rows = amounts_in(rt.alloc(), &WHOLE_DAY, &roll, &day)?;
    assert!(rt; sum_of(&rows, Dim::Cause, 3)? == 0);
    assert!(rt; sum_of(&rows, Dim::Day, 0)? == 0);
    Ok(())
}
