//! Tests of the JSON texts of indices and of plans. That of totals is tested in `ob_book_tests`.
use crate::moved::row;
use ob_index::Counts;
use ob_index::indices::indices;
use ob_json::{OutageInterval, SectionChange, forecast_text, indices_text, same_intervals};
use ob_net::Name;
use ob_post::Dim;
use std::test::Fail;

const INDICES: &[u8] =
    b"{\"all\":{\"asai\":\"95/96\",\"caidi\":\"30/1\",\"caifi\":\"1/1\",\"cemi\":[\"1/2\",\"0/1\",\"0/1\",\"0/1\",\"0/1\",\"0/1\",\"0/1\",\"0/1\",\"0/1\",\"0/1\"],\"momentary\":0,\"saidi\":\"15/1\",\"saifi\":\"1/2\",\"sustained\":5},\"unmarked\":{\"asai\":\"1/1\",\"caidi\":\"undefined\",\"caifi\":\"undefined\",\"cemi\":[\"0/1\",\"0/1\",\"0/1\",\"0/1\",\"0/1\",\"0/1\",\"0/1\",\"0/1\",\"0/1\",\"0/1\"],\"momentary\":0,\"saidi\":\"0/1\",\"saifi\":\"0/1\",\"sustained\":0}}";

// Five of ten customers are out for half an hour of a day, which is marked.
#[test]
fn indices_are_shown(rt: HostRuntime) -> Result<(), Fail> {
    let counts = Counts {
        ci: 5,
        csi: 9_000,
        cn: 5,
        cn_n: [5, 0, 0, 0, 0, 0, 0, 0, 0, 0],
        mi: 0,
    };
    let none = Counts {
        ci: 0,
        csi: 0,
        cn: 0,
        cn_n: [0; 10],
        mi: 0,
    };
    let all = indices(&counts, 864_000, 86_400);
    let unmarked = indices(&none, 864_000, 86_400);
    let text = indices_text(rt.alloc(), &all, &unmarked)?;
    assert!(rt; text.as_slice() == INDICES);
    Ok(())
}

const FORECAST: &[u8] =
    br#"{"moved":[["cause",3,-9000]],"sections":[{"after":[[60,90,2,3]],"before":[[60,90,null,0]],"section":"S1"}]}"#;

const BEFORE: OutageInterval = OutageInterval {
    since: 60,
    until: 90,
    entry: None,
    cause: 0,
};

const AFTER: OutageInterval = OutageInterval {
    since: 60,
    until: 90,
    entry: Some(2),
    cause: 3,
};

// The half minute without supply that no entry began gets an entry that began it.
#[test]
fn a_plan_is_shown(rt: HostRuntime) -> Result<(), Fail> {
    let before = vec![in rt.alloc(); BEFORE]?;
    let after = vec![in rt.alloc(); AFTER]?;
    assert!(&rt; same_intervals(&before, &before) && !same_intervals(&before, &after));
    let name = Name::read(b"S1").ok_or("a name")?;
    let sections = vec![in rt.alloc(); SectionChange::new(name, before, after)]?;
    let text = forecast_text(rt.alloc(), &[row(Dim::Cause, 3, -9_000)], &sections)?;
    assert!(&rt; text.as_slice() == FORECAST);
    Ok(())
}
