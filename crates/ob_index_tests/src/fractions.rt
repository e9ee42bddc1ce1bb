//! Tests of fractions in lowest terms, their texts, and the indices of counts.
use ob_index::indices::indices;
use ob_index::{Counts, Fraction, decimal3, reduced};
use std::test::Fail;

fn is(fraction: Option<Fraction>, num: u128, den: u128) -> bool {
    match fraction {
        Some(fraction) => fraction.num() == num && fraction.den() == den,
        None => false,
    }
}

// A quotient, its numerator and denominator in lowest terms, its text, and its three decimals.
type Quotient = (u128, u128, u128, u128, &'static str, &'static str);

const QUOTIENTS: &'static [Quotient] = &[
    (602, 240, 301, 120, "301/120", "2.508"),
    (95, 96, 95, 96, "95/96", "0.990"),
    (1, 16, 1, 16, "1/16", "0.063"),
    (0, 7, 0, 1, "0/1", "0.000"),
];

#[test]
fn quotients_are_reduced_and_printed(rt: HostRuntime) -> Result<(), Fail> {
    for (a, b, num, den, text, decimals) in QUOTIENTS {
        let fraction = reduced(*a, *b).ok_or("a fraction")?;
        assert!(rt; fraction.num() == *num && fraction.den() == *den);
        assert!(rt; fraction.to_string(rt.alloc())?.as_str() == *text);
        assert!(rt; fraction.num() < 1_000 && fraction.den() < 1_000);
        assert!(rt; decimal3(&fraction).to_string(rt.alloc())?.as_str() == *decimals);
    }
    assert!(rt; reduced(5, 0).is_none());
    Ok(())
}

// One of ten customers, out for 301 seconds of a day in which all are in service.
#[test]
fn one_interruption_of_a_day(rt: HostRuntime) {
    let counts = Counts {
        ci: 1,
        csi: 301,
        cn: 1,
        cn_n: [1, 0, 0, 0, 0, 0, 0, 0, 0, 0],
        mi: 2,
    };
    let found = indices(&counts, 864_000, 86_400);
    assert!(rt; is(found.saifi, 1, 10));
    assert!(rt; is(found.saidi, 301, 600));
    assert!(rt; is(found.caidi, 301, 60));
    assert!(rt; is(found.caifi, 1, 1));
    assert!(rt; is(found.asai, 863_699, 864_000));
    assert!(rt; is(found.cemi[0], 1, 10));
    assert!(rt; is(found.cemi[9], 0, 1));
    assert!(rt; found.sustained == 1 && found.momentary == 2);
}

// The greatest numbers that `indices` takes.
#[test]
fn the_greatest_counts(rt: HostRuntime) {
    let most = (1 << 42) - 1;
    let counts = Counts {
        ci: most,
        csi: most,
        cn: 0,
        cn_n: [0; 10],
        mi: 0,
    };
    let found = indices(&counts, most, (1 << 25) - 1);
    assert!(rt; is(found.saifi, 33_554_431, 1));
    assert!(rt; is(found.saidi, 33_554_431, 60));
    assert!(rt; is(found.caidi, 1, 60));
    assert!(rt; found.caifi.is_none());
    assert!(rt; is(found.asai, 0, 1));
}
