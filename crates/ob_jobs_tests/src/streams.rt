//! Tests of imports from readers that fail or are interrupted.
use crate::office::Office;
use crate::script::{Outcome, Step, is_told};
use ob_harness::texts::{OUTAGE, TWO_NAMES};
use ob_harness::{FAILING, JOLTING, Source, WHOLE, Way};
use ob_net::Fault;
use std::alloc::{AllocError, Global};
use std::io::ErrorKind;

/// Answers whether the whole rows of this text of lines are imported from readers that fail after
/// each of its bytes in turn.
pub fn are_broken<O: Office>(alloc: Global, office: &mut O, text: &[u8]) -> bool {
    let mut lines = 0u32;
    for count in 0..=text.len() {
        let before = lines.saturating_sub(1);
        if count > 0 && text[count - 1] == b'\n' {
            lines = lines.saturating_add(1);
        }
        let added = lines.saturating_sub(1).saturating_sub(before);
        let wanted = Outcome::Broken(added, before, Fault::Input);
        if office.reads(alloc, Source::new(&text[..count], FAILING)) != wanted.report() {
            return false;
        }
    }
    true
}

const FRONTS: &[Step] = &[
    Step::Make,
    Step::ReadFronts(TWO_NAMES),
    Step::Rows(&[1, 2, 4, 0, 0, 0, 0, 0, 4, 0, 320]),
];

// Each byte of the outage comes after an interrupted read.
const EACH_BYTE: &[Step] = &[
    Step::Make,
    Step::Read(JOLTING, OUTAGE, Outcome::Took(25, 0)),
    Step::Rows(&[1, 3, 5, 5, 5, 10, 4, 0, 25, 9, 320]),
];

const FOR_EVER: Way = Way {
    end: Some(ErrorKind::Interrupted),
    ..WHOLE
};

const TOO_OFTEN: Way = Way {
    jolts: 32_769,
    ..WHOLE
};

const JUST_NOT: Way = Way {
    jolts: 32_768,
    ..WHOLE
};

// The whole text, and then only interrupted reads. Then the text in one piece: its read and the
// read of its end may be retried 65,536 times in all.
const INTERRUPTED: &[Step] = &[
    Step::Make,
    Step::Read(FOR_EVER, TWO_NAMES, Outcome::Broken(4, 0, Fault::Input)),
    Step::Read(TOO_OFTEN, TWO_NAMES, Outcome::Broken(0, 4, Fault::Input)),
    Step::Read(JUST_NOT, TWO_NAMES, Outcome::Took(0, 4)),
    Step::Rows(&[1, 2, 4, 0, 0, 0, 0, 0, 4, 0, 320]),
];

#[test]
fn readers_that_fail_or_are_interrupted(rt: HostRuntime) -> Result<(), AllocError> {
    for steps in [FRONTS, EACH_BYTE, INTERRUPTED] {
        is_told(&rt, rt.alloc(), steps, false)?;
    }
    Ok(())
}
