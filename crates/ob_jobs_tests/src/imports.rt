//! Tests of imports into new books: a row that is refused and then changed, texts without rows, who
//! hears of the progress, a `Keeper` without a book, rows that can't be read, and other spellings
//! of rows that can.
use crate::office::Heard;
use crate::script::{Outcome, Step, is_told};
use ob_harness::texts::{ONE_NAME_TWICE, OUTAGE, TWO_NAMES};
use ob_net::{Fault, Refusal};
use std::alloc::AllocError;

const CHANGED: &[Step] = &[
    Step::Make,
    Step::Import(
        ONE_NAME_TWICE,
        Outcome::Stopped(3, 0, 4, Refusal::NameTaken),
    ),
    Step::Import(
        ONE_NAME_TWICE,
        Outcome::Stopped(0, 3, 4, Refusal::NameTaken),
    ),
    Step::Import(TWO_NAMES, Outcome::Took(1, 3)),
    Step::Import(TWO_NAMES, Outcome::Took(0, 4)),
    Step::Import(
        ONE_NAME_TWICE,
        Outcome::Stopped(0, 3, 4, Refusal::RefConflict(4)),
    ),
    Step::Rows(&[1, 2, 4, 0, 0, 0, 0, 0, 4, 0, 320]),
];

const TOLD: Heard = Heard {
    expected: 4,
    last: 3,
    rows: 3,
    ended: true,
};

// An import of a text whose fourth row is refused, with a listener that follows its progress; and
// the same once more.
const HEARING: &[Step] = &[
    Step::Make,
    Step::Hear(ONE_NAME_TWICE, TOLD),
    Step::Hear(ONE_NAME_TWICE, TOLD),
    Step::Rows(&[1, 2, 3, 0, 0, 0, 0, 0, 3, 0, 320]),
];

const WITHOUT_ROWS: &[Step] = &[
    Step::Make,
    Step::Import("kind,ref,f1,f2,f3,f4,f5,f6\n", Outcome::Took(0, 0)),
    Step::Import("kind,ref,f1,f2,f3,f4,f5,f6", Outcome::Took(0, 0)),
    Step::Import("", Outcome::Stopped(0, 0, 0, Refusal::BadField(0))),
    Step::Import("\n", Outcome::Stopped(0, 0, 0, Refusal::BadField(0))),
    Step::Import(
        "kind,ref,f1,f2,f3,f4,f5\n",
        Outcome::Stopped(0, 0, 0, Refusal::BadField(0)),
    ),
    Step::Import(
        "bus,R1,BUS-A,,,,,\n",
        Outcome::Stopped(0, 0, 0, Refusal::BadField(0)),
    ),
    Step::Rows(&[1, 1, 1, 0, 0, 0, 0, 0, 0, 0, 320]),
];

const WITHOUT_A_BOOK: &[Step] = &[
    Step::Import(OUTAGE, Outcome::Broken(0, 0, Fault::Reopen)),
    Step::Import("", Outcome::Broken(0, 0, Fault::Reopen)),
];

// A book refuses each row, and stays as it is. Further bad columns are those of `ob_words_tests`.
const BAD_ROWS: &[Step] = &[
    Step::Make,
    Step::Import(
        "kind,ref,f1,f2,f3,f4,f5,f6\ncause,R1,64,STORM,,,,",
        Outcome::Stopped(0, 0, 1, Refusal::BadField(3)),
    ),
    Step::Import(
        "kind,ref,f1,f2,f3,f4,f5,f6\ncause,R1,3,STORM,,,",
        Outcome::Stopped(0, 0, 1, Refusal::BadField(0)),
    ),
    Step::Import(
        "kind,ref,f1,f2,f3,f4,f5,f6\ncause,R1,3,STORM,,,,,",
        Outcome::Stopped(0, 0, 1, Refusal::BadField(0)),
    ),
    Step::Import(
        "kind,ref,f1,f2,f3,f4,f5,f6\nswitch,R1,B1,open,3600,3,K1,x",
        Outcome::Stopped(0, 0, 1, Refusal::BadField(8)),
    ),
    Step::Import(
        "kind,ref,f1,f2,f3,f4,f5,f6\ncauses,R1,3,STORM,,,,",
        Outcome::Stopped(0, 0, 1, Refusal::BadField(1)),
    ),
    Step::Import(
        "kind,ref,f1,f2,f3,f4,f5,f6\ncause,,64,,,,,x",
        Outcome::Stopped(0, 0, 1, Refusal::BadField(2)),
    ),
    Step::Import(
        "kind,ref,f1,f2,f3,f4,f5,f6\n cause,R1,3,STORM,,,,",
        Outcome::Stopped(0, 0, 1, Refusal::BadField(1)),
    ),
    Step::Rows(&[1, 1, 1, 0, 0, 0, 0, 0, 0, 0, 320]),
];

// A text with a byte order mark, CRLF, quotes, an empty line, and no end of its last line.
const QUOTED: &'static str =
    "\u{FEFF}kind,\"ref\",f1,f2,f3,f4,f5,f6\r\n\"cause\",R1,\"3\",STORM,,,,\"\"\r\n\r\n\
bus,R2,\"BUS-A\",,,,,\r\n\"section\",R3,S1,001,,,,";

// The same rows.
const PLAIN: &'static str = "kind,ref,f1,f2,f3,f4,f5,f6
cause,R1,03,STORM,,,,
bus,R2,BUS-A,,,,,
section,R3,S1,1,,,,
";

const BOTH: &[Step] = &[
    Step::Make,
    Step::Import(QUOTED, Outcome::Took(3, 0)),
    Step::Import(PLAIN, Outcome::Took(0, 3)),
    Step::Import(QUOTED, Outcome::Took(0, 3)),
    Step::Rows(&[1, 2, 3, 0, 0, 0, 0, 0, 3, 0, 320]),
];

// From memory and from readers.
#[test]
fn rows_and_texts_by_either_way(rt: HostRuntime) -> Result<(), AllocError> {
    for steps in [CHANGED, WITHOUT_ROWS, WITHOUT_A_BOOK] {
        is_told(&rt, rt.alloc(), steps, false)?;
        is_told(&rt, rt.alloc(), steps, true)?;
    }
    Ok(())
}

#[test]
fn listeners_bad_rows_and_spellings(rt: HostRuntime) -> Result<(), AllocError> {
    for steps in [HEARING, BAD_ROWS, BOTH] {
        is_told(&rt, rt.alloc(), steps, false)?;
    }
    Ok(())
}
