//! Tests of the lines that the jobs print, and of their exit statuses; and of writers that fail
//! after each byte of a line.
use crate::jobs::calls::Ask;
use crate::jobs::script::{
    BAD_BOOK, FILLED, INPUT, MADE, OLD_VERSION, OUTPUT, SOUND, Step, are_done,
};
use ob_base::{Refusal, Stop};
use ob_harness::texts::{ONE_NAME_TWICE, OUTAGE, TO_VERSION_1};

const BAD_PERIOD: Step = Step::Do(
    Ask::Make(0),
    2,
    Some((Stop::Refused(Refusal::BadPeriod), None)),
    "",
);

// Prints the table of the outage.
const PRINTED: Step = Step::Begin(
    Ask::Print,
    "OUTAGE BOOK 2024-01-01 days 1 zone UTC0\nP 86400 S 864000 W 9000\n",
);

// Each job on an existing book. Then each on a book whose heading has version 1, which is checked
// first, while its commands are of version 2; and on one of version 2 without its lives.
const BOOK: &[Step] = &[
    BAD_PERIOD,
    MADE,
    Step::Do(Ask::Make(1), 2, BAD_BOOK, ""),
    // each job works on a book without commands too
    Step::Begin(
        Ask::Print,
        "OUTAGE BOOK 2024-01-01 days 1 zone UTC0\nP 86400 S 0 W 0\n",
    ),
    Step::Do(Ask::Export(Some(4_000)), 0, None, "rows 0\n"),
    Step::Do(Ask::Interruptions(Some(4_000)), 0, None, "rows 0\n"),
    Step::Do(Ask::Serve(true), 0, None, ""),
    Step::Lack(Ask::Audit, 0, None, "audit ok\n"),
    Step::Do(Ask::Import(None), 1, INPUT, ""),
    FILLED,
    Step::Do(Ask::Import(Some(OUTAGE)), 0, None, "added 0 again 25\n"),
    Step::Do(Ask::Export(Some(4_000)), 0, None, "rows 9\n"),
    Step::Do(Ask::Export(None), 1, OUTPUT, ""),
    Step::Do(Ask::Export(Some(40)), 1, OUTPUT, ""),
    Step::Do(Ask::Interruptions(Some(4_000)), 0, None, "rows 2\n"),
    Step::Do(Ask::Interruptions(None), 1, OUTPUT, ""),
    Step::Do(Ask::Interruptions(Some(100)), 1, OUTPUT, ""),
    PRINTED,
    Step::Do(Ask::Serve(true), 0, None, ""),
    Step::Do(Ask::Serve(false), 1, INPUT, ""),
    SOUND,
    Step::Lack(Ask::Migrate, 0, None, "version 2\n"),
    Step::Sql("UPDATE meta SET version = 1"),
    Step::Do(Ask::Make(1), 2, BAD_BOOK, ""),
    Step::Do(Ask::Import(Some(OUTAGE)), 2, OLD_VERSION, ""),
    Step::Do(Ask::Import(None), 2, OLD_VERSION, ""),
    Step::Do(Ask::Export(None), 2, OLD_VERSION, ""),
    Step::Do(Ask::Interruptions(None), 2, OLD_VERSION, ""),
    Step::Do(Ask::Print, 2, OLD_VERSION, ""),
    Step::Do(Ask::Serve(false), 2, OLD_VERSION, ""),
    Step::Do(Ask::Audit, 2, OLD_VERSION, ""),
    Step::Lack(Ask::Migrate, 2, BAD_BOOK, ""),
    Step::Sql("DROP TABLE life"),
    Step::Do(Ask::Print, 2, OLD_VERSION, ""),
    Step::Do(Ask::Audit, 2, OLD_VERSION, ""),
    Step::Do(Ask::Migrate, 2, BAD_BOOK, ""),
    Step::Sql("UPDATE meta SET version = 2"),
    Step::Do(Ask::Print, 2, BAD_BOOK, ""),
    Step::Do(Ask::Audit, 2, BAD_BOOK, ""),
    Step::Lack(Ask::Migrate, 0, None, "version 2\n"),
];

// Whole imports: a refused row leaves nothing of its text in the book, also where that is a later
// row or the header; all rows of a text are then added, and the same text adds nothing more.
const WHOLE_TEXTS: &[Step] = &[
    MADE,
    Step::Do(Ask::ImportWhole(None), 1, INPUT, ""),
    Step::Do(
        Ask::ImportWhole(Some(ONE_NAME_TWICE)),
        2,
        Some((Stop::Refused(Refusal::NameTaken), Some(4))),
        "added 0 again 0\n",
    ),
    Step::Do(
        Ask::ImportWhole(Some("kind,ref\n")),
        2,
        Some((Stop::Refused(Refusal::BadField(0)), Some(0))),
        "added 0 again 0\n",
    ),
    Step::Do(Ask::Export(Some(4_000)), 0, None, "rows 0\n"),
    SOUND,
    Step::Do(
        Ask::ImportWhole(Some(OUTAGE)),
        0,
        None,
        "added 25 again 0\n",
    ),
    SOUND,
    PRINTED,
    Step::Do(
        Ask::ImportWhole(Some(OUTAGE)),
        0,
        None,
        "added 0 again 25\n",
    ),
    Step::Do(Ask::Import(Some(OUTAGE)), 0, None, "added 0 again 25\n"),
    Step::Do(Ask::Export(Some(4_000)), 0, None, "rows 9\n"),
    SOUND,
];

// A book of version 1: if an amount in its tables was changed by other means, it is no book, and is
// left as it is; otherwise it is migrated to one of version 2 with the same commands and amounts.
const MIGRATED: &[Step] = &[
    MADE,
    FILLED,
    Step::Sql(TO_VERSION_1),
    Step::Do(Ask::Audit, 2, OLD_VERSION, ""),
    Step::Sql("UPDATE posting SET amount = amount + 1 WHERE dim = 3"),
    Step::Do(Ask::Migrate, 2, BAD_BOOK, ""),
    Step::Sql("UPDATE posting SET amount = amount - 1 WHERE dim = 3"),
    Step::Do(Ask::Print, 2, OLD_VERSION, ""),
    Step::Lack(Ask::Migrate, 0, None, "migrated\n"),
    SOUND,
    Step::Do(Ask::Migrate, 0, None, "version 2\n"),
    Step::Do(Ask::Import(Some(OUTAGE)), 0, None, "added 0 again 25\n"),
    Step::Do(Ask::Export(Some(4_000)), 0, None, "rows 9\n"),
    Step::Do(Ask::Interruptions(Some(4_000)), 0, None, "rows 2\n"),
    PRINTED,
    Step::Do(Ask::Migrate, 0, None, "version 2\n"),
    Step::Do(Ask::Serve(true), 0, None, ""),
];

// Each job on tables that aren't those of a book. Then a row is refused; an amount in the tables is
// changed by other means; and each job is done once more on tables that aren't those of a book.
const NO_BOOK: &[Step] = &[
    Step::Do(Ask::Import(Some(OUTAGE)), 2, BAD_BOOK, ""),
    Step::Do(Ask::Import(None), 2, BAD_BOOK, ""),
    Step::Do(Ask::Export(None), 2, BAD_BOOK, ""),
    Step::Do(Ask::Interruptions(None), 2, BAD_BOOK, ""),
    Step::Do(Ask::Print, 2, BAD_BOOK, ""),
    Step::Lack(Ask::Serve(false), 2, BAD_BOOK, ""),
    Step::Do(Ask::Audit, 2, BAD_BOOK, ""),
    Step::Do(Ask::Migrate, 2, BAD_BOOK, ""),
    MADE,
    Step::Do(
        Ask::Import(Some(ONE_NAME_TWICE)),
        2,
        Some((Stop::Refused(Refusal::NameTaken), Some(4))),
        "added 3 again 0\n",
    ),
    Step::Sql("UPDATE posting SET amount = amount + 1 WHERE dim = 3"),
    Step::Do(Ask::Audit, 2, None, "audit differs posting\n"),
    Step::Do(Ask::Migrate, 0, None, "version 2\n"),
    Step::Do(Ask::Import(Some(OUTAGE)), 2, BAD_BOOK, ""),
    Step::Do(Ask::Import(None), 2, BAD_BOOK, ""),
    Step::Do(Ask::Export(None), 2, BAD_BOOK, ""),
    Step::Do(Ask::Interruptions(None), 2, BAD_BOOK, ""),
    Step::Do(Ask::Print, 2, BAD_BOOK, ""),
    Step::Lack(Ask::Serve(false), 2, BAD_BOOK, ""),
];

// Jobs that leave the book as it is, and how the line that each prints begins; and the audit after
// the writers have failed.
const WRITERS: &[Step] = &[
    MADE,
    FILLED,
    Step::Break(Ask::Audit, "audit ok\n", 0, 9),
    Step::Break(Ask::Import(Some(OUTAGE)), "added 0 again 25\n", 0, 17),
    Step::Break(Ask::Export(Some(4_000)), "rows 9\n", 0, 7),
    Step::Break(Ask::Interruptions(Some(4_000)), "rows 2\n", 0, 7),
    Step::Break(
        Ask::Print,
        "OUTAGE BOOK 2024-01-01 days 1 zone UTC0\n",
        0,
        40,
    ),
    Step::Break(Ask::Migrate, "version 2\n", 0, 10),
    SOUND,
];

#[test]
fn jobs_on_books_and_on_none(rt: HostRuntime) -> Result<(), Stop> {
    for steps in [BOOK, NO_BOOK] {
        are_done(&rt, rt.alloc(), steps)?;
    }
    Ok(())
}

#[test]
fn whole_imports_migrations_and_writers(rt: HostRuntime) -> Result<(), Stop> {
    for steps in [WHOLE_TEXTS, MIGRATED, WRITERS] {
        are_done(&rt, rt.alloc(), steps)?;
    }
    Ok(())
}

const CREATED: &'static str = "created\n";

const MIGRATED_LINE: &'static str = "migrated\n";

// A new book is created although its line can't be printed, and a book of version 1 is migrated.
#[test]
fn writers_that_fail_on_a_changed_book(rt: HostRuntime) -> Result<(), Stop> {
    for room in 0..MIGRATED_LINE.len() {
        let first = room.min(7);
        let steps = &[
            Step::Break(Ask::Make(1), CREATED, first, first + 1),
            SOUND,
            FILLED,
            Step::Sql(TO_VERSION_1),
            Step::Break(Ask::Migrate, MIGRATED_LINE, room, room + 1),
            SOUND,
        ];
        are_done(&rt, rt.alloc(), steps)?;
    }
    Ok(())
}
