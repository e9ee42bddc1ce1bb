//! Tests of new books, and of calls without a book.
use crate::books::TWO_FEEDERS_BOOK;
use crate::office::{BAD_BOOK, NO_OLD_BOOK};
use crate::scripts::TWO_FEEDERS;
use crate::steps::{NEW, Step, tell};
use ob_net::{Refusal, Stop};

// A book of another period, which can't be created.
const ANOTHER: Step = Step::Make(b"2024-02-01", 2, b"UTC0", BAD_BOOK);

// A second book is refused, by the `Keeper` that has the first and by another one; the first book
// stays.
const SECOND: &[Step] = &[
    ANOTHER,
    Step::Has(true),
    Step::Change(""),
    ANOTHER,
    Step::Has(false),
    Step::Leave(&[1, 3, 5, 5, 5, 10, 0, 0, 21, 0, 320], 0),
];

#[test]
fn a_book_is_made_once(rt: HostRuntime) -> Result<(), Stop> {
    tell(&rt, rt.alloc(), &[TWO_FEEDERS_BOOK, SECOND])
}

const BAD_PERIOD: Result<(), Stop> = Err(Stop::Refused(Refusal::BadPeriod));

// Books of such periods are refused; afterwards a book of another period can still be created.
const PERIODS: &[Step] = &[
    Step::Make(b"2024-01-01", 0, b"UTC0", BAD_PERIOD),
    Step::Has(false),
    Step::Make(b"2024-01-01", 367, b"UTC0", BAD_PERIOD),
    Step::Has(false),
    Step::Make(b"2024-01-01", 1, b"NOWHERE/AT/ALL", BAD_PERIOD),
    Step::Has(false),
    Step::Make(b"2024-02-30", 1, b"UTC0", BAD_PERIOD),
    Step::Has(false),
    Step::Make(b"2024-01-01", 366, b"UTC0", Ok(())),
    Step::Leave(&[1, 1, 1, 0, 0, 0, 0, 0, 0, 0, 685], 0),
];

#[test]
fn a_period_that_there_is_not(rt: HostRuntime) -> Result<(), Stop> {
    tell(&rt, rt.alloc(), &[PERIODS])
}

// Databases with nothing or something else in them: no book is audited, loaded or migrated, and the
// rows stay as they are.
const NOTHING: &[Step] = &[
    Step::NoteRows,
    Step::Audit("BadBook"),
    Step::Load(BAD_BOOK),
    Step::Has(false),
    Step::Migrate(NO_OLD_BOOK),
    Step::Has(false),
    Step::SameRows,
];

const NOTE: Step = Step::Change("CREATE TABLE note (id INTEGER PRIMARY KEY) STRICT");

const META: Step = Step::Change("CREATE TABLE meta (id INTEGER PRIMARY KEY) STRICT");

// No book can be created in a database that holds a table.
const NO_ROOM: &[Step] = &[ANOTHER, Step::Has(false)];

#[test]
fn databases_of_something_else(rt: HostRuntime) -> Result<(), Stop> {
    tell(&rt, rt.alloc(), &[NOTHING])?;
    tell(&rt, rt.alloc(), &[&[NOTE], NOTHING, NO_ROOM])?;
    tell(&rt, rt.alloc(), &[&[META], NOTHING, NO_ROOM])
}

// Without a book, sending a command, planning it or asking for a stored reply requires one to be
// loaded first; then a book is created, and takes commands.
const BEGUN: &[Step] = &[
    Step::Tell("N1 cause 3 STORM => no: 22 Reopen"),
    Step::Plan("N1 cause 3 STORM", "Reopen"),
    Step::Reply(1, "no: 22 Reopen"),
    NEW,
    Step::Tell(TWO_FEEDERS),
];

#[test]
fn without_a_book(rt: HostRuntime) -> Result<(), Stop> {
    tell(&rt, rt.alloc(), &[BEGUN])
}
