//! Tests of loads: a book in memory stays when the tables no longer hold one, and other objects in a
//! database.
use crate::books::OUTAGE_BOOK;
use crate::office::{BAD_BOOK, NO_OLD_BOOK, OLD_VERSION};
use crate::steps::{NEW, Step, spoil, tell};
use ob_net::Stop;

// A table `life` with the same column names in the same order, but the first second of a life is
// stored as text.
const LIVES_AS_TEXTS: &'static str =
    "DROP TABLE life; CREATE TABLE life (device INTEGER PRIMARY KEY REFERENCES device (id), since \
     TEXT NOT NULL, until INTEGER)";

// A new book is loaded over such tables. After the first device the tables no longer hold a book,
// and the `Keeper` goes on with the book in its memory.
const OVER_LIVES_AS_TEXTS: &[Step] = &[
    Step::Change(LIVES_AS_TEXTS),
    Step::Load(Ok(())),
    Step::Tell("N1 bus BUS-A => 1"),
    Step::Tell("N2 device B0 GRID BUS-A closed 0 - => 2"),
    Step::Note,
    Step::Audit("life"),
    Step::Load(BAD_BOOK),
    Step::Migrate(Ok(false)),
    Step::Same,
    Step::Tell("N2 device B0 GRID BUS-A closed 0 - => 2"),
    Step::Tell("N3 cause 3 STORM => 3"),
];

#[test]
fn a_book_stays(rt: HostRuntime) -> Result<(), Stop> {
    tell(&rt, rt.alloc(), &[&[NEW], OVER_LIVES_AS_TEXTS])
}

// Other objects next to the tables of a book, or in place of one of them.
const BESIDE: &[&'static str] = &[
    "CREATE INDEX by_second ON entry (second)",
    "CREATE TABLE note (id INTEGER PRIMARY KEY) STRICT",
    "CREATE VIEW marks AS SELECT day FROM mark",
    "DROP TABLE meta; CREATE VIEW meta AS SELECT 1 AS id, 2 AS version, '2024-01-01' AS day0, 1 AS days, 'UTC0' AS zone FROM cmd WHERE id = 1",
    "DROP TABLE mark; CREATE TABLE mark (day INTEGER PRIMARY KEY, engineer TEXT NOT NULL) STRICT",
];

// Such a database holds no book, and nothing in it is changed.
const BESIDE_THEN: &[Step] = &[
    Step::Audit("BadBook"),
    Step::Load(BAD_BOOK),
    Step::Has(false),
    Step::Migrate(Ok(false)),
];

#[test]
fn other_tables_beside_those_of_a_book(rt: HostRuntime) -> Result<(), Stop> {
    spoil(&rt, rt.alloc(), OUTAGE_BOOK, BESIDE, BESIDE_THEN)
}

// The same with version 1 in the heading: the version is reported first.
const OLD_BESIDE: &[Step] = &[
    Step::Change("UPDATE meta SET version = 1; CREATE VIEW marks AS SELECT day FROM mark"),
    Step::Audit("OldVersion"),
    Step::Load(OLD_VERSION),
    Step::Has(false),
    Step::Migrate(NO_OLD_BOOK),
];

#[test]
fn an_old_version_beside_a_view(rt: HostRuntime) -> Result<(), Stop> {
    tell(&rt, rt.alloc(), &[OUTAGE_BOOK, OLD_BESIDE])
}
