//! Tests of the jobs with one allocation refused.
use crate::jobs::calls::{Ask, Told};
use crate::jobs::script::BAD_BOOK;
use crate::office::{Office, Trial, over};
use ob_base::Stop;
use ob_harness::texts::{OUTAGE, TO_VERSION_1};
use ob_harness::{FULL, Sink};
use sqlite::{Alter, Connection};
use std::alloc::{AllocError, Global};
use std::process::Abort;

// Answers whether a fault ended a job, and nothing was printed.
fn is_short(told: &Told) -> bool {
    match told.halt {
        Some((Stop::Fault(_), None)) => told.status == 1 && told.text.is_empty(),
        _ => false,
    }
}

// A writer with room and memory for all that is printed here.
fn wide(alloc: Global) -> Result<Sink, AllocError> {
    let mut sink = Sink::new(alloc, 4_000, FULL);
    sink.taken.reserve(4_000)?;
    Ok(sink)
}

// Does a job and answers what it prints. If it is refused memory, the job is done once more, and
// then has to succeed.
fn comes_through<O: Office>(
    rt: &impl Abort,
    alloc: Global,
    office: &mut O,
    ask: Ask,
) -> Result<Told, AllocError> {
    let first = office.does(alloc, ask, wide(alloc)?);
    if !is_short(&first) {
        return Ok(first);
    }
    let second = office.does(alloc, ask, wide(alloc)?);
    assert!(rt; !is_short(&second));
    Ok(second)
}

// Answers whether a job is done and prints this. A job that is tried again may already have created
// a book, or migrated it.
fn is_done(ask: Ask, told: &Told, line: &[u8]) -> bool {
    match ask {
        Ask::Make(_) => told.text.as_slice() == line || told.halt == BAD_BOOK,
        Ask::Migrate => {
            told.status == 0
                && (told.text.as_slice() == line
                    || told.text.as_slice() == b"version 2\n".as_slice())
        }
        Ask::Audit => told.status == 0 && told.text.as_slice() == line,
        _ => told.status == 0 && told.text.starts_with(line),
    }
}

// Jobs, and how the text that each prints begins. If memory is refused to the test itself, it ends
// there.
#[derive(Clone, Copy)]
struct Refused {
    jobs: &'static [(Ask, &'static str)],
    ended: bool,
}

impl Trial for Refused {
    fn run<A: Abort, O: Office>(&mut self, rt: &A, alloc: Global, office: &mut O) {
        let jobs = self.jobs;
        for (ask, line) in jobs {
            match comes_through(rt, alloc, office, *ask) {
                Ok(told) => assert!(rt; is_done(*ask, &told, line.as_bytes()), "{line}"),
                Err(_) => {
                    self.ended = true;
                    return;
                }
            }
        }
    }
}

// An import that is tried again finds some rows already there.
const JOBS: &[(Ask, &'static str)] = &[
    (Ask::Make(1), "created\n"),
    (Ask::Import(Some(OUTAGE)), "added "),
    (Ask::Import(Some(OUTAGE)), "added 0 again 25\n"),
    (Ask::Export(Some(4_000)), "rows 9\n"),
    (Ask::Interruptions(Some(4_000)), "rows 2\n"),
    (Ask::Print, "OUTAGE BOOK 2024-01-01 days 1 zone UTC0\n"),
    (Ask::Serve(true), ""),
    (Ask::Audit, "audit ok\n"),
    (Ask::Migrate, "version 2\n"),
];

// Jobs on the same book, turned into one of version 1.
const OLD_JOBS: &[(Ask, &'static str)] = &[
    (Ask::Migrate, "migrated\n"),
    (Ask::Audit, "audit ok\n"),
];

fn are_refused<S: Alter + Drop>(rt: &impl Abort, alloc: Global, conn: Connection<S>) {
    let mut refused = Refused {
        jobs: JOBS,
        ended: false,
    };
    let mut conn = over(rt, alloc, conn, &mut refused);
    if refused.ended || conn.execute_batch(TO_VERSION_1).is_err() {
        return;
    }
    let mut refused = Refused {
        jobs: OLD_JOBS,
        ended: false,
    };
    let _ = over(rt, alloc, conn, &mut refused);
}

// Run with one allocation refused, this test checks that each job succeeds at the second try, and
// that a book passes its audit. If memory is refused to the test itself, it ends there.
#[test]
fn memory_refused(rt: HostRuntime) {
    if let Ok(conn) = Connection::open_in_memory(rt.alloc()) {
        are_refused(&rt, rt.alloc(), conn);
    }
}
