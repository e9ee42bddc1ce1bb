//! Steps on a store in memory, one after another, and the answer to each.
use crate::jobs::calls::{Ask, Halt, Told};
use crate::office::{Office, Trial, over};
use crate::script::lacks_book;
use ob_base::{Fault, Refusal, Stop};
use ob_harness::texts::OUTAGE;
use ob_harness::{FULL, Sink};
use sqlite::{Alter, Connection};
use std::alloc::Global;
use std::process::Abort;

// A fault of the store.
const STORE: Stop = Stop::Fault(Fault::Store);

/// The tables aren't those of a book.
pub const BAD_BOOK: Halt = Some((Stop::Refused(Refusal::BadBook), None));

/// The book was made by version 1.
pub const OLD_VERSION: Halt = Some((Stop::Refused(Refusal::OldVersion(1)), None));

/// An input or a port can't be opened.
pub const INPUT: Halt = Some((Stop::Fault(Fault::Input), None));

/// An output can't be made or written.
pub const OUTPUT: Halt = Some((Stop::Fault(Fault::Output), None));

/// A step on a store, with a `Keeper` of its own, and the expected answer: a job, its status, why
/// it stopped, and what it printed.
#[derive(Clone, Copy)]
pub enum Step {
    /// Runs these statements.
    Sql(&'static str),
    /// Does a job that prints exactly this.
    Do(Ask, u8, Halt, &'static str),
    /// Does such a job, after which each job that works on a book stops because there is none.
    Lack(Ask, u8, Halt, &'static str),
    /// Does a job whose printed text begins with this.
    Begin(Ask, &'static str),
    /// Does a job with writers that have room for each number of bytes of this line from the first
    /// number to before the last: the part that fits is written.
    Break(Ask, &'static str, usize, usize),
}

/// Creates a book.
pub const MADE: Step = Step::Do(Ask::Make(1), 0, None, "created\n");

/// Imports the outage into it.
pub const FILLED: Step = Step::Do(Ask::Import(Some(OUTAGE)), 0, None, "added 25 again 0\n");

/// Checks that no table differs.
pub const SOUND: Step = Step::Do(Ask::Audit, 0, None, "audit ok\n");

// Answers whether a job ended and printed as expected. If the tables aren't those of a book of
// version 2, it opened nothing.
fn ended(told: &Told, status: u8, halt: Halt, text: &[u8]) -> bool {
    told.status == status
        && told.halt == halt
        && told.text.as_slice() == text
        && !(told.tried && (halt == BAD_BOOK || halt == OLD_VERSION))
}

// Answers whether a job with writers of these rooms ends with an output fault, after writing the
// part that fits.
fn breaks_off<O: Office>(
    alloc: Global,
    office: &mut O,
    ask: Ask,
    line: &[u8],
    rooms: (usize, usize),
) -> bool {
    for room in rooms.0..rooms.1 {
        let told = office.does(alloc, ask, Sink::new(alloc, room, FULL));
        if room >= line.len() || !ended(&told, 1, OUTPUT, &line[..room]) {
            return false;
        }
    }
    true
}

// Answers whether a job gets the expected answer.
fn is_done<O: Office>(
    alloc: Global,
    office: &mut O,
    ask: Ask,
    status: u8,
    halt: Halt,
    text: &str,
) -> bool {
    let told = office.does(alloc, ask, Sink::new(alloc, 4_000, FULL));
    ended(&told, status, halt, text.as_bytes())
}

// Answers whether a step gets the expected answer.
fn holds<O: Office>(alloc: Global, office: &mut O, step: &Step) -> bool {
    match step {
        Step::Sql(_) => true,
        Step::Do(ask, status, halt, text) => is_done(alloc, office, *ask, *status, *halt, text),
        Step::Lack(ask, status, halt, text) => {
            is_done(alloc, office, *ask, *status, *halt, text) && lacks_book(alloc, office)
        }
        Step::Begin(ask, text) => {
            let told = office.does(alloc, *ask, Sink::new(alloc, 4_000, FULL));
            told.status == 0 && told.text.starts_with(text.as_bytes())
        }
        Step::Break(ask, line, first, last) => {
            breaks_off(alloc, office, *ask, line.as_bytes(), (*first, *last))
        }
    }
}

// The step at this place, from 0.
#[derive(Clone, Copy)]
struct One<'s> {
    place: usize,
    step: &'s Step,
}

impl Trial for One<'_> {
    fn run<A: Abort, O: Office>(&mut self, rt: &A, alloc: Global, office: &mut O) {
        let place = self.place;
        assert!(rt; holds(alloc, office, self.step), "step {place}, from 0");
    }
}

// Checks the steps over a database.
fn are_done_over<S: Alter + Drop>(
    rt: &impl Abort,
    alloc: Global,
    conn: Connection<S>,
    steps: &[Step],
) -> Result<(), Stop> {
    let mut conn = conn;
    for (place, step) in steps.iter().enumerate() {
        if let Step::Sql(sql) = step {
            if conn.execute_batch(*sql).is_err() {
                return Err(STORE);
            }
        }
        conn = over(rt, alloc, conn, &mut One { place, step });
    }
    Ok(())
}

/// Checks the steps over a store in memory.
pub fn are_done(rt: &impl Abort, alloc: Global, steps: &[Step]) -> Result<(), Stop> {
    match Connection::open_in_memory(alloc) {
        Ok(conn) => are_done_over(rt, alloc, conn, steps),
        Err(_) => Err(STORE),
    }
}
