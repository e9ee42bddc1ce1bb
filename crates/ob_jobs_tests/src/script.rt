//! Steps with a `Keeper`, one after another, and the answer to each.
use crate::jobs::calls::Ask;
use crate::jobs::script::BAD_BOOK;
use crate::office::{Heard, Office, Report, Trial, What, over};
use crate::streams::are_broken;
use crate::tables::has_rows;
use ob_harness::texts::OUTAGE;
use ob_harness::{Sink, Source, WHOLE, Way};
use ob_import::{ImportFault, ImportReport};
use ob_net::{Fault, Refusal, Stop};
use sqlite::Connection;
use std::alloc::{AllocError, Global};
use std::process::Abort;

/// The expected answer to an import.
#[derive(Clone, Copy)]
pub enum Outcome {
    /// These numbers of rows were new and were there already.
    Took(u32, u32),
    /// After these numbers of new rows and of rows that were there already, this row was refused.
    Stopped(u32, u32, u32, Refusal),
    /// A fault came after these numbers of new rows and of rows that were there already.
    Broken(u32, u32, Fault),
}

impl Outcome {
    /// The report with these numbers.
    pub fn report(&self) -> Report {
        match *self {
            Outcome::Took(added, again) => Ok(ImportReport {
                added,
                again,
                stopped: None,
            }),
            Outcome::Stopped(added, again, row, refusal) => Ok(ImportReport {
                added,
                again,
                stopped: Some((row, refusal)),
            }),
            Outcome::Broken(added, again, fault) => Err(ImportFault {
                fault,
                added,
                again,
            }),
        }
    }
}

/// Room for more than any text here.
const WIDE: usize = 1_000_000;

/// A step with a `Keeper`, and the expected answer.
pub enum Step {
    /// Creates the book of 2024-01-01 in UTC.
    Make,
    /// Imports this text, from memory or from a reader.
    Import(&'static str, Outcome),
    /// Imports this text from a reader that gives it in this way.
    Read(Way, &'static str, Outcome),
    /// Imports this text from readers that fail after each of its bytes in turn.
    ReadFronts(&'static str),
    /// Imports this text, with this reported progress.
    Hear(&'static str, Heard),
    /// Writes this part of the book as this text, with this answer.
    Write(What, Result<u64, Stop>, &'static str),
    /// Exports to a writer that has room for this text and takes it in this way: the text without
    /// this end of it is written.
    Export(Way, Result<u64, Stop>, &'static str, &'static str),
    /// Checks that writing this text in this way breaks off, to writers with room for each number
    /// of its bytes from the first number to before the last.
    Break(What, Way, &'static str, usize, usize),
    /// As the last step, checks the numbers of rows in the tables: the period, causes, nodes,
    /// devices, their lives, customers, entries, marked days, commands, moves, amounts.
    Rows(&'static [i64]),
}

// Answers whether a step gets the expected answer.
fn holds<O: Office>(alloc: Global, office: &mut O, by_reader: bool, step: &Step) -> bool {
    match step {
        Step::Make => {
            office
                .does(alloc, Ask::Make(1), Sink::new(alloc, WIDE, WHOLE))
                .status
                == 0
        }
        Step::Import(text, wanted) => {
            if by_reader {
                office.reads(alloc, Source::new(text.as_bytes(), WHOLE)) == wanted.report()
            } else {
                office.takes(alloc, text.as_bytes()) == wanted.report()
            }
        }
        Step::Read(way, text, wanted) => {
            office.reads(alloc, Source::new(text.as_bytes(), *way)) == wanted.report()
        }
        Step::ReadFronts(text) => are_broken(alloc, office, text.as_bytes()),
        Step::Hear(text, wanted) => {
            office.hears(alloc, Source::new(text.as_bytes(), WHOLE)) == *wanted
        }
        Step::Write(what, end, text) => {
            let written = office.writes(alloc, *what, Sink::new(alloc, WIDE, WHOLE));
            written.end == *end && written.bytes.as_slice() == text.as_bytes()
        }
        Step::Export(way, end, text, less) => {
            let sink = Sink::new(alloc, text.len(), *way);
            let written = office.writes(alloc, What::Moves, sink);
            let front = text.strip_suffix(*less).unwrap_or("");
            written.end == *end && written.bytes.as_slice() == front.as_bytes()
        }
        Step::Break(what, way, text, first, last) => {
            breaks_off(
                alloc,
                office,
                (*what, *way),
                text.as_bytes(),
                (*first, *last),
            )
        }
        Step::Rows(_) => true,
    }
}

// Answers whether writing this text to writers with these rooms stops with an output fault when the
// writer is full.
fn breaks_off<O: Office>(
    alloc: Global,
    office: &mut O,
    writing: (What, Way),
    text: &[u8],
    rooms: (usize, usize),
) -> bool {
    let (what, way) = writing;
    for room in rooms.0..rooms.1 {
        let written = office.writes(alloc, what, Sink::new(alloc, room, way));
        let is_broken = written.end == Err(Stop::Fault(Fault::Output));
        if !is_broken || written.bytes.len() != room || !text.starts_with(&written.bytes) {
            return false;
        }
    }
    true
}

// Answers whether no table differs from what the commands give, or there is a book neither in the
// tables nor in memory.
fn is_sound<O: Office>(alloc: Global, office: &mut O) -> bool {
    let had_book = office.has_book();
    let told = office.does(alloc, Ask::Audit, Sink::new(alloc, WIDE, WHOLE));
    told.text.as_slice() == b"audit ok\n".as_slice() || (told.halt == BAD_BOOK && !had_book)
}

/// Answers whether an import, and writing each part of a book, stops because there is no book, and
/// writes nothing.
pub fn lacks_book<O: Office>(alloc: Global, office: &mut O) -> bool {
    let wanted = Outcome::Broken(0, 0, Fault::Reopen).report();
    if office.reads(alloc, Source::new(OUTAGE.as_bytes(), WHOLE)) != wanted {
        return false;
    }
    for what in [What::Export, What::Interruptions, What::Table] {
        let written = office.writes(alloc, what, Sink::new(alloc, WIDE, WHOLE));
        if written.end != Err(Stop::Fault(Fault::Reopen)) || !written.bytes.is_empty() {
            return false;
        }
    }
    true
}

// Steps in their order. The texts are in memory, or each comes from a reader.
#[derive(Clone, Copy)]
struct Script<'s> {
    steps: &'s [Step],
    by_reader: bool,
}

impl Trial for Script<'_> {
    fn run<A: Abort, O: Office>(&mut self, rt: &A, alloc: Global, office: &mut O) {
        let by_reader = self.by_reader;
        for (place, step) in self.steps.iter().enumerate() {
            assert!(rt;
                holds(alloc, office, by_reader, step),
                "step {place}, from 0"
            );
        }
        assert!(rt; is_sound(alloc, office));
    }
}

/// Checks steps with a `Keeper` over a store in memory, and that no table then differs from what
/// the commands give.
pub fn is_told(
    rt: &impl Abort,
    alloc: Global,
    steps: &[Step],
    by_reader: bool,
) -> Result<(), AllocError> {
    let Ok(conn) = Connection::open_in_memory(alloc) else {
        return Err(AllocError);
    };
    let mut conn = over(rt, alloc, conn, &mut Script { steps, by_reader });
    if let Some(Step::Rows(rows)) = steps.last() {
        has_rows(rt, alloc, &mut conn, rows);
    }
    Ok(())
}
