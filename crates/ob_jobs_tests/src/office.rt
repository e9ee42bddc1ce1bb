//! The calls of a `Keeper` that the tests use, and the trials that use them.
use crate::jobs::calls::{
    Ask, Told, audits, exports, imports, lists, makes, migrates, prints, serves,
};
use ob_harness::{Sink, Source, WHOLE};
use ob_import::{
    ImportFault, ImportReport, Progress, Work, import, import_text, import_with_progress,
};
use ob_jobs::{export_moves, run_export, run_interruptions, run_table};
use ob_net::{Stop, Watched};
use ob_store::Keeper;
use ob_sweep::{Timeline, Windowed};
use sqlite::{Alter, Connection};
use std::alloc::Global;
use std::process::Abort;

/// The answer to an import.
pub type Report = Result<ImportReport, ImportFault>;

/// What of a book is written to a file.
#[derive(Clone, Copy)]
pub enum What {
    /// The moved amounts, without a line about them.
    Moves,
    /// The moved amounts.
    Export,
    /// The interruptions.
    Interruptions,
    /// The annual table.
    Table,
}

/// The answer to a job that writes rows, and the bytes that its writer has taken.
#[derive(Drop)]
pub struct Written {
    pub end: Result<u64, Stop>,
    pub bytes: Vec<u8>,
}

/// The reported progress of an import: the number of rows in its text, the last applied row, how
/// many were applied, and whether it ended.
#[derive(Clone, Copy, PartialEq)]
pub struct Heard {
    pub expected: u64,
    pub last: u32,
    pub rows: u32,
    pub ended: bool,
}

impl Progress for Heard {
    fn begin(&mut self, _work: Work, steps: u64) {
        self.expected = steps;
    }

    fn step(&mut self, number: u32) {
        self.last = number;
        self.rows = self.rows.wrapping_add(1);
    }

    fn end(&mut self) {
        self.ended = true;
    }
}

/// A book, or none, and the calls of its `Keeper` without their contracts: with these each function
/// that makes some calls takes long to prove.
pub trait Office {
    /// Imports a text.
    fn takes(&mut self, alloc: Global, text: &[u8]) -> Report;

    /// Imports the text that a reader gives.
    fn reads(&mut self, alloc: Global, source: Source<'_>) -> Report;

    /// Imports the text that a reader gives, and answers the reported progress.
    fn hears(&mut self, alloc: Global, source: Source<'_>) -> Heard;

    /// Writes a part of the book to a writer.
    fn writes(&mut self, alloc: Global, what: What, sink: Sink) -> Written;

    /// Answers whether there is a book.
    fn has_book(&self) -> bool;

    /// Does a job; answers what it prints to this writer, and how it ends.
    fn does(&mut self, alloc: Global, ask: Ask, sink: Sink) -> Told;
}

impl<S: Alter, T: Timeline> Office for Keeper<S, T> {
    fn takes(&mut self, alloc: Global, text: &[u8]) -> Report {
        import_text(alloc, text, self)
    }

    fn reads(&mut self, alloc: Global, source: Source<'_>) -> Report {
        import(alloc, &mut Watched::new(source), self)
    }

    fn hears(&mut self, alloc: Global, source: Source<'_>) -> Heard {
        let mut heard = Heard {
            expected: 0,
            last: 0,
            rows: 0,
            ended: false,
        };
        let _ = import_with_progress(alloc, &mut Watched::new(source), self, &mut heard);
        heard
    }

    fn writes(&mut self, alloc: Global, what: What, sink: Sink) -> Written {
        let mut file = Watched::new(sink);
        let mut told = Watched::new(Sink::new(alloc, 100, WHOLE));
        let end = match what {
            What::Moves => export_moves(alloc, self, &mut file),
            What::Export => run_export(alloc, self, &mut file, &mut told),
            What::Interruptions => run_interruptions(alloc, self, &mut file, &mut told),
            What::Table => match run_table(self, &mut file) {
                Ok(()) => Ok(0),
                Err(stop) => Err(stop),
            },
        };
        Written {
            end,
            bytes: file.into_parts().0.taken,
        }
    }

    fn has_book(&self) -> bool {
        self.book().is_some()
    }

    fn does(&mut self, alloc: Global, ask: Ask, sink: Sink) -> Told {
        let writer = Watched::new(sink);
        match ask {
            Ask::Make(days) => makes(self, days, writer),
            Ask::Import(text) => imports(alloc, self, text, false, writer),
            Ask::ImportWhole(text) => imports(alloc, self, text, true, writer),
            Ask::Export(room) => exports(alloc, self, room, writer),
            Ask::Interruptions(room) => lists(alloc, self, room, writer),
            Ask::Print => prints(self, writer),
            Ask::Audit => audits(alloc, self, writer),
            Ask::Migrate => migrates(self, writer),
            Ask::Serve(free) => serves(self, free, writer),
        }
    }
}

/// A trial of a `Keeper`.
pub trait Trial {
    fn run<A: Abort, O: Office>(&mut self, rt: &A, alloc: Global, office: &mut O);
}

/// Runs a trial with a `Keeper` without a book over a database. Answers the database that the trial
/// leaves.
pub fn over<S: Alter + Drop, C: Trial>(
    rt: &impl Abort,
    alloc: Global,
    conn: Connection<S>,
    trial: &mut C,
) -> Connection<S> {
    assert!(rt; conn.is_autocommit());
    let mut keeper: Keeper<S, Windowed> = Keeper::adopt_connection(alloc, conn);
    trial.run(rt, alloc, &mut keeper);
    keeper.into_connection()
}
