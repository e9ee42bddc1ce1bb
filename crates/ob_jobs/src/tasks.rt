//! The jobs on a book by their names, each with what it opens.
ghost use Rattle.std.specs.Prelude.{◌≡◌};
ghost use Rattle.ob_jobs.specs.Tasks.{RunsTask, makes_book, may_write};

use crate::opening::{OpenInput, OpenOutput, ServeBook};
use crate::{
    audit_book, export_from_book, import_into_book, import_whole_into_book,
    interruptions_from_book, make_book, migrate_book, print_book, print_indices, serve_book,
};
use ob_base::Second;
use ob_cli::Unfinished;
use ob_import::Progress;
use ob_selections::By;
use ob_store::{Alter, Keeper};
use ob_stream::Watched;
use ob_sweep::Timeline;
use std::alloc::Global;
use std::io::Write;

/// A job on a book, with the input, the output or the port that it opens.
#[derive(Drop)]
pub enum Task<'w, I, O, V> {
    /// Creates the book of a period.
    Init {
        /// The first day.
        first: &'w [u8],
        /// The number of days.
        days: u16,
        /// The time zone.
        zone: &'w [u8],
    },
    /// Imports the commands of an input.
    Import(I),
    /// Imports all commands of an input, or none.
    ImportWhole(I),
    /// Writes the changes of amounts that the commands made into an output.
    Export(O),
    /// Writes the interruptions of the book's customers into an output.
    Interruptions(O),
    /// Prints the annual table.
    Table,
    /// Prints the indices listed by these, with this longest momentary interruption.
    Indices(By, Second),
    /// Compares the tables with the commands.
    Audit,
    /// Upgrades a book of version 1 to version 2.
    Migrate,
    /// Serves the book.
    Serve(V),
}

impl<I, O, V> Task<'_, I, O, V> {
    /// Whether the job creates the book.
    pub fn makes_book(&self) -> bool
        ensures { result ≡ makes_book self.now }
    {
        match self {
            Task::Init { .. } => true,
            Task::Import(_)
            | Task::ImportWhole(_)
            | Task::Export(_)
            | Task::Interruptions(_)
            | Task::Table
            | Task::Indices(..)
            | Task::Audit
            | Task::Migrate
            | Task::Serve(_) => false,
        }
    }

    /// Whether the job may write to the book.
    pub fn may_write(&self) -> bool
        ensures { result ≡ may_write self.now }
    {
        match self {
            Task::Init { .. }
            | Task::Import(_)
            | Task::ImportWhole(_)
            | Task::Migrate
            | Task::Serve(_) => true,
            Task::Export(_)
            | Task::Interruptions(_)
            | Task::Table
            | Task::Indices(..)
            | Task::Audit => false,
        }
    }
}

/// Does a job on the book in a keeper's tables, which isn't loaded yet.
pub fn run_task<
    I: OpenInput + Drop,
    O: OpenOutput + Drop,
    V: ServeBook + Drop,
    S: Alter,
    T: Timeline,
    P: Progress,
    W: Write,
>(
    alloc: Global,
    keeper: &mut Keeper<S, T>,
    task: Task<'_, I, O, V>,
    progress: &mut P,
    writer: &mut Watched<W>,
) -> Result<(), Unfinished>
    ensures { RunsTask I.opens I.Input.remaining O.opens O.Output.contents V.takes V.serves
        W.contents task.entry keeper.old keeper.new writer.old writer.new result }
{
    match task {
        Task::Init { first, days, zone } => make_book(keeper, first, days, zone, writer),
        Task::Import(mut input) => import_into_book(alloc, keeper, &mut input, progress, writer),
        Task::ImportWhole(mut input) => {
            import_whole_into_book(alloc, keeper, &mut input, progress, writer)
        }
        Task::Export(mut output) => export_from_book(alloc, keeper, &mut output, progress, writer),
        Task::Interruptions(mut output) => {
            interruptions_from_book(alloc, keeper, &mut output, progress, writer)
        }
        Task::Table => print_book(keeper, progress, writer),
        Task::Indices(by, longest) => print_indices(alloc, keeper, by, longest, progress, writer),
        Task::Audit => audit_book(alloc, keeper, writer),
        Task::Migrate => migrate_book(keeper, writer),
        Task::Serve(mut server) => serve_book(keeper, &mut server, progress),
    }
}
