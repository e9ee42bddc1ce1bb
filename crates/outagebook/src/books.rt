//! The jobs on the file of a book.
//!
//! `FileKeeper` is a large type, and a function that holds one is proved with all of its parts. So
//! only one function opens and closes the file, and the jobs are functions over any keeper.
ghost use Rattle.std.specs.Prelude.{◌≡◌, ◌↔◌};
ghost use Rattle.ob_base.specs.Stop.{out_of_memory};
ghost use Rattle.ob_jobs.specs.Tasks.{RunsTask};
ghost use Rattle.outagebook.specs.Opening.{OpensFile, OpensNothing};

use crate::desk::Server;
use crate::period::begin;
use crate::port::Sockets;
use crate::progress::Telling;
use crate::task::FileTask;
use ob_base::{Fault, Stop};
use ob_cli::{Unfinished, Word};
use ob_jobs::{OpenInput, OpenOutput, ServeBook, run_task};
use ob_store::Keeper;
use ob_stream::Watched;
use ob_sweep::{Timeline, Windowed};
use sqlite::{Alter, Connection, Error, ErrorCode, FileFrom, FileStore, Unknown};
use std::fs::File;
use std::io::{self, Read, Stderr, Stdout, Write};

/// The keeper of a book in a file.
type FileKeeper = Keeper<FileStore<FileFrom<Unknown>>, Windowed>;

/// Opens the file of a book and does a task on it. If there is no file, only the task that creates a
/// book creates one.
pub(crate) fn run_on_book(
    rt: &HostRuntime,
    book: &Word,
    task: FileTask<'_>,
) -> Result<(), Unfinished> {
    let may_open = task.makes_book() || is_there(rt, book);
    if let Err(stop) = begin(rt.alloc(), &task, may_open) {
        return Err(Unfinished::from(stop));
    }
    let may_write = task.may_write();
    let mut keeper = match keeper_of(rt, book) {
        Ok(keeper) => keeper,
        Err(stop) => return Err(Unfinished::from(stop)),
    };
    let mut writer = Watched::new(io::writer(rt));
    let run = run_over(rt, &mut keeper, task, &mut writer);
    if may_write {
        fold(keeper);
    }
    run
}

/// Does a task on a keeper and writes its text to a writer.
fn run_over<S: Alter, T: Timeline, W: Write>(
    rt: &HostRuntime,
    keeper: &mut Keeper<S, T>,
    task: FileTask<'_>,
    writer: &mut Watched<W>,
) -> Result<(), Unfinished>
    ensures { RunsTask ⟦<InputFile<'static> as OpenInput>⟧.opens ⟦<File as Read>⟧.remaining
        ⟦<OutputFile<'static> as OpenOutput>⟧.opens ⟦<File as Write>⟧.contents
        ⟦<Server<Sockets<'static>, Stdout, Stderr> as ServeBook>⟧.takes ⟦<Server<Sockets<'static>, Stdout, Stderr> as ServeBook>⟧.serves W.contents task.entry keeper.old keeper.new writer.old
        writer.new result }
{
    let mut telling = Telling::new(rt);
    run_task(rt.alloc(), keeper, task, &mut telling, writer)
}

/// Whether there is such a file and it can be read. The store would create a missing one.
fn is_there(rt: &HostRuntime, book: &Word) -> bool {
    File::open(rt, book.as_str()).is_ok()
}

/// Copies what was committed from the log next to the file into the file. If that fails, it stays
/// in the log.
fn fold(keeper: FileKeeper) {
    let _ = keeper.into_connection().close();
}

/// Opens the file of a book, or creates it if there is none.
fn keeper_of(rt: &HostRuntime, book: &Word) -> Result<FileKeeper, Stop>
    ensures { OpensFile result }
{
    match Connection::open_from(rt, book.as_str(), false, Unknown) {
        Ok(conn) => Ok(Keeper::adopt_connection(rt.alloc(), conn)),
        Err((error, _)) => Err(stop_of_open(error)),
    }
}

/// Returns why a file wasn't opened: memory was refused, or else it is a fault of the store.
fn stop_of_open(error: Error) -> Stop
    ensures memory { (result ≡ out_of_memory)
        ↔ (error ≡ Error.SqliteFailure ErrorCode.OutOfMemory) }
    ensures faults { OpensNothing result }
{
    match error {
        Error::SqliteFailure(ErrorCode::OutOfMemory) => Stop::Fault(Fault::OutOfMemory),
        _ => Stop::Fault(Fault::Store),
    }
}

/// The input of an import, by its path.
#[derive(Drop)]
pub(crate) struct InputFile<'f> {
    pub(crate) rt: &'f HostRuntime,
    pub(crate) path: &'f Word,
}

impl OpenInput for InputFile<'_> {
    ghost use Rattle.std.specs.Prelude.{◌≡◌};

    type Input = File;

    ghost opens = { λ old _ new. new ≡ old };

    fn open(&mut self) -> Option<File> {
        File::open(self.rt, self.path.as_str()).ok()
    }
}

/// The output of a job, by its path.
#[derive(Drop)]
pub(crate) struct OutputFile<'f> {
    pub(crate) rt: &'f HostRuntime,
    pub(crate) path: &'f Word,
}

impl OpenOutput for OutputFile<'_> {
    ghost use Rattle.std.specs.Prelude.{◌≡◌};

    type Output = File;

    ghost opens = { λ old _ new. new ≡ old };

    fn open(&mut self) -> Option<File> {
        File::create(self.rt, self.path.as_str()).ok()
    }
}
