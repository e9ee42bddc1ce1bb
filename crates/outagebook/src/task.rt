//! The task that a job is, over the program's own files and port.
ghost use Rattle.std.specs.Prelude.{◌≡◌};
ghost use Rattle.outagebook.specs.Naming.{IsTaskOf, listed_by};

use crate::books::{InputFile, OutputFile};
use crate::desk::{Server, SocketServer};
use ob_cli::{By as WordsBy, Job, Word};
use ob_jobs::Task;
use ob_selections::By;

/// A task on a book in a file.
pub(crate) type FileTask<'w> = Task<'w, InputFile<'w>, OutputFile<'w>, SocketServer<'w>>;

/// A task, and the file of the book that it works on.
#[derive(Drop)]
pub(crate) struct BookTask<'w> {
    pub(crate) book: &'w Word,
    pub(crate) task: FileTask<'w>,
}

/// Returns the task of a job, and the file of its book; none for the total, which has no book.
pub(crate) fn task_of<'w>(rt: &'w HostRuntime, job: &'w Job) -> Option<BookTask<'w>>
    ensures { IsTaskOf job.now result }
{
    let (book, task) = match job {
        Job::Total => return None,
        Job::Init {
            book,
            first,
            days,
            zone,
        } => {
            let (first, zone) = (first.as_str().as_bytes(), zone.as_str().as_bytes());
            let days = *days;
            (book, Task::Init { first, days, zone })
        }
        Job::Import { book, input, whole } => {
            let input = InputFile { rt, path: input };
            match whole {
                true => (book, Task::ImportWhole(input)),
                false => (book, Task::Import(input)),
            }
        }
        Job::Export { book, output } => (book, Task::Export(OutputFile { rt, path: output })),
        Job::Interruptions { book, output } => {
            (book, Task::Interruptions(OutputFile { rt, path: output }))
        }
        Job::Table { book } => (book, Task::Table),
        Job::Indices { book, by, over } => (book, Task::Indices(task_by(*by), *over)),
        Job::Audit { book } => (book, Task::Audit),
        Job::Migrate { book } => (book, Task::Migrate),
        Job::Serve {
            book,
            port,
            streams,
        } => (book, Task::Serve(Server::new(rt, *port, *streams))),
    };
    Some(BookTask { book, task })
}

/// Returns what indices are listed by, as the task has it.
fn task_by(by: WordsBy) -> By
    ensures { result ≡ listed_by by }
{
    match by {
        WordsBy::Whole => By::Whole,
        WordsBy::Feeder => By::Feeder,
        WordsBy::Month => By::Month,
        WordsBy::Day => By::Day,
        WordsBy::Cause => By::Cause,
        WordsBy::Section => By::Section,
    }
}
